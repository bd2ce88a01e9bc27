//! The parameters of a macro, each found by its name without a search of them all.

ghost use Rattle.std.specs.Prelude.{◌≡◌, ◌++◌, ◌∷◌, [], false, IfOk, length, position, take};
ghost use Rattle.std.specs.Str.{chars};
ghost use Rattle.pp_model.specs.Names.{is_in, is_same_name};
ghost use Rattle.pp_model.specs.SpliceList.{parameter_of};

use crate::names::is_text;
use pp_lexer::token::{Text, TokenValue};
use std::alloc::{AllocError, Global};
use std::collections::BTreeMap;
use std::marker::Model;

// The first few names are compared one by one.
const FEW: usize = 8;

/// The names of a macro's parameters, in order. The first eight are compared one by one, and a map finds the position
/// of each other.
#[derive(Drop)]
pub struct ParameterNames {
    names: Vec<Text>,
    // of the names after the first few
    positions: BTreeMap<String, usize>,
}

impl Model for ParameterNames {
    ghost use Rattle.std.specs.Prelude.{List};
    ghost use Rattle.pp_model.specs.Names.{Name};
    ghost use Rattle.pp_macros.specs.inner.ParameterPositions.{FindsOthers};

    ghost Value = { List Name };

    ghost view = { λ p. p.names.items };

    ghost invariant = { λ p. FindsOthers 8 p.positions.entries p.names.items };
}

// The position of the name among the first few.
fn position_among_few(names: &[Text], name: &str) -> Option<usize>
    ensures { result ≡ position (is_same_name (chars name.now)) (take 8 names.now) }
{
    let few = names.get(..FEW).unwrap_or(names);
    few.iter().position(|text| is_text(text, name))
}

impl ParameterNames {
    /// No parameters. It allocates nothing.
    pub fn new(alloc: Global) -> Self
        ensures { result ≡ [] }
    {
        ParameterNames {
            names: Vec::new(alloc),
            positions: BTreeMap::new(alloc),
        }
    }

    /// How many they are.
    pub fn len(&self) -> usize
        ensures { result ≡ length self.now }
    {
        self.names.len()
    }

    /// The position of the parameter that has this name.
    pub fn position(&self, name: &str) -> Option<usize>
        ensures { result ≡ position (is_same_name (chars name.now)) self.now }
    {
        match position_among_few(&self.names, name) {
            Some(position) => Some(position),
            None => self.positions.get(name).copied(),
        }
    }

    /// Whether a parameter has this name.
    pub fn contains(&self, name: &Text) -> bool
        ensures { result ≡ is_in name.now self.now }
    {
        self.position(name.as_str()).is_some()
    }

    /// The position of the parameter that the value names.
    pub fn position_of(&self, value: &TokenValue) -> Option<usize>
        ensures { result ≡ parameter_of self.now value.now }
    {
        match value {
            TokenValue::Ident(name) => self.position(name.as_str()),
            _ => None,
        }
    }

    /// The parameters with one more, which has another name.
    pub fn with(self, alloc: Global, name: Text) -> Result<Self, AllocError>
        requires { is_in name self ≡ false }
        ensures { IfOk result (λ more. more ≡ self ++ name ∷ []) }
    {
        let ParameterNames {
            mut names,
            mut positions,
        } = self;
        if names.len() >= FEW {
            let key = String::from(name.try_clone(alloc)?);
            positions.insert(key, names.len())?;
        }
        names.push(name)?;
        Ok(ParameterNames { names, positions })
    }

    /// The names alone.
    pub fn into_names(self) -> Vec<Text>
        ensures { result.items ≡ self }
    {
        self.names
    }
}
