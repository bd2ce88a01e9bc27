//! The names that are defined, and their definitions.

ghost use Rattle.std.specs.Prelude.{◌≡◌, OnOk, OnErr};
ghost use Rattle.std.specs.Option.{option_copied};
ghost use Rattle.pp_model.specs.Definitions.{with_change};
ghost use Rattle.pp_model.specs.inner.Definitions.{nothing_defined};
ghost use Rattle.pp_reference.specs.inner.Changes.{meaning_of};

use pp_lexer::token::Text;
use pp_model::definition::Definition;
use std::alloc::{AllocError, Global};
use std::marker::Model;

/// A `#define` or an `#undef` of a name.
#[derive(Drop)]
pub struct Change {
    /// The name.
    pub name: Text,
    /// Its definition from then on, or `None` if it has none.
    pub definition: Option<Definition>,
}

/// The changes so far, the latest first.
#[derive(Drop)]
pub struct Definitions {
    changes: Vec<Change>,
}

impl Model for Definitions {
    ghost use Rattle.std.specs.Prelude.{List};
    ghost use Rattle.pp_reference.specs.declared.definitions.Change.{Change};

    ghost Value = { List Change };

    ghost view = { λ definitions. definitions.changes.items };
}

impl Definitions {
    /// No name is defined.
    pub fn new(alloc: Global) -> Self
        ensures { meaning_of result ≡ nothing_defined }
    {
        Definitions {
            changes: Vec::new(alloc),
        }
    }

    /// The definition of the name.
    pub fn find(&self, name: &Text) -> Option<&Definition>
        ensures { option_copied result ≡ meaning_of self.now name.now }
    {
        for change in &self.changes {
            if *name == change.name {
                return change.definition.as_ref();
            }
        }
        None
    }

    /// Replaces the definition of the name, or removes it.
    pub fn change(&mut self, name: Text, definition: Option<Definition>) -> Result<(), AllocError>
        ensures ok { OnOk result (meaning_of self.new
            ≡ with_change (meaning_of self.old) name definition) }
        ensures err { OnErr result (self.new ≡ self.old) }
    {
        self.changes.insert(0, Change { name, definition })?;
        Ok(())
    }
}
