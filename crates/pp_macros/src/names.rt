//! Names with numbers, and their definitions.

ghost use Rattle.std.specs.Prelude.{◌≡◌, [], Some, None, option_map, position, IfSome, IfOk, OnOk, OnErr};
ghost use Rattle.std.specs.Str.{chars};
ghost use Rattle.pp_model.specs.Names.{Name, is_same_name};
ghost use Rattle.pp_macros.specs.inner.Defined.{meaning_of, names_in, opened_by, numbered_by, AreNumbered};
ghost use Rattle.pp_macros.specs.inner.Defined.{IsChanged};
ghost use Rattle.pp_macros.specs.inner.Plain.{gives_itself};

mod table;
pub mod texts;

use crate::define::{Define, Macro};
pub use crate::names::table::is_text;
use crate::names::texts::Texts;
use pp_lexer::token::{Text, TokenValue};
use pp_model::names::is_line_name;
use std::alloc::{AllocError, Global};
use std::marker::Model;
use std::rc::Rc;

/// The number of a name: how many names were defined before it.
#[derive(Clone, Copy)]
pub struct NameId(u32);

impl Model for NameId {
    ghost use Rattle.std.specs.Prelude.{ℕ};

    ghost Value = { ℕ };

    ghost view = { λ id. id.0 };

    ghost inverse = { λ number. record { 0 = number } };
}

impl NameId {
    /// The number.
    #[inline(always)]
    pub fn number(self) -> usize
        ensures { result ≡ self }
    {
        self.0 as usize
    }
}

/// Names with numbers, and their definitions. A name gets its number when it is first defined, and keeps it for good.
/// The place of a name that isn't defined any more is empty.
#[derive(Drop)]
pub struct Definitions {
    alloc: Global,
    // by number
    names: Texts,
    // by number, each with its name
    macros: Vec<Option<Rc<Macro>>>,
}

impl Model for Definitions {
    ghost use Rattle.std.specs.Prelude.{List};
    ghost use Rattle.pp_macros.specs.inner.Defined.{Defined, AreAllNumbered, AreOfNames, defined_as};

    ghost Value = { List Defined };

    ghost view = { λ d. defined_as d.names d.macros.items };

    ghost invariant = { λ d. AreOfNames d.names d.macros.items × AreAllNumbered d.names d.macros.items };
}

/// Whether a value that isn't painted gives itself while no macro is open: it isn't `__LINE__`, nor a
/// name that is defined.
#[inline(always)]
pub fn gives_itself(definitions: &Definitions, value: &TokenValue) -> bool
    ensures { result ≡ gives_itself definitions.now value.now }
{
    match value {
        TokenValue::Ident(name) => !is_line_name(value) && definitions.get(name.as_str()).is_none(),
        _ => true,
    }
}

impl Definitions {
    /// No name is defined. It allocates nothing.
    pub fn new(alloc: Global) -> Self
        ensures { result ≡ [] }
    {
        Definitions {
            alloc,
            names: Texts::new(alloc),
            macros: Vec::new(alloc),
        }
    }

    /// The number of the name, if it was ever defined.
    #[inline(always)]
    pub fn find(&self, name: &str) -> Option<NameId>
        ensures { result ≡ position (is_same_name (chars name.now)) (names_in self.now) }
    {
        match self.names.find(name) {
            Some(number) => Some(NameId(number)),
            None => None,
        }
    }

    /// The macro of the name with this number, if it is defined.
    #[inline(always)]
    pub fn get_define(&self, id: NameId) -> Option<&Rc<Macro>>
        ensures opened { (name : Name) → position (is_same_name name) (names_in self.now) ≡ Some id
            → option_map (λ m. (m.now.value.name, m.now.value.definition)) result
            ≡ opened_by name (meaning_of self.now name) }
        ensures numbered { IfSome result (λ m. AreNumbered (names_in self.now) (numbered_by m.now.value)) }
    {
        self.macros.get(id.number())?.as_ref()
    }

    /// The macro of the name, if it is defined.
    #[inline(always)]
    pub fn get(&self, name: &str) -> Option<&Rc<Macro>>
        ensures definition { option_map (λ m. m.now.value.definition) result
            ≡ meaning_of self.now (chars name.now) }
        ensures name { IfSome result (λ m. m.now.value.name ≡ chars name.now) }
        ensures numbered { IfSome result (λ m. AreNumbered (names_in self.now) (numbered_by m.now.value)) }
    {
        let id = self.find(name)?;
        self.get_define(id)
    }

    // The macro of the name with this number and with this definition, to be shared.
    fn shared(&self, name: Rc<Text>, id: NameId, define: Define) -> Result<Rc<Macro>, AllocError>
        ensures is { IfOk result (λ m. m.value ≡ record {
          name = name.value;
          number = id;
          definition = define;
          noted = m.value.noted;
        }) }
        ensures noted { IfOk result (λ m. AreNumbered (names_in self.now) m.value.noted) }
    {
        Ok(Rc::new(self.alloc, Macro::new(name, id, define, self))?)
    }

    /// Defines the name, replacing any definition of it. If an allocation fails, or if `Texts` takes no more
    /// names, nothing changes.
    pub fn set(&mut self, name: Text, define: Define) -> Result<(), AllocError>
        ensures ok { OnOk result (IsChanged name (Some define) self.old self.new) }
        ensures err { OnErr result (self.new ≡ self.old) }
    {
        let text = Rc::new(self.alloc, name)?;
        if let Some(id) = self.find(text.as_str()) {
            let new = self.shared(text, id, define)?;
            self.macros[id.number()] = Some(new);
            return Ok(());
        }
        self.macros.reserve(1)?;
        let id = NameId(self.names.count());
        let new = self.shared(text.clone()?, id, define)?;
        self.names.push(text)?;
        self.macros.push_reserved(Some(new));
        Ok(())
    }

    /// Removes the definition of the name, which keeps its number.
    pub fn remove(&mut self, name: &str)
        ensures change { IsChanged (chars name.now) None self.old self.new }
        ensures names { names_in self.new ≡ names_in self.old }
    {
        if let Some(id) = self.find(name) {
            self.macros[id.number()] = None;
        }
    }
}
