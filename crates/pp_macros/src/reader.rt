//! Where tokens come from when no macro is open.

ghost use Rattle.std.specs.Prelude.{◌≡◌, ◌++◌, ◌∷◌, [], List, IfOk, IfSome, Some, option_map, position};
ghost use Rattle.std.specs.Str.{chars};
ghost use Rattle.pp_model.specs.Names.{Name, is_same_name};
ghost use Rattle.pp_model.specs.declared.read.Read.{Read};
ghost use Rattle.pp_macros.specs.Held.{HoldsOrdinary};
ghost use Rattle.pp_macros.specs.inner.Defined.{AreNumbered, names_in, number_in, numbered_by, opened_by};
ghost use Rattle.pp_macros.specs.inner.Reader.{Reader, Reads, ReadsRun, nests, visible, shown_line, definitions_of};

use crate::define::Macro;
use crate::names::NameId;
use crate::step::PlacedStep;
use pp_lexer::token::{Integer, TokenValue};
use pp_model::parentheses::{is_left_paren, is_right_paren};
use pp_model::read::Read;
use std::alloc::AllocError;
use std::rc::Rc;

/// A reader of tokens, with the definitions that hold at its position.
pub trait MeLexer {
    ghost reader: { Self → Reader };

    /// Reads one token or line.
    fn step(&mut self) -> PlacedStep<Read>
        ensures reads { Reads (reader self.old) result (reader self.new) }
        ensures holds { IfOk result (λ read. HoldsOrdinary read.token.value) };

    /// Reads tokens onto the end of these, up to a parenthesis, which is read too. Stops before a pause and `__LINE__`.
    /// Returns whether it came to a parenthesis.
    fn push_flat(&mut self, tokens: &mut Vec<Read>) -> Result<bool, AllocError>
        ensures { IfOk result (λ found. ReadsRun (reader self.old) tokens.old.items found
            (reader self.new) tokens.new.items) };

    /// The number of the name, if it was ever defined.
    fn find(&self, name: &str) -> Option<NameId>
        ensures { result ≡ position (is_same_name (chars name.now)) (names_in (definitions_of (reader self.now))) };

    /// The macro of the name with this number, if it is defined there.
    fn get_define(&self, id: NameId) -> Option<&Rc<Macro>>
        ensures opened { (name : Name)
            → position (is_same_name name) (names_in (definitions_of (reader self.now))) ≡ Some id
            → option_map (λ m. (m.now.value.name, m.now.value.definition)) result
            ≡ opened_by name (visible (reader self.now) name) }
        ensures numbered { IfSome result (λ m.
            AreNumbered (names_in (definitions_of (reader self.now))) (numbered_by m.now.value)) };

    /// The number that `__LINE__` shows for a line, or `None` if it is out of range.
    fn shown_line(&self, line: u32) -> Option<Integer>
        ensures { result ≡ shown_line (reader self.now) line };
}

/// The number of the name that a value is, if it is one that was ever defined.
pub fn number_of(lexer: &dyn MeLexer, value: &TokenValue) -> Option<NameId>
    ensures { result ≡ number_in (names_in (definitions_of (reader lexer.now))) value.now }
{
    match value {
        TokenValue::Ident(name) => lexer.find(name.as_str()),
        _ => None,
    }
}

/// Whether the last of the tokens is a parenthesis.
#[inline(always)]
pub fn ends_at_parenthesis(tokens: &[Read]) -> bool
    ensures { (before : List Read) (read : Read) → tokens.now ≡ before ++ read ∷ []
        → result ≡ nests read.token.value }
{
    match tokens.last() {
        Some(read) => is_left_paren(&read.token.value) || is_right_paren(&read.token.value),
        None => false,
    }
}
