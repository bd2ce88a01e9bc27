//! Calls that check themselves whether a text is short enough.

ghost use Rattle.std.specs.Prelude.{◌≡◌, ◌-◌, ◌^◌, ◌<◌, ◌↔◌, false, length, IsSome, IfSome, Some};
ghost use Rattle.std.specs.IoError.{error_kind};
ghost use Rattle.pp_lexer.specs.Location.{nowhere};
ghost use Rattle.pp_lexer.specs.Rules.{pp_rs};
ghost use Rattle.pp_model.specs.Run.{items_by, items_of};
ghost use Rattle.pp_rs.specs.Comes.{start, start_by};
ghost use Rattle.pp_macros.specs.LexerErrors.{lexer_errors, lexer_errors_by};
ghost use Rattle.pp_rs.specs.Kept.{Stands, is_spent, errors_left, error_place, call_place, rules_of};
ghost use Rattle.pp_rs.specs.Trying.{IsTried, add_sentence};

use crate::SOURCE_LIMIT;
use crate::pp::preprocessor::Preprocessor;
use crate::rules::Rules;
use crate::token::PlacedError;
use std::alloc::Global;
use std::error::Error;
use std::{fmt, io};

/// Why a definition was not added.
#[derive(PartialEq, Eq, Debug, Drop)]
pub enum AddError {
    /// The content has [`SOURCE_LIMIT`] bytes or more.
    TooLong,
    /// The content has this error, at its place in the content, or an allocation failed.
    Refused(PlacedError),
}

impl fmt::Display for AddError {
    ghost output = { λ e. Some (add_sentence e) };

    fn fmt<W: fmt::Write>(&self, f: &mut fmt::Formatter<W>) -> fmt::Result {
        match self {
            AddError::TooLong => f.write_str("the content is too long"),
            AddError::Refused(error) => write!(f, "in the content: {error}"),
        }
    }
}

impl Error for AddError {}

impl From<AddError> for io::Error {
    fn from(e: AddError) -> io::Error {
        match e {
            AddError::TooLong => io::Error::new(
                io::ErrorKind::InvalidInput,
                "the content is too long",
            ),
            AddError::Refused(error) => io::Error::from(error),
        }
    }
}

impl<'a> Preprocessor<'a> {
    /// Returns a preprocessor of the source, or `None` for a source of [`SOURCE_LIMIT`] bytes or
    /// more.
    ///
    /// It allocates nothing and reads nothing yet.
    pub fn try_new(alloc: Global, input: &'a str) -> Option<Preprocessor<'a>>
        ensures short { IsSome result ↔ (length input.now < 2 ^ 32 - 1) }
        ensures unspent { IfSome result (λ pp. is_spent pp ≡ false) }
        ensures stands { IfSome result (λ pp. Stands pp (start (items_of input.now))) }
        ensures errors { IfSome result (λ pp. errors_left pp ≡ lexer_errors input.now) }
        ensures place { IfSome result (λ pp. error_place pp ≡ nowhere) }
        ensures call { IfSome result (λ pp. call_place pp ≡ None) }
        ensures rules { IfSome result (λ pp. rules_of pp ≡ pp_rs) }
    {
        Preprocessor::try_with_rules(alloc, input, Rules::PP_RS)
    }

    /// Does the same as `with_rules`, but returns `None` for a source of [`SOURCE_LIMIT`] bytes or
    /// more.
    pub fn try_with_rules(alloc: Global, input: &'a str, rules: Rules) -> Option<Preprocessor<'a>>
        ensures short { IsSome result ↔ (length input.now < 2 ^ 32 - 1) }
        ensures unspent { IfSome result (λ pp. is_spent pp ≡ false) }
        ensures stands { IfSome result (λ pp. Stands pp (start_by rules (items_by rules input.now))) }
        ensures errors { IfSome result (λ pp. errors_left pp ≡ lexer_errors_by rules input.now) }
        ensures place { IfSome result (λ pp. error_place pp ≡ nowhere) }
        ensures call { IfSome result (λ pp. call_place pp ≡ None) }
        ensures rules { IfSome result (λ pp. rules_of pp ≡ rules) }
    {
        if input.len() >= SOURCE_LIMIT {
            return None;
        }
        Some(Preprocessor::with_rules(alloc, input, rules))
    }

    /// Does the same as `add_define`, but returns `TooLong` for a content of [`SOURCE_LIMIT`] bytes
    /// or more.
    ///
    /// After an error nothing is changed.
    pub fn try_add_define(&mut self, name: &str, content: &str) -> Result<(), AddError>
        ensures { IsTried self.old name.now content.now result self.new }
    {
        if content.len() >= SOURCE_LIMIT {
            return Err(AddError::TooLong);
        }
        match self.add_define(name, content) {
            Ok(()) => Ok(()),
            Err(fault) => Err(AddError::Refused(PlacedError::from(fault))),
        }
    }
}
