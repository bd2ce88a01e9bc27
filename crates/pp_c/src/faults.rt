//! Errors as numbers of the header.

ghost use Rattle.std.specs.Prelude.{◌≡◌};
ghost use Rattle.pp_c.specs.Numbers.{error_number};
ghost use Rattle.pp_c.specs.StreamCalls.{written_fault};

use crate::items::ContentFault;
use pp_rs::token::{Location, PreprocessorError};

/// An error of a content with its place, or none, as C gets it.
pub(crate) fn written_fault(found: Option<(PreprocessorError, Location)>) -> ContentFault
    ensures { result ≡ written_fault found }
{
    let (error, place) = match found {
        Some((error, place)) => (number_of(&error), place),
        None => (0, Location::default()),
    };
    ContentFault {
        error: error as u32,
        start: place.start,
        end: place.end,
        line: place.line,
    }
}

/// The number of an error: its position in `PreprocessorError`, from 1.
pub(crate) fn number_of(error: &PreprocessorError) -> u16
    ensures { result ≡ error_number error.now }
{
    match error {
        PreprocessorError::IntegerOverflow => 1,
        PreprocessorError::FloatParsingError => 2,
        PreprocessorError::UnexpectedCharacter => 3,
        PreprocessorError::UnexpectedToken(_) => 4,
        PreprocessorError::UnexpectedHash => 5,
        PreprocessorError::UnexpectedNewLine => 6,
        PreprocessorError::UnexpectedEndOfInput => 7,
        PreprocessorError::TooFewDefineArguments => 8,
        PreprocessorError::TooManyDefineArguments => 9,
        PreprocessorError::ErrorDirective => 10,
        PreprocessorError::DuplicateParameter => 11,
        PreprocessorError::UnknownDirective => 12,
        PreprocessorError::DefineRedefined => 13,
        PreprocessorError::ElifOutsideOfBlock => 14,
        PreprocessorError::ElseOutsideOfBlock => 15,
        PreprocessorError::EndifOutsideOfBlock => 16,
        PreprocessorError::ElifAfterElse => 17,
        PreprocessorError::MoreThanOneElse => 18,
        PreprocessorError::UnfinishedBlock => 19,
        PreprocessorError::LineOverflow => 20,
        PreprocessorError::NotSupported16BitLiteral => 21,
        PreprocessorError::NotSupported64BitLiteral => 22,
        PreprocessorError::MacroNotDefined => 23,
        PreprocessorError::RecursionLimitReached => 24,
        PreprocessorError::DivisionByZero => 25,
        PreprocessorError::RemainderByZero => 26,
        PreprocessorError::OutOfMemory => 27,
    }
}
