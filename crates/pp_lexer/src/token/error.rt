//! The error's name, and the error `OutOfMemory`.

ghost use Rattle.std.specs.Prelude.{◌≡◌};
ghost use Rattle.pp_lexer.specs.PreprocessorError.{name_of, out_of_memory};

use crate::token::{Location, NOWHERE, PreprocessorError};
use std::alloc::AllocError;

impl PreprocessorError {
    /// Returns the variant's name, without what it holds.
    pub fn name(&self) -> &'static str
        ensures { result.now ≡ name_of self.now }
    {
        match self {
            PreprocessorError::IntegerOverflow => "IntegerOverflow",
            PreprocessorError::FloatParsingError => "FloatParsingError",
            PreprocessorError::UnexpectedCharacter => "UnexpectedCharacter",
            PreprocessorError::UnexpectedToken(_) => "UnexpectedToken",
            PreprocessorError::UnexpectedHash => "UnexpectedHash",
            PreprocessorError::UnexpectedNewLine => "UnexpectedNewLine",
            PreprocessorError::UnexpectedEndOfInput => "UnexpectedEndOfInput",
            PreprocessorError::TooFewDefineArguments => "TooFewDefineArguments",
            PreprocessorError::TooManyDefineArguments => "TooManyDefineArguments",
            PreprocessorError::ErrorDirective => "ErrorDirective",
            PreprocessorError::DuplicateParameter => "DuplicateParameter",
            PreprocessorError::UnknownDirective => "UnknownDirective",
            PreprocessorError::DefineRedefined => "DefineRedefined",
            PreprocessorError::ElifOutsideOfBlock => "ElifOutsideOfBlock",
            PreprocessorError::ElseOutsideOfBlock => "ElseOutsideOfBlock",
            PreprocessorError::EndifOutsideOfBlock => "EndifOutsideOfBlock",
            PreprocessorError::ElifAfterElse => "ElifAfterElse",
            PreprocessorError::MoreThanOneElse => "MoreThanOneElse",
            PreprocessorError::UnfinishedBlock => "UnfinishedBlock",
            PreprocessorError::LineOverflow => "LineOverflow",
            PreprocessorError::NotSupported16BitLiteral => "NotSupported16BitLiteral",
            PreprocessorError::NotSupported64BitLiteral => "NotSupported64BitLiteral",
            PreprocessorError::MacroNotDefined => "MacroNotDefined",
            PreprocessorError::RecursionLimitReached => "RecursionLimitReached",
            PreprocessorError::DivisionByZero => "DivisionByZero",
            PreprocessorError::RemainderByZero => "RemainderByZero",
            PreprocessorError::OutOfMemory => "OutOfMemory",
        }
    }
}

/// Returns the error for a failed allocation, with its place (0, 0, line 1).
pub fn out_of_memory() -> (PreprocessorError, Location)
    ensures { result ≡ out_of_memory }
{
    (PreprocessorError::OutOfMemory, NOWHERE)
}

// The error of a call in which an allocation failed.
pub(crate) fn refused(_error: AllocError) -> (PreprocessorError, Location)
    ensures { result ≡ out_of_memory }
{
    out_of_memory()
}
