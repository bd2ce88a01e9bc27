//! The sentence that describes an error, in lower case and without a full stop.

ghost use Rattle.std.specs.Prelude.{◌≡◌, Some};
ghost use Rattle.pp_lexer.specs.Sentences.{plain_sentence, sentence_of};

use crate::token::PreprocessorError;
use std::error::Error;
use std::fmt;

// The sentence, without what the error holds.
fn plain_sentence(error: &PreprocessorError) -> &'static str
    ensures { result.now ≡ plain_sentence error.now }
{
    match error {
        PreprocessorError::IntegerOverflow => "malformed or out-of-range integer",
        PreprocessorError::FloatParsingError => "malformed number",
        PreprocessorError::UnexpectedCharacter => "unexpected character",
        PreprocessorError::UnexpectedToken(_) => "unexpected token",
        PreprocessorError::UnexpectedHash => "unexpected `#`",
        PreprocessorError::UnexpectedNewLine => "unexpected end of line",
        PreprocessorError::UnexpectedEndOfInput =>
            "unterminated macro call or incomplete expression",
        PreprocessorError::TooFewDefineArguments => "too few arguments in macro call",
        PreprocessorError::TooManyDefineArguments => "too many arguments in macro call",
        PreprocessorError::ErrorDirective => "`#error` directive",
        PreprocessorError::DuplicateParameter => "duplicate macro parameter",
        PreprocessorError::UnknownDirective => "unknown directive",
        PreprocessorError::DefineRedefined => "macro redefined",
        PreprocessorError::ElifOutsideOfBlock => "`#elif` without `#if`",
        PreprocessorError::ElseOutsideOfBlock => "`#else` without `#if`",
        PreprocessorError::EndifOutsideOfBlock => "`#endif` without `#if`",
        PreprocessorError::ElifAfterElse => "`#elif` after `#else`",
        PreprocessorError::MoreThanOneElse => "`#else` after `#else`",
        PreprocessorError::UnfinishedBlock => "block without `#endif`",
        PreprocessorError::LineOverflow => "line number out of range",
        PreprocessorError::NotSupported16BitLiteral => "16-bit literals are not supported",
        PreprocessorError::NotSupported64BitLiteral => "64-bit literals are not supported",
        PreprocessorError::MacroNotDefined => "undefined macro",
        PreprocessorError::RecursionLimitReached => "too many nested macro calls",
        PreprocessorError::DivisionByZero => "division by zero",
        PreprocessorError::RemainderByZero => "remainder by zero",
        PreprocessorError::OutOfMemory => "out of memory",
    }
}

// The token of an `UnexpectedToken` is written after its sentence, between backquotes.
impl fmt::Display for PreprocessorError {
    ghost output = { λ error. Some (sentence_of error) };

    fn fmt<W: fmt::Write>(&self, f: &mut fmt::Formatter<W>) -> fmt::Result {
        f.write_str(plain_sentence(self))?;
        if let PreprocessorError::UnexpectedToken(value) = self {
            f.write_str(" `")?;
            fmt::Display::fmt(value, f)?;
            f.write_str("`")?;
        }
        Ok(())
    }
}

impl Error for PreprocessorError {}
