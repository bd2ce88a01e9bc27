//! An error with its place as one value, to which `?` converts.

ghost use Rattle.std.specs.Prelude.{◌≡◌, Some};
ghost use Rattle.std.specs.IoError.{error_kind};
ghost use Rattle.pp_lexer.specs.PlacedErrors.{placed, placed_sentence, io_kind};
ghost use Rattle.pp_lexer.specs.PreprocessorError.{out_of_memory};

use crate::token::{Location, NOWHERE, PreprocessorError, out_of_memory};
use std::alloc::{AllocError, AllocFailed};
use std::error::Error;
use std::{fmt, io};

/// An error with its place, for functions that pass errors on by `?`.
///
/// By `?`, the pairs that the lexer and the preprocessor return become one, and so do `AllocError`
/// and `AllocFailed`. By `?` it becomes an `io::Error` and, like any `std::error::Error`, an
/// `anyhow::Error`.
#[derive(PartialEq, Eq, Debug, Drop)]
pub struct PlacedError {
    /// What is wrong.
    pub error: PreprocessorError,
    /// Its place.
    pub place: Location,
}

impl From<(PreprocessorError, Location)> for PlacedError {
    ghost from_gives = { λ pair result. result ≡ placed pair };

    fn from(pair: (PreprocessorError, Location)) -> PlacedError {
        let (error, place) = pair;
        PlacedError { error, place }
    }
}

impl From<AllocError> for PlacedError {
    ghost from_gives = { λ _ result. result ≡ placed out_of_memory };

    fn from(_refused: AllocError) -> PlacedError {
        PlacedError::from(out_of_memory())
    }
}

impl<T: Drop> From<AllocFailed<T>> for PlacedError {
    ghost from_gives = { λ _ result. result ≡ placed out_of_memory };

    fn from(_refused: AllocFailed<T>) -> PlacedError {
        PlacedError::from(out_of_memory())
    }
}

// The line, unless the place is `NOWHERE`, and the error's sentence.
impl fmt::Display for PlacedError {
    ghost output = { λ e. Some (placed_sentence e) };

    fn fmt<W: fmt::Write>(&self, f: &mut fmt::Formatter<W>) -> fmt::Result {
        if self.place == NOWHERE {
            return fmt::Display::fmt(&self.error, f);
        }
        write!(f, "line {}: ", self.place.line)?;
        fmt::Display::fmt(&self.error, f)
    }
}

impl Error for PlacedError {}

// The kind of the `io::Error` that it becomes.
fn io_kind(error: &PreprocessorError) -> io::ErrorKind
    ensures { result ≡ io_kind error.now }
{
    match error {
        PreprocessorError::OutOfMemory => io::ErrorKind::OutOfMemory,
        _ => io::ErrorKind::InvalidData,
    }
}

impl From<PlacedError> for io::Error {
    ghost from_gives = { λ e result. error_kind result ≡ io_kind e.error };

    fn from(e: PlacedError) -> io::Error {
        let kind = io_kind(&e.error);
        let text: fmt::InlineText<80> = fmt::InlineText::of(e);
        io::Error::new(kind, text.as_str())
    }
}
