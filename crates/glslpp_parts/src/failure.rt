//! The failures with which the program ends with status 2.

ghost use Rattle.glslpp_parts.specs.Failures.{Says};

use std::alloc::{AllocError, AllocFailed, Global};
use std::fmt::Display;

/// Why a source couldn't be read to its end, or the output couldn't be written.
#[derive(Drop)]
pub enum Failure {
    /// What is wrong, as a sentence.
    Told(String),
    /// An allocation failed.
    OutOfMemory,
}

impl From<AllocError> for Failure {
    ghost use Rattle.std.specs.Prelude.{◌≡◌};
    ghost use Rattle.glslpp_parts.specs.declared.failure.Failure.TheVariants.{OutOfMemory};

    ghost from_gives = { λ _ failure. failure ≡ OutOfMemory };

    fn from(_refused: AllocError) -> Failure {
        Failure::OutOfMemory
    }
}

impl<T: Drop> From<AllocFailed<T>> for Failure {
    ghost use Rattle.std.specs.Prelude.{◌≡◌};
    ghost use Rattle.glslpp_parts.specs.declared.failure.Failure.TheVariants.{OutOfMemory};

    ghost from_gives = { λ _ failure. failure ≡ OutOfMemory };

    fn from(_refused: AllocFailed<T>) -> Failure {
        Failure::OutOfMemory
    }
}

/// Returns the failure of a subject, such as a file, with its cause: `subject: cause`.
pub fn failure_of<C: Display + Drop>(alloc: Global, subject: &str, cause: C) -> Failure
    ensures { Says subject.now (C.output cause) result }
{
    match format!(in alloc; "{subject}: {cause}") {
        Ok(text) => Failure::Told(text),
        Err(_) => Failure::OutOfMemory,
    }
}
