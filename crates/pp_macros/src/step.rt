//! One step of a reader.

ghost use Rattle.std.specs.Prelude.{◌≡◌};
ghost use Rattle.pp_macros.specs.Item.{is_out_of_memory, no_memory};

use pp_lexer::token::{PreprocessorError, out_of_memory};
use pp_model::place::{PlacedFault, SOURCE_TEXT, placed};
use std::alloc::{AllocError, AllocFailed, Global};

/// A value, or the reason why a step gives none.
pub type PlacedStep<T> = Result<T, PlacedExit>;

/// Why a step gives no value.
#[derive(Drop)]
pub enum PlacedExit {
    /// A fault with its place in one of the texts.
    Error(PlacedFault),
    /// A pause: nothing yet, and another step goes on.
    Continue,
    /// The end: nothing is left to give.
    Finished,
}

/// Whether the error is `OutOfMemory`.
pub fn is_out_of_memory(error: &PreprocessorError) -> bool
    ensures { result ≡ is_out_of_memory error.now }
{
    matches!(error, PreprocessorError::OutOfMemory)
}

/// The fault of a step for which memory ran out.
pub fn no_memory() -> PlacedFault
    ensures { result ≡ no_memory }
{
    placed(SOURCE_TEXT, out_of_memory())
}

impl From<AllocError> for PlacedExit {
    ghost use Rattle.std.specs.Prelude.{◌≡◌};
    ghost use Rattle.pp_macros.specs.Item.{no_memory};
    ghost use Rattle.pp_macros.specs.declared.step.PlacedExit.TheVariants.{Error};

    ghost from_gives = { λ error exit. exit ≡ Error no_memory };

    // It is a function of its own, so that a token is moved without it.
    #[inline(never)]
    fn from(_error: AllocError) -> Self {
        PlacedExit::Error(no_memory())
    }
}

impl<T: Drop> From<AllocFailed<T>> for PlacedExit {
    ghost use Rattle.std.specs.Prelude.{◌≡◌};
    ghost use Rattle.pp_macros.specs.Item.{no_memory};
    ghost use Rattle.pp_macros.specs.declared.step.PlacedExit.TheVariants.{Error};

    ghost from_gives = { λ error exit. exit ≡ Error no_memory };

    #[inline(never)]
    fn from(_error: AllocFailed<T>) -> Self {
        PlacedExit::Error(no_memory())
    }
}
