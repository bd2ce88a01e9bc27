//! Why an evaluation gives no value.

ghost use Rattle.std.specs.Prelude.{◌≡◌};

use crate::symbol::Found;
use std::alloc::AllocError;

/// Why an evaluation gives no value.
#[derive(Clone, Copy)]
pub enum Halt {
    /// The expression's first fault.
    Fault(Found),
    /// An allocation failed.
    Refused(AllocError),
}

impl From<Found> for Halt {
    ghost use Rattle.std.specs.Prelude.{◌≡◌};
    ghost use Rattle.pp_expression.specs.declared.halt.Halt.TheVariants.{Fault as halt_fault};

    ghost from_gives = { λ found halt. halt ≡ halt_fault found };

    fn from(found: Found) -> Self {
        Halt::Fault(found)
    }
}

impl From<AllocError> for Halt {
    ghost use Rattle.std.specs.Prelude.{◌≡◌};
    ghost use Rattle.pp_expression.specs.declared.halt.Halt.TheVariants.{Refused as halt_refused};

    ghost from_gives = { λ error halt. halt ≡ halt_refused error };

    fn from(error: AllocError) -> Self {
        Halt::Refused(error)
    }
}
