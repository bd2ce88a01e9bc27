//! Why a directive gives nothing.

ghost use Rattle.std.specs.Prelude.{◌≡◌};
ghost use Rattle.pp_directives.specs.inner.DirectiveHalts.{placed_at};

use pp_lexer::token::{Location, PreprocessorError};
use pp_macros::halt::{Halt, PlacedHalt};
use pp_model::place::{PlacedFault, placed, unasked};
use std::alloc::{AllocError, AllocFailed};

/// Why a directive gives nothing.
#[derive(Drop)]
pub enum DirectiveHalt {
    /// A fault of its line, which is in the text that is read.
    Fault((PreprocessorError, Location)),
    /// A fault that was found while its tokens were expanded, which may be in the body of a macro of another text.
    Expanded(PlacedFault),
    /// An allocation failed.
    OutOfMemory,
}

impl From<AllocError> for DirectiveHalt {
    ghost use Rattle.std.specs.Prelude.{◌≡◌};
    ghost use Rattle.pp_directives.specs.declared.directive_halt.DirectiveHalt.TheVariants.{OutOfMemory};

    ghost from_gives = { λ error halt. halt ≡ OutOfMemory };

    fn from(_error: AllocError) -> Self {
        DirectiveHalt::OutOfMemory
    }
}

impl<T: Drop> From<AllocFailed<T>> for DirectiveHalt {
    ghost use Rattle.std.specs.Prelude.{◌≡◌};
    ghost use Rattle.pp_directives.specs.declared.directive_halt.DirectiveHalt.TheVariants.{OutOfMemory};

    ghost from_gives = { λ error halt. halt ≡ OutOfMemory };

    fn from(_error: AllocFailed<T>) -> Self {
        DirectiveHalt::OutOfMemory
    }
}

impl From<Halt> for DirectiveHalt {
    ghost use Rattle.std.specs.Prelude.{◌≡◌};
    ghost use Rattle.pp_directives.specs.inner.DirectiveHalts.{of_line};

    ghost from_gives = { λ halt above. above ≡ of_line halt };

    fn from(halt: Halt) -> Self {
        match halt {
            Halt::Fault(fault) => DirectiveHalt::Fault(fault),
            Halt::OutOfMemory => DirectiveHalt::OutOfMemory,
        }
    }
}

impl From<PlacedHalt> for DirectiveHalt {
    ghost use Rattle.std.specs.Prelude.{◌≡◌};
    ghost use Rattle.pp_directives.specs.inner.DirectiveHalts.{of_expansion};

    ghost from_gives = { λ halt above. above ≡ of_expansion halt };

    fn from(halt: PlacedHalt) -> Self {
        match halt {
            PlacedHalt::Fault(fault) => DirectiveHalt::Expanded(fault),
            PlacedHalt::OutOfMemory => DirectiveHalt::OutOfMemory,
        }
    }
}

impl DirectiveHalt {
    /// The same with the text of the fault, if this is the text that is read. It asks for nothing.
    pub fn placed_at(self, text: u32) -> PlacedHalt
        ensures { result ≡ placed_at text self }
    {
        match self {
            DirectiveHalt::Fault(fault) => PlacedHalt::Fault(placed(text, fault)),
            DirectiveHalt::Expanded(fault) => PlacedHalt::Fault(unasked(fault)),
            DirectiveHalt::OutOfMemory => PlacedHalt::OutOfMemory,
        }
    }
}
