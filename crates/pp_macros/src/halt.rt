//! Why a line, a directive or a call has no value.

ghost use Rattle.std.specs.Prelude.{◌≡◌};
ghost use Rattle.pp_macros.specs.Halting.{halt_in, halt_of, placed_halt_of};
ghost use Rattle.pp_macros.specs.inner.Noting.{noted_halt};

use crate::step::{PlacedExit, is_out_of_memory, no_memory};
use pp_lexer::token::{Location, PreprocessorError};
use pp_model::place::{PlacedFault, fault_in, placed};
use pp_model::splice::CallPlace;
use std::alloc::{AllocError, AllocFailed};

/// Why a part of a line has no value.
#[derive(Drop)]
pub enum Halt {
    /// Its first fault.
    Fault((PreprocessorError, Location)),
    /// An allocation failed.
    OutOfMemory,
}

impl Halt {
    /// The same with the text of the fault, which is this one.
    pub fn in_text(self, text: u32) -> PlacedHalt
        ensures { result ≡ placed_halt_of text self }
    {
        match self {
            Halt::Fault(fault) => PlacedHalt::Fault(placed(text, fault)),
            Halt::OutOfMemory => PlacedHalt::OutOfMemory,
        }
    }
}

impl From<AllocError> for Halt {
    ghost use Rattle.std.specs.Prelude.{◌≡◌};
    ghost use Rattle.pp_macros.specs.declared.halt.Halt.TheVariants.{OutOfMemory};

    ghost from_gives = { λ error halt. halt ≡ OutOfMemory };

    fn from(_error: AllocError) -> Self {
        Halt::OutOfMemory
    }
}

impl<T: Drop> From<AllocFailed<T>> for Halt {
    ghost use Rattle.std.specs.Prelude.{◌≡◌};
    ghost use Rattle.pp_macros.specs.declared.halt.Halt.TheVariants.{OutOfMemory};

    ghost from_gives = { λ error halt. halt ≡ OutOfMemory };

    fn from(_error: AllocFailed<T>) -> Self {
        Halt::OutOfMemory
    }
}

impl From<(PreprocessorError, Location)> for Halt {
    ghost use Rattle.std.specs.Prelude.{◌≡◌};
    ghost use Rattle.pp_macros.specs.declared.halt.Halt.TheVariants.{Fault};

    ghost from_gives = { λ fault halt. halt ≡ Fault fault };

    fn from(fault: (PreprocessorError, Location)) -> Self {
        Halt::Fault(fault)
    }
}

/// Why a directive or a call has no value. A fault has the text of its place, which may be that of a macro's body, and
/// the call in which it was found.
#[derive(Drop)]
pub enum PlacedHalt {
    /// Its first fault.
    Fault(PlacedFault),
    /// An allocation failed.
    OutOfMemory,
}

impl From<AllocError> for PlacedHalt {
    ghost use Rattle.std.specs.Prelude.{◌≡◌};
    ghost use Rattle.pp_macros.specs.declared.halt.PlacedHalt.TheVariants.{OutOfMemory};

    ghost from_gives = { λ error halt. halt ≡ OutOfMemory };

    fn from(_error: AllocError) -> Self {
        PlacedHalt::OutOfMemory
    }
}

impl<T: Drop> From<AllocFailed<T>> for PlacedHalt {
    ghost use Rattle.std.specs.Prelude.{◌≡◌};
    ghost use Rattle.pp_macros.specs.declared.halt.PlacedHalt.TheVariants.{OutOfMemory};

    ghost from_gives = { λ error halt. halt ≡ OutOfMemory };

    fn from(_error: AllocFailed<T>) -> Self {
        PlacedHalt::OutOfMemory
    }
}

impl From<PlacedFault> for PlacedHalt {
    ghost use Rattle.std.specs.Prelude.{◌≡◌};
    ghost use Rattle.pp_macros.specs.declared.halt.PlacedHalt.TheVariants.{Fault};

    ghost from_gives = { λ fault halt. halt ≡ Fault fault };

    fn from(fault: PlacedFault) -> Self {
        PlacedHalt::Fault(fault)
    }
}

impl PlacedHalt {
    /// The same in this call, if there is one.
    pub fn in_call(self, call: Option<CallPlace>) -> PlacedHalt
        ensures { result ≡ halt_in call self }
    {
        match self {
            PlacedHalt::Fault(fault) => PlacedHalt::Fault(fault_in(call, fault)),
            PlacedHalt::OutOfMemory => PlacedHalt::OutOfMemory,
        }
    }
}

/// A call has no value. Its fault is noted apart from the results, so that calls inside each other take little of the
/// stack. If none is noted, an allocation failed.
#[derive(Drop)]
pub struct Halted;

impl From<AllocError> for Halted {
    ghost use Rattle.std.specs.Prelude.{⊤};

    ghost from_gives = { λ error halted. ⊤ };

    fn from(_error: AllocError) -> Self {
        Halted
    }
}

impl<T: Drop> From<AllocFailed<T>> for Halted {
    ghost use Rattle.std.specs.Prelude.{⊤};

    ghost from_gives = { λ error halted. ⊤ };

    fn from(_error: AllocFailed<T>) -> Self {
        Halted
    }
}

impl From<PlacedHalt> for PlacedExit {
    ghost use Rattle.std.specs.Prelude.{◌≡◌};
    ghost use Rattle.pp_macros.specs.Halting.{exit_of};

    ghost from_gives = { λ halt exit. exit ≡ exit_of halt };

    fn from(halt: PlacedHalt) -> Self {
        match halt {
            PlacedHalt::Fault(fault) => PlacedExit::Error(fault),
            PlacedHalt::OutOfMemory => PlacedExit::Error(no_memory()),
        }
    }
}

/// The fault of a step, or `PlacedHalt::OutOfMemory` if an allocation failed.
pub fn halt_of(fault: PlacedFault) -> PlacedHalt
    ensures { result ≡ halt_of fault }
{
    if is_out_of_memory(&fault.0) {
        drop(fault);
        return PlacedHalt::OutOfMemory;
    }
    PlacedHalt::Fault(fault)
}

/// Why a call has no value for which this fault was noted, if one was.
pub fn noted_halt(fault: Option<PlacedFault>) -> PlacedHalt
    ensures { result ≡ noted_halt fault }
{
    match fault {
        Some(fault) => PlacedHalt::Fault(fault),
        None => PlacedHalt::OutOfMemory,
    }
}
