//! The budget of the plain program, and why it may give no answer.

ghost use Rattle.std.specs.Prelude.{◌≡◌, ◌+◌, ◌≤◌, OnOk};

use pp_lexer::token::{Location, PreprocessorError};
use pp_model::outcome::Fault;
use std::alloc::{AllocError, AllocFailed};

/// Why the plain program gives no answer.
#[derive(Clone, Copy, PartialEq, Eq, Debug)]
pub enum Stop {
    /// An allocation failed, or a content or an included text can have no number.
    OutOfMemory,
    /// The steps of the budget are used up, or a list is too long.
    OutOfBudget,
}

// The most items that a source, a content or an included text may have, and the most calls that may be made. For each
// of them some function calls itself once more, which takes native stack.
const MOST: usize = 3_000;

/// Stops if a list has more elements than the native stack has room for.
pub fn stays_short(length: usize) -> Result<(), Stop>
    ensures { OnOk result (length ≤ 3000) }
{
    if length > MOST {
        return Err(Stop::OutOfBudget);
    }
    Ok(())
}

impl From<AllocError> for Stop {
    ghost use Rattle.std.specs.Prelude.{◌≡◌};
    ghost use Rattle.pp_reference.specs.declared.stop.Stop.TheVariants.{OutOfMemory};

    ghost from_gives = { λ error stop. stop ≡ OutOfMemory };

    fn from(_error: AllocError) -> Self {
        Stop::OutOfMemory
    }
}

impl<T: Drop> From<AllocFailed<T>> for Stop {
    ghost use Rattle.std.specs.Prelude.{◌≡◌};
    ghost use Rattle.pp_reference.specs.declared.stop.Stop.TheVariants.{OutOfMemory};

    ghost from_gives = { λ error stop. stop ≡ OutOfMemory };

    fn from(_error: AllocFailed<T>) -> Self {
        Stop::OutOfMemory
    }
}

/// A fault of a line, or no answer of the program.
#[derive(Drop)]
pub enum Halt {
    /// Its first fault.
    Fault(Fault),
    /// The program gives no answer.
    Stop(Stop),
}

impl From<Stop> for Halt {
    ghost use Rattle.std.specs.Prelude.{◌≡◌};
    ghost use Rattle.pp_reference.specs.declared.stop.Halt.TheVariants.{Stop as halt_stop};

    ghost from_gives = { λ stop halt. halt ≡ halt_stop stop };

    fn from(stop: Stop) -> Self {
        Halt::Stop(stop)
    }
}

impl From<AllocError> for Halt {
    ghost use Rattle.std.specs.Prelude.{◌≡◌};
    ghost use Rattle.pp_reference.specs.declared.stop.Halt.TheVariants.{Stop as halt_stop};
    ghost use Rattle.pp_reference.specs.declared.stop.Stop.TheVariants.{OutOfMemory};

    ghost from_gives = { λ error halt. halt ≡ halt_stop OutOfMemory };

    fn from(_error: AllocError) -> Self {
        Halt::Stop(Stop::OutOfMemory)
    }
}

impl<T: Drop> From<AllocFailed<T>> for Halt {
    ghost use Rattle.std.specs.Prelude.{◌≡◌};
    ghost use Rattle.pp_reference.specs.declared.stop.Halt.TheVariants.{Stop as halt_stop};
    ghost use Rattle.pp_reference.specs.declared.stop.Stop.TheVariants.{OutOfMemory};

    ghost from_gives = { λ error halt. halt ≡ halt_stop OutOfMemory };

    fn from(_error: AllocFailed<T>) -> Self {
        Halt::Stop(Stop::OutOfMemory)
    }
}

impl From<(PreprocessorError, Location)> for Halt {
    ghost use Rattle.std.specs.Prelude.{◌≡◌};
    ghost use Rattle.pp_reference.specs.declared.stop.Halt.TheVariants.{Fault as halt_fault};

    ghost from_gives = { λ fault halt. halt ≡ halt_fault fault };

    fn from(fault: Fault) -> Self {
        Halt::Fault(fault)
    }
}

/// How many steps the plain program may still take. The budget replaces a proof that the program ends.
#[derive(Clone, Copy, PartialEq, Eq, Debug)]
pub struct Budget {
    /// The steps that are left.
    pub steps: u64,
}

impl Budget {
    /// Takes one step, unless none is left.
    pub fn spend(&mut self) -> Result<(), Stop>
        ensures spent { OnOk result (self.new.steps + 1 ≡ self.old.steps) }
        ensures kept { self.new.steps ≤ self.old.steps }
    {
        if self.steps == 0 {
            return Err(Stop::OutOfBudget);
        }
        self.steps -= 1;
        Ok(())
    }
}
