//! How a run ends, and the message and status that the program then gives.

ghost use Rattle.std.specs.Prelude.{◌≡◌, IfOk, string_bytes};
ghost use Rattle.pp_print.specs.Ends.{status_of, message_of, error_line_of, fault_text_of};

use pp_rs::token::{Location, PreprocessorError};
use std::alloc::{AllocError, AllocFailed, Global};

/// The end of a run without a fault.
#[derive(PartialEq, Eq, Debug, Drop)]
pub enum RunEnd {
    /// All of the source was printed.
    Done,
    /// The items before the first error item were printed. This is that item: the error and its place in the source, in
    /// byte offsets and 1-based lines.
    Stopped {
        error: PreprocessorError,
        location: Location,
    },
}

/// The fault that cut a run short.
#[derive(Clone, Copy, PartialEq, Eq, Debug)]
pub enum RunFault {
    /// A read of the source failed. Nothing was written.
    ReadFailed,
    /// The source has 2^32 - 1 bytes or more. Nothing was written.
    TooLong,
    /// The source isn't UTF-8. Nothing was written.
    NotUtf8,
    /// The content of a definition has 2^32 - 1 bytes or more or has an error, or an argument of the command line has
    /// no `=`. Nothing was written.
    BadWord,
    /// A write failed. How much was written is not specified.
    WriteFailed,
    /// An allocation failed. The lines that were written are the first lines of the output.
    OutOfMemory,
}

impl From<AllocError> for RunFault {
    ghost use Rattle.pp_print.specs.declared.ends.RunFault.TheVariants.{OutOfMemory};

    ghost from_gives = { λ _ fault. fault ≡ OutOfMemory };

    fn from(_refused: AllocError) -> RunFault {
        RunFault::OutOfMemory
    }
}

impl<T: Drop> From<AllocFailed<T>> for RunFault {
    ghost use Rattle.pp_print.specs.declared.ends.RunFault.TheVariants.{OutOfMemory};

    ghost from_gives = { λ _ fault. fault ≡ OutOfMemory };

    fn from(_refused: AllocFailed<T>) -> RunFault {
        RunFault::OutOfMemory
    }
}

/// Returns the program's exit status: 0 if all was printed, 1 for an error in the source, and 2 for a fault.
pub fn status(end: &Result<RunEnd, RunFault>) -> u8
    ensures { result ≡ status_of end.now }
{
    match end {
        Ok(RunEnd::Done) => 0,
        Ok(RunEnd::Stopped { .. }) => 1,
        Err(_) => 2,
    }
}

/// Returns the line that the program prints on its standard error, without LF: empty if all was printed, `error NAME
/// START END` for an error in the source, with its place in byte offsets, and otherwise `pp_print: ` with a description
/// of the fault.
pub fn message(alloc: Global, end: &Result<RunEnd, RunFault>) -> Result<String, AllocError>
    ensures { IfOk result (λ line. string_bytes line ≡ message_of end.now) }
{
    match end {
        Ok(RunEnd::Done) => Ok(String::new(alloc)),
        Ok(RunEnd::Stopped { error, location }) => error_line(alloc, error, *location),
        Err(fault) => {
            let cause = fault_text(*fault);
            format!(in alloc; "pp_print: {cause}")
        }
    }
}

// The message for an error in the source.
fn error_line(
    alloc: Global,
    error: &PreprocessorError,
    location: Location,
) -> Result<String, AllocError>
    ensures { IfOk result (λ line. string_bytes line ≡ error_line_of error.now location) }
{
    let name = error.name();
    format!(in alloc; "error {name} {} {}", location.start, location.end)
}

// The message for a fault.
fn fault_text(fault: RunFault) -> &'static str
    ensures { result.now ≡ fault_text_of fault }
{
    match fault {
        RunFault::ReadFailed => "read failed",
        RunFault::TooLong => "input too long",
        RunFault::NotUtf8 => "not UTF-8",
        RunFault::BadWord => "bad word",
        RunFault::WriteFailed => "write failed",
        RunFault::OutOfMemory => "out of memory",
    }
}
