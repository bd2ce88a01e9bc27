//! The program `pp_print` without its `main`: preprocesses a source and prints the result.
#![tactic(auto)]

ghost use Rattle.std.specs.Prelude.{◌≡◌, ◌↔◌, ◌⊎◌, ◌-◌, ◌^◌, true, false, All, Any, OnOk, IfOk, IfErr, IfSome, IsErrOf};
ghost use Rattle.pp_print.specs.Runs.{FitsSource, IsAccepted, IsRefused, IsBeforeOutput, IsStoppedBySource, IsPrinted};
ghost use Rattle.pp_print.specs.Runs.{IsBegun};
ghost use Rattle.pp_print.specs.Runs.{TakesAtMost};
ghost use Rattle.pp_print.specs.SourceRuns.{AreFirstOf, IsRunOf};

use pp_rs::pp::Preprocessor;
use std::alloc::Global;

mod definitions;
mod devices;
mod ends;
mod input;
pub mod laws;
mod output;
mod words;

pub use devices::{DeviceFailed, OverRead, OverWrite, Sink, Source};
pub use ends::{RunEnd, RunFault, message, status};
pub use words::split_word;

/// Reads the whole source, but at most 2^32 - 1 bytes of it, adds the definitions in order, each a name and its
/// content, and prints the items up to the first error item. Each longest run of ordinary tokens is printed as one
/// line, spelled with a space between two tokens. Each directive item is a line of its own: `#version`, `#extension` or
/// `#pragma`, and its tokens if it has any. Each line ends with LF.
///
/// Returns [`RunEnd::Done`] if there is no error item, and [`RunEnd::Stopped`] at the first one. Faults come in this
/// order: [`RunFault::ReadFailed`], [`RunFault::TooLong`], [`RunFault::NotUtf8`], [`RunFault::BadWord`], all before
/// anything is written, then [`RunFault::WriteFailed`]. [`RunFault::OutOfMemory`] comes at any point at which an
/// allocation fails. Only whole lines have been written then.
pub fn run<R: Source, W: Sink>(
    alloc: Global,
    defs: &[(&str, &str)],
    reader: &mut R,
    writer: &mut W,
) -> Result<RunEnd, RunFault>
    requires reader { R.failed reader.old ≡ false }
    requires writer { W.failed writer.old ≡ false }
    ensures source { IfSome (R.remaining reader.old) (FitsSource result) }
    ensures stopped { IfOk result IsStoppedBySource }

    // A run that gets to its output has added all definitions, and one that can't add them has the cause.
    ensures defined { OnOk result (All IsAccepted defs.now) }
    ensures defined_first { IsErrOf result RunFault.WriteFailed → All IsAccepted defs.now }
    ensures bad_word { IsErrOf result RunFault.BadWord → Any IsRefused defs.now }

    // No more is read than shows that a source is too long.
    ensures read { TakesAtMost (2 ^ 32 - 1) (R.remaining reader.old) (R.remaining reader.new) }

    // The devices fail if the run says so, and before the output nothing is written.
    ensures read_failed { IsErrOf result RunFault.ReadFailed ↔ (R.failed reader.new ≡ true) }
    ensures write_failed { IsErrOf result RunFault.WriteFailed ↔ (W.failed writer.new ≡ true) }
    ensures unwritten { IfErr result (λ fault. IsBeforeOutput fault → writer.new ≡ writer.old) }

    // The bytes written are the output of the run of the source after the definitions or, if an allocation failed,
    // nothing or the first lines of that output.
    ensures printed { IfOk result (λ end. IfSome (R.remaining reader.old) (λ source.
        IsPrinted (IsRunOf source defs.now) end (W.contents writer.old) (W.contents writer.new))) }
    ensures begun { IsErrOf result RunFault.OutOfMemory → IfSome (R.remaining reader.old) (λ source.
        (writer.new ≡ writer.old) ⊎ IsBegun (AreFirstOf source defs.now) (W.contents writer.old)
        (W.contents writer.new)) }
{
    let source = input::read_source(alloc, reader)?;
    let text = source.as_str();
    let mut items = Preprocessor::new(alloc, text);
    match definitions::add_definitions(&mut items, defs) {
        Ok(()) => output::print_items(alloc, items, writer),
        Err(fault) => {
            drop(items);
            Err(fault)
        }
    }
}
