//! Printing items as lines.

ghost use Rattle.std.specs.Prelude.{◌≡◌, true, false, ℕ, List, Option, OnOk, IfOk, IfErr, IsErrOf, string_bytes};
ghost use Rattle.std.specs.Io.KnownBytes.{Appends};
ghost use Rattle.pp_rs.specs.TokenValue.{is_ordinary};
ghost use Rattle.pp_rs.specs.Kept.{is_spent, rules_of};
ghost use Rattle.pp_rs.specs.Rules.{pp_rs};
ghost use Rattle.pp_print.specs.inner.Input.{IsDeviceFault};
ghost use Rattle.pp_rs.specs.Output.{written_lines};
ghost use Rattle.pp_rs.specs.inner.OutputLines.{begun_line, ended_lines};
ghost use Rattle.pp_print.specs.inner.Printing.{ArePrinted, AreBegun, spaced};
ghost use Rattle.pp_print.specs.Runs.{IsStoppedBySource};
ghost use Rattle.pp_print.specs.declared.ends.RunEnd.TheVariants.{Stopped};

use super::devices::Sink;
use super::ends::{RunEnd, RunFault};
use pp_rs::pp::Preprocessor;
use pp_rs::token::{Location, PreprocessorError, TokenValue};
use std::alloc::{AllocError, Global};

/// Prints the items up to the first error item, which it returns with its place. Each longest run of ordinary tokens is
/// a line, and each directive item is a line. A line is written whole or, if an allocation fails, not at all.
pub fn print_items<W: Sink>(
    alloc: Global,
    mut items: Preprocessor<'_>,
    writer: &mut W,
) -> Result<RunEnd, RunFault>
    requires ready { W.failed writer.old ≡ false }
    requires unspent { is_spent items ≡ false }
    requires rules { rules_of items ≡ pp_rs }
    ensures printed { IfOk result (λ end. ArePrinted items.entry end (W.contents writer.old)
        (W.contents writer.new)) }
    ensures begun { IsErrOf result RunFault.OutOfMemory
        → AreBegun items.entry (W.contents writer.old) (W.contents writer.new) }
    ensures stopped { IfOk result IsStoppedBySource }
    ensures ok { OnOk result (W.failed writer.new ≡ false) }
    ensures err { IfErr result (λ fault. IsDeviceFault RunFault.WriteFailed fault
        (W.failed writer.new)) }
{
    let end = print_rest(alloc, &mut items, writer);
    drop(items);
    end
}

// Prints the items that are left. It is a function of its own, so that the preprocessor is dropped in one place.
fn print_rest<W: Sink>(
    alloc: Global,
    items: &mut Preprocessor<'_>,
    writer: &mut W,
) -> Result<RunEnd, RunFault>
    requires ready { W.failed writer.old ≡ false }
    requires unspent { is_spent items.old ≡ false }
    requires rules { rules_of items.old ≡ pp_rs }
    ensures printed { IfOk result (λ end. ArePrinted items.old end (W.contents writer.old)
        (W.contents writer.new)) }
    ensures begun { IsErrOf result RunFault.OutOfMemory
        → AreBegun items.old (W.contents writer.old) (W.contents writer.new) }
    ensures stopped { IfOk result IsStoppedBySource }
    ensures ok { OnOk result (W.failed writer.new ≡ false) }
    ensures err { IfErr result (λ fault. IsDeviceFault RunFault.WriteFailed fault
        (W.failed writer.new)) }
{
    // A run of ordinary tokens that may continue, each with a space after it. As text it is smaller than its tokens.
    let mut line = String::new(alloc);
    'items: while let Some(item) = items.give_tokens(&mut line) {
        match item {
            Ok(token) => {
                let printed = print_directive(&token.value, line, writer);
                drop(token);
                printed?;
                line = String::new(alloc);
            }
            Err(refusal) => return print_stop(refusal, line, writer),
        }
    }
    print_line(line, writer)?;
    Ok(RunEnd::Done)
}

// Prints the line that was begun before an error item. For an `OutOfMemory` it prints nothing: the line's run of tokens
// might have continued.
fn print_stop<W: Sink>(
    refusal: (PreprocessorError, Location),
    line: String,
    writer: &mut W,
) -> Result<RunEnd, RunFault>
    requires { W.failed writer.old ≡ false }
    ensures stopped { IfOk result (λ end. (end ≡ Stopped refusal.0 refusal.1)
        × IsStoppedBySource end) }
    ensures written { OnOk result ((begun : Option (List ℕ)) → string_bytes line ≡ spaced begun
        → Appends (W.contents writer.old) (W.contents writer.new) (written_lines (begun_line begun))) }
    ensures refused { IsErrOf result RunFault.OutOfMemory → writer.new ≡ writer.old }
    ensures ok { OnOk result (W.failed writer.new ≡ false) }
    ensures err { IfErr result (λ fault. IsDeviceFault RunFault.WriteFailed fault
        (W.failed writer.new)) }
{
    if matches!(refusal.0, PreprocessorError::OutOfMemory) {
        drop(refusal);
        drop(line);
        return Err(RunFault::OutOfMemory);
    }
    match print_line(line, writer) {
        Ok(()) => {
            let (error, location) = refusal;
            Ok(RunEnd::Stopped { error, location })
        }
        Err(fault) => {
            drop(refusal);
            Err(fault)
        }
    }
}

// Prints the line that was begun, if there is one, and then a directive item.
fn print_directive<W: Sink>(
    value: &TokenValue,
    line: String,
    writer: &mut W,
) -> Result<(), RunFault>
    requires directive { is_ordinary value.now ≡ false }
    requires ready { W.failed writer.old ≡ false }
    ensures written { OnOk result ((begun : Option (List ℕ)) → string_bytes line ≡ spaced begun
        → Appends (W.contents writer.old) (W.contents writer.new)
        (written_lines (ended_lines begun value.now))) }
    ensures refused { IsErrOf result RunFault.OutOfMemory → writer.new ≡ writer.old }
    ensures ok { OnOk result (W.failed writer.new ≡ false) }
    ensures err { IfErr result (λ fault. IsDeviceFault RunFault.WriteFailed fault
        (W.failed writer.new)) }
{
    let mut lines = end_line(line)?;
    write!(lines, "{value}")?;
    lines.push('\n')?;
    write_all(lines.as_bytes(), writer)
}

// Prints the line that was begun, if there is one.
fn print_line<W: Sink>(line: String, writer: &mut W) -> Result<(), RunFault>
    requires { W.failed writer.old ≡ false }
    ensures written { OnOk result ((begun : Option (List ℕ)) → string_bytes line ≡ spaced begun
        → Appends (W.contents writer.old) (W.contents writer.new) (written_lines (begun_line begun))) }
    ensures refused { IsErrOf result RunFault.OutOfMemory → writer.new ≡ writer.old }
    ensures ok { OnOk result (W.failed writer.new ≡ false) }
    ensures err { IfErr result (λ fault. IsDeviceFault RunFault.WriteFailed fault
        (W.failed writer.new)) }
{
    let text = end_line(line)?;
    write_all(text.as_bytes(), writer)
}

// The line with a newline in place of its last space, or no text if it isn't begun.
fn end_line(mut line: String) -> Result<String, AllocError>
    ensures { IfOk result (λ text. (begun : Option (List ℕ)) → string_bytes line ≡ spaced begun
        → string_bytes text ≡ written_lines (begun_line begun)) }
{
    let Some(_) = line.pop() else {
        return Ok(line);
    };
    line.push('\n')?;
    Ok(line)
}

// Writes all the bytes.
fn write_all<W: Sink>(bytes: &[u8], writer: &mut W) -> Result<(), RunFault>
    requires { W.failed writer.old ≡ false }
    ensures written { OnOk result (Appends (W.contents writer.old)
        (W.contents writer.new) bytes.now) }
    ensures ok { OnOk result (W.failed writer.new ≡ false) }
    ensures err { IfErr result (λ fault. (fault ≡ RunFault.WriteFailed)
        × (W.failed writer.new ≡ true)) }
{
    let mut rest = bytes;
    while !rest.is_empty() {
        match writer.write(rest) {
            Ok(count) => rest = &rest[count..],
            Err(_) => return Err(RunFault::WriteFailed),
        }
    }
    Ok(())
}
