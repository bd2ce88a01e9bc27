//! Reading the source.

ghost use Rattle.std.specs.Prelude.{◌≡◌, ◌+◌, ◌-◌, ◌^◌, ◌<◌, ◌≤◌, false, length, vec_len, string_bytes, string_len};
ghost use Rattle.std.specs.Prelude.{OnOk, IfOk, IfErr, IfSome};
ghost use Rattle.std.specs.Io.{StartsWith, appended_bytes};
ghost use Rattle.std.specs.Io.KnownBytes.{Consumes, IsAtEnd};
ghost use Rattle.pp_print.specs.Runs.{TakesAtMost};
ghost use Rattle.pp_print.specs.inner.Input.{IsReadFault, IsDeviceFault};

use super::devices::Source;
use super::ends::RunFault;
use pp_rs::SOURCE_LIMIT;
use std::alloc::Global;

// The most bytes that one read asks for.
const CHUNK: usize = 16384;

/// Reads a whole source, but at most 2^32 - 1 bytes of it. The errors, checked in this order: a read fails, there are
/// 2^32 - 1 bytes or more, the bytes aren't UTF-8.
pub fn read_source<R: Source>(alloc: Global, reader: &mut R) -> Result<String, RunFault>
    requires { R.failed reader.old ≡ false }
    ensures read { IfOk result (λ source. IfSome (R.remaining reader.old)
        (λ bytes. string_bytes source ≡ bytes)) }
    ensures short { IfOk result (λ source. string_len source < 2 ^ 32 - 1) }
    ensures ok { OnOk result (R.failed reader.new ≡ false) }
    ensures err { IfErr result (λ fault. IsReadFault fault (R.failed reader.new)
        (R.remaining reader.old)) }
    ensures taken { TakesAtMost (2 ^ 32 - 1) (R.remaining reader.old) (R.remaining reader.new) }
{
    let bytes = read_bytes(alloc, reader)?;
    match String::from_utf8(bytes) {
        Ok(source) => Ok(source),
        Err(_) => Err(RunFault::NotUtf8),
    }
}

// Reads all bytes, but at most 2^32 - 1.
fn read_bytes<R: Source>(alloc: Global, reader: &mut R) -> Result<Vec<u8>, RunFault>
    requires { R.failed reader.old ≡ false }
    ensures read { IfOk result (λ source. IfSome (R.remaining reader.old)
        (λ bytes. source.items ≡ bytes)) }
    ensures short { IfOk result (λ source. vec_len source < 2 ^ 32 - 1) }
    ensures ok { OnOk result (R.failed reader.new ≡ false) }
    ensures err { IfErr result (λ fault. IsReadFault fault (R.failed reader.new)
        (R.remaining reader.old)) }
    ensures taken { TakesAtMost (2 ^ 32 - 1) (R.remaining reader.old) (R.remaining reader.new) }
{
    let mut bytes = Vec::new(alloc);
    let mut chunk = [0u8; CHUNK];
    while bytes.len() < SOURCE_LIMIT {
        let room = CHUNK.min(SOURCE_LIMIT - bytes.len());
        if read_some(reader, &mut chunk[..room], &mut bytes)? == 0 {
            return Ok(bytes);
        }
    }
    Err(RunFault::TooLong)
}

// Reads once, appends the bytes that came to `bytes`, and returns their number.
fn read_some<R: Source>(
    reader: &mut R,
    buffer: &mut [u8],
    bytes: &mut Vec<u8>,
) -> Result<usize, RunFault>
    requires { R.failed reader.old ≡ false }
    ensures bound { IfOk result (λ count. count ≤ length buffer.old) }
    ensures len { IfOk result (λ count. vec_len bytes.new ≡ vec_len bytes.old + count) }
    ensures appends { OnOk result (StartsWith bytes.new.items bytes.old.items) }
    ensures read { OnOk result (Consumes (R.remaining reader.old) (R.remaining reader.new)
        (appended_bytes bytes.old.items bytes.new.items)) }
    ensures end { IfOk result (λ count. count ≡ 0 → 0 < length buffer.old
        → IsAtEnd (R.remaining reader.new)) }
    ensures ok { OnOk result (R.failed reader.new ≡ false) }
    ensures err { IfErr result (λ fault. IsDeviceFault RunFault.ReadFailed fault
        (R.failed reader.new)) }
    ensures taken { TakesAtMost (length buffer.old) (R.remaining reader.old) (R.remaining reader.new) }
{
    match reader.read(buffer) {
        Ok(count) => {
            bytes.extend_from_slice(&buffer[..count])?;
            Ok(count)
        }
        Err(_) => Err(RunFault::ReadFailed),
    }
}
