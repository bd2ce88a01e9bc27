//! The source's device and the output's device.

ghost use Rattle.std.specs.Prelude.{◌≡◌, ◌<◌, ℕ, List, Option, None, Bool, true, false, length, OnOk, OnErr, IfOk};
ghost use Rattle.std.specs.Io.{ReadsAtMost, WritesAtMost};
ghost use Rattle.std.specs.Io.KnownBytes.{ReadConsumes, WriteAppends};

use std::io::{Read, Write};

/// The error of a read or a write that failed.
#[derive(Clone, Copy, PartialEq, Eq, Debug)]
pub struct DeviceFailed;

/// What a source is read from.
pub trait Source {
    // The bytes that reads will return from here on, if they are known. An `impl` may leave this out.
    ghost remaining: { Self → Option (List ℕ) } = { λ _. None };

    // Whether a read has failed so far.
    ghost failed: { Self → Bool };

    /// Puts bytes at the start of `buf` and returns their number, which is at most the length of `buf`. Returning 0 for
    /// a `buf` that has room is the end of the input. Fails if the bytes can't be read.
    fn read(&mut self, buf: &mut [u8]) -> Result<usize, DeviceFailed>
        ensures bound { ReadsAtMost result buf.new }
        ensures bytes { ReadConsumes (remaining self.old) (remaining self.new) result buf.new }
        ensures kept { OnOk result (failed self.new ≡ failed self.old) }
        ensures noted { OnErr result (failed self.new ≡ true) };

    /// Returns whether a read has failed so far.
    fn has_failed(&self) -> bool
        ensures { result ≡ failed self.now };
}

/// What the output is written to.
pub trait Sink {
    // The bytes that were written, if they are known. An `impl` may leave this out.
    ghost contents: { Self → Option (List ℕ) } = { λ _. None };

    // Whether a write has failed so far.
    ghost failed: { Self → Bool };

    /// Writes bytes from the start of `bytes` and returns their number, which is at most the length of `bytes`. Fails
    /// if there are bytes and none of them can be written.
    fn write(&mut self, bytes: &[u8]) -> Result<usize, DeviceFailed>
        ensures bound { WritesAtMost result bytes.now }
        ensures progress { 0 < length bytes.now → IfOk result (λ count. 0 < count) }
        ensures bytes { WriteAppends (contents self.old) (contents self.new) result bytes.now }
        ensures kept { OnOk result (failed self.new ≡ failed self.old) }
        ensures noted { OnErr result (failed self.new ≡ true) };

    /// Returns whether a write has failed so far.
    fn has_failed(&self) -> bool
        ensures { result ≡ failed self.now };
}

/// A [`Source`] over a reader of std. An interruption is a failure like any other.
#[derive(Drop)]
pub struct OverRead<R> {
    inner: R,
    failed: bool,
}

impl<R: Read> OverRead<R> {
    /// Returns a source that reads from `inner`. Nothing has failed yet.
    pub fn new(inner: R) -> OverRead<R>
        ensures bytes { ⟦<OverRead<R> as Source>⟧.remaining result ≡ R.remaining inner }
        ensures fresh { ⟦<OverRead<R> as Source>⟧.failed result ≡ false }
    {
        OverRead {
            inner,
            failed: false,
        }
    }
}

impl<R: Read> Source for OverRead<R> {
    ghost remaining = { λ s. R.remaining s.inner };

    ghost failed = { λ s. s.failed };

    fn read(&mut self, buf: &mut [u8]) -> Result<usize, DeviceFailed> {
        match self.inner.read(buf) {
            Ok(count) => Ok(count),
            Err(_) => {
                self.failed = true;
                Err(DeviceFailed)
            }
        }
    }

    fn has_failed(&self) -> bool {
        self.failed
    }
}

/// A [`Sink`] over a writer of std. An interruption is a failure like any other, and so is a write that takes none of
/// the bytes that it gets.
#[derive(Drop)]
pub struct OverWrite<W> {
    inner: W,
    failed: bool,
}

impl<W: Write> OverWrite<W> {
    /// Returns a sink that writes to `inner`. Nothing has failed yet.
    pub fn new(inner: W) -> OverWrite<W>
        ensures bytes { ⟦<OverWrite<W> as Sink>⟧.contents result ≡ W.contents inner }
        ensures fresh { ⟦<OverWrite<W> as Sink>⟧.failed result ≡ false }
    {
        OverWrite {
            inner,
            failed: false,
        }
    }
}

impl<W: Write> Sink for OverWrite<W> {
    ghost contents = { λ s. W.contents s.inner };

    ghost failed = { λ s. s.failed };

    fn write(&mut self, bytes: &[u8]) -> Result<usize, DeviceFailed> {
        match self.inner.write(bytes) {
            Ok(count) if count > 0 || bytes.is_empty() => Ok(count),
            _ => {
                self.failed = true;
                Err(DeviceFailed)
            }
        }
    }

    fn has_failed(&self) -> bool {
        self.failed
    }
}
