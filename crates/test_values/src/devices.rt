//! Readers and writers of std as sources and outputs of the printing program.

use pp_print::{DeviceFailed, OverRead, OverWrite, Sink, Source};
use std::alloc::Global;
use std::io;

// A reader of std that was interrupted, and a writer that takes no byte.
#[derive(Drop)]
struct Stuck;

impl io::Read for Stuck {
    fn read(&mut self, _buf: &mut [u8]) -> io::Result<usize> {
        Err(io::Error::from(io::ErrorKind::Interrupted))
    }
}

impl io::Write for Stuck {
    fn write(&mut self, _buf: &[u8]) -> io::Result<usize> {
        Ok(0)
    }

    fn flush(&mut self) -> io::Result<()> {
        Ok(())
    }
}

// Whether an interrupted read is a failure that stays.
fn notes_failed_read() -> bool {
    let mut reader = OverRead::new(Stuck);
    let failed_first = reader.has_failed();
    let answer = reader.read(&mut [0; 4]);
    !failed_first && matches!(answer, Err(DeviceFailed)) && reader.has_failed()
}

// Whether no byte is taken of none, and a failure is that none is taken of one.
fn notes_failed_write() -> bool {
    let mut writer = OverWrite::new(Stuck);
    let none = writer.write(&[]);
    let failed_first = writer.has_failed();
    let one = writer.write(b"a");
    matches!(none, Ok(0))
        && !failed_first
        && matches!(one, Err(DeviceFailed))
        && writer.has_failed()
}

// Whether the bytes of a reader come, two at most a read.
fn passes_reads_on() -> bool {
    let mut reader = OverRead::new(b"abc".as_slice());
    let mut buffer = [0; 2];
    let two = reader.read(&mut buffer);
    let is_front = buffer.as_slice() == b"ab".as_slice();
    let one = reader.read(&mut buffer);
    let none = reader.read(&mut buffer);
    is_front && matches!((two, one, none), (Ok(2), Ok(1), Ok(0))) && !reader.has_failed()
}

fn passes_writes_on(alloc: Global) -> bool {
    let mut writer = OverWrite::new(Vec::new(alloc));
    let answer = writer.write(b"abc");
    matches!(answer, Ok(3)) && !writer.has_failed()
}

#[test]
fn what_readers_and_writers_do_is_passed_on_and_noted(rt: HostRuntime) {
    assert!(rt; passes_reads_on());
    assert!(rt; passes_writes_on(rt.alloc()));
    assert!(rt; notes_failed_read());
    assert!(rt; notes_failed_write());
}
