//! Runs of the printing program over a source and a sink that move one byte a call, or fail at one of their calls.

ghost use Rattle.std.specs.Prelude.{◌<◌, ◌≤◌};

use pp_print::{DeviceFailed, RunEnd, RunFault, Sink, Source, run};
use pp_rs::token::{Location, PreprocessorError};
use std::alloc::Global;

// How many bytes a call moves.
#[derive(Clone, Copy)]
enum Pace {
    One,
    All,
}

impl Pace {
    // How many of these bytes move.
    fn part(self, bytes: usize) -> usize
        ensures within { result ≤ bytes }
        ensures some { 0 < bytes → 0 < result }
    {
        match self {
            Pace::One => bytes.min(1),
            Pace::All => bytes,
        }
    }

    // The least calls that move these bytes.
    fn calls(self, bytes: usize) -> usize {
        match self {
            Pace::One => bytes,
            Pace::All => bytes.min(1),
        }
    }
}

// A source of these bytes. It fails once it was called so many times.
#[derive(Drop)]
struct Feed {
    bytes: &'static [u8],
    pace: Pace,
    calls: usize,
    failed: bool,
}

impl Source for Feed {
    ghost failed = { λ feed. feed.failed };

    fn read(&mut self, buf: &mut [u8]) -> Result<usize, DeviceFailed> {
        if self.calls == 0 {
            self.failed = true;
            return Err(DeviceFailed);
        }
        self.calls -= 1;
        let count = self.pace.part(self.bytes.len().min(buf.len()));
        let (given, rest) = self.bytes.split_at(count);
        buf[..count].copy_from_slice(given);
        self.bytes = rest;
        Ok(count)
    }

    fn has_failed(&self) -> bool {
        self.failed
    }
}

// A sink that keeps what is written. It fails once it was called so many times.
#[derive(Drop)]
struct Shelf {
    kept: Vec<u8>,
    pace: Pace,
    calls: usize,
    failed: bool,
}

impl Sink for Shelf {
    ghost failed = { λ shelf. shelf.failed };

    fn write(&mut self, bytes: &[u8]) -> Result<usize, DeviceFailed> {
        let count = self.pace.part(bytes.len());
        if self.calls == 0 || self.kept.extend_from_slice(&bytes[..count]).is_err() {
            self.failed = true;
            return Err(DeviceFailed);
        }
        self.calls -= 1;
        Ok(count)
    }

    fn has_failed(&self) -> bool {
        self.failed
    }
}

// A source and definitions, how the run ends, and what it writes.
#[derive(Drop)]
struct Row {
    source: &'static [u8],
    definitions: &'static [(&'static str, &'static str)],
    end: Result<RunEnd, RunFault>,
    output: &'static [u8],
}

const ROWS: [Row; 5] = [
    // A character of two bytes, and an error after three lines.
    Row {
        source: b"a /* \xc3\xa9 */ b\n#pragma c\nd\n#error\ne\n",
        definitions: &[("a", "7")],
        end: Ok(RunEnd::Stopped {
            error: PreprocessorError::ErrorDirective,
            location: Location {
                start: 26,
                end: 31,
                line: 4,
            },
        }),
        output: b"7 b\n#pragma c\nd\n",
    },
    Row {
        source: b"x\n#define F(n) n+n\nF(2)\n",
        definitions: &[],
        end: Ok(RunEnd::Done),
        output: b"x 2 + 2\n",
    },
    Row {
        source: b"",
        definitions: &[("A", "1")],
        end: Ok(RunEnd::Done),
        output: b"",
    },
    Row {
        source: b"a \xc3 b",
        definitions: &[("A", "#")],
        end: Err(RunFault::NotUtf8),
        output: b"",
    },
    Row {
        source: b"a",
        definitions: &[("A", "1"), ("B", "#")],
        end: Err(RunFault::BadWord),
        output: b"",
    },
];

// Whether a run with so many calls that succeed ends so, with this output if no write failed, and only the device that
// it names has failed.
fn ends_so(
    alloc: Global,
    row: &Row,
    pace: Pace,
    (reads, writes): (usize, usize),
    (end, output): (&Result<RunEnd, RunFault>, &[u8]),
) -> bool {
    let mut source = Feed {
        bytes: row.source,
        pace,
        calls: reads,
        failed: false,
    };
    let mut sink = Shelf {
        kept: Vec::new(alloc),
        pace,
        calls: writes,
        failed: false,
    };
    let ended = run(alloc, row.definitions, &mut source, &mut sink);
    ended == *end
        && source.has_failed() == matches!(end, Err(RunFault::ReadFailed))
        && sink.has_failed() == matches!(end, Err(RunFault::WriteFailed))
        && (sink.has_failed() || sink.kept.as_slice() == output)
}

// Whether a row's run ends as it should, with each read and each write failing in turn, and with none.
fn is_right(alloc: Global, row: &Row, pace: Pace) -> bool {
    // The last read finds the end.
    let reads = pace.calls(row.source.len()).saturating_add(1);
    for calls in 0..reads {
        let failed = Err(RunFault::ReadFailed);
        if !ends_so(alloc, row, pace, (calls, 0), (&failed, b"")) {
            return false;
        }
    }
    for calls in 0..pace.calls(row.output.len()) {
        let failed = Err(RunFault::WriteFailed);
        if !ends_so(alloc, row, pace, (reads, calls), (&failed, b"")) {
            return false;
        }
    }
    let writes = row.output.len();
    ends_so(alloc, row, pace, (reads, writes), (&row.end, row.output))
}

#[test]
fn runs_end_at_the_call_that_fails(rt: HostRuntime) {
    for row in &ROWS {
        assert!(rt; is_right(rt.alloc(), row, Pace::One));
        assert!(rt; is_right(rt.alloc(), row, Pace::All));
    }
}
