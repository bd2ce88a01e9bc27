//! The characters that the three readers give.

use pp_rs::SOURCE_LIMIT;
use pp_rs::lexer::{CharsAndLine, ReplaceComments, SkipBackslashNewline};
use std::io;

// A character by its number, with its line and the offset after it.
fn show(rt: &impl Print, item: (char, u32), offset: usize) -> io::Result<()> {
    let (c, line) = item;
    let code = c as u32;
    println!(rt; "{code} {line} {offset}")
}

// The offset of a `CharsAndLine`, and what it has left.
fn lines_left(rt: &impl Print, mut reader: CharsAndLine<'_>) -> io::Result<()> {
    println!(rt; "from {}", reader.get_current_offset())?;
    for _ in 0..u64::MAX {
        let Some(item) = reader.next() else {
            break;
        };
        show(rt, item, reader.get_current_offset())?;
    }
    println!(rt; "{:?} {}", reader.next(), reader.get_current_offset())
}

// What `SkipBackslashNewline` has left.
fn joined_left(rt: &impl Print, mut reader: SkipBackslashNewline<'_>) -> io::Result<()> {
    println!(rt; "from {}", reader.get_current_offset())?;
    for _ in 0..u64::MAX {
        let Some(item) = reader.next() else {
            break;
        };
        show(rt, item, reader.get_current_offset())?;
    }
    println!(rt; "{:?} {}", reader.next(), reader.get_current_offset())
}

// What `ReplaceComments` has left.
fn uncommented_left(rt: &impl Print, mut reader: ReplaceComments<'_>) -> io::Result<()> {
    println!(rt; "from {}", reader.get_current_offset())?;
    for _ in 0..u64::MAX {
        let Some(item) = reader.next() else {
            break;
        };
        show(rt, item, reader.get_current_offset())?;
    }
    println!(rt; "{:?} {}", reader.next(), reader.get_current_offset())
}

/// Those of `CharsAndLine`.
pub(crate) fn lines(rt: &impl Print, source: &str) -> io::Result<()> {
    if source.len() < SOURCE_LIMIT {
        lines_left(rt, CharsAndLine::new(source))?;
    }
    Ok(())
}

/// Those of `SkipBackslashNewline`.
pub(crate) fn joined(rt: &impl Print, source: &str) -> io::Result<()> {
    if source.len() < SOURCE_LIMIT {
        joined_left(rt, SkipBackslashNewline::new(source))?;
    }
    Ok(())
}

/// Those of `ReplaceComments`.
pub(crate) fn uncommented(rt: &impl Print, source: &str) -> io::Result<()> {
    if source.len() < SOURCE_LIMIT {
        uncommented_left(rt, ReplaceComments::new(source))?;
    }
    Ok(())
}

/// Those of a copy of each reader, which is made after the first character, and then those of the reader itself.
pub(crate) fn copies(rt: &impl Print, source: &str) -> io::Result<()> {
    if source.len() >= SOURCE_LIMIT {
        return Ok(());
    }
    let mut lines = CharsAndLine::new(source);
    lines.next();
    lines_left(rt, lines.clone()?)?;
    lines_left(rt, lines)?;
    let mut joined = SkipBackslashNewline::new(source);
    joined.next();
    joined_left(rt, joined.clone()?)?;
    joined_left(rt, joined)?;
    let mut uncommented = ReplaceComments::new(source);
    uncommented.next();
    uncommented_left(rt, uncommented.clone()?)?;
    uncommented_left(rt, uncommented)
}
