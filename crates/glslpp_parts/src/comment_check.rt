//! Comments that aren't closed, and comments in which an author may have lost text.

ghost use Rattle.std.specs.Prelude.{◌≤◌, IfSome};

use crate::place::{after_continuations, is_line_end};
use pp_rs::SOURCE_LIMIT;
use pp_rs::lexer::Comments;
use pp_rs::token::Location;

/// Returns the place of the `/*` of the comment that goes on to the end of the source, if there is one. `from` is a
/// byte offset of the source that is in no comment.
pub fn open_comment(source: &str, from: usize) -> Option<Location>
    ensures { IfSome result (λ place. from ≤ place.start) }
{
    let tail = source.get(from..)?;
    if !may_be_open(tail) || tail.len() >= SOURCE_LIMIT {
        return None;
    }
    let last = Comments::new(tail).last()?;
    let start = last.start as usize;
    let text = tail.get(start..)?;
    if !is_open(text) {
        return None;
    }
    let shift = text.len().saturating_sub(after_continuations(text).len());
    let start = from.saturating_add(start).saturating_add(shift);
    let before = source.get(..start).unwrap_or("");
    Some(Location {
        start: u32::try_from(start).ok()?,
        end: u32::try_from(start.saturating_add(2)).ok()?,
        line: count_line_ends(before).saturating_add(1),
    })
}

// Whether a `/*` may be open at the end of a text: its `*` is that of the last `*/`, or comes after it.
fn may_be_open(text: &str) -> bool {
    let (front, rest) = match text.rfind("*/") {
        Some(last) => (
            text.get(..last).unwrap_or(""),
            text.get(last..).unwrap_or(""),
        ),
        None => ("", text),
    };
    before_continuations(front).ends_with('/') || rest.contains("/*") || rest.contains("/\\")
}

// Whether the text is a `/*` and no `*/` follows.
fn is_open(text: &str) -> bool {
    match block_body(text) {
        Some(body) => !ends_with_close(body),
        None => false,
    }
}

// What follows the `/*` with which the text begins.
fn block_body(text: &str) -> Option<&str> {
    let slash = after_continuations(text).strip_prefix('/')?;
    after_continuations(slash).strip_prefix('*')
}

// Whether the text ends with `*/`, between which continuations may be.
fn ends_with_close(text: &str) -> bool {
    match text.strip_suffix('/') {
        Some(front) => before_continuations(front).ends_with('*'),
        None => false,
    }
}

// The text without the continuations that it ends with.
fn before_continuations(text: &str) -> &str {
    let mut front = text;
    for _ in 0..text.len() {
        match before_continuation(front) {
            Some(before) => front = before,
            None => return front,
        }
    }
    front
}

// The text without the continuation that it ends with: CR LF and LF CR are one line end each.
fn before_continuation(text: &str) -> Option<&str> {
    for end in ["\\\r\n", "\\\n\r", "\\\n", "\\\r"] {
        if let Some(before) = text.strip_suffix(end) {
            return Some(before);
        }
    }
    None
}

/// How many line ends a text has: CR LF and LF CR are one each.
pub(crate) fn count_line_ends(text: &str) -> u32 {
    let mut count = 0u32;
    // The line end before, unless it is the second of a pair.
    let mut last = None;
    for byte in text.as_bytes() {
        last = match (*byte, last) {
            (b'\n', Some(b'\r')) | (b'\r', Some(b'\n')) => None,
            (b'\n' | b'\r', _) => {
                count = count.saturating_add(1);
                Some(*byte)
            }
            _ => None,
        };
    }
    count
}

/// The byte offset in a comment of the first `/*` that is inside it. The slash of its own `*/` begins none.
pub(crate) fn nested_comment(comment: &str) -> Option<usize> {
    let body = block_body(comment)?;
    let start = comment.len().saturating_sub(body.len());
    let mut rest = body;
    for _ in 0..body.len() {
        let place = rest.find("/*")?;
        rest = rest.get(place.saturating_add(2)..)?;
        if !rest.starts_with('/') {
            let after = body.len().saturating_sub(rest.len());
            return Some(start.saturating_add(after).saturating_sub(2));
        }
    }
    None
}

/// Whether a comment is a `//` that a `\` continues on the next line.
pub(crate) fn is_continued(comment: &str) -> bool {
    let comment = after_continuations(comment);
    block_body(comment).is_none() && comment.contains(is_line_end)
}
