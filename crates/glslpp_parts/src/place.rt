//! Places of a text as compilers print them.

ghost use Rattle.std.specs.Prelude.{◌≡◌, IfSome};
ghost use Rattle.pp_lexer.specs.Lines.{is_line_break};
ghost use Rattle.glslpp_parts.specs.Columns.{column_at};

use crate::columns::column_at;
use crate::texts::Spot;

/// A place of a text, with its line split into the text before it, at it and after it.
#[derive(Clone, Copy)]
pub struct Place<'a> {
    /// The text that it is in.
    pub text: &'a str,
    /// The number of that text.
    pub number: u32,
    /// The name of that text in messages.
    pub name: &'a str,
    /// The byte offset at which it begins.
    pub start: usize,
    /// The text of its line before it.
    pub before: &'a str,
    /// The text at the place, as far as its line goes.
    pub here: &'a str,
    /// The text of its line after that.
    pub behind: &'a str,
}

impl<'a> Place<'a> {
    /// Returns the place of a spot, or `None` if its text has no such spot.
    pub fn find(spot: Spot<'a>) -> Option<Place<'a>>
        ensures { IfSome result (λ place. place.text.now ≡ spot.entry.text.now) }
    {
        let start = first_byte(spot)?;
        let end = spot.end.max(first_char_end(spot.text, start));
        let before = spot.text.get(..start)?;
        let here = spot.text.get(start..end)?;
        let behind = spot.text.get(end..)?;
        Some(Place {
            text: spot.text,
            number: spot.number,
            name: spot.name,
            start,
            before: last_line(before),
            here: first_line(here),
            behind: if here.contains(is_line_end) {
                ""
            } else {
                first_line(behind)
            },
        })
    }

    /// Its column in characters, from 1.
    pub(crate) fn column(&self) -> usize
        ensures { result ≡ column_at self.now.text.now self.now.start }
    {
        column_at(self.text, self.start)
    }
}

/// The byte offset at which a spot begins in its text, or `None` if its text has no such spot. A spot after a
/// continuation begins at the backslash of the continuation, which this function skips.
pub(crate) fn first_byte(spot: Spot<'_>) -> Option<usize> {
    let rest = spot.text.get(spot.start..)?;
    let after = after_continuations(rest);
    Some(spot.text.len().saturating_sub(after.len()))
}

/// Whether it is LF or CR, the characters of line ends.
pub(crate) fn is_line_end(c: char) -> bool
    ensures { result ≡ is_line_break c }
{
    c == '\n' || c == '\r'
}

// What follows the last line end of a text.
fn last_line(text: &str) -> &str {
    match text.rfind(is_line_end) {
        Some(end) => text.get(end.saturating_add(1)..).unwrap_or(""),
        None => text,
    }
}

// What is before the first line end.
fn first_line(text: &str) -> &str {
    match text.find(is_line_end) {
        Some(end) => text.get(..end).unwrap_or(""),
        None => text,
    }
}

// The end of the character that begins at `start`.
fn first_char_end(text: &str, start: usize) -> usize {
    match text.get(start..).unwrap_or("").chars().next() {
        Some(c) if !is_line_end(c) => start.saturating_add(c.len_utf8()),
        _ => start,
    }
}

/// The text without the continuations that it begins with.
pub(crate) fn after_continuations(text: &str) -> &str {
    let mut rest = text;
    for _ in 0..text.len() {
        match after_continuation(rest) {
            Some(after) => rest = after,
            None => return rest,
        }
    }
    rest
}

// The text without the continuation that it begins with.
fn after_continuation(text: &str) -> Option<&str> {
    after_line_end(text.strip_prefix('\\')?)
}

// The text without the line end that it begins with: CR LF and LF CR are one each.
fn after_line_end(text: &str) -> Option<&str> {
    for pair in ["\r\n", "\n\r"] {
        if let Some(after) = text.strip_prefix(pair) {
            return Some(after);
        }
    }
    text.strip_prefix(is_line_end)
}
