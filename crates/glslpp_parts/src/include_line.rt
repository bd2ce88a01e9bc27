//! What an `#include` line names.

use crate::comment_check::count_line_ends;
use crate::fault::{FaultKind, Refusal};
use crate::place::{after_continuations, is_line_end};
use pp_rs::token::Location;
use std::alloc::{AllocError, Global};

/// The name of a file on an `#include` line.
#[derive(Clone, Copy)]
pub struct Header<'a> {
    /// The name, without what it stands between.
    pub name: &'a str,
    /// Whether it stands between `"`, and not between `<` and `>`.
    pub is_quoted: bool,
    /// Its place, with what it stands between.
    pub location: Location,
}

/// What an `#include` line has.
#[derive(Drop)]
pub enum Asked<'a> {
    /// The name of a file.
    File(Header<'a>),
    /// No name, or more than that.
    Refused(Refusal),
}

/// Returns what an `#include` line of a text has. `line` is the place of what follows the word.
pub fn asked_file<'a>(
    alloc: Global,
    text: &'a str,
    line: Location,
) -> Result<Asked<'a>, AllocError> {
    let rest = rest_of(text, line);
    let front = after_blanks(rest);
    let Some((open, close)) = marks_of(front) else {
        let place = place_in(line, rest, front, front.trim_end());
        return refuse(alloc, place, "`#include` takes `\"FILE\"` or `<FILE>`");
    };
    let inner = front.get(1..).unwrap_or("");
    let Some((name, behind)) = inner.split_once(close) else {
        let place = place_in(line, rest, front, first_line(front));
        let message = format!(in alloc; "`#include` without the closing `{close}`")?;
        return Ok(Asked::Refused(refusal(place, message)));
    };
    let whole = front.get(..name.len().saturating_add(2)).unwrap_or("");
    let place = place_in(line, rest, front, whole);
    if name.contains(is_line_end) {
        let message = format!(in alloc; "`#include` without the closing `{close}`")?;
        return Ok(Asked::Refused(refusal(place, message)));
    }
    if name.is_empty() {
        return refuse(alloc, place, "`#include` of a file without a name");
    }
    if name.contains(|c: char| c.is_control()) {
        return refuse(
            alloc,
            place,
            "`#include` of a name with a control character",
        );
    }
    let more = after_blanks(behind);
    if !more.is_empty() {
        let place = place_in(line, rest, more, more.trim_end());
        return refuse(alloc, place, "more text after the file of `#include`");
    }
    Ok(Asked::File(Header {
        name,
        is_quoted: open == '"',
        location: place,
    }))
}

// What follows the word of an `#include`. If the text ends on this line with a comment, the library's place ends in the
// mark that begins that.
fn rest_of(text: &str, line: Location) -> &str {
    let (start, end) = (line.start as usize, line.end as usize);
    let rest = text.get(start..end).unwrap_or("");
    let behind = text.get(end..).unwrap_or("");
    if rest.ends_with('/') && (behind.starts_with('/') || behind.starts_with('*')) {
        return text.get(start..).unwrap_or("");
    }
    rest
}

// The marks between which the name stands with which a text begins.
fn marks_of(text: &str) -> Option<(char, char)> {
    match text.chars().next() {
        Some('"') => Some(('"', '"')),
        Some('<') => Some(('<', '>')),
        _ => None,
    }
}

fn refuse<'a>(alloc: Global, location: Location, message: &str) -> Result<Asked<'a>, AllocError> {
    let message = String::from_str(alloc, message)?;
    Ok(Asked::Refused(refusal(location, message)))
}

fn refusal(location: Location, message: String) -> Refusal {
    Refusal {
        kind: FaultKind::MalformedInclude,
        location,
        message,
    }
}

// The place of a word in a line, where `tail` is the end of the line that begins with the word.
fn place_in(line: Location, rest: &str, tail: &str, word: &str) -> Location {
    let offset = rest.len().saturating_sub(tail.len());
    let before = rest.get(..offset).unwrap_or("");
    let start = line
        .start
        .saturating_add(u32::try_from(offset).unwrap_or(u32::MAX));
    let length = u32::try_from(word.len()).unwrap_or(u32::MAX);
    Location {
        start,
        end: start.saturating_add(length),
        line: line.line.saturating_add(count_line_ends(before)),
    }
}

fn first_line(text: &str) -> &str {
    match text.split_once(is_line_end) {
        Some((line, _)) => line,
        None => text,
    }
}

// The text without the blanks, continuations and comments that it begins with.
fn after_blanks(text: &str) -> &str {
    let mut rest = text;
    for _ in 0..text.len() {
        match after_blank(rest) {
            Some(after) => rest = after,
            None => return rest,
        }
    }
    rest
}

// The text without the blank, continuation or comment that it begins with.
fn after_blank(text: &str) -> Option<&str> {
    if let Some(comment) = text.strip_prefix("/*") {
        return Some(comment.split_once("*/").unwrap_or(("", "")).1);
    }
    if text.starts_with("//") {
        return Some("");
    }
    if let Some(after) = text.strip_prefix(|c: char| c.is_ascii_whitespace() || c == '\x0b') {
        return Some(after);
    }
    let after = after_continuations(text);
    if after.len() < text.len() {
        Some(after)
    } else {
        None
    }
}
