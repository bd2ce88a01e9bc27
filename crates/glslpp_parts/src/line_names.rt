//! `#line` lines with the name of a file, `#line 7 "a.glsl"`, as other preprocessors print them.
//!
//! The library reads a `#line` with numbers alone. So it is given a text with blanks in place of the names, of the same
//! length. Where the lines of the output come from is printed with the names.

ghost use Rattle.std.specs.Prelude.{◌≡◌, ◌<◌, ◌+◌, ◌^◌, ◌++◌, OnOk, IfOk, IfSome, false, length, option_map};
ghost use Rattle.std.specs.Prelude.{string_bytes, unwrap_or};
ghost use Rattle.std.proofs.Math.ListN.{replicate};
ghost use Rattle.std.specs.Str.{trim_start};
ghost use Rattle.glslpp_parts.specs.LineNames.{IsBlanked, label_or, leading_digits, line_numbering, line_rest};
ghost use Rattle.glslpp_parts.specs.LineNames.{name_length, numbering_of, past_digits, past_word, quoted_name};
ghost use Rattle.glslpp_parts.specs.inner.Adding.{IsBlankedOnto};

use crate::place::is_line_end;
use std::alloc::{AllocError, Global};

/// A `#line` of a text whose number is written in digits.
#[derive(Clone, Copy)]
pub struct LineMark<'a> {
    /// The 1-based line that it is on.
    pub line: u32,
    /// Its number.
    pub number: u32,
    /// What follows the number: the name in its quotes, another number, or nothing.
    pub label: &'a str,
}

/// Returns the text with blanks in place of the names of its `#line` lines, or `None` if it has none.
pub fn without_names(alloc: Global, text: &str) -> Result<Option<String>, AllocError>
    ensures blanked { IfOk result (λ changed. IfSome changed (λ blanked. IsBlanked text.now (string_bytes blanked))) }
    ensures length { IfOk result (λ changed. IfSome changed (λ blanked.
        length (string_bytes blanked) ≡ length text.now)) }
{
    if !may_have_names(text) {
        return Ok(None);
    }
    let mut blanked = String::new(alloc);
    let mut is_changed = false;
    for line in text.split_inclusive(is_line_end) {
        is_changed |= push_without_name(&mut blanked, line)?;
    }
    if !is_changed {
        return Ok(None);
    }
    Ok(Some(blanked))
}

// Appends a line with blanks in place of the name of its `#line`, and returns whether it has one.
fn push_without_name(blanked: &mut String, line: &str) -> Result<bool, AllocError>
    ensures { OnOk result (IsBlankedOnto line.now (string_bytes blanked.old) (string_bytes blanked.new)) }
{
    if let Some(rest) = after_word(line)
        && let Some(front) = line.strip_suffix(rest)
        && let Some((before, name, behind)) = split_name(rest)
    {
        blanked.push_str(front)?;
        blanked.push_str(before)?;
        push_blanks(blanked, name.len())?;
        blanked.push_str(behind)?;
        return Ok(true);
    }
    blanked.push_str(line)?;
    Ok(false)
}

fn push_blanks(text: &mut String, count: usize) -> Result<(), AllocError>
    ensures { OnOk result (string_bytes text.new ≡ string_bytes text.old ++ replicate count 32) }
{
    for done in 0..count {
        text.push(' ')?;
    }
    Ok(())
}

/// Returns the `#line` lines of a text, in its order, and none if no name is in them.
pub fn line_marks<'a>(alloc: Global, text: &'a str) -> Result<Vec<LineMark<'a>>, AllocError> {
    let mut marks = Vec::new(alloc);
    if !may_have_names(text) {
        return Ok(marks);
    }
    let mut number = 1u32;
    let mut last = None;
    let mut label = "";
    let mut has_names = false;
    for line in text.split_inclusive(is_line_end) {
        if let Some(mark) = mark_of(line, number, label) {
            has_names = has_names || mark.label.starts_with('"');
            label = mark.label;
            marks.push(mark)?;
        }
        let end = line.chars().next_back();
        // CR LF and LF CR are one line end each.
        if is_second(line, last) {
            last = None;
        } else {
            number = number.saturating_add(1);
            last = end;
        }
    }
    if !has_names {
        marks.clear();
    }
    Ok(marks)
}

// Whether a line has only the second character of the line end before, which ends with this one.
fn is_second(line: &str, last: Option<char>) -> bool {
    match last {
        Some('\r') => line == "\n",
        Some('\n') => line == "\r",
        _ => false,
    }
}

// Whether a text may have `#line` lines with names.
fn may_have_names(text: &str) -> bool {
    text.contains('"') && text.contains("line")
}

// What follows the word of a `#line` line.
fn after_word(line: &str) -> Option<&str>
    ensures { option_map (λ rest. rest.now) result ≡ line_rest line.now }
{
    let rest = past_word(past_word(line, "#")?, "line")?;
    if rest.as_bytes().first()?.is_ascii_whitespace() {
        Some(rest)
    } else {
        None
    }
}

// What follows the white space with which a text begins, and a word.
fn past_word<'a>(text: &'a str, word: &str) -> Option<&'a str>
    ensures { option_map (λ rest. rest.now) result ≡ past_word text.now word.now }
{
    text.trim_start().strip_prefix(word)
}

// The name in its quotes in what follows the word of a `#line` line, with what is before it and behind it.
fn split_name(rest: &str) -> Option<(&str, &str, &str)>
    ensures name { option_map (λ parts. parts.1.now) result ≡ quoted_name rest.now }
    ensures whole { IfSome result (λ parts. rest.now ≡ parts.0.now ++ parts.1.now ++ parts.2.now) }
{
    let (front, inner) = rest.split_once('"')?;
    let length = name_length(inner)?.saturating_add(2);
    let (before, named) = rest.split_at_checked(front.len())?;
    let (name, behind) = named.split_at_checked(length)?;
    Some((before, name, behind))
}

// How much of a name is before the `"` that ends it. One after a backslash doesn't.
fn name_length(name: &str) -> Option<usize>
    ensures value { result ≡ name_length false name.now }
    ensures fits { IfSome result (λ length. length + 2 < 2 ^ 64) }
{
    let bytes = name.as_bytes();
    let mut is_escaped = false;
    for length in 0..bytes.len() {
        if is_escaped {
            is_escaped = false;
        } else if bytes[length] == b'"' {
            return Some(length);
        } else {
            is_escaped = bytes[length] == b'\\';
        }
    }
    None
}

// The `#line` that the line with this number is, if its own number is written in digits. Without a label it has that
// before.
fn mark_of<'a>(line: &'a str, at: u32, label: &'a str) -> Option<LineMark<'a>>
    ensures { option_map numbering_of result ≡ line_numbering line.now at label.now }
{
    let rest = after_word(line)?;
    let (digits, behind) = split_digits(rest.trim_start());
    let number = digits.parse::<u32>().ok()?;
    Some(LineMark {
        line: at,
        number,
        label: label_or(label, own_label(rest, behind)),
    })
}

// The label of a `#line`, or that of the one before if it has none.
fn label_or<'a>(before: &'a str, own: &'a str) -> &'a str
    ensures { result.now ≡ label_or before.now own.now }
{
    if own.is_empty() { before } else { own }
}

// What follows the number of a `#line`: a name, or the digits of another number.
fn own_label<'a>(rest: &'a str, behind: &'a str) -> &'a str
    ensures { result.now ≡ unwrap_or (quoted_name rest.now) (leading_digits (trim_start behind.now)) }
{
    match split_name(rest) {
        Some((_, name, _)) => name,
        None => split_digits(behind.trim_start()).0,
    }
}

// The digits with which a text begins, and what follows them.
fn split_digits(text: &str) -> (&str, &str)
    ensures digits { result.0.now ≡ leading_digits text.now }
    ensures rest { result.1.now ≡ past_digits text.now }
{
    let end = text
        .as_bytes()
        .iter()
        .position(|byte| !byte.is_ascii_digit())
        .unwrap_or(text.len());
    text.split_at_checked(end).unwrap_or((text, ""))
}
