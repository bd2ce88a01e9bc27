//! The line of a place, with a caret under the place.

ghost use Rattle.std.specs.Prelude.{OnOk, string_bytes};
ghost use Rattle.glslpp_parts.specs.inner.Adding.{IsLonger};

use crate::place::Place;
use std::alloc::AllocError;
use unicode_width::UnicodeWidthChar;

// The most columns of a line that are shown.
const MOST_COLUMNS: usize = 160;

// The most columns before the place that are shown of a wider line.
const MOST_BEFORE: usize = 80;

// What stands for text that isn't shown.
const CUT: &str = "...";

/// What is shown of the line of a place: its text before the place, at it and after it.
#[derive(Clone, Copy)]
pub(crate) struct Excerpt<'a> {
    before: &'a str,
    here: &'a str,
    behind: &'a str,
    is_cut_before: bool,
    is_cut_behind: bool,
}

impl<'a> Excerpt<'a> {
    /// The whole line, or the columns around the place if the line has more than 160.
    pub(crate) fn of(place: Place<'a>) -> Excerpt<'a> {
        let (before, here, behind) = (place.before, place.here, place.behind);
        let rest = columns_of(here).saturating_add(columns_of(behind));
        if columns_of(before).saturating_add(rest) <= MOST_COLUMNS {
            return Excerpt {
                before,
                here,
                behind,
                is_cut_before: false,
                is_cut_behind: false,
            };
        }
        let before = last_columns(before, MOST_BEFORE);
        let here = first_columns(here, MOST_COLUMNS - MOST_BEFORE);
        let left = (MOST_COLUMNS - MOST_BEFORE).saturating_sub(columns_of(here));
        Excerpt {
            before,
            here,
            behind: first_columns(behind, left),
            is_cut_before: before.len() < place.before.len(),
            is_cut_behind: rest > MOST_COLUMNS - MOST_BEFORE,
        }
    }

    /// Whether it is the whole line.
    pub(crate) fn is_whole(&self) -> bool {
        !self.is_cut_before && !self.is_cut_behind
    }

    /// Appends the text of the line, with dots for what isn't shown.
    pub(crate) fn push_text(&self, text: &mut String) -> Result<(), AllocError>
        ensures { OnOk result (IsLonger (string_bytes text.old) (string_bytes text.new)) }
    {
        text.push_str(mark(self.is_cut_before))?;
        push_shown(text, self.before)?;
        push_shown(text, self.here)?;
        push_shown(text, self.behind)?;
        text.push_str(mark(self.is_cut_behind))?;
        text.push('\n')
    }

    /// Appends the blanks under what is before the place.
    pub(crate) fn push_blanks(&self, text: &mut String) -> Result<(), AllocError>
        ensures { OnOk result (IsLonger (string_bytes text.old) (string_bytes text.new)) }
    {
        push_blanks_under(text, mark(self.is_cut_before))?;
        push_blanks_under(text, self.before)
    }

    /// Appends the caret under the first character at the place, and waves under the others.
    pub(crate) fn push_caret(&self, text: &mut String) -> Result<(), AllocError>
        ensures { OnOk result (IsLonger (string_bytes text.old) (string_bytes text.new)) }
    {
        text.push('^')?;
        push_waves_under(text, self.here)
    }
}

fn mark(is_cut: bool) -> &'static str {
    if is_cut { CUT } else { "" }
}

// Appends a text, with U+FFFD for each control character but the tab.
fn push_shown(text: &mut String, shown: &str) -> Result<(), AllocError>
    ensures { OnOk result (IsLonger (string_bytes text.old) (string_bytes text.new)) }
{
    for c in shown.chars() {
        text.push(if c.is_control() && c != '\t' {
            '\u{fffd}'
        } else {
            c
        })?;
    }
    Ok(())
}

// The end of a text that takes at most this many columns.
fn last_columns(text: &str, most: usize) -> &str {
    let mut columns = 0usize;
    for (place, c) in text.char_indices().rev() {
        columns = columns.saturating_add(columns_of_char(c));
        if columns > most {
            return text.get(place.saturating_add(c.len_utf8())..).unwrap_or("");
        }
    }
    text
}

// The start of a text that takes at most this many columns.
fn first_columns(text: &str, most: usize) -> &str {
    let mut columns = 0usize;
    for (place, c) in text.char_indices() {
        columns = columns.saturating_add(columns_of_char(c));
        if columns > most {
            return text.get(..place).unwrap_or("");
        }
    }
    text
}

// How many columns of a terminal a text takes.
fn columns_of(text: &str) -> usize {
    let mut columns = 0usize;
    for c in text.chars() {
        columns = columns.saturating_add(columns_of_char(c));
    }
    columns
}

// Appends the blanks under a text.
fn push_blanks_under(text: &mut String, above: &str) -> Result<(), AllocError>
    ensures { OnOk result (IsLonger (string_bytes text.old) (string_bytes text.new)) }
{
    for c in above.chars() {
        push_blank_under(text, c)?;
    }
    Ok(())
}

// Appends waves under what is at the place, but for its first character, which has the caret.
fn push_waves_under(text: &mut String, here: &str) -> Result<(), AllocError>
    ensures { OnOk result (IsLonger (string_bytes text.old) (string_bytes text.new)) }
{
    for c in here.chars().skip(1) {
        push_wave_under(text, c)?;
    }
    Ok(())
}

// Appends the blanks under a character before the caret: a tab under a tab, nothing under a mark that takes no room,
// and else spaces.
fn push_blank_under(text: &mut String, c: char) -> Result<(), AllocError>
    ensures { OnOk result (IsLonger (string_bytes text.old) (string_bytes text.new)) }
{
    match (c, columns_of_char(c)) {
        ('\t', _) => text.push('\t'),
        (_, 0) => Ok(()),
        (_, 2) => text.push_str("  "),
        _ => text.push(' '),
    }
}

fn push_wave_under(text: &mut String, c: char) -> Result<(), AllocError>
    ensures { OnOk result (IsLonger (string_bytes text.old) (string_bytes text.new)) }
{
    match columns_of_char(c) {
        0 => Ok(()),
        2 => text.push_str("~~"),
        _ => text.push('~'),
    }
}

// How many columns of a terminal a character takes.
fn columns_of_char(c: char) -> usize {
    c.width().unwrap_or(1)
}
