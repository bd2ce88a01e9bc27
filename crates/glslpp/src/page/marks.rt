//! What is marked in a text.

use crate::page::Sight;
use crate::page::sheet::Sheet;
use glslpp_html::source::{Class, Mark, Note};
use pp_rs::SOURCE_LIMIT;
use pp_rs::lexer::Comments;
use std::alloc::{AllocError, Global};

/// Returns the marks of a file, in their order.
pub(crate) fn marks_of(sight: &Sight<'_, '_>, sheet: &Sheet<'_>) -> Result<Vec<Mark>, AllocError> {
    let mut marks = Vec::new(sight.alloc);
    if sheet.file.text.len() < SOURCE_LIMIT {
        push_marks(sight, &mut marks, sheet)?;
    }
    Ok(marks)
}

fn push_marks(
    sight: &Sight<'_, '_>,
    marks: &mut Vec<Mark>,
    sheet: &Sheet<'_>,
) -> Result<(), AllocError> {
    sight.push_branches(marks, sheet.number)?;
    sight.push_uses(marks, sheet)?;
    sight.push_inclusions(marks, sheet.number)?;
    sort_marks(marks)?;
    sight.push_words(marks, sheet)?;
    push_comments(sight.alloc, marks, sheet.file.text)?;
    sort_marks(marks)
}

// Puts marks in the order of the places where they begin.
fn sort_marks(marks: &mut Vec<Mark>) -> Result<(), AllocError> {
    marks.sort_by_key(|mark| mark.start)
}

/// A mark that shows nothing yet.
pub(crate) fn plain_mark(alloc: Global, start: usize, end: usize, class: Class) -> Mark {
    Mark {
        start,
        end,
        class,
        title: empty_note(alloc),
        note: String::new(alloc),
        steps: Vec::new(alloc),
    }
}

/// A note without a text.
pub(crate) fn empty_note(alloc: Global) -> Note {
    Note {
        text: String::new(alloc),
        target: String::new(alloc),
    }
}

// Appends the comments of a text.
fn push_comments(alloc: Global, marks: &mut Vec<Mark>, text: &str) -> Result<(), AllocError> {
    let Some(comments) = Comments::try_new(text) else {
        return Ok(());
    };
    'comments: for place in comments {
        let start = place.start as usize;
        let comment = text.get(start..place.end as usize).unwrap_or("");
        push_comment(alloc, marks, start, comment)?;
    }
    Ok(())
}

// Appends a comment, each of its lines for itself.
fn push_comment(
    alloc: Global,
    marks: &mut Vec<Mark>,
    start: usize,
    comment: &str,
) -> Result<(), AllocError> {
    let mut start = start;
    for part in comment.split_inclusive(is_cut) {
        push_part(alloc, marks, start, part)?;
        start = start.saturating_add(part.len());
    }
    Ok(())
}

// Appends a part of a comment that ends with its line or with a character that changes the order of others.
fn push_part(
    alloc: Global,
    marks: &mut Vec<Mark>,
    start: usize,
    part: &str,
) -> Result<(), AllocError> {
    let plain = part.trim_end_matches(changes_order);
    let end = start.saturating_add(plain.len());
    marks.push(plain_mark(alloc, start, end, Class::Comment))?;
    match part.chars().next_back() {
        Some(c) if changes_order(c) => {
            push_direction(alloc, marks, end, start.saturating_add(part.len()), c)
        }
        _ => Ok(()),
    }
}

// Appends a mark for a character that changes the order of others.
fn push_direction(
    alloc: Global,
    marks: &mut Vec<Mark>,
    start: usize,
    end: usize,
    c: char,
) -> Result<(), AllocError> {
    marks.push(plain_mark(alloc, start, end, Class::Direction))?;
    match marks.last_mut() {
        Some(mark) => write!(mark.note, "U+{:04X}", c as u32),
        None => Ok(()),
    }
}

// Whether a part of a comment ends with a character.
fn is_cut(c: char) -> bool {
    c == '\n' || c == '\r' || changes_order(c)
}

// Whether a character changes the order in which others are shown (Unicode Standard Annex 9).
fn changes_order(c: char) -> bool {
    matches!(c, '\u{61c}' | '\u{200e}' | '\u{200f}' | '\u{202a}'..='\u{202e}' | '\u{2066}'..='\u{2069}')
}

impl<'p, 'a> Sight<'p, 'a> {
    // Appends links from the `#include` lines of a text to what they include.
    fn push_inclusions(&self, marks: &mut Vec<Mark>, number: u32) -> Result<(), AllocError> {
        for sheet in self.sheets.sheets.as_slice() {
            match self.texts.inclusion(sheet.number) {
                Some(inclusion) if inclusion.text == number => {
                    let (start, end) = (inclusion.location.start, inclusion.location.end);
                    self.push_link(marks, start, end, sheet)?;
                }
                _ => {}
            }
        }
        Ok(())
    }

    // Appends a link to a file.
    fn push_link(
        &self,
        marks: &mut Vec<Mark>,
        start: u32,
        end: u32,
        sheet: &Sheet<'_>,
    ) -> Result<(), AllocError> {
        let mark = plain_mark(self.alloc, start as usize, end as usize, Class::Directive);
        marks.push(mark)?;
        match marks.last_mut() {
            Some(mark) => {
                mark.title.text.push_str(sheet.file.name)?;
                self.sheets.push_id(&mut mark.title.target, sheet.number)
            }
            None => Ok(()),
        }
    }
}
