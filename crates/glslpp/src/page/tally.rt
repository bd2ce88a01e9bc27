//! What is counted in the files of a page.

use crate::page::Sight;
use glslpp_html::page::Part;
use glslpp_html::source::Line;
use glslpp_parts::diagnostic::Severity;
use std::alloc::AllocError;

/// What there is to count in files.
#[derive(Clone, Copy)]
pub(crate) struct Tally {
    lines: usize,
    live: usize,
    errors: usize,
    warnings: usize,
}

impl Tally {
    /// Nothing.
    pub(crate) fn nothing() -> Tally {
        Tally {
            lines: 0,
            live: 0,
            errors: 0,
            warnings: 0,
        }
    }

    /// Adds what there is in other files.
    pub(crate) fn add(&mut self, other: Tally) {
        self.lines = self.lines.saturating_add(other.lines);
        self.live = self.live.saturating_add(other.live);
        self.errors = self.errors.saturating_add(other.errors);
        self.warnings = self.warnings.saturating_add(other.warnings);
    }
}

impl<'p, 'a> Sight<'p, 'a> {
    /// Returns what there is to count in a file with these parts.
    pub(crate) fn tally(&self, number: u32, parts: &[Part<'_>]) -> Tally {
        let mut tally = Tally {
            errors: self.view.count(number, Severity::Error),
            warnings: self.view.count(number, Severity::Warning),
            ..Tally::nothing()
        };
        for part in parts {
            tally.lines = tally.lines.saturating_add(part.lines.len());
            tally.live = tally.live.saturating_add(count_live(part.lines.as_slice()));
        }
        tally
    }

    /// Appends how much of a text is compiled, how many messages it has, and where it is included.
    pub(crate) fn push_note_of(
        &self,
        note: &mut String,
        number: u32,
        tally: Tally,
    ) -> Result<(), AllocError> {
        self.push_summary(note, tally)?;
        match self.texts.inclusion(number) {
            Some(inclusion) => {
                let name = self.texts.name(inclusion.text);
                write!(
                    note,
                    ", included by {name}, line {}",
                    inclusion.location.line
                )
            }
            None => Ok(()),
        }
    }

    /// Appends how much is compiled, and how many messages there are.
    pub(crate) fn push_summary(
        &self,
        summary: &mut String,
        tally: Tally,
    ) -> Result<(), AllocError> {
        self.push_live(summary, tally)?;
        push_count(summary, tally.errors, "error")?;
        push_count(summary, tally.warnings, "warning")
    }

    fn push_live(&self, summary: &mut String, tally: Tally) -> Result<(), AllocError> {
        if !self.sheets.are_marked {
            return summary.push_str("too long to be marked");
        }
        if !self.conditions.are_known {
            return summary.push_str("which lines are compiled is not known");
        }
        write!(summary, "{} of {} lines compiled", tally.live, tally.lines)
    }
}

// Appends how many messages of a kind there are, if there are any.
fn push_count(summary: &mut String, count: usize, name: &str) -> Result<(), AllocError> {
    if count == 0 {
        return Ok(());
    }
    let plural = if count == 1 { "" } else { "s" };
    write!(summary, ", {count} {name}{plural}")
}

fn count_live(lines: &[Line]) -> usize {
    let mut count = 0usize;
    for line in lines {
        if line.is_live {
            count = count.saturating_add(1);
        }
    }
    count
}
