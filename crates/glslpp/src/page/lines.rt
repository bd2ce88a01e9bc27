//! The lines of a file with what is said of them.

use crate::page::Sight;
use crate::page::marks::{empty_note, marks_of};
use crate::page::sheet::{Piece, Sheet};
use crate::page::verdicts::{dead_branch, push_dead_branches};
use glslpp_html::source::{Line, Mark, Note};
use glslpp_parts::condition::Branch;
use std::alloc::{AllocError, Global};

/// What was found in a file and is shown on its lines.
#[derive(Drop)]
pub(crate) struct Found<'p> {
    // The branches of the file, and of each the outermost around it, or itself, after which nothing is read.
    branches: &'p [Branch],
    dead: Vec<Option<usize>>,
    // The marks that are on no line yet, from the last to the first.
    marks: Vec<Mark>,
}

// A line of a text, between byte offsets of it.
#[derive(Clone, Copy)]
struct Row {
    text: u32,
    number: usize,
    start: usize,
    end: usize,
    is_last: bool,
}

impl<'p> Found<'p> {
    // The outermost branch for which a line isn't read.
    fn dead(&self, row: Row) -> Option<usize> {
        dead_branch(self.branches, self.dead.as_slice(), row.start, row.end)
    }

    // Moves the marks of a line, or all that are left to the last one. Their places count from another byte offset.
    fn take_marks(
        &mut self,
        taken: &mut Vec<Mark>,
        row: Row,
        base: usize,
    ) -> Result<(), AllocError> {
        for _ in 0..self.marks.len() {
            if !self.has_mark(row) {
                return Ok(());
            }
            self.take_mark(taken, base)?;
        }
        Ok(())
    }

    fn has_mark(&self, row: Row) -> bool {
        match self.marks.last() {
            Some(mark) => row.is_last || mark.start < row.end,
            None => false,
        }
    }

    fn take_mark(&mut self, taken: &mut Vec<Mark>, base: usize) -> Result<(), AllocError> {
        if let Some(mark) = self.marks.last_mut() {
            mark.start = mark.start.saturating_sub(base);
            mark.end = mark.end.saturating_sub(base);
        }
        if let Some(mark) = self.marks.pop() {
            taken.push(mark)?;
        }
        Ok(())
    }
}

impl<'p, 'a> Sight<'p, 'a> {
    /// Returns what was found in a file.
    pub(crate) fn found(&self, sheet: &Sheet<'_>) -> Result<Found<'p>, AllocError> {
        let branches = self.branches(sheet.number);
        let mut marks = marks_of(self, sheet)?;
        marks.reverse();
        let mut found = Found {
            branches,
            dead: Vec::new(self.alloc),
            marks,
        };
        push_dead_branches(&mut found.dead, branches)?;
        Ok(found)
    }

    // The branches of a text, if they are known.
    fn branches(&self, number: u32) -> &'p [Branch] {
        if self.conditions.are_known {
            self.conditions.branches(number)
        } else {
            &[]
        }
    }

    /// Appends the lines of a piece of a file, whose places are in the piece, with what was found there.
    pub(crate) fn push_lines(
        &self,
        lines: &mut Vec<Line>,
        sheet: &Sheet<'_>,
        piece: Piece,
        found: &mut Found<'p>,
    ) -> Result<(), AllocError> {
        let mut row = Row {
            text: sheet.number,
            number: piece.first,
            start: piece.start,
            end: piece.start,
            is_last: false,
        };
        let mut last = None;
        for end in sheet.ends.get(piece.first..piece.last).unwrap_or(&[]) {
            row.number = row.number.saturating_add(1);
            row.start = row.end;
            row.end = *end;
            row.is_last = *end == sheet.file.text.len();
            let dead = found.dead(row);
            lines.push(plain_line(self.alloc, end.saturating_sub(piece.start)))?;
            if let Some(line) = lines.last_mut() {
                line.is_live = dead.is_none();
                line.is_continued = last == dead;
                self.fill_line(line, row, dead, piece.start, found)?;
            }
            last = dead;
        }
        Ok(())
    }

    // Puts on a line what was found there. Places count from a byte offset.
    fn fill_line(
        &self,
        line: &mut Line,
        row: Row,
        dead: Option<usize>,
        base: usize,
        found: &mut Found<'p>,
    ) -> Result<(), AllocError> {
        self.push_reason_for(&mut line.reason, row.text, found.branches, dead)?;
        self.view
            .push_printed(&mut line.output, row.text, row.number)?;
        self.view.push_said(&mut line.note, row.text, row.number)?;
        found.take_marks(&mut line.marks, row, base)
    }

    // Appends why a line isn't compiled, of which this is the outermost branch for which it isn't.
    fn push_reason_for(
        &self,
        reason: &mut Note,
        number: u32,
        branches: &[Branch],
        dead: Option<usize>,
    ) -> Result<(), AllocError> {
        let Some(index) = dead else {
            return Ok(());
        };
        match branches.get(index) {
            Some(branch) => self.push_reason(reason, number, branches, branch),
            None => Ok(()),
        }
    }
}

// A line that ends at a byte offset, of which nothing is said yet.
fn plain_line(alloc: Global, end: usize) -> Line {
    Line {
        end,
        is_live: true,
        reason: empty_note(alloc),
        is_continued: false,
        output: String::new(alloc),
        note: String::new(alloc),
        marks: Vec::new(alloc),
    }
}
