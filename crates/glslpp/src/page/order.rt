//! The order of parts in a page: a file stands below the line that includes it.

use crate::page::sheet::Sheets;
use glslpp_html::page::Part;
use std::alloc::{AllocError, Global};

/// The parts of the files of a page, from which they are taken in the order in which it shows them.
#[derive(Drop)]
pub(crate) struct Order<'a> {
    // The parts of each file that are left, from the last to the first.
    left: Vec<Vec<Part<'a>>>,
    // The indices of the files that aren't at their end, each within the one before.
    open: Vec<usize>,
    /// The parts that were taken.
    pub(crate) parts: Vec<Part<'a>>,
}

impl<'a> Order<'a> {
    /// No files.
    pub(crate) fn new(alloc: Global) -> Order<'a> {
        Order {
            left: Vec::new(alloc),
            open: Vec::new(alloc),
            parts: Vec::new(alloc),
        }
    }

    /// Takes the parts of the next file, in their order.
    pub(crate) fn push(&mut self, mut parts: Vec<Part<'a>>) -> Result<(), AllocError> {
        parts.reverse();
        self.left.push(parts)?;
        Ok(())
    }

    /// Puts the parts of all files in the order of the page, and those of each file in theirs.
    pub(crate) fn arrange(&mut self, sheets: &Sheets<'_>) -> Result<(), AllocError> {
        for (index, sheet) in sheets.sheets.as_slice().iter().enumerate() {
            if !sheet.is_inner {
                self.open.push(index)?;
                self.take_open(sheets)?;
            }
        }
        Ok(())
    }

    // Takes the parts of the files that are open, and of those within them.
    fn take_open(&mut self, sheets: &Sheets<'_>) -> Result<(), AllocError> {
        // Each file is opened and closed once, and has one part more than files stand within it.
        for _ in 0..sheets.sheets.len().saturating_mul(3) {
            let Some(index) = self.open.last().copied() else {
                return Ok(());
            };
            if self.take_next(index)? {
                self.open_next(sheets, index)?;
            } else {
                self.open.pop();
            }
        }
        Ok(())
    }

    // Takes the next part of a file, and returns whether there is one.
    fn take_next(&mut self, index: usize) -> Result<bool, AllocError> {
        let Some(left) = self.left.get_mut(index) else {
            return Ok(false);
        };
        match left.pop() {
            Some(part) => {
                self.parts.push(part)?;
                Ok(true)
            }
            None => Ok(false),
        }
    }

    // Opens the file that stands behind the part of a file that was taken last.
    fn open_next(&mut self, sheets: &Sheets<'_>, index: usize) -> Result<(), AllocError> {
        let Some(sheet) = sheets.sheets.get(index) else {
            return Ok(());
        };
        let next = sheet.inner.len().saturating_sub(self.count_left(index));
        if let Some(inner) = sheet.inner.get(next) {
            self.open.push(inner.index)?;
        }
        Ok(())
    }

    // How many parts of a file are left.
    fn count_left(&self, index: usize) -> usize {
        match self.left.get(index) {
            Some(parts) => parts.len(),
            None => 0,
        }
    }
}
