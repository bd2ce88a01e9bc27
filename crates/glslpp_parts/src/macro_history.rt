//! Where macros are defined, as it is at each place of a source and of the files that it includes.

use std::alloc::{AllocError, Global};
use std::collections::BTreeMap;

/// A line that defines or undefines a macro.
#[derive(Clone, Copy)]
pub struct DefinedAt {
    /// The number of its text.
    pub text: u32,
    /// The byte offset there of its word.
    pub start: u32,
    /// The byte offset of its end.
    pub end: u32,
    /// Whether it defines the macro, or undefines it.
    pub is_definition: bool,
    // How many such lines were read before it.
    time: usize,
}

// How many lines were read up to a byte offset of a text.
#[derive(Clone, Copy)]
struct Reached {
    offset: u32,
    lines: usize,
}

// A text, and how many lines were read when places of it were reached.
#[derive(Drop)]
struct Timeline {
    text: u32,
    // The text and the byte offset of the `#include` for which it is read.
    inclusion: Option<(u32, u32)>,
    begin: usize,
    times: Vec<Reached>,
}

/// The lines that define or undefine macros, in the order in which they were read.
#[derive(Drop)]
pub struct MacroHistory {
    alloc: Global,
    by_name: BTreeMap<String, Vec<DefinedAt>>,
    // In the order of their texts.
    timelines: Vec<Timeline>,
    lines: usize,
}

impl MacroHistory {
    /// No lines.
    pub fn new(alloc: Global) -> MacroHistory {
        MacroHistory {
            alloc,
            by_name: BTreeMap::new(alloc),
            timelines: Vec::new(alloc),
            lines: 0,
        }
    }

    // Begins with the text with this number, which is included at a byte offset of another, if it is so.
    pub(crate) fn begin(
        &mut self,
        text: u32,
        inclusion: Option<(u32, u32)>,
    ) -> Result<(), AllocError> {
        self.timelines.push(Timeline {
            text,
            inclusion,
            begin: self.lines,
            times: Vec::new(self.alloc),
        })?;
        Ok(())
    }

    // Takes a line of a text that was read, which defines a name or undefines it.
    pub(crate) fn push(
        &mut self,
        text: u32,
        name: String,
        start: u32,
        end: u32,
        is_definition: bool,
    ) -> Result<(), AllocError> {
        let defined = DefinedAt {
            text,
            start,
            end,
            is_definition,
            time: self.lines,
        };
        self.lines = self.lines.saturating_add(1);
        let entry = self.by_name.entry(name)?;
        entry.or_insert(Vec::new(self.alloc)).push(defined)?;
        self.note_time(text, start, self.lines)
    }

    // Notes how many lines were read up to a byte offset of a text.
    fn note_time(&mut self, text: u32, offset: u32, lines: usize) -> Result<(), AllocError> {
        let index = self.index_of(text);
        if let Some(timeline) = self.timelines.get_mut(index)
            && timeline.text == text
        {
            timeline.times.push(Reached { offset, lines })?;
        }
        Ok(())
    }

    fn index_of(&self, text: u32) -> usize {
        let timelines = self.timelines.as_slice();
        timelines.partition_point(|timeline| timeline.text < text)
    }

    // Notes where texts ended that were included: after all of their lines, and those of the texts in them.
    pub(crate) fn end(&mut self) -> Result<(), AllocError> {
        for left in 0..self.timelines.len() {
            let last = self.timelines.len().saturating_sub(left).saturating_sub(1);
            let Some(timeline) = self.timelines.get_mut(last) else {
                continue;
            };
            timeline.times.sort_by_key(|time| time.offset)?;
            let end = match timeline.times.last() {
                Some(time) => time.lines,
                None => timeline.begin,
            };
            if let Some((text, offset)) = timeline.inclusion {
                self.note_time(text, offset, end)?;
            }
        }
        Ok(())
    }

    /// The line that says what a name is at a byte offset of a text, if one does.
    pub fn last_line(&self, name: &str, text: u32, offset: u32) -> Option<DefinedAt> {
        let timeline = self.timelines.get(self.index_of(text))?;
        if timeline.text != text {
            return None;
        }
        let times = timeline.times.as_slice();
        let count = times.partition_point(|time| time.offset < offset);
        let time = match count.checked_sub(1) {
            Some(last) => times.get(last)?.lines,
            None => timeline.begin,
        };
        let lines = self.by_name.get(name)?.as_slice();
        let count = lines.partition_point(|line| line.time < time);
        lines.get(count.checked_sub(1)?).copied()
    }
}
