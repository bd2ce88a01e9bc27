//! What a run gives for a page: messages on lines, and what became of tokens.

use glslpp_parts::changes::Change;
use glslpp_parts::diagnostic::{Diagnostic, Severity};
use glslpp_parts::trace::{PrintedLine, Trace};
use std::alloc::{AllocError, Global};

// A message on a line of a text.
#[derive(Drop)]
struct Said {
    text: u32,
    line: u32,
    severity: Severity,
    message: String,
}

impl Said {
    // Whether it is on a line before this one, of this text or of one before.
    fn is_before(&self, text: u32, line: usize) -> bool {
        self.text < text || (self.text == text && (self.line as usize) < line)
    }

    // Whether it is on this line of this text.
    fn is_on(&self, text: u32, line: usize) -> bool {
        self.text == text && self.line as usize == line
    }
}

/// What a run over a source gives for its page.
#[derive(Drop)]
pub(crate) struct View {
    alloc: Global,
    /// What became of the tokens.
    pub(crate) trace: Trace,
    said: Vec<Said>,
    // The macros of the command line.
    given: Vec<String>,
}

impl View {
    /// Nothing yet.
    pub(crate) fn new(alloc: Global) -> View {
        View {
            alloc,
            trace: Trace::new(alloc),
            said: Vec::new(alloc),
            given: Vec::new(alloc),
        }
    }

    /// Takes the macros of the command line.
    pub(crate) fn take_changes(&mut self, changes: &[Change<'_>]) -> Result<(), AllocError> {
        for change in changes {
            if let Change::Define(name, _) = change {
                self.given.push(String::from_str(self.alloc, name)?)?;
            }
        }
        Ok(())
    }

    /// Whether the command line defines a macro.
    pub(crate) fn is_given(&self, name: &str) -> bool {
        self.given.iter().any(|other| other.as_str() == name)
    }

    /// Takes a message, if it is on a line of a file.
    pub(crate) fn say(&mut self, diagnostic: &Diagnostic<'_>) -> Result<(), AllocError> {
        let (Some(text), Some(line)) = (diagnostic.site.text(), diagnostic.site.line()) else {
            return Ok(());
        };
        self.said.push(Said {
            text,
            line,
            severity: diagnostic.severity,
            message: String::new(self.alloc),
        })?;
        match self.said.last_mut() {
            Some(said) => push_message(&mut said.message, diagnostic),
            None => Ok(()),
        }
    }

    /// Puts the messages and what is printed in the order of their texts and lines.
    pub(crate) fn sort(&mut self) -> Result<(), AllocError> {
        self.said.sort_by_key(|said| (said.text, said.line))?;
        self.trace
            .lines
            .sort_by_key(|printed| (printed.text, printed.line))
    }

    /// Appends what is printed for a 1-based line of a text.
    pub(crate) fn push_printed(
        &self,
        words: &mut String,
        text: u32,
        line: usize,
    ) -> Result<(), AllocError> {
        let lines = self.trace.lines.as_slice();
        let before = lines.partition_point(|printed| is_before(printed, text, line));
        for printed in lines.get(before..).unwrap_or(&[]) {
            if printed.text != text || printed.line as usize != line {
                return Ok(());
            }
            if !words.is_empty() {
                words.push(' ')?;
            }
            words.push_str(printed.words.as_str())?;
        }
        Ok(())
    }

    /// Appends what is said of a 1-based line of a text.
    pub(crate) fn push_said(
        &self,
        note: &mut String,
        text: u32,
        line: usize,
    ) -> Result<(), AllocError> {
        let said = self.said.as_slice();
        let before = said.partition_point(|said| said.is_before(text, line));
        for said in said.get(before..).unwrap_or(&[]) {
            if !said.is_on(text, line) {
                return Ok(());
            }
            if !note.is_empty() {
                note.push('\n')?;
            }
            note.push_str(said.message.as_str())?;
        }
        Ok(())
    }

    /// How many messages of this severity there are on lines of a text.
    pub(crate) fn count(&self, text: u32, severity: Severity) -> usize {
        let mut count = 0usize;
        for said in self.said.as_slice() {
            if said.text == text && said.severity == severity {
                count = count.saturating_add(1);
            }
        }
        count
    }
}

// Appends a message as it stands below its line: a caret, what is said, and the note.
fn push_message(message: &mut String, diagnostic: &Diagnostic<'_>) -> Result<(), AllocError> {
    diagnostic.site.push_caret(message)?;
    message.push_str(diagnostic.severity.name())?;
    message.push_str(": ")?;
    message.push_str(diagnostic.message.as_str())?;
    if let Some(note) = &diagnostic.note {
        message.push_str("\nnote: ")?;
        message.push_str(note.message)?;
    }
    Ok(())
}

// Whether something is printed for a line before this one, of this text or of one before.
fn is_before(printed: &PrintedLine, text: u32, line: usize) -> bool {
    printed.text < text || (printed.text == text && (printed.line as usize) < line)
}
