//! What names mean at places of a text.

use crate::page::Sight;
use glslpp_html::source::Note;
use glslpp_parts::macro_history::DefinedAt;
use std::alloc::AllocError;

// The id of the command line in a page.
const COMMAND: &str = "command";

/// What defines a macro.
#[derive(Clone, Copy)]
pub(crate) enum Defined<'a> {
    /// A line.
    Line(DefinedAt),
    /// The command line, with this content.
    Command(&'a str),
    /// What is defined before each source, with this content.
    Before(&'a str),
}

impl<'p, 'a> Sight<'p, 'a> {
    /// Returns what defines a name as it is at a byte offset of a text, if anything does.
    pub(crate) fn definition_at(&self, name: &str, text: u32, offset: u32) -> Option<Defined<'a>> {
        match self.conditions.history.last_line(name, text, offset) {
            Some(line) if line.is_definition => Some(Defined::Line(line)),
            Some(_) => None,
            None => self.defined_before(name),
        }
    }

    /// Returns the same, unless it is the line of the definition itself.
    pub(crate) fn defined_elsewhere(
        &self,
        name: &str,
        text: u32,
        offset: u32,
    ) -> Option<Defined<'a>> {
        match self.definition_at(name, text, offset) {
            Some(Defined::Line(line)) if is_within(line, text, offset) => None,
            defined => defined,
        }
    }

    // What defines a macro before the source.
    fn defined_before(&self, name: &str) -> Option<Defined<'a>> {
        let content = self.given(name)?;
        if self.view.is_given(name) {
            return Some(Defined::Command(content));
        }
        Some(Defined::Before(content))
    }

    // The content of a macro that is defined before the source.
    fn given(&self, name: &str) -> Option<&'a str> {
        let mut found = None;
        for (other, content) in self.definitions {
            if *other == name {
                found = Some(*content);
            }
        }
        found
    }

    /// Appends the definition of a macro, as it is called in a text, with the id of its place.
    pub(crate) fn push_definition(
        &self,
        note: &mut Note,
        name: &str,
        defined: Defined<'_>,
        from: u32,
    ) -> Result<(), AllocError> {
        match defined {
            Defined::Line(line) => {
                self.sheets
                    .push_directive(note, line.text, line.start, line.end, from)
            }
            Defined::Command(content) => {
                note.target.push_str(COMMAND)?;
                write!(note.text, "-D {name}={content}")
            }
            Defined::Before(content) => {
                write!(note.text, "{name} is {content} before the source")
            }
        }
    }

    /// Appends the `#define` line of a macro.
    pub(crate) fn push_definition_line(
        &self,
        lines: &mut String,
        name: &str,
        defined: Defined<'_>,
    ) -> Result<(), AllocError> {
        match defined {
            Defined::Line(line) => self.sheets.push_line(lines, line),
            Defined::Command(content) => writeln!(lines, "#define {name} {content}"),
            Defined::Before(content) => writeln!(lines, "#define {name} {content}"),
        }
    }
}

// Whether a byte offset of a text is within a line.
fn is_within(line: DefinedAt, text: u32, offset: u32) -> bool {
    line.text == text && line.start <= offset && offset < line.end
}
