//! A source as a part of a page, with its lines and what is marked in them.

ghost use Rattle.std.specs.Prelude.{◌≡◌, OnOk, length, string_bytes};
ghost use Rattle.std.specs.Str.{chars};
ghost use Rattle.glslpp_html.specs.Written.{IsWritten, ShowsMore};

use crate::tag::{Attribute, Element, close, open};
use crate::text::push_text;
use std::alloc::{AllocError, Global};

/// What a part of a line is.
#[derive(Clone, Copy, PartialEq, Eq)]
pub enum Class {
    /// A comment.
    Comment,
    /// A number.
    Number,
    /// A directive.
    Directive,
    /// A macro's name.
    Macro,
    /// A name that is tested and not defined.
    Undefined,
    /// What became of a directive: what follows it is compiled.
    Taken,
    /// What follows the directive isn't compiled.
    Passed,
    /// A character that could change the order in which others are shown.
    Direction,
    /// A part that only leads elsewhere.
    Plain,
}

impl Class {
    fn name(self) -> &'static str {
        match self {
            Class::Comment => "comment",
            Class::Number => "number",
            Class::Directive => "directive",
            Class::Macro => "macro",
            Class::Undefined => "undefined",
            Class::Taken => "taken",
            Class::Passed => "passed",
            Class::Direction => "direction",
            Class::Plain => "",
        }
    }
}

/// A text that is shown beside a source, and the id to which a click on it leads, or the empty text.
#[derive(Drop)]
pub struct Note {
    /// The text.
    pub text: String,
    /// The id.
    pub target: String,
}

/// A part of a line that is marked.
#[derive(Drop)]
pub struct Mark {
    /// The byte offset in the source at which it begins.
    pub start: usize,
    /// The byte offset at which it ends.
    pub end: usize,
    /// What it is.
    pub class: Class,
    /// What is shown if it is pointed at, or the empty text, and the id to which a click leads, unless it is opened.
    pub title: Note,
    /// What is always shown behind it, or the empty text.
    pub note: String,
    /// What is shown if it is opened.
    pub steps: Vec<Note>,
}

/// A line of a source.
#[derive(Drop)]
pub struct Line {
    /// The byte offset in the source behind its line end.
    pub end: usize,
    /// Whether it is compiled.
    pub is_live: bool,
    /// Why it isn't, or the empty text, and the id of the line that decides it.
    pub reason: Note,
    /// Whether the line before isn't compiled for the same reason.
    pub is_continued: bool,
    /// What is printed for it, which can be shown beside it, or the empty text.
    pub output: String,
    /// What is shown below it, or the empty text.
    pub note: String,
    /// Its marks, in their order.
    pub marks: Vec<Mark>,
}

impl Line {
    fn class(&self) -> &'static str {
        if self.is_live { "" } else { "dead" }
    }
}

// What was written of a source, up to a byte of it.
#[derive(Drop)]
struct Writer<'a> {
    text: String,
    source: &'a str,
    done: usize,
}

/// Appends a source to a page. Each line has an id: that of the source, `-` and its number. The first is given.
///
/// What is marked twice is marked once, and what is marked or lined outside of the source isn't.
pub fn push_source(
    alloc: Global,
    page: &mut String,
    source: &str,
    id: &str,
    first_line: usize,
    lines: &[Line],
) -> Result<(), AllocError>
    ensures { OnOk result (ShowsMore (string_bytes page.old) (string_bytes page.new) (chars source.now)) }
{
    let mut writer = Writer {
        text: String::new(alloc),
        source,
        done: 0,
    };
    writer.push_lines(alloc, id, first_line, lines)?;
    writer.push_up_to(source.len())?;
    page.push_str(writer.text.as_str())
}

impl<'a> Writer<'a> {
    fn push_lines(
        &mut self,
        alloc: Global,
        source: &str,
        first_line: usize,
        lines: &[Line],
    ) -> Result<(), AllocError>
        requires { IsWritten self.old }
        ensures written { OnOk result (IsWritten self.new) }
        ensures source { OnOk result (self.new.source.now ≡ self.old.source.now) }
    {
        for (index, line) in lines.iter().enumerate() {
            let id = format!(in alloc; "{source}-{}", first_line.saturating_add(index))?;
            self.push_line(id.as_str(), line)?;
        }
        Ok(())
    }

    fn push_line(&mut self, id: &str, line: &Line) -> Result<(), AllocError>
        requires { IsWritten self.old }
        ensures written { OnOk result (IsWritten self.new) }
        ensures source { OnOk result (self.new.source.now ≡ self.old.source.now) }
    {
        self.open(
            Element::Block,
            &[
                (Attribute::Class, line.class()),
                (Attribute::Id, id),
                (Attribute::Note, line.note.as_str()),
            ],
        )?;
        self.push_reason(line)?;
        self.push_output(line)?;
        self.push_marks(line.marks.as_slice())?;
        self.push_up_to(line.end)?;
        self.close(Element::Block)
    }

    // Writes a link to what decides that a line isn't compiled. The first of several such lines is reached by keys.
    fn push_reason(&mut self, line: &Line) -> Result<(), AllocError>
        requires { IsWritten self.old }
        ensures written { OnOk result (IsWritten self.new) }
        ensures source { OnOk result (self.new.source.now ≡ self.old.source.now) }
    {
        if line.reason.text.is_empty() {
            return Ok(());
        }
        let index = if line.is_continued { "-1" } else { "" };
        self.open(
            Element::Link,
            &[
                (Attribute::Class, "why"),
                (Attribute::TabIndex, index),
                (Attribute::Target, line.reason.target.as_str()),
                (Attribute::Title, line.reason.text.as_str()),
            ],
        )?;
        self.close(Element::Link)
    }

    // Writes what is printed for a line.
    fn push_output(&mut self, line: &Line) -> Result<(), AllocError>
        requires { IsWritten self.old }
        ensures written { OnOk result (IsWritten self.new) }
        ensures source { OnOk result (self.new.source.now ≡ self.old.source.now) }
    {
        if line.output.is_empty() {
            return Ok(());
        }
        self.open(
            Element::Span,
            &[
                (Attribute::Class, "out"),
                (Attribute::Note, line.output.as_str()),
            ],
        )?;
        self.close(Element::Span)
    }

    fn push_marks(&mut self, marks: &[Mark]) -> Result<(), AllocError>
        requires { IsWritten self.old }
        ensures written { OnOk result (IsWritten self.new) }
        ensures source { OnOk result (self.new.source.now ≡ self.old.source.now) }
    {
        for mark in marks {
            self.push_mark(mark)?;
        }
        Ok(())
    }

    fn push_mark(&mut self, mark: &Mark) -> Result<(), AllocError>
        requires { IsWritten self.old }
        ensures written { OnOk result (IsWritten self.new) }
        ensures source { OnOk result (self.new.source.now ≡ self.old.source.now) }
    {
        self.push_up_to(mark.start)?;
        if mark.steps.is_empty() {
            return self.push_plain(mark);
        }
        self.open(Element::Details, &[])?;
        self.open(
            Element::Summary,
            &[
                (Attribute::Class, mark.class.name()),
                (Attribute::Title, mark.title.text.as_str()),
            ],
        )?;
        self.push_up_to(mark.end)?;
        self.close(Element::Summary)?;
        self.open(Element::Span, &[(Attribute::Class, "steps")])?;
        self.push_notes(mark.steps.as_slice())?;
        self.close(Element::Span)?;
        self.close(Element::Details)
    }

    // Writes a part that isn't opened.
    fn push_plain(&mut self, mark: &Mark) -> Result<(), AllocError>
        requires { IsWritten self.old }
        ensures written { OnOk result (IsWritten self.new) }
        ensures source { OnOk result (self.new.source.now ≡ self.old.source.now) }
    {
        let element = element_of(&mark.title);
        self.open(
            element,
            &[
                (Attribute::Class, mark.class.name()),
                (Attribute::Target, mark.title.target.as_str()),
                (Attribute::Title, mark.title.text.as_str()),
                (Attribute::Note, mark.note.as_str()),
            ],
        )?;
        self.push_up_to(mark.end)?;
        self.close(element)
    }

    fn push_notes(&mut self, notes: &[Note]) -> Result<(), AllocError>
        requires { IsWritten self.old }
        ensures written { OnOk result (IsWritten self.new) }
        ensures source { OnOk result (self.new.source.now ≡ self.old.source.now) }
    {
        for note in notes {
            self.push_note(note)?;
        }
        Ok(())
    }

    fn push_note(&mut self, note: &Note) -> Result<(), AllocError>
        requires { IsWritten self.old }
        ensures written { OnOk result (IsWritten self.new) }
        ensures source { OnOk result (self.new.source.now ≡ self.old.source.now) }
    {
        let element = element_of(note);
        self.open(
            element,
            &[
                (Attribute::Target, note.target.as_str()),
                (Attribute::Note, note.text.as_str()),
            ],
        )?;
        self.close(element)
    }

    fn open(&mut self, element: Element, attributes: &[(Attribute, &str)]) -> Result<(), AllocError>
        requires { IsWritten self.old }
        ensures written { OnOk result (IsWritten self.new) }
        ensures source { OnOk result (self.new.source.now ≡ self.old.source.now) }
    {
        open(&mut self.text, element, attributes)
    }

    fn close(&mut self, element: Element) -> Result<(), AllocError>
        requires { IsWritten self.old }
        ensures written { OnOk result (IsWritten self.new) }
        ensures source { OnOk result (self.new.source.now ≡ self.old.source.now) }
    {
        close(&mut self.text, element)
    }

    // Writes the source up to a byte, unless more of it is written.
    fn push_up_to(&mut self, end: usize) -> Result<(), AllocError>
        requires { IsWritten self.old }
        ensures written { OnOk result (IsWritten self.new) }
        ensures source { OnOk result (self.new.source.now ≡ self.old.source.now) }
        ensures whole { OnOk result (end ≡ length self.old.source.now → self.new.done ≡ end) }
    {
        let piece = self.source.get(self.done..end).unwrap_or("");
        push_text(&mut self.text, piece)?;
        self.done += piece.len();
        Ok(())
    }
}

// The element of a part with this note.
fn element_of(note: &Note) -> Element {
    if note.target.is_empty() {
        Element::Span
    } else {
        Element::Link
    }
}
