//! Messages as compilers print them.

ghost use Rattle.std.specs.Prelude.{◌≡◌, ◌++◌, OnOk, string_bytes};
ghost use Rattle.glslpp_parts.specs.Reports.{bold, colour, ended, file_of_site, severity_text, IsReported, IsSaid};
ghost use Rattle.glslpp_parts.specs.inner.Adding.{IsLonger, IsPlaced};

use crate::diagnostic::{Diagnostic, Severity, Site};
use crate::excerpt::Excerpt;
use crate::json;
use crate::place::Place;
use crate::texts::{Inclusion, Texts};
use std::alloc::AllocError;

/// What a message has instead of a file and a line, if its place is in a definition of the command line.
pub const COMMAND_LINE: &str = "<command line>";

/// How messages are written.
#[derive(Clone, Copy)]
pub enum Style {
    /// Text alone.
    Plain,
    /// Text with the colours of a terminal.
    Coloured,
    /// An object of JSON a line.
    Json,
}

impl Style {
    fn bold(self) -> &'static str
        ensures { result.now ≡ bold self }
    {
        match self {
            Style::Plain | Style::Json => "",
            Style::Coloured => "\x1b[1m",
        }
    }

    fn colour(self, severity: Severity) -> &'static str
        ensures { result.now ≡ colour self severity }
    {
        match (self, severity) {
            (Style::Plain | Style::Json, _) => "",
            (Style::Coloured, Severity::Error) => "\x1b[1;31m",
            (Style::Coloured, Severity::Warning) => "\x1b[1;35m",
            (Style::Coloured, Severity::Note) => "\x1b[1;36m",
        }
    }

    fn end(self) -> &'static str
        ensures { result.now ≡ ended self }
    {
        match self {
            Style::Plain | Style::Json => "",
            Style::Coloured => "\x1b[0m",
        }
    }
}

/// What all messages on one source have in common.
#[derive(Clone, Copy)]
pub struct Reporter<'a> {
    /// How they are written.
    pub style: Style,
    /// The name of the source.
    pub file: &'a str,
}

impl<'a> Reporter<'a> {
    /// Appends a message: `file:line:column: error: message`, its line with a caret under the place, and its note in
    /// the same form; or an object of JSON on a line.
    pub fn push(
        &self,
        text: &mut String,
        texts: &Texts<'_>,
        diagnostic: &Diagnostic<'_>,
    ) -> Result<(), AllocError>
        ensures { OnOk result (IsSaid self.now.style (file_of_site self.now.file.now diagnostic.now.site)
            diagnostic.now.severity (string_bytes diagnostic.now.message) (string_bytes text.old)
            (string_bytes text.new)) }
    {
        match self.style {
            Style::Json => json::push_diagnostic(text, self.file, texts, diagnostic),
            Style::Plain | Style::Coloured => self.push_report(text, diagnostic),
        }
    }

    /// Appends the `#include` lines by which one comes to the text with this number, from the innermost on, if it is
    /// that of an included file and messages are text.
    pub fn push_inclusions(
        &self,
        text: &mut String,
        texts: &Texts<'_>,
        number: u32,
    ) -> Result<(), AllocError> {
        let Some(innermost) = texts.inclusion(number) else {
            return Ok(());
        };
        if matches!(self.style, Style::Json) {
            return Ok(());
        }
        self.push_includer(text, texts, "In file included from ", innermost)?;
        let mut last = innermost;
        for _ in 0..innermost.text {
            let Some(next) = texts.inclusion(last.text) else {
                break;
            };
            text.push_str(",\n")?;
            self.push_includer(text, texts, "                 from ", next)?;
            last = next;
        }
        text.push_str(":\n")
    }

    // Appends the file and the line of an `#include` after these words.
    fn push_includer(
        &self,
        text: &mut String,
        texts: &Texts<'_>,
        words: &str,
        inclusion: Inclusion,
    ) -> Result<(), AllocError> {
        let name = texts.name(inclusion.text);
        let (bold, end) = (self.style.bold(), self.style.end());
        if name == COMMAND_LINE {
            return write!(text, "{words}{bold}{name}{end}");
        }
        write!(text, "{words}{bold}{name}:{}{end}", inclusion.location.line)
    }

    // Appends a message and what is said beside it as text.
    fn push_report(&self, text: &mut String, diagnostic: &Diagnostic<'_>) -> Result<(), AllocError>
        ensures { OnOk result (IsReported self.now.style (file_of_site self.now.file.now diagnostic.now.site)
            diagnostic.now.severity (string_bytes diagnostic.now.message) (string_bytes text.old)
            (string_bytes text.new)) }
    {
        let message = diagnostic.message.as_str();
        self.push_lines(text, diagnostic.severity, message, diagnostic.site)?;
        self.push_notes(text, diagnostic)
    }

    // Appends what is said beside a message.
    fn push_notes(&self, text: &mut String, diagnostic: &Diagnostic<'_>) -> Result<(), AllocError>
        ensures { OnOk result (IsLonger (string_bytes text.old) (string_bytes text.new)) }
    {
        match (diagnostic.note, &diagnostic.used) {
            (Some(note), Some(used)) => {
                self.push_note(text, note.message, note.site)?;
                self.push_note(text, used.message.as_str(), used.site)
            }
            (Some(note), None) => self.push_note(text, note.message, note.site),
            (None, Some(used)) => self.push_note(text, used.message.as_str(), used.site),
            (None, None) => Ok(()),
        }
    }

    fn push_note(&self, text: &mut String, message: &str, site: Site<'_>) -> Result<(), AllocError>
        ensures { OnOk result (IsLonger (string_bytes text.old) (string_bytes text.new)) }
    {
        self.push_lines(text, Severity::Note, message, site)
    }

    // Appends a message with its place, and the line of the place with a caret.
    fn push_lines(
        &self,
        text: &mut String,
        severity: Severity,
        message: &str,
        site: Site<'_>,
    ) -> Result<(), AllocError>
        ensures { OnOk result (IsReported self.now.style (file_of_site self.now.file.now site.entry)
            severity message.now (string_bytes text.old) (string_bytes text.new)) }
    {
        self.push_bold(text)?;
        self.push_place(text, site)?;
        self.push_severity(text, severity)?;
        writeln!(text, "{message}")?;
        self.push_excerpt(text, severity, site.place())
    }

    // Appends the name of a place.
    fn push_place(&self, text: &mut String, site: Site<'_>) -> Result<(), AllocError>
        ensures { OnOk result (IsPlaced (file_of_site self.now.file.now site.entry) (string_bytes text.old)
            (string_bytes text.new)) }
    {
        match site {
            Site::InSource(line, column, place) => {
                write!(text, "{}:{line}:{column}: ", place.name)
            }
            Site::OnCommandLine(_) => write!(text, "{COMMAND_LINE}: "),
            Site::InFile => write!(text, "{}: ", self.file),
        }
    }

    // Appends the line of a place, and a caret under the place.
    fn push_excerpt(
        &self,
        text: &mut String,
        severity: Severity,
        place: Option<Place<'_>>,
    ) -> Result<(), AllocError>
        ensures { OnOk result (IsLonger (string_bytes text.old) (string_bytes text.new)) }
    {
        let Some(place) = place else {
            return Ok(());
        };
        let excerpt = Excerpt::of(place);
        excerpt.push_text(text)?;
        excerpt.push_blanks(text)?;
        text.push_str(self.style.colour(severity))?;
        excerpt.push_caret(text)?;
        writeln!(text, "{}", self.style.end())
    }

    fn push_bold(&self, text: &mut String) -> Result<(), AllocError>
        ensures { OnOk result (string_bytes text.new ≡ string_bytes text.old ++ bold self.now.style) }
    {
        text.push_str(self.style.bold())
    }

    fn push_severity(&self, text: &mut String, severity: Severity) -> Result<(), AllocError>
        ensures { OnOk result (string_bytes text.new
            ≡ string_bytes text.old ++ severity_text self.now.style severity) }
    {
        let style = self.style;
        write!(
            text,
            "{}{}: {}",
            style.colour(severity),
            severity.name(),
            style.end()
        )
    }
}
