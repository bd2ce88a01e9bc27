//! What is said of a source: messages with their places.

ghost use Rattle.std.specs.Prelude.{◌≡◌, option_map};
ghost use Rattle.glslpp_parts.specs.Reports.{line_of_site, name_of, point_of_site, start_of_site, text_of_site};
ghost use Rattle.glslpp_parts.specs.Reports.{place_of_site, pointed_text};

use crate::excerpt::Excerpt;
use crate::macro_use::MacroUse;
use crate::outline::Define;
use crate::place::Place;
use crate::texts::Texts;
use crate::warning::Warning;
use pp_rs::token::Location;
use std::alloc::AllocError;

/// How grave a message is.
#[derive(Clone, Copy, PartialEq, Eq)]
pub enum Severity {
    /// The source isn't printed.
    Error,
    /// The source may not be what its author meant.
    Warning,
    /// It belongs to the message before it.
    Note,
}

impl Severity {
    /// Its name in reports.
    pub fn name(self) -> &'static str
        ensures { result.now ≡ name_of self }
    {
        match self {
            Severity::Error => "error",
            Severity::Warning => "warning",
            Severity::Note => "note",
        }
    }
}

/// Where a message points.
#[derive(Clone, Copy)]
pub enum Site<'a> {
    /// A place of the source or of a file that it includes, on this 1-based line, at this column in characters from 1.
    InSource(u32, usize, Place<'a>),
    /// A place of a definition of the command line, if it is known.
    OnCommandLine(Option<Place<'a>>),
    /// The whole source.
    InFile,
}

impl<'a> Site<'a> {
    /// The site of an item's place in the text with this number. It is looked up on its line alone.
    pub(crate) fn of(texts: &Texts<'a>, text: u32, location: Location) -> Site<'a> {
        let Some(spot) = texts.spot(text, location) else {
            return Site::InFile;
        };
        match Place::find(spot) {
            found if !spot.is_in_file => Site::OnCommandLine(found),
            Some(place) => Site::InSource(location.line, place.column(), place),
            None => Site::InFile,
        }
    }

    /// The site of the name of a definition in the text with this number.
    pub(crate) fn of_define(texts: &Texts<'a>, text: u32, define: Define) -> Site<'a> {
        match texts.spot(text, define.location).and_then(Place::find) {
            Some(place) => Site::InSource(define.location.line, define.column, place),
            None => Site::InFile,
        }
    }

    /// The number of the file's text, or `None` if it points elsewhere.
    pub fn text(self) -> Option<u32>
        ensures { result ≡ text_of_site self.entry }
    {
        match self {
            Site::InSource(_, _, place) => Some(place.number),
            Site::OnCommandLine(_) | Site::InFile => None,
        }
    }

    /// The 1-based line in the file, or `None` if it points elsewhere.
    pub fn line(self) -> Option<u32>
        ensures { result ≡ line_of_site self.entry }
    {
        match self {
            Site::InSource(line, _, _) => Some(line),
            Site::OnCommandLine(_) | Site::InFile => None,
        }
    }

    /// The byte offset in the file, or `None` if it points elsewhere.
    pub fn start(self) -> Option<usize>
        ensures { result ≡ start_of_site self.entry }
    {
        match self {
            Site::InSource(_, _, place) => Some(place.start),
            Site::OnCommandLine(_) | Site::InFile => None,
        }
    }

    /// The number of the file's text and the byte offset in it, or `None` if it points elsewhere.
    pub fn point(self) -> Option<(u32, usize)>
        ensures { result ≡ point_of_site self.entry }
    {
        match self {
            Site::InSource(_, _, place) => Some((place.number, place.start)),
            Site::OnCommandLine(_) | Site::InFile => None,
        }
    }

    /// The text that it points to.
    pub fn name(self) -> Option<&'a str>
        ensures { option_map (λ text. text.now) result ≡ pointed_text self.entry }
    {
        match self.place() {
            Some(place) => Some(place.here),
            None => None,
        }
    }

    /// Appends a caret as it stands under the text that it points to, and a line end, unless that is in a long line.
    pub fn push_caret(self, text: &mut String) -> Result<(), AllocError> {
        let Some(place) = self.place() else {
            return Ok(());
        };
        let excerpt = Excerpt::of(place);
        if !excerpt.is_whole() {
            return Ok(());
        }
        excerpt.push_blanks(text)?;
        excerpt.push_caret(text)?;
        text.push('\n')
    }

    /// The text that it points to, with its line.
    pub(crate) fn place(self) -> Option<Place<'a>>
        ensures { result ≡ place_of_site self.entry }
    {
        match self {
            Site::InSource(_, _, place) => Some(place),
            Site::OnCommandLine(place) => place,
            Site::InFile => None,
        }
    }
}

/// A message with its place, and what else is said of it.
#[derive(Drop)]
pub struct Diagnostic<'a> {
    /// How grave it is.
    pub severity: Severity,
    /// The kind of warning that gives it, if one does.
    pub warning: Option<Warning>,
    /// What is said.
    pub message: String,
    /// Whether the source shows the cause, so that the message says it in place of the library's sentence.
    pub is_of_cause: bool,
    /// Where it points.
    pub site: Site<'a>,
    /// What is said beside it.
    pub note: Option<Note<'a>>,
    /// The use of the macro from which it comes.
    pub used: Option<MacroUse<'a>>,
}

/// What is said beside a message, with its place.
#[derive(Clone, Copy)]
pub struct Note<'a> {
    /// What is said.
    pub message: &'static str,
    /// Where it points.
    pub site: Site<'a>,
}
