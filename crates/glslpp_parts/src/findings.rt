//! What the warnings found.

ghost use Rattle.std.specs.Prelude.{◌≡◌, IfOk, string_bytes};
ghost use Rattle.glslpp_parts.specs.Warnings.{is_on, marked};

use crate::columns::Columns;
use crate::diagnostic::{Diagnostic, Note, Site};
use crate::place::{Place, is_line_end};
use crate::texts::{File, Spot};
use crate::warning::{Warning, Warnings};
use pp_rs::token::Location;
use std::alloc::{AllocError, Global};

/// What the warnings found in a file.
#[derive(Drop)]
pub(crate) struct Findings<'a> {
    alloc: Global,
    file: File<'a>,
    // The number of its text.
    number: u32,
    columns: Columns<'a>,
    warnings: Warnings,
    found: Vec<Diagnostic<'a>>,
}

impl<'a> Findings<'a> {
    /// Nothing yet. Only what these warnings say is kept.
    pub(crate) fn new(
        alloc: Global,
        file: File<'a>,
        number: u32,
        warnings: Warnings,
    ) -> Findings<'a> {
        Findings {
            alloc,
            file,
            number,
            columns: Columns::new(file.text),
            warnings,
            found: Vec::new(alloc),
        }
    }

    /// Whether a warning is on.
    pub(crate) fn is_looking_for(&self, warning: Warning) -> bool
        ensures { result ≡ is_on self.now.warnings warning }
    {
        self.warnings.has(warning)
    }

    /// Keeps what a warning says of a place, if the warning is on.
    pub(crate) fn push(
        &mut self,
        warning: Warning,
        location: Location,
        text: &str,
    ) -> Result<(), AllocError> {
        if !self.is_looking_for(warning) {
            return Ok(());
        }
        let site = self.site(location);
        self.push_site(warning, site, text, None)
    }

    /// Does the same, with a note.
    pub(crate) fn push_noted(
        &mut self,
        warning: Warning,
        location: Location,
        text: &str,
        note: Note<'a>,
    ) -> Result<(), AllocError> {
        if !self.is_looking_for(warning) {
            return Ok(());
        }
        let site = self.site(location);
        self.push_site(warning, site, text, Some(note))
    }

    /// Keeps what a warning says of the bytes from `start` to `end`, if the warning is on.
    pub(crate) fn push_at(
        &mut self,
        warning: Warning,
        line: u32,
        start: usize,
        end: usize,
        text: &str,
    ) -> Result<(), AllocError> {
        if !self.is_looking_for(warning) {
            return Ok(());
        }
        let site = self.site_of(line, start, end);
        self.push_site(warning, site, text, None)
    }

    fn push_site(
        &mut self,
        warning: Warning,
        site: Site<'a>,
        text: &str,
        note: Option<Note<'a>>,
    ) -> Result<(), AllocError> {
        let message = message_of(self.alloc, warning, text)?;
        self.found.push(Diagnostic {
            severity: self.warnings.severity(),
            warning: Some(warning),
            message,
            is_of_cause: true,
            site,
            note,
            used: None,
        })?;
        Ok(())
    }

    /// The site of a token.
    pub(crate) fn site(&mut self, location: Location) -> Site<'a> {
        self.site_of(
            location.line,
            location.start as usize,
            location.end as usize,
        )
    }

    fn site_of(&mut self, line: u32, start: usize, end: usize) -> Site<'a> {
        let spot = Spot {
            text: self.file.text,
            number: self.number,
            name: self.file.name,
            start,
            end,
            is_in_file: true,
        };
        match Place::find(spot) {
            Some(place) => Site::InSource(line, self.columns.column(place.start), place),
            None => Site::InFile,
        }
    }

    /// Whether a line begins at a place with a mark, after which a space or the end of the line follows.
    pub(crate) fn has_line_mark(&self, location: Location, mark: &str) -> bool {
        let start = location.start as usize;
        let before = self.file.text.get(..start).unwrap_or("");
        let rest = self.file.text.get(start..).unwrap_or("");
        let is_first = before.is_empty() || before.ends_with(is_line_end);
        match rest.strip_prefix(mark) {
            Some(after) => is_first && (after.is_empty() || after.starts_with(is_space_or_end)),
            None => false,
        }
    }

    /// What was found, in the order of the source.
    pub(crate) fn in_order(self) -> Result<Vec<Diagnostic<'a>>, AllocError> {
        let mut found = self.found;
        found.sort_by_key(|diagnostic| diagnostic.site.start())?;
        Ok(found)
    }
}

fn is_space_or_end(c: char) -> bool {
    c == ' ' || is_line_end(c)
}

// The message of a warning: what it says, and its option.
fn message_of(alloc: Global, warning: Warning, text: &str) -> Result<String, AllocError>
    ensures { IfOk result (λ message. string_bytes message ≡ marked text.now warning) }
{
    let mut message = String::from_str(alloc, text)?;
    message.push_str(" [-W")?;
    message.push_str(warning.name())?;
    message.push_str("]")?;
    Ok(message)
}
