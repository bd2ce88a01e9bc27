//! Errors that the library lets pass: comments that aren't closed, `#version` and `#extension` lines that aren't
//! GLSL's, and `#include` lines that aren't followed.

ghost use Rattle.std.specs.Prelude.{◌≡◌, IfOk, IfSome, None};
ghost use Rattle.glslpp_parts.specs.Faults.{name_of, IsError};

use crate::diagnostic::{Diagnostic, Note, Severity, Site};
use crate::directive_check::{Complaint, complaint_of_extension, complaint_of_version};
use crate::texts::Texts;
use pp_rs::token::{Location, Token, TokenValue};
use std::alloc::{AllocError, Global};

/// A kind of error that `glslpp` finds and the library doesn't.
#[derive(Clone, Copy, PartialEq, Eq)]
pub enum FaultKind {
    /// A comment that isn't closed.
    UnterminatedComment,
    /// A `#version` after a directive or text.
    LateVersion,
    /// A `#version` after another one.
    SecondVersion,
    /// A `#version` that names no version of GLSL.
    MalformedVersion,
    /// An `#extension` that isn't of the form `#extension NAME : BEHAVIOUR`.
    MalformedExtension,
    /// A source that needs more steps than it may take.
    OverBudget,
    /// An `#include` that isn't of the form `#include "FILE"` or `#include <FILE>`.
    MalformedInclude,
    /// An `#include` of a file that isn't found, or that can't be read.
    MissingInclude,
    /// An `#include` in a text that is included too deep.
    DeepInclude,
}

impl FaultKind {
    /// Its name, which doesn't change.
    pub fn name(self) -> &'static str
        ensures { result.now ≡ name_of self }
    {
        match self {
            FaultKind::UnterminatedComment => "UnterminatedComment",
            FaultKind::LateVersion => "LateVersion",
            FaultKind::SecondVersion => "SecondVersion",
            FaultKind::MalformedVersion => "MalformedVersion",
            FaultKind::MalformedExtension => "MalformedExtension",
            FaultKind::OverBudget => "OverBudget",
            FaultKind::MalformedInclude => "MalformedInclude",
            FaultKind::MissingInclude => "MissingInclude",
            FaultKind::DeepInclude => "DeepInclude",
        }
    }
}

/// Why an `#include` isn't followed.
#[derive(Drop)]
pub struct Refusal {
    /// What kind of error it is.
    pub kind: FaultKind,
    /// Its place in the text of the `#include`.
    pub location: Location,
    /// What is said.
    pub message: String,
}

/// An error that `glslpp` found.
#[derive(Drop)]
pub struct Fault<'a> {
    /// What kind of error it is.
    pub kind: FaultKind,
    /// The number of the text of its place.
    pub text: u32,
    /// Its place.
    pub location: Location,
    /// Its message.
    pub diagnostic: Diagnostic<'a>,
}

/// Finds the errors of one source and the files that it includes.
#[derive(Drop)]
pub struct FaultFinder {
    alloc: Global,
    // The text and the place of the first `#version`.
    version: Option<(u32, Location)>,
}

impl FaultFinder {
    /// A finder that has seen no directive yet.
    pub fn new(alloc: Global) -> FaultFinder
        ensures version { result.version ≡ None }
    {
        FaultFinder {
            alloc,
            version: None,
        }
    }

    /// Returns what is wrong with a token of live text, which is in the text with this number: with a `#version` or an
    /// `#extension` line. Others are right.
    pub fn fault_of<'a>(
        &mut self,
        texts: &Texts<'a>,
        text: u32,
        token: &Token,
    ) -> Result<Option<Fault<'a>>, AllocError>
        ensures { IfOk result (λ found. IfSome found IsError) }
    {
        match &token.value {
            TokenValue::Version(version) => {
                let first = self.version;
                if let Some((first_text, first)) = first {
                    let site = Site::of(texts, first_text, first);
                    return self.second_version(texts, text, token.location, site);
                }
                self.version = Some((text, token.location));
                if !version.is_first_directive {
                    return self.late_version(texts, text, token.location);
                }
                let complaint = complaint_of_version(self.alloc, version, token.location)?;
                Ok(complained(texts, text, FaultKind::MalformedVersion, complaint))
            }
            TokenValue::Extension(extension) => {
                let complaint = complaint_of_extension(self.alloc, extension, token.location)?;
                Ok(complained(texts, text, FaultKind::MalformedExtension, complaint))
            }
            _ => Ok(None),
        }
    }

    fn late_version<'a>(
        &self,
        texts: &Texts<'a>,
        text: u32,
        location: Location,
    ) -> Result<Option<Fault<'a>>, AllocError>
        ensures { IfOk result (λ found. IfSome found IsError) }
    {
        let message = String::from_str(self.alloc, "`#version` must come before everything else")?;
        Ok(Some(error(texts, text, FaultKind::LateVersion, location, message, None)))
    }

    fn second_version<'a>(
        &self,
        texts: &Texts<'a>,
        text: u32,
        location: Location,
        first: Site<'a>,
    ) -> Result<Option<Fault<'a>>, AllocError>
        ensures { IfOk result (λ found. IfSome found IsError) }
    {
        let message = String::from_str(self.alloc, "second `#version`")?;
        let note = Note {
            message: "the first `#version` is here",
            site: first,
        };
        Ok(Some(error(
            texts,
            text,
            FaultKind::SecondVersion,
            location,
            message,
            Some(note),
        )))
    }

    /// Returns the error for a comment that isn't closed, whose `/*` is at this place of this text.
    pub fn unterminated_comment<'a>(
        &self,
        texts: &Texts<'a>,
        text: u32,
        location: Location,
    ) -> Result<Fault<'a>, AllocError>
        ensures { IfOk result IsError }
    {
        let message = String::from_str(self.alloc, "unterminated comment")?;
        let kind = FaultKind::UnterminatedComment;
        Ok(error(texts, text, kind, location, message, None))
    }

    /// Returns the error for a source that needs more than this many steps, and had come to this place of this text.
    pub fn over_budget<'a>(
        &self,
        texts: &Texts<'a>,
        text: u32,
        steps: u64,
        location: Location,
    ) -> Result<Fault<'a>, AllocError>
        ensures { IfOk result IsError }
    {
        let plural = if steps == 1 { "" } else { "s" };
        let message = format!(in self.alloc; "source needs more than {steps} step{plural}")?;
        Ok(error(texts, text, FaultKind::OverBudget, location, message, None))
    }

    /// Returns the error for an `#include` that this is said of, at this place of this text.
    pub fn refused_include<'a>(&self, texts: &Texts<'a>, text: u32, refusal: Refusal) -> Fault<'a>
        ensures { IsError result }
    {
        let location = refusal.location;
        error(texts, text, refusal.kind, location, refusal.message, None)
    }
}

// The error for what a directive is complained of.
fn complained<'a>(
    texts: &Texts<'a>,
    text: u32,
    kind: FaultKind,
    complaint: Option<Complaint>,
) -> Option<Fault<'a>>
    ensures { IfSome result IsError }
{
    let Some(complaint) = complaint else {
        return None;
    };
    let location = complaint.location;
    Some(error(texts, text, kind, location, complaint.message, None))
}

fn error<'a>(
    texts: &Texts<'a>,
    text: u32,
    kind: FaultKind,
    location: Location,
    message: String,
    note: Option<Note<'a>>,
) -> Fault<'a>
    ensures { IsError result }
{
    Fault {
        kind,
        text,
        location,
        diagnostic: Diagnostic {
            severity: Severity::Error,
            warning: None,
            message,
            is_of_cause: true,
            site: Site::of(texts, text, location),
            note,
            used: None,
        },
    }
}
