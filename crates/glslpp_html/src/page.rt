//! Pages.

ghost use Rattle.std.specs.Prelude.{◌≡◌, ◌++◌, [], OnOk, IfOk, string_bytes};
ghost use Rattle.std.specs.List.{flat_map};
ghost use Rattle.std.specs.Str.{chars};
ghost use Rattle.glslpp_html.specs.Pages.{IsPage, beginning_of, name_line, text_of_part};
ghost use Rattle.glslpp_html.specs.Shown.{Shows};
ghost use Rattle.glslpp_html.specs.Written.{ShowsMore};

use crate::source::{Line, push_source};
use crate::style::{START, STYLE};
use crate::tag::{Attribute, Element, close, open};
use crate::text::push_text;
use crate::whole::whole_parts;
use std::alloc::{AllocError, Global};

/// A file that is shown.
#[derive(Clone, Copy)]
pub struct File<'a> {
    /// Its name.
    pub name: &'a str,
    /// Its text.
    pub text: &'a str,
}

/// A part of a file that is shown: some of its lines, between which other files may stand.
#[derive(Drop)]
pub struct Part<'a> {
    /// The number of the file, from 0.
    pub file: usize,
    /// The file's name.
    pub name: &'a str,
    /// What is shown behind the name, or the empty text.
    pub note: String,
    /// Whether the file begins with it, and is named before it.
    pub is_first: bool,
    /// Whether the file ends with it.
    pub is_last: bool,
    /// Whether the file stands within another, where it can be opened.
    pub is_inner: bool,
    /// The text.
    pub text: &'a str,
    /// The number of its first line, from 1.
    pub first_line: usize,
    /// Its lines, whose places are those in this text.
    pub lines: Vec<Line>,
}

/// Returns a page with this title that shows the command by which it was made and the files, part by part. If these
/// aren't the parts of the files, each file is one part, in which nothing is marked. The command has the id `command`,
/// the first file `f0`, and its first line `f0-1`.
pub fn page<'a>(
    alloc: Global,
    title: &str,
    command: &str,
    files: &[File<'a>],
    parts: Vec<Part<'a>>,
) -> Result<String, AllocError>
    ensures { IfOk result (λ page. IsPage title.now command.now files.now (string_bytes page)) }
{
    let parts = whole_parts(alloc, files, parts)?;
    let mut named = String::new(alloc);
    push_text(&mut named, title)?;
    let body = body_of(alloc, command, parts.as_slice())?;
    format!(in alloc; "{START}{named}{STYLE}{body}")
}

// The body of a page.
fn body_of(alloc: Global, command: &str, parts: &[Part<'_>]) -> Result<String, AllocError>
    ensures { IfOk result (λ body. Shows (chars (string_bytes body))
        (chars command.now ++ flat_map text_of_part parts.now)) }
{
    let mut body = String::new(alloc);
    push_switch(&mut body)?;
    push_heading(&mut body, "command", "", command)?;
    for part in parts {
        push_part(alloc, &mut body, part)?;
    }
    Ok(body)
}

// Appends what shows the output beside the sources, if it is opened.
fn push_switch(body: &mut String) -> Result<(), AllocError>
    ensures { OnOk result (ShowsMore (string_bytes body.old) (string_bytes body.new) []) }
{
    open(body, Element::Details, &[(Attribute::Class, "beside")])?;
    open(
        body,
        Element::Summary,
        &[(Attribute::Note, "output beside the source")],
    )?;
    close(body, Element::Summary)?;
    close(body, Element::Details)
}

// Appends a part of a file.
fn push_part(alloc: Global, body: &mut String, part: &Part<'_>) -> Result<(), AllocError>
    ensures { OnOk result (ShowsMore (string_bytes body.old) (string_bytes body.new) (text_of_part part.now)) }
{
    let id = format!(in alloc; "f{}", part.file)?;
    begin_part(body, id.as_str(), part)?;
    push_source(
        alloc,
        body,
        part.text,
        id.as_str(),
        part.first_line,
        part.lines.as_slice(),
    )?;
    end_part(body, part)
}

// Begins the file with this id, if it begins with a part.
fn begin_part(body: &mut String, id: &str, part: &Part<'_>) -> Result<(), AllocError>
    ensures { OnOk result (ShowsMore (string_bytes body.old) (string_bytes body.new) (beginning_of part.now)) }
{
    if !part.is_first {
        return Ok(());
    }
    if part.is_inner {
        return begin_inner(body, id, part.note.as_str(), part.name);
    }
    begin_outer(body, id, part.note.as_str(), part.name)
}

// Begins a file that doesn't stand within another.
fn begin_outer(body: &mut String, id: &str, note: &str, name: &str) -> Result<(), AllocError>
    ensures { OnOk result (ShowsMore (string_bytes body.old) (string_bytes body.new) (name_line name.now)) }
{
    push_heading(body, id, note, name)?;
    push_text(body, "\n")?;
    open(body, Element::Block, &[(Attribute::Class, "code")])
}

// Begins a file that stands within another. What has its id is shown only if it is opened, so a link to it opens it.
fn begin_inner(body: &mut String, id: &str, note: &str, name: &str) -> Result<(), AllocError>
    ensures { OnOk result (ShowsMore (string_bytes body.old) (string_bytes body.new) (name_line name.now)) }
{
    open(body, Element::Details, &[(Attribute::Class, "included")])?;
    open(body, Element::Summary, &[])?;
    push_heading(body, "", note, name)?;
    close(body, Element::Summary)?;
    push_text(body, "\n")?;
    open(
        body,
        Element::Block,
        &[(Attribute::Class, "code"), (Attribute::Id, id)],
    )
}

// Ends a file, if it ends with a part.
fn end_part(body: &mut String, part: &Part<'_>) -> Result<(), AllocError>
    ensures { OnOk result (ShowsMore (string_bytes body.old) (string_bytes body.new) []) }
{
    if !part.is_last {
        return Ok(());
    }
    if part.is_inner {
        return end_inner(body);
    }
    close(body, Element::Block)
}

fn end_inner(body: &mut String) -> Result<(), AllocError>
    ensures { OnOk result (ShowsMore (string_bytes body.old) (string_bytes body.new) []) }
{
    close(body, Element::Block)?;
    close(body, Element::Details)
}

/// Appends a heading with this id, and a note behind it.
pub(crate) fn push_heading(
    body: &mut String,
    id: &str,
    note: &str,
    text: &str,
) -> Result<(), AllocError>
    ensures { OnOk result (ShowsMore (string_bytes body.old) (string_bytes body.new) (chars text.now)) }
{
    open(
        body,
        Element::Heading,
        &[(Attribute::Id, id), (Attribute::Note, note)],
    )?;
    push_text(body, text)?;
    close(body, Element::Heading)
}
