//! The page that leads to others.

ghost use Rattle.std.specs.Prelude.{◌++◌, OnOk, IfOk, string_bytes};
ghost use Rattle.std.specs.List.{flat_map};
ghost use Rattle.std.specs.Str.{chars};
ghost use Rattle.glslpp_html.specs.Pages.{IsOverview, text_of_entry};
ghost use Rattle.glslpp_html.specs.Shown.{Shows};
ghost use Rattle.glslpp_html.specs.Written.{ShowsMore};

use crate::page::push_heading;
use crate::style::{START, STYLE};
use crate::tag::{Attribute, Element, close, open};
use crate::text::{push_link, push_text};
use std::alloc::{AllocError, Global};

/// A page to which an overview leads.
#[derive(Drop)]
pub struct Entry<'a> {
    /// What it shows.
    pub name: &'a str,
    /// The name of its file, which is in the folder of the overview.
    pub file: String,
    /// What is said of it.
    pub note: &'a str,
}

/// Returns a page with this title that shows the command by which it was made, and on a line for each page its name,
/// which leads to it, and what is said of it. The command has the id `command`, and the line of the first page `p0`.
pub fn overview(
    alloc: Global,
    title: &str,
    command: &str,
    entries: &[Entry<'_>],
) -> Result<String, AllocError>
    ensures { IfOk result (λ page. IsOverview title.now command.now entries.now (string_bytes page)) }
{
    let mut named = String::new(alloc);
    push_text(&mut named, title)?;
    let body = body_of_overview(alloc, command, entries)?;
    format!(in alloc; "{START}{named}{STYLE}{body}")
}

// The body of an overview.
fn body_of_overview(
    alloc: Global,
    command: &str,
    entries: &[Entry<'_>],
) -> Result<String, AllocError>
    ensures { IfOk result (λ body. Shows (chars (string_bytes body))
        (chars command.now ++ flat_map text_of_entry entries.now)) }
{
    let mut body = String::new(alloc);
    push_heading(&mut body, "command", "", command)?;
    for (index, entry) in entries.iter().enumerate() {
        let id = format!(in alloc; "p{index}")?;
        push_entry(alloc, &mut body, id.as_str(), entry)?;
    }
    Ok(body)
}

// Appends the line of a page, with this id.
fn push_entry(
    alloc: Global,
    body: &mut String,
    id: &str,
    entry: &Entry<'_>,
) -> Result<(), AllocError>
    ensures { OnOk result (ShowsMore (string_bytes body.old) (string_bytes body.new) (text_of_entry entry.now)) }
{
    let mut link = String::new(alloc);
    push_link(&mut link, entry.file.as_str())?;
    open(
        body,
        Element::Span,
        &[(Attribute::Class, "entry"), (Attribute::Id, id)],
    )?;
    push_linked(body, link.as_str(), entry.name)?;
    push_text(body, ": ")?;
    push_text(body, entry.note)?;
    push_text(body, "\n")?;
    close(body, Element::Span)
}

// Appends a name that leads to a page.
fn push_linked(body: &mut String, link: &str, name: &str) -> Result<(), AllocError>
    ensures { OnOk result (ShowsMore (string_bytes body.old) (string_bytes body.new) (chars name.now)) }
{
    open(body, Element::Link, &[(Attribute::Page, link)])?;
    push_text(body, name)?;
    close(body, Element::Link)
}
