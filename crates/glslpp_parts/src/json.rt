//! Items as JSON, one a line.

ghost use Rattle.std.specs.Prelude.{OnOk, string_bytes};
ghost use Rattle.glslpp_parts.specs.Output.{IsItem, IsErrorItem};
ghost use Rattle.glslpp_parts.specs.inner.Adding.{IsLonger};

use crate::columns::ColumnsOfTexts;
use crate::diagnostic::{Diagnostic, Site};
use crate::place::first_byte;
use crate::report::COMMAND_LINE;
use crate::texts::{Inclusion, Spot, Texts};
use pp_rs::pp::{CallPlace, SOURCE_TEXT, TokenRef, ValueRef};
use pp_rs::token::{Location, TokenValue};
use std::alloc::AllocError;

/// Appends a token with this text: its kind, the text, its place and, if a macro gave it, where that was called.
pub(crate) fn push_token<'a>(
    output: &mut String,
    columns: &mut ColumnsOfTexts<'a>,
    token: TokenRef<'_>,
    texts: &Texts<'a>,
    text: &str,
) -> Result<(), AllocError>
    ensures { OnOk result (IsItem (string_bytes output.old) (string_bytes output.new)) }
{
    let kind = kind_of(token.value);
    write!(output, "{{\"kind\":\"{kind}\",\"text\":")?;
    push_string(output, text)?;
    push_place(output, columns, texts, token.origin.text, token.location)?;
    push_call(output, texts, token.origin.call)?;
    push_number(output, token.value)?;
    output.push_str("}\n")
}

/// Appends a directive of the text with this number, with this text of its own: its kind, the text and its place.
pub(crate) fn push_directive<'a>(
    output: &mut String,
    columns: &mut ColumnsOfTexts<'a>,
    value: &TokenValue,
    texts: &Texts<'a>,
    number: u32,
    location: Location,
    text: &str,
) -> Result<(), AllocError>
    ensures { OnOk result (IsItem (string_bytes output.old) (string_bytes output.new)) }
{
    let kind = directive_kind(value);
    write!(output, "{{\"kind\":\"{kind}\",\"text\":")?;
    push_string(output, text)?;
    push_place(output, columns, texts, number, location)?;
    output.push_str("}\n")
}

// Appends the line of the macro's call and the place of its name, if a macro gave the token.
fn push_call(
    output: &mut String,
    texts: &Texts<'_>,
    call: Option<CallPlace>,
) -> Result<(), AllocError>
    ensures { OnOk result (IsLonger (string_bytes output.old) (string_bytes output.new)) }
{
    let Some(call) = call else {
        return Ok(());
    };
    write!(output, ",\"call\":{}", call.line)?;
    let Some(spot) = texts.spot(call.text, call.name) else {
        return Ok(());
    };
    push_spot(output, "call_", texts, spot)
}

// Appends the number of an integer.
fn push_number(output: &mut String, value: ValueRef<'_>) -> Result<(), AllocError>
    ensures { OnOk result (IsLonger (string_bytes output.old) (string_bytes output.new)) }
{
    let ValueRef::Integer(integer) = value else {
        return Ok(());
    };
    let (value, signed, width) = (integer.value, integer.signed, integer.width);
    write!(
        output,
        ",\"value\":{value},\"signed\":{signed},\"width\":{width}"
    )
}

/// Appends an error: its name, its message and its place.
pub(crate) fn push_error<'a>(
    output: &mut String,
    columns: &mut ColumnsOfTexts<'a>,
    name: &str,
    texts: &Texts<'a>,
    text: u32,
    location: Location,
    message: &str,
) -> Result<(), AllocError>
    ensures { OnOk result (IsErrorItem name.now (string_bytes output.old) (string_bytes output.new)) }
{
    write!(
        output,
        "{{\"kind\":\"error\",\"error\":\"{name}\",\"message\":"
    )?;
    push_string(output, message)?;
    push_place(output, columns, texts, text, location)?;
    output.push_str("}\n")
}

/// Appends a message: how grave it is, its place, its text and its notes.
pub(crate) fn push_diagnostic(
    output: &mut String,
    file: &str,
    texts: &Texts<'_>,
    diagnostic: &Diagnostic<'_>,
) -> Result<(), AllocError>
    ensures { OnOk result (IsItem (string_bytes output.old) (string_bytes output.new)) }
{
    let severity = diagnostic.severity.name();
    write!(output, "{{\"severity\":\"{severity}\",")?;
    push_site(output, file, diagnostic.site)?;
    push_message(output, diagnostic.message.as_str())?;
    push_notes(output, file, diagnostic)?;
    push_inclusions(output, texts, diagnostic.site)?;
    output.push_str("}\n")
}

// Appends the `#include` lines by which one comes to a site, from the innermost on, if it is in an included file.
fn push_inclusions(output: &mut String, texts: &Texts<'_>, site: Site<'_>) -> Result<(), AllocError>
    ensures { OnOk result (IsLonger (string_bytes output.old) (string_bytes output.new)) }
{
    let Some(innermost) = site.text().and_then(|text| texts.inclusion(text)) else {
        return Ok(());
    };
    output.push_str(",\"included_from\":[")?;
    push_includers(output, texts, innermost)?;
    output.push(']')
}

// Appends an `#include` and those by which one comes to its text.
fn push_includers(
    output: &mut String,
    texts: &Texts<'_>,
    innermost: Inclusion,
) -> Result<(), AllocError>
    ensures { OnOk result (IsLonger (string_bytes output.old) (string_bytes output.new)) }
{
    push_includer(output, texts, innermost)?;
    let mut last = innermost;
    for _ in 0..innermost.text {
        let Some(next) = texts.inclusion(last.text) else {
            return Ok(());
        };
        output.push(',')?;
        push_includer(output, texts, next)?;
        last = next;
    }
    Ok(())
}

// Appends the file and the line of an `#include`.
fn push_includer(
    output: &mut String,
    texts: &Texts<'_>,
    inclusion: Inclusion,
) -> Result<(), AllocError>
    ensures { OnOk result (IsLonger (string_bytes output.old) (string_bytes output.new)) }
{
    output.push_str("{\"file\":")?;
    push_string(output, texts.name(inclusion.text))?;
    write!(output, ",\"line\":{}}}", inclusion.location.line)
}

fn push_message(output: &mut String, message: &str) -> Result<(), AllocError>
    ensures { OnOk result (IsLonger (string_bytes output.old) (string_bytes output.new)) }
{
    output.push_str("\"message\":")?;
    push_string(output, message)
}

fn push_notes(
    output: &mut String,
    file: &str,
    diagnostic: &Diagnostic<'_>,
) -> Result<(), AllocError>
    ensures { OnOk result (IsLonger (string_bytes output.old) (string_bytes output.new)) }
{
    output.push_str(",\"notes\":[")?;
    push_note_objects(output, file, diagnostic)?;
    output.push(']')
}

fn push_note_objects(
    output: &mut String,
    file: &str,
    diagnostic: &Diagnostic<'_>,
) -> Result<(), AllocError>
    ensures { OnOk result (IsLonger (string_bytes output.old) (string_bytes output.new)) }
{
    match (diagnostic.note, &diagnostic.used) {
        (Some(note), Some(used)) => {
            push_note(output, file, note.site, note.message)?;
            output.push(',')?;
            push_note(output, file, used.site, used.message.as_str())
        }
        (Some(note), None) => push_note(output, file, note.site, note.message),
        (None, Some(used)) => push_note(output, file, used.site, used.message.as_str()),
        (None, None) => Ok(()),
    }
}

fn push_note(
    output: &mut String,
    file: &str,
    site: Site<'_>,
    message: &str,
) -> Result<(), AllocError>
    ensures { OnOk result (IsLonger (string_bytes output.old) (string_bytes output.new)) }
{
    output.push('{')?;
    push_site(output, file, site)?;
    push_message(output, message)?;
    output.push('}')
}

// Appends the file of a place, its line and column, and the number of characters at it, each with a comma.
fn push_site(output: &mut String, file: &str, site: Site<'_>) -> Result<(), AllocError>
    ensures { OnOk result (IsLonger (string_bytes output.old) (string_bytes output.new)) }
{
    output.push_str("\"file\":")?;
    let name = match site {
        Site::OnCommandLine(_) => COMMAND_LINE,
        Site::InSource(_, _, place) => place.name,
        Site::InFile => file,
    };
    push_string(output, name)?;
    if let Site::InSource(line, column, place) = site {
        let length = place.here.chars().count();
        write!(
            output,
            ",\"line\":{line},\"column\":{column},\"length\":{length}"
        )?;
    }
    output.push(',')
}

// Appends a text in quotes, with the escapes of JSON (RFC 8259, section 7).
fn push_string(output: &mut String, text: &str) -> Result<(), AllocError>
    ensures { OnOk result (IsLonger (string_bytes output.old) (string_bytes output.new)) }
{
    output.push('"')?;
    for c in text.chars() {
        push_escaped(output, c)?;
    }
    output.push('"')
}

fn push_escaped(output: &mut String, c: char) -> Result<(), AllocError>
    ensures { OnOk result (IsLonger (string_bytes output.old) (string_bytes output.new)) }
{
    match c {
        '"' => output.push_str("\\\""),
        '\\' => output.push_str("\\\\"),
        '\0'..='\x1f' => write!(output, "\\u{:04x}", c as u32),
        _ => output.push(c),
    }
}

// Appends the name of the text of a place, unless that is the source: `file` of an included file, and `in` of the
// command line, each after this.
fn push_name(output: &mut String, before: &str, spot: Spot<'_>) -> Result<(), AllocError>
    ensures { OnOk result (IsLonger (string_bytes output.old) (string_bytes output.new)) }
{
    if spot.number == SOURCE_TEXT {
        return Ok(());
    }
    let member = if spot.name == COMMAND_LINE {
        "in"
    } else {
        "file"
    };
    write!(output, ",\"{before}{member}\":")?;
    push_string(output, spot.name)
}

// Appends the place in its text, in bytes, and its line and column if that text is a file's.
fn push_place<'a>(
    output: &mut String,
    columns: &mut ColumnsOfTexts<'a>,
    texts: &Texts<'a>,
    text: u32,
    location: Location,
) -> Result<(), AllocError>
    ensures { OnOk result (IsLonger (string_bytes output.old) (string_bytes output.new)) }
{
    let Some(spot) = texts.spot(text, location) else {
        return Ok(());
    };
    push_spot(output, "", texts, spot)?;
    if !spot.is_in_file {
        return Ok(());
    }
    push_line(output, columns, spot, location.line)
}

// Appends the name of the text of a spot and its bounds there, in bytes, each after this. The contents of the command
// line count as one text, each with a line end.
fn push_spot(
    output: &mut String,
    before: &str,
    texts: &Texts<'_>,
    spot: Spot<'_>,
) -> Result<(), AllocError>
    ensures { OnOk result (IsLonger (string_bytes output.old) (string_bytes output.new)) }
{
    push_name(output, before, spot)?;
    let shift = texts.bytes_before(spot.number);
    let (start, end) = (
        spot.start.saturating_add(shift),
        spot.end.saturating_add(shift),
    );
    write!(output, ",\"{before}start\":{start},\"{before}end\":{end}")
}

// Appends the line of a spot of a file, and its column.
fn push_line<'a>(
    output: &mut String,
    columns: &mut ColumnsOfTexts<'a>,
    spot: Spot<'a>,
    line: u32,
) -> Result<(), AllocError>
    ensures { OnOk result (IsLonger (string_bytes output.old) (string_bytes output.new)) }
{
    write!(output, ",\"line\":{line}")?;
    match first_byte(spot) {
        Some(start) => write!(
            output,
            ",\"column\":{}",
            columns.column(spot.number, spot.text, start)
        ),
        None => Ok(()),
    }
}

fn kind_of(value: ValueRef<'_>) -> &'static str {
    match value {
        ValueRef::Ident(_) => "identifier",
        ValueRef::Integer(_) => "integer",
        ValueRef::Float(..) => "float",
        ValueRef::Punct(_) => "punctuator",
    }
}

fn directive_kind(value: &TokenValue) -> &'static str {
    match value {
        TokenValue::Version(_) => "version",
        TokenValue::Extension(_) => "extension",
        _ => "pragma",
    }
}
