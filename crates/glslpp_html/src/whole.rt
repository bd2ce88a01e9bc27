//! Parts of files that show them whole.

ghost use Rattle.std.specs.Prelude.{◌≡◌, ◌<◌, ◌++◌, true, OnOk, IfOk, string_bytes};
ghost use Rattle.std.specs.List.{All, flat_map};
ghost use Rattle.std.specs.Str.{chars};
ghost use Rattle.glslpp_html.specs.Pages.{AreEachWhole, AreWhole, beginning_of, name_line, text_in_file, text_of_file};
ghost use Rattle.glslpp_html.specs.Pages.{text_of_part};

use crate::page::{File, Part};
use std::alloc::{AllocError, Global};

/// Returns these parts, if they show the files whole, and otherwise a part for each file.
pub(crate) fn whole_parts<'a>(
    alloc: Global,
    files: &[File<'a>],
    parts: Vec<Part<'a>>,
) -> Result<Vec<Part<'a>>, AllocError>
    ensures { IfOk result (λ parts. AreWhole files.now parts.items) }
{
    if are_whole(alloc, files, parts.as_slice())? {
        return Ok(parts);
    }
    undivided(alloc, files)
}

// Whether parts show the files whole.
fn are_whole(alloc: Global, files: &[File<'_>], parts: &[Part<'_>]) -> Result<bool, AllocError>
    ensures { IfOk result (λ are_whole. are_whole ≡ true → AreWhole files.now parts.now) }
{
    if !are_of_files(files.len(), parts) {
        return Ok(false);
    }
    are_each_whole(alloc, files, parts)
}

// Whether each part is one of so many files.
fn are_of_files(count: usize, parts: &[Part<'_>]) -> bool
    ensures { result ≡ true → All (λ part. part.file < count) parts.now }
{
    for part in parts {
        if part.file >= count {
            return false;
        }
    }
    true
}

// Whether the parts of each file show it whole.
fn are_each_whole(alloc: Global, files: &[File<'_>], parts: &[Part<'_>]) -> Result<bool, AllocError>
    ensures { IfOk result (λ are_whole. are_whole ≡ true → AreEachWhole files.now parts.now) }
{
    for (number, file) in files.iter().enumerate() {
        if !is_whole(alloc, number, *file, parts)? {
            return Ok(false);
        }
    }
    Ok(true)
}

// Whether the parts of the file with this number show it whole.
fn is_whole(
    alloc: Global,
    number: usize,
    file: File<'_>,
    parts: &[Part<'_>],
) -> Result<bool, AllocError>
    ensures { IfOk result (λ is_whole. is_whole ≡ true
        → flat_map (text_in_file number) parts.now ≡ text_of_file file.entry) }
{
    let found = text_of_parts(alloc, number, parts)?;
    let wanted = whole_text(alloc, file)?;
    Ok(found.as_str() == wanted.as_str())
}

// What the parts of the file with this number show.
fn text_of_parts(alloc: Global, number: usize, parts: &[Part<'_>]) -> Result<String, AllocError>
    ensures { IfOk result (λ text. chars (string_bytes text) ≡ flat_map (text_in_file number) parts.now) }
{
    let mut text = String::new(alloc);
    for part in parts {
        push_in_file(&mut text, number, part)?;
    }
    Ok(text)
}

// Appends what a part shows of the file with this number.
fn push_in_file(text: &mut String, number: usize, part: &Part<'_>) -> Result<(), AllocError>
    ensures { OnOk result (chars (string_bytes text.new)
        ≡ chars (string_bytes text.old) ++ text_in_file number part.now) }
{
    if part.file == number {
        push_part_text(text, part)
    } else {
        Ok(())
    }
}

fn push_part_text(text: &mut String, part: &Part<'_>) -> Result<(), AllocError>
    ensures { OnOk result (chars (string_bytes text.new) ≡ chars (string_bytes text.old) ++ text_of_part part.now) }
{
    push_beginning(text, part)?;
    text.push_str(part.text)
}

fn push_beginning(text: &mut String, part: &Part<'_>) -> Result<(), AllocError>
    ensures { OnOk result (chars (string_bytes text.new) ≡ chars (string_bytes text.old) ++ beginning_of part.now) }
{
    if part.is_first {
        push_name(text, part.name)
    } else {
        Ok(())
    }
}

// Appends a name on a line.
fn push_name(text: &mut String, name: &str) -> Result<(), AllocError>
    ensures { OnOk result (chars (string_bytes text.new) ≡ chars (string_bytes text.old) ++ name_line name.now) }
{
    text.push_str(name)?;
    text.push_str("\n")
}

// What is shown of a whole file.
fn whole_text(alloc: Global, file: File<'_>) -> Result<String, AllocError>
    ensures { IfOk result (λ text. chars (string_bytes text) ≡ text_of_file file.entry) }
{
    let mut text = String::new(alloc);
    push_name(&mut text, file.name)?;
    text.push_str(file.text)?;
    Ok(text)
}

// A part for each file.
fn undivided<'a>(alloc: Global, files: &[File<'a>]) -> Result<Vec<Part<'a>>, AllocError>
    ensures { IfOk result (λ parts. AreWhole files.now parts.items) }
{
    let mut parts = Vec::new(alloc);
    for (number, file) in files.iter().enumerate() {
        parts.push(whole_part(alloc, number, *file))?;
    }
    Ok(parts)
}

// The file with this number as a part.
fn whole_part<'a>(alloc: Global, number: usize, file: File<'a>) -> Part<'a>
    ensures number { result.file ≡ number }
    ensures text { text_of_part result ≡ text_of_file file.entry }
{
    Part {
        file: number,
        name: file.name,
        note: String::new(alloc),
        is_first: true,
        is_last: true,
        is_inner: false,
        text: file.text,
        first_line: 1,
        lines: Vec::new(alloc),
    }
}
