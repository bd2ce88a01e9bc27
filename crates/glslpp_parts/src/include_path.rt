//! The names of files that are included.

ghost use Rattle.std.specs.Prelude.{◌≡◌, ◌++◌, IfOk, OnOk, map, nat_eq, string_bytes};
ghost use Rattle.std.specs.Cmp.Lexicographic.{pointwise};
ghost use Rattle.std.specs.List.{list_any};
ghost use Rattle.glslpp_parts.specs.FileNames.{IsWithName, folder_of, folders_for, looked_in, not_found, shown_folder};

use crate::include_line::Header;
use std::alloc::{AllocError, Global};
use std::path::Path;

/// Returns the name of the folder that a file is in, which is empty for the folder in which the program runs.
pub fn folder_of(file: &str) -> &str
    ensures { result.now ≡ folder_of file.now }
{
    match Path::new(file).parent() {
        Some(folder) => folder.as_str(),
        None => "",
    }
}

/// Returns the folders in which a file is looked for that is included by another: that of the other file if the name is
/// quoted, and then these, each once.
pub fn folders_for<'a>(
    alloc: Global,
    header: Header<'_>,
    includer: &'a str,
    folders: &[&'a str],
) -> Result<Vec<&'a str>, AllocError>
    ensures { IfOk result (λ all. map (λ folder. folder.now) all.items
        ≡ folders_for header.entry includer.now (map (λ folder. folder.now) folders.now)) }
{
    let mut all = Vec::new(alloc);
    if header.name.starts_with('/') {
        all.push("")?;
        return Ok(all);
    }
    if header.is_quoted {
        all.push(folder_of(includer))?;
    }
    for folder in folders {
        push_new(folder, &mut all)?;
    }
    Ok(all)
}

// Appends a name, unless it is there.
fn push_new<'a>(name: &'a str, names: &mut Vec<&'a str>) -> Result<(), AllocError>
    ensures { OnOk result (IsWithName name.now (map (λ other. other.now) names.old.items)
        (map (λ other. other.now) names.new.items)) }
{
    if is_among(name, names.as_slice()) {
        return Ok(());
    }
    names.push(name)?;
    Ok(())
}

// Whether a name is one of these.
fn is_among(name: &str, names: &[&str]) -> bool
    ensures { result ≡ list_any (λ other. pointwise nat_eq other.now name.now) names.now }
{
    names.iter().any(|other| *other == name)
}

/// Returns what is said of a file that is in none of the folders.
pub fn not_found(alloc: Global, header: Header<'_>, folders: &[&str]) -> Result<String, AllocError>
    ensures { IfOk result (λ message. string_bytes message
        ≡ not_found header.entry.name.now (map (λ folder. folder.now) folders.now)) }
{
    let mut message = format!(in alloc; "`{}` isn't found", header.name)?;
    if header.name.starts_with('/') {
        return Ok(message);
    }
    push_folders(&mut message, folders)?;
    Ok(message)
}

// Appends in which folders a file was looked for.
fn push_folders(message: &mut String, folders: &[&str]) -> Result<(), AllocError>
    ensures { OnOk result (string_bytes message.new
        ≡ string_bytes message.old ++ looked_in (map (λ folder. folder.now) folders.now)) }
{
    let Some((first, others)) = folders.split_first() else {
        return message.push_str(": no folder is given by `-I`");
    };
    write!(message, " in `{}`", shown(first))?;
    for other in others {
        write!(message, ", `{}`", shown(other))?;
    }
    Ok(())
}

// How a folder is named in messages.
fn shown(folder: &str) -> &str
    ensures { result.now ≡ shown_folder folder.now }
{
    if folder.is_empty() { "." } else { folder }
}
