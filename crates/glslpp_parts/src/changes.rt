//! The definitions that `-D` and `-U` leave.

ghost use Rattle.std.specs.Prelude.{◌≡◌, ◌++◌, OnOk, IfOk, map, string_bytes};
ghost use Rattle.std.specs.List.{list_any};
ghost use Rattle.glslpp_parts.specs.Changes.{define_line, kept, kept_of, lines_before, takes_back};

use std::alloc::{AllocError, Global};

/// A `-D` or a `-U` of the command line.
#[derive(Clone, Copy)]
pub enum Change<'a> {
    /// A macro's name and content.
    Define(&'a str, &'a str),
    /// A macro's name, its parameters in their parentheses, and its content.
    DefineCall(&'a str, &'a str, &'a str),
    /// The name of a macro that is undefined.
    Undefine(&'a str),
}

/// A macro that is defined before a source: its name and its content.
pub type Definition<'a> = (&'a str, &'a str);

/// Returns the definitions that no later `-U` undoes, in order.
pub fn kept_definitions<'a>(
    alloc: Global,
    changes: &[Change<'a>],
) -> Result<Vec<Definition<'a>>, AllocError>
    ensures { IfOk result (λ definitions. definitions.items ≡ kept changes.now) }
{
    let mut definitions = Vec::new(alloc);
    for index in 0..changes.len() {
        push_kept(changes[index], &changes[index + 1..], &mut definitions)?;
    }
    Ok(definitions)
}

// Appends the definition of a change, unless one of the later changes undoes it.
fn push_kept<'a>(
    change: Change<'a>,
    later: &[Change<'a>],
    definitions: &mut Vec<Definition<'a>>,
) -> Result<(), AllocError>
    ensures { OnOk result (definitions.new.items ≡ definitions.old.items
        ++ kept_of change.entry later.now) }
{
    match change {
        Change::Define(name, content) if !is_taken_back(name, later) => {
            definitions.push((name, content))?;
            Ok(())
        }
        _ => Ok(()),
    }
}

/// Returns the lines before a source that define the macros with parameters that no later `-U` undoes, in order, and
/// include these files.
pub fn lines_before(
    alloc: Global,
    changes: &[Change<'_>],
    files: &[&str],
) -> Result<String, AllocError>
    ensures { IfOk result (λ lines. string_bytes lines
        ≡ lines_before changes.now (map (λ file. file.now) files.now)) }
{
    let mut lines = String::new(alloc);
    for index in 0..changes.len() {
        push_define_line(changes[index], &changes[index + 1..], &mut lines)?;
    }
    for file in files {
        writeln!(lines, "#include \"{file}\"")?;
    }
    Ok(lines)
}

// Appends the line that defines a macro with parameters, unless one of the later changes undoes it.
fn push_define_line(
    change: Change<'_>,
    later: &[Change<'_>],
    lines: &mut String,
) -> Result<(), AllocError>
    ensures { OnOk result (string_bytes lines.new
        ≡ string_bytes lines.old ++ define_line change.entry later.now) }
{
    match change {
        Change::DefineCall(name, parameters, content) if !is_taken_back(name, later) => {
            writeln!(lines, "#define {name}{parameters} {content}")
        }
        _ => Ok(()),
    }
}

// Whether one of the changes is a `-U` of the name.
fn is_taken_back(name: &str, changes: &[Change<'_>]) -> bool
    ensures { result ≡ list_any (takes_back name.now) changes.now }
{
    for change in changes {
        if let Change::Undefine(other) = change
            && *other == name
        {
            return true;
        }
    }
    false
}
