//! The rules by which outputs depend on files.

use crate::preprocess::Found;
use crate::{name_of, write_output};
use glslpp_parts::arguments::{Arguments, written_file};
use glslpp_parts::dependencies::{escaped, rule, with_suffix};
use glslpp_parts::dependency_options::Dependencies;
use glslpp_parts::failure::Failure;
use std::alloc::{AllocError, Global};

/// Writes the rule for the files that were read for this source, or appends it to those that the file of `-MF` gets.
pub(crate) fn take_rule(
    rt: &HostRuntime,
    arguments: &Arguments<'_>,
    source: &str,
    output: Option<&str>,
    found: &Found,
    rules: &mut String,
) -> Result<(), Failure> {
    let text = rule_of(rt, arguments, source, output, found)?;
    let end = if arguments.dependencies.file.is_some() {
        rules.push_str(text.as_str()).map_err(Failure::from)
    } else {
        write_rule(rt, arguments, source, output, text.as_str())
    };
    drop(text);
    end
}

// Writes a rule where it is written if no file is named.
fn write_rule(
    rt: &HostRuntime,
    arguments: &Arguments<'_>,
    source: &str,
    output: Option<&str>,
    rule: &str,
) -> Result<(), Failure> {
    let file = file_of_rule(rt, arguments, source, output)?;
    let end = match &file {
        Some(file) => write_output(rt, Some(file.as_str()), rule),
        None => write_output(rt, None, rule),
    };
    drop(file);
    end
}

/// Writes the rules that the file of `-MF` gets, if there are some.
pub(crate) fn write_rules(
    rt: &HostRuntime,
    arguments: &Arguments<'_>,
    rules: &str,
) -> Result<(), Failure> {
    match arguments.dependencies.file {
        Some(name) if !rules.is_empty() => write_output(rt, written_file(name), rules),
        _ => Ok(()),
    }
}

// The rule for the files that were read.
fn rule_of(
    rt: &HostRuntime,
    arguments: &Arguments<'_>,
    source: &str,
    output: Option<&str>,
    found: &Found,
) -> Result<String, AllocError> {
    let alloc = rt.alloc();
    let asked = &arguments.dependencies;
    let quoted = quoted_targets(rt, arguments, source, output)?;
    let rule = rule_for(
        rt.alloc(),
        &arguments.dependencies,
        quoted.as_slice(),
        found,
    );
    drop(quoted);
    rule
}

// The rule for these targets behind those that are asked for as they are.
fn rule_for(
    alloc: Global,
    asked: &Dependencies<'_>,
    quoted: &[String],
    found: &Found,
) -> Result<String, AllocError> {
    let mut targets = Vec::new(alloc);
    targets.extend_from_slice(asked.targets.as_slice())?;
    for target in quoted {
        targets.push(target.as_str())?;
    }
    rule(
        alloc,
        targets.as_slice(),
        found.files.as_slice(),
        asked.have_targets,
    )
}

// The targets that are written as Make reads them. If none is given at all, it is the output, or the source with
// another suffix.
fn quoted_targets(
    rt: &HostRuntime,
    arguments: &Arguments<'_>,
    source: &str,
    output: Option<&str>,
) -> Result<Vec<String>, AllocError> {
    let alloc = rt.alloc();
    let asked = &arguments.dependencies;
    let mut quoted = Vec::new(alloc);
    for target in asked.quoted_targets.as_slice() {
        quoted.push(escaped(alloc, target)?)?;
    }
    if asked.targets.is_empty() && quoted.is_empty() {
        quoted.push(only_target(rt, arguments, source, output)?)?;
    }
    Ok(quoted)
}

fn only_target(
    rt: &HostRuntime,
    arguments: &Arguments<'_>,
    source: &str,
    output: Option<&str>,
) -> Result<String, AllocError> {
    let alloc = rt.alloc();
    match output {
        Some(output) if !arguments.dependencies.are_output => escaped(alloc, output),
        _ => {
            let object = with_suffix(alloc, name_of(arguments, source), ".o")?;
            escaped(alloc, object.as_str())
        }
    }
}

// The file to which the rule is written if none is named, or `None` for the standard output.
fn file_of_rule(
    rt: &HostRuntime,
    arguments: &Arguments<'_>,
    source: &str,
    output: Option<&str>,
) -> Result<Option<String>, AllocError> {
    let alloc = rt.alloc();
    let are_output = arguments.dependencies.are_output;
    Ok(match output {
        Some(output) if are_output => Some(String::from_str(alloc, output)?),
        Some(output) => Some(format!(in alloc; "{output}.d")?),
        None if are_output => None,
        None => Some(with_suffix(alloc, name_of(arguments, source), ".d")?),
    })
}
