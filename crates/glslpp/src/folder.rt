//! The outputs of several files, each in a file of a folder.

use crate::depending::write_rules;
use crate::listing::{Pages, index_in};
use crate::preprocess::Found;
use crate::{check_output, name_of, preprocess_file, write_found};
use glslpp_parts::arguments::{Arguments, STANDARD_INPUT_NAME};
use glslpp_parts::failure::{Failure, failure_of};
use glslpp_parts::output_folder::outputs_in;
use glslpp_parts::version::Version;
use std::alloc::{AllocError, Global};

// What is known of the files that were preprocessed so far.
#[derive(Drop)]
struct Written {
    // The rules that the file of `-MF` gets.
    rules: String,
    // The pages of the index.
    pages: Pages,
    is_faultless: bool,
}

impl Written {
    // No files.
    fn new(alloc: Global) -> Written {
        Written {
            rules: String::new(alloc),
            pages: Pages::new(alloc),
            is_faultless: true,
        }
    }
}

/// Preprocesses the files, and writes the output of each that has no error to its file in the folder. Returns whether
/// none has.
pub(crate) fn preprocess_into(
    rt: &HostRuntime,
    arguments: &Arguments<'_>,
    version: Version,
    folder: &str,
) -> Result<bool, Failure> {
    let mut outputs = outputs_of(rt, arguments, folder)?;
    let mut written = Written::new(rt.alloc());
    let end = write_outputs(
        rt,
        arguments,
        version,
        folder,
        outputs.as_mut_slice(),
        &mut written,
    );
    let is_faultless = written.is_faultless;
    drop(written);
    drop(outputs);
    end?;
    Ok(is_faultless)
}

// The output of each file in the folder.
fn outputs_of(
    rt: &HostRuntime,
    arguments: &Arguments<'_>,
    folder: &str,
) -> Result<Vec<String>, Failure> {
    let mut names = Vec::new(rt.alloc());
    for file in arguments.files.as_slice() {
        let name = name_of(arguments, file);
        if name == STANDARD_INPUT_NAME {
            return Err(failure_of(rt.alloc(), name, "its output needs a name: --stdin-name"));
        }
        names.push(name)?;
    }
    outputs_in(rt.alloc(), folder, names.as_slice())
}

// Preprocesses the files, and writes these outputs, the index of pages and the rules.
fn write_outputs(
    rt: &HostRuntime,
    arguments: &Arguments<'_>,
    version: Version,
    folder: &str,
    outputs: &mut [String],
    written: &mut Written,
) -> Result<(), Failure> {
    if arguments.is_page {
        name_pages(outputs)?;
        check_index(rt, arguments, outputs, folder)?;
    }
    for output in outputs.iter() {
        check_output(rt, arguments, output.as_str())?;
    }
    for (file, output) in arguments.files.as_slice().iter().zip(outputs.iter()) {
        let mut found = Found::new(rt.alloc());
        let end = write_output_of(
            rt,
            arguments,
            version,
            file,
            output.as_str(),
            &mut found,
            written,
        );
        drop(found);
        end?;
    }
    if arguments.is_page {
        written.pages.write(rt, folder)?;
    }
    write_rules(rt, arguments, written.rules.as_str())
}

fn name_pages(outputs: &mut [String]) -> Result<(), AllocError> {
    for output in outputs {
        output.push_str(".html")?;
    }
    Ok(())
}

// Fails if the index is one of the sources or their pages.
fn check_index(
    rt: &HostRuntime,
    arguments: &Arguments<'_>,
    outputs: &[String],
    folder: &str,
) -> Result<(), Failure> {
    let index = index_in(rt.alloc(), folder)?;
    check_output(rt, arguments, index.as_str())?;
    for output in outputs {
        if output.as_str() == index.as_str() {
            return Err(failure_of(rt.alloc(), output.as_str(), "the page is also the index"));
        }
    }
    Ok(())
}

// Preprocesses a file, of which nothing is found yet, and writes its output.
fn write_output_of(
    rt: &HostRuntime,
    arguments: &Arguments<'_>,
    version: Version,
    file: &str,
    output: &str,
    found: &mut Found,
    written: &mut Written,
) -> Result<(), Failure> {
    preprocess_file(rt, arguments, version, file, found)?;
    let name = name_of(arguments, file);
    written.pages.push(name, output, found.summary.as_str())?;
    if !write_found(rt, arguments, file, Some(output), found, &mut written.rules)? {
        written.is_faultless = false;
    }
    Ok(())
}
