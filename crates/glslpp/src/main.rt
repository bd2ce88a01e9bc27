//! Preprocesses GLSL files, and reports their errors as compilers do.

// What owns much has one end, before which it is dropped by name: that is a call, and so it is proved far sooner than a
// drop that is written out at each end.

#![tactic(auto)]

mod depending;
mod files;
mod folder;
mod foreign;
mod including;
mod listing;
mod page;
mod preprocess;
mod run;
mod undefined;
mod word_files;

use bumpalo::Bump;
use clap::ArgMatches;
use depending::{take_rule, write_rules};
use folder::preprocess_into;
use foreign::refusal_of;
use glslpp_parts::arguments::{Arguments, Colours, Form, STANDARD_INPUT, command};
use glslpp_parts::definitions::{check_changes, check_included};
use glslpp_parts::extensions::check_extensions;
use glslpp_parts::failure::{Failure, failure_of};
use glslpp_parts::long_options::lengthen_options;
use glslpp_parts::report::{Reporter, Style};
use glslpp_parts::source::Source;
use glslpp_parts::standard::{lengthen_standards, version_without_line};
use glslpp_parts::version::Version;
use glslpp_parts::warning::check_warnings;
use including::{Identity, Library, identity_of, source_of};
use preprocess::{Found, preprocess};
use std::alloc::Global;
use std::io::IsTerminal;
use std::process::ExitCode;
use std::{env, io};
use word_files::expand_words;

// The least number of bytes that is too many for a source.
const LIMIT: usize = 4294967295;

// The status if an argument is wrong, or reading or writing failed.
const FAILED: u8 = 2;

fn main(rt: HostRuntime) -> ExitCode {
    match work(&rt) {
        Ok(status) => ExitCode::from(status),
        Err(failure) => {
            report(&rt, &failure);
            ExitCode::from(FAILED)
        }
    }
}

fn report(rt: &HostRuntime, failure: &Failure) {
    let text = match failure {
        Failure::Told(text) => text.as_str(),
        Failure::OutOfMemory => "out of memory",
    };
    let _ = eprintln!(rt; "glslpp: {text}");
}

// Reads the command line, and does what it asks for. Returns the exit status.
fn work(rt: &HostRuntime) -> Result<u8, Failure> {
    let mut words = given_words(rt)?;
    let end = work_on(rt, &mut words);
    drop(words);
    end
}

// The words of the command line.
fn given_words(rt: &HostRuntime) -> Result<Vec<String>, Failure> {
    match env::args(rt) {
        Ok(words) => Ok(words.collect(rt.alloc())?),
        Err(error) => Err(files::unread_words(rt, error)),
    }
}

// Does what the words of the command line ask for.
fn work_on(rt: &HostRuntime, words: &mut Vec<String>) -> Result<u8, Failure> {
    let alloc = rt.alloc();
    expand_words(rt, words)?;
    lengthen_standards(alloc, words.as_mut_slice())?;
    lengthen_options(alloc, words.as_mut_slice())?;
    refuse_foreign(rt, words.as_slice())?;
    let Ok(command) = command(alloc) else {
        return Err(Failure::OutOfMemory);
    };
    match command.try_get_matches_from(words.as_slice()) {
        Ok(matches) => work_by(rt, matches),
        Err(error) => Ok(answer(rt, error)),
    }
}

// Prints what there is to say in place of preprocessing: the help, or what is wrong with the words.
fn answer(rt: &HostRuntime, error: clap::Error) -> u8 {
    let _ = error.print(rt);
    let is_refused = error.use_stderr();
    drop(error);
    if is_refused { FAILED } else { 0 }
}

// Does what the options ask for, which were matched.
fn work_by(rt: &HostRuntime, matches: ArgMatches<'_>) -> Result<u8, Failure> {
    let arguments = Arguments::from_matches(rt.alloc(), &matches);
    drop(matches);
    let arguments = arguments?;
    let end = preprocess_files(rt, &arguments);
    drop(arguments);
    end
}

// Refuses options of other preprocessors, each by a sentence of its own.
fn refuse_foreign(rt: &HostRuntime, words: &[String]) -> Result<(), Failure> {
    for word in words {
        if word.as_str() == "--" {
            return Ok(());
        }
        if let Some(refusal) = refusal_of(word.as_str()) {
            return Err(failure_of(rt.alloc(), word.as_str(), refusal));
        }
    }
    Ok(())
}

// Preprocesses the files as the command line asks for. Returns the exit status.
fn preprocess_files(rt: &HostRuntime, arguments: &Arguments<'_>) -> Result<u8, Failure> {
    check_words(rt.alloc(), arguments)?;
    let version = version_without_line(rt.alloc(), arguments.standard)?;
    let is_faultless = match arguments.output {
        Some(folder) if files::is_folder(rt, folder) => {
            preprocess_into(rt, arguments, version, folder)?
        }
        _ => preprocess_together(rt, arguments, version)?,
    };
    Ok(if is_faultless { 0 } else { 1 })
}

// Fails if an extension, a macro, an included file or a warning can't be what the command line says.
fn check_words(alloc: Global, arguments: &Arguments<'_>) -> Result<(), Failure> {
    check_extensions(alloc, arguments.extensions.as_slice())?;
    check_changes(alloc, arguments.changes.as_slice())?;
    check_included(alloc, arguments.included.as_slice())?;
    check_warnings(alloc, arguments.warning_words.as_slice())
}

// Preprocesses the files, and writes one output unless one of them has an error. Returns whether none has.
fn preprocess_together(
    rt: &HostRuntime,
    arguments: &Arguments<'_>,
    version: Version,
) -> Result<bool, Failure> {
    if let Some(output) = arguments.output {
        check_output(rt, arguments, output)?;
    }
    if arguments.is_page && arguments.files.len() > 1 {
        let cause = "a page has one source: -o FOLDER writes a page for each";
        return Err(failure_of(rt.alloc(), "--html", cause));
    }
    let mut found = Found::new(rt.alloc());
    let end = write_together(rt, arguments, version, &mut found);
    drop(found);
    end
}

// Preprocesses the files into what was found, of which there is nothing yet, and writes that.
fn write_together(
    rt: &HostRuntime,
    arguments: &Arguments<'_>,
    version: Version,
    found: &mut Found,
) -> Result<bool, Failure> {
    for file in arguments.files.as_slice() {
        preprocess_file(rt, arguments, version, file, found)?;
    }
    let source = match arguments.files.first() {
        Some(source) => *source,
        None => STANDARD_INPUT,
    };
    let mut rules = String::new(rt.alloc());
    let is_faultless = write_found(rt, arguments, source, arguments.output, found, &mut rules)?;
    write_rules(rt, arguments, rules.as_str())?;
    Ok(is_faultless)
}

// Writes what was found in sources, of which this is the first, if they have no error or the form shows these too.
// Their rule is written too or appended to the rules, if one is asked for. Returns whether they have no error.
pub(crate) fn write_found(
    rt: &HostRuntime,
    arguments: &Arguments<'_>,
    source: &str,
    output: Option<&str>,
    found: &Found,
    rules: &mut String,
) -> Result<bool, Failure> {
    let is_faultless = found.errors == 0;
    if let Some(output) = output {
        check_included_files(rt, found, output)?;
    }
    if arguments.dependencies.are_output {
        if is_faultless {
            take_rule(rt, arguments, source, output, found, rules)?;
        }
        return Ok(is_faultless);
    }
    if is_faultless || arguments.form == Form::Tokens || arguments.is_page {
        write_output(rt, output, found.output.as_str())?;
    }
    if is_faultless && arguments.dependencies.are_written {
        take_rule(rt, arguments, source, output, found, rules)?;
    }
    Ok(is_faultless)
}

// Fails if the output is one of the files that were read.
fn check_included_files(rt: &HostRuntime, found: &Found, output: &str) -> Result<(), Failure> {
    for file in found.files.as_slice() {
        if files::is_same(rt, file.as_str(), output) {
            return Err(failure_of(rt.alloc(), output, "the output is also an included file"));
        }
    }
    Ok(())
}

// Fails if the output is one of the sources.
pub(crate) fn check_output(
    rt: &HostRuntime,
    arguments: &Arguments<'_>,
    output: &str,
) -> Result<(), Failure> {
    for file in arguments.files.as_slice() {
        if *file != STANDARD_INPUT && files::is_same(rt, file, output) {
            return Err(failure_of(rt.alloc(), output, "the output is also a source"));
        }
    }
    Ok(())
}

// The name of a file in messages.
pub(crate) fn name_of<'a>(arguments: &Arguments<'a>, file: &'a str) -> &'a str {
    if file == STANDARD_INPUT {
        arguments.standard_input_name
    } else {
        file
    }
}

// Preprocesses one file, which is of this version if it has no `#version`, and reports its errors.
pub(crate) fn preprocess_file(
    rt: &HostRuntime,
    arguments: &Arguments<'_>,
    version: Version,
    file: &str,
    found: &mut Found,
) -> Result<(), Failure> {
    let source = read_source(rt, file, name_of(arguments, file))?;
    let arena = Bump::new(rt.alloc());
    let end = preprocess_source(rt, &arena, arguments, version, file, &source, found);
    drop(arena);
    drop(source);
    end
}

// Preprocesses a source that was read from a file. What is made of it is kept in the arena.
fn preprocess_source(
    rt: &HostRuntime,
    arena: &Bump,
    arguments: &Arguments<'_>,
    version: Version,
    file: &str,
    source: &Source,
    found: &mut Found,
) -> Result<(), Failure> {
    let name = name_of(arguments, file);
    let text = source.text();
    if text.len() >= LIMIT {
        return Err(failure_of(rt.alloc(), name, "the source is too long"));
    }
    let reporter = Reporter {
        style: style_of(rt, arguments),
        file: name,
    };
    let replaced = source.replaced.as_slice();
    let file_text = source_of(rt.alloc(), arena, arguments.rule_set, text, name, replaced)?;
    let mut library = Library::new(
        rt,
        arena,
        arguments.folders.as_slice(),
        file_text,
        identity_of_source(rt, file),
    )?;
    let end = preprocess(
        rt.alloc(),
        reporter,
        arguments,
        version,
        file_text,
        &mut library,
        found,
    );
    drop(library);
    end?;
    let _ = rt.eprint(found.reports.as_str());
    Ok(())
}

// What tells the file of a source from others. The standard input has none.
fn identity_of_source(rt: &HostRuntime, file: &str) -> Option<Identity> {
    if file == STANDARD_INPUT {
        return None;
    }
    identity_of(rt, file)
}

// Reads a file, or the standard input, as text.
fn read_source(rt: &HostRuntime, file: &str, name: &str) -> Result<Source, Failure> {
    match files::read(rt, file) {
        Ok(bytes) => Ok(Source::from_bytes(rt.alloc(), bytes)?),
        Err(error) => Err(failure_of(rt.alloc(), name, error)),
    }
}

// Writes the file, or prints.
pub(crate) fn write_output(
    rt: &HostRuntime,
    file: Option<&str>,
    output: &str,
) -> Result<(), Failure> {
    let (name, end) = match file {
        Some(file) => (file, files::write(rt, file, output)),
        None => ("<stdout>", files::print(rt, output)),
    };
    match end {
        Ok(()) => Ok(()),
        Err(error) => Err(failure_of(rt.alloc(), name, error)),
    }
}

// How messages are written, as the command line, the terminal and the variable `NO_COLOR` say.
fn style_of(rt: &HostRuntime, arguments: &Arguments<'_>) -> Style {
    if arguments.has_json_errors {
        return Style::Json;
    }
    let is_coloured = match arguments.colours {
        Colours::Always => true,
        Colours::Never => false,
        Colours::Auto => rt.stderr().is_terminal() && env::var(rt, "NO_COLOR").is_err(),
    };
    if is_coloured {
        Style::Coloured
    } else {
        Style::Plain
    }
}
