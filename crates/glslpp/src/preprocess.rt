//! One source: its output and the messages on it.

ghost use Rattle.std.specs.Prelude.{◌≡◌, ℕ, ◌-◌, ◌^◌, ◌<◌, ◌≤◌, List, [], ◌++◌, OnOk, length, string_bytes};

use crate::including::Library;
use crate::page::MOST_MARKED;
use crate::run::{Ended, Run};
use crate::undefined::search_conditions;
use glslpp_parts::arguments::Arguments;
use glslpp_parts::changes::{Change, Definition, kept_definitions, lines_before};
use glslpp_parts::definitions::add_definitions;
use glslpp_parts::extension_names::EXTENSION_NAMES;
use glslpp_parts::extensions::push_extensions;
use glslpp_parts::failure::Failure;
use glslpp_parts::output::Output;
use glslpp_parts::report::Reporter;
use glslpp_parts::rule_set::Setting;
use glslpp_parts::texts::{File, Texts};
use glslpp_parts::undefined_names::Conditions;
use glslpp_parts::version::{Version, declared_version};
use pp_rs::pp::Preprocessor;
use std::alloc::{AllocError, Global};
use std::mem;

/// The output of all sources, and the number of their errors.
#[derive(Drop)]
pub struct Found {
    /// The output so far.
    pub output: String,
    /// The number of errors so far.
    pub errors: usize,
    /// The names of the files that were read so far.
    pub files: Vec<String>,
    /// What is said in an index of the page of the last source, if it has one.
    pub summary: String,
    /// The messages on the last source.
    pub reports: String,
}

impl Found {
    /// Returns an empty output without errors.
    pub fn new(alloc: Global) -> Found
        ensures output { string_bytes result.output ≡ [] }
        ensures errors { result.errors ≡ 0 }
    {
        Found {
            output: String::new(alloc),
            errors: 0,
            files: Vec::new(alloc),
            summary: String::new(alloc),
            reports: String::new(alloc),
        }
    }

    // Takes what a run gave.
    fn take(&mut self, alloc: Global, ended: &mut Ended) -> Result<(), Failure>
        ensures output { OnOk result ((more : List ℕ)
            × (string_bytes self.new.output ≡ string_bytes self.old.output ++ more)) }
        ensures errors { OnOk result (self.old.errors ≤ self.new.errors) }
    {
        self.output.push_str(ended.output.as_str())?;
        self.errors = self.errors.saturating_add(ended.errors);
        mem::swap(&mut self.summary, &mut ended.summary);
        mem::swap(&mut self.reports, &mut ended.reports);
        push_new(alloc, &mut self.files, ended.files.as_slice())?;
        Ok(())
    }
}

/// Preprocesses a source, which is the first file of the library. If it has no `#version`, it is of this version.
pub fn preprocess<'x>(
    alloc: Global,
    reporter: Reporter<'x>,
    arguments: &Arguments<'x>,
    version: Version,
    source: File<'x>,
    library: &mut Library<'x>,
    found: &mut Found,
) -> Result<(), Failure>
    requires text { length source.text.now < 2 ^ 32 - 1 }
    requires read { length source.read.now < 2 ^ 32 - 1 }
    ensures output { OnOk result ((more : List ℕ)
        × (string_bytes found.new.output ≡ string_bytes found.old.output ++ more)) }
    ensures errors { OnOk result (found.old.errors ≤ found.new.errors) }
{
    let mut ended = Ended::new(alloc);
    let end = match run_over(
        alloc, reporter, arguments, version, source, library, &mut ended,
    ) {
        Ok(()) => found.take(alloc, &mut ended),
        Err(failure) => Err(failure),
    };
    drop(ended);
    end
}

// Appends copies of the names that aren't there yet.
fn push_new(alloc: Global, names: &mut Vec<String>, more: &[String]) -> Result<(), AllocError> {
    for name in more {
        if !names.iter().any(|other| other.as_str() == name.as_str()) {
            names.push(String::from_str(alloc, name.as_str())?)?;
        }
    }
    Ok(())
}

// Runs over a source, with the definitions of GLSL and of the command line that no later `-U` undoes.
fn run_over<'x>(
    alloc: Global,
    reporter: Reporter<'x>,
    arguments: &Arguments<'x>,
    version: Version,
    source: File<'x>,
    library: &mut Library<'x>,
    ended: &mut Ended,
) -> Result<(), Failure>
    requires text { length source.text.now < 2 ^ 32 - 1 }
    requires read { length source.read.now < 2 ^ 32 - 1 }
{
    let version = declared_version(alloc, source.text, version)?;
    let setting = Setting {
        rules: arguments.rule_set.rules_for(version),
        definitions: definitions_of(alloc, arguments, version, library)?,
        extensions: known_extensions(arguments.is_predefining),
        budget: arguments.budget,
    };
    let mut items = setting.begin(alloc, source.read)?;
    let end = match with_definitions(alloc, &mut items, source, setting.definitions) {
        Ok(texts) => run_over_items(
            alloc, reporter, arguments, source, library, setting, &mut items, texts, ended,
        ),
        Err(failure) => Err(failure),
    };
    drop(items);
    end
}

// The definitions before a source of this version. The library keeps them, and the lines that come before it.
fn definitions_of<'x>(
    alloc: Global,
    arguments: &Arguments<'x>,
    version: Version,
    library: &mut Library<'x>,
) -> Result<&'x [Definition<'x>], AllocError> {
    let mut changes = Vec::new(alloc);
    push_changes(alloc, arguments, version, library, &mut changes)?;
    let lines = lines_before(alloc, changes.as_slice(), arguments.included.as_slice())?;
    library.keep_before(lines.as_str())?;
    let definitions = kept_definitions(alloc, changes.as_slice())?;
    library.keep_definitions(definitions.as_slice())
}

// Appends what GLSL and the command line define before a source of this version, and what `-U` undoes.
fn push_changes<'x>(
    alloc: Global,
    arguments: &Arguments<'x>,
    version: Version,
    library: &Library<'x>,
    changes: &mut Vec<Change<'x>>,
) -> Result<(), AllocError> {
    if arguments.is_predefining {
        let number = format!(in alloc; "{}", version.number)?;
        version.push_predefined(library.keep(number.as_str())?, changes)?;
    }
    push_extensions(arguments.extensions.as_slice(), changes)?;
    changes.extend_from_slice(arguments.changes.as_slice())?;
    Ok(())
}

// The extensions whose macros `#extension` lines define: all that are known, if names are predefined at all.
fn known_extensions(is_predefining: bool) -> &'static [&'static str] {
    if is_predefining {
        &EXTENSION_NAMES
    } else {
        &[]
    }
}

// Adds the definitions before the source, and returns the texts.
fn with_definitions<'x>(
    alloc: Global,
    items: &mut Preprocessor<'_>,
    source: File<'x>,
    definitions: &[Definition<'x>],
) -> Result<Texts<'x>, Failure> {
    let mut texts = Texts::new(alloc, source);
    match add_definitions(alloc, items, &mut texts, definitions) {
        Ok(()) => Ok(texts),
        Err(failure) => {
            drop(texts);
            Err(failure)
        }
    }
}

// Runs over the items of a source, which come from these texts and those of the library.
fn run_over_items<'x>(
    alloc: Global,
    reporter: Reporter<'x>,
    arguments: &Arguments<'x>,
    source: File<'x>,
    library: &mut Library<'x>,
    setting: Setting<'x>,
    items: &mut Preprocessor<'x>,
    texts: Texts<'x>,
    ended: &mut Ended,
) -> Result<(), Failure>
    requires { length source.text.now < 2 ^ 32 - 1 }
{
    let has_names = arguments.has_line_names;
    let mut output = Output::new(alloc, arguments.form, has_names, setting.rules, texts);
    if arguments.is_page && source.text.len() <= MOST_MARKED {
        output.begin_trace();
    }
    let made = run_into(
        alloc,
        reporter,
        arguments,
        source,
        library,
        setting,
        items,
        &mut output,
        ended,
    );
    match made {
        Ok(false) => {
            ended.output = output.finish()?;
            Ok(())
        }
        Ok(true) => {
            drop(output);
            Ok(())
        }
        Err(failure) => {
            drop(output);
            Err(failure)
        }
    }
}

// Runs over these items. Returns whether something else than the output of the tokens is printed.
fn run_into<'x>(
    alloc: Global,
    reporter: Reporter<'x>,
    arguments: &Arguments<'x>,
    source: File<'x>,
    library: &mut Library<'x>,
    setting: Setting<'x>,
    items: &mut Preprocessor<'x>,
    output: &mut Output<'x>,
    ended: &mut Ended,
) -> Result<bool, Failure>
    requires { length source.text.now < 2 ^ 32 - 1 }
{
    let conditions = if arguments.warnings.undef || arguments.is_page {
        search_conditions(alloc, library, source, setting, arguments.is_page)?
    } else {
        Conditions::none(alloc)
    };
    let mut run = Run::new(
        alloc,
        reporter,
        arguments,
        setting,
        library,
        &conditions,
        output,
    );
    let end = run.run(items, source, arguments, ended);
    drop(run);
    drop(conditions);
    end
}
