//! The command line.

ghost use Rattle.std.specs.Prelude.{◌≡◌, ◌≤◌, ◌++◌, ◌∷◌, [], false, IfOk, codes, length, map, not, option_map};
ghost use Rattle.std.specs.Prelude.{unwrap_or};
ghost use Rattle.std.specs.Option.{option_and_then};
ghost use Rattle.clap.specs.Words.{first_value, found_of, rule_of};
ghost use Rattle.clap.specs.declared.builder.action.ArgAction.TheVariants.{Append, Set, SetTrue};
ghost use Rattle.glslpp_parts.specs.Asked.{AreColours, AreDependencies, AreWarnings, IsAsked, IsBudget, IsFlag, IsForm};
ghost use Rattle.glslpp_parts.specs.Asked.{IsLimit, IsRuleSet};
ghost use Rattle.glslpp_parts.specs.Asked.{files_or_input, words_of, written_file};
ghost use Rattle.glslpp_parts.specs.Options.{options, options_of, value_options, forms, general_options, foreign};
ghost use Rattle.glslpp_parts.specs.Options.{language_options, lettered, long_listed, long_valued, message_options};
ghost use Rattle.glslpp_parts.specs.Options.{known_of, include_options, named, nameless};
ghost use Rattle.glslpp_parts.specs.inner.Adding.{IsOption};

use crate::changes::Change;
use crate::dependency_options::{Dependencies, with_dependency_options};
use crate::rule_set::RuleSet;
use crate::warning::Warnings;
use crate::warning_options::with_warning_options;
use clap::builder::ValueParser;
use clap::{Arg, ArgAction, ArgMatches, Command};
use std::alloc::{AllocError, Global};

/// The argument that names the standard input.
pub const STANDARD_INPUT: &str = "-";

/// The name that says to write to the standard output.
pub const STANDARD_OUTPUT: &str = "-";

/// The name of the standard input in messages, if no other is given.
pub const STANDARD_INPUT_NAME: &str = "<stdin>";

// How many errors of a source are reported, if no number is given.
const MOST_ERRORS: usize = 20;

// How many steps a source may take, if no number is given.
const STEPS: u64 = 100_000_000;

/// How the preprocessed source is printed.
#[derive(Clone, Copy, PartialEq, Eq)]
pub enum Form {
    /// Its tokens, each on its line of the source.
    Lines,
    /// Each longest run of its ordinary tokens as one line.
    Compact,
    /// Its items as JSON, one a line.
    Tokens,
    /// Only its directive items.
    Directives,
    /// Only the macros that are defined at its end.
    Definitions,
}

/// Whether messages have colours.
#[derive(Clone, Copy, PartialEq, Eq)]
pub enum Colours {
    /// If the standard error is a terminal and `NO_COLOR` isn't set.
    Auto,
    /// Always.
    Always,
    /// Never.
    Never,
}

/// What the command line asks for.
#[derive(Drop)]
pub struct Arguments<'a> {
    /// The `-D` and `-U` options, in order.
    pub changes: Vec<Change<'a>>,
    /// The names of extensions whose macros are defined.
    pub extensions: Vec<&'a str>,
    /// The files that are included before the sources.
    pub included: Vec<&'a str>,
    /// The folders in which included files are looked for.
    pub folders: Vec<&'a str>,
    /// What is asked for of the files that an output depends on.
    pub dependencies: Dependencies<'a>,
    /// The file to write instead of the standard output.
    pub output: Option<&'a str>,
    /// How the preprocessed source is printed.
    pub form: Form,
    /// Whether a page of HTML is printed in place of that.
    pub is_page: bool,
    /// Whether `#line` lines name files by their names.
    pub has_line_names: bool,
    /// Whose rules the sources are read by.
    pub rule_set: RuleSet,
    /// The word that names the version of a source without a `#version`.
    pub standard: Option<&'a str>,
    /// Whether the names that GLSL predefines are defined.
    pub is_predefining: bool,
    /// Whether reading ends at the first error.
    pub is_first_error_alone: bool,
    /// How many errors of a source are reported at most.
    pub most_errors: usize,
    /// How many steps a source may take, if they are bounded.
    pub budget: Option<u64>,
    /// Whether messages on a source are JSON.
    pub has_json_errors: bool,
    /// Whether messages have colours.
    pub colours: Colours,
    /// The words after `-W`.
    pub warning_words: Vec<&'a str>,
    /// The warnings that are on.
    pub warnings: Warnings,
    /// The name of the standard input in messages.
    pub standard_input_name: &'a str,
    /// The files to read: [`STANDARD_INPUT`] if none is named.
    pub files: Vec<&'a str>,
}

/// The command with its options.
pub fn command<'a>(alloc: Global) -> Result<Command<'a>, clap::Error>
    ensures { IfOk result (λ command. options_of command ≡ options) }
{
    let with_language = with_language_options(alloc, bare_command(alloc))?;
    let with_values = with_value_options(alloc, with_language)?;
    let with_forms = with_forms(alloc, with_values)?;
    let with_includes = with_include_options(alloc, with_forms)?;
    let with_dependencies = with_dependency_options(alloc, with_includes)?;
    let with_general = with_general_options(alloc, with_dependencies)?;
    let with_messages = with_message_options(alloc, with_general)?;
    let with_warnings = with_warning_options(alloc, with_messages)?;
    let with_foreign = with_foreign_options(alloc, with_warnings)?;
    let whole = with_argument(with_foreign, files_argument(alloc))?;
    Ok(whole)
}

// The command before its options.
fn bare_command<'a>(alloc: Global) -> Command<'a>
    ensures { options_of result ≡ [] }
{
    Command::new(alloc, "glslpp")
        .version("0.1.0")
        .about("Preprocesses GLSL, and keeps the source's lines")
        .override_usage("glslpp [OPTION]... [FILE]...")
        .after_help(AFTER_HELP)
}

/// Adds an option.
pub(crate) fn with_option<'a>(
    command: Command<'a>,
    heading: &'static str,
    option: Arg<'a>,
) -> Result<Command<'a>, AllocError>
    requires { option.global ≡ false }
    ensures { IfOk result (λ new. options_of new
        ≡ options_of command.entry ++ known_of (rule_of option.entry) ∷ []) }
{
    with_argument(command, option.help_heading(heading))
}

fn with_argument<'a>(command: Command<'a>, option: Arg<'a>) -> Result<Command<'a>, AllocError>
    requires { option.global ≡ false }
    ensures { IfOk result (λ new. options_of new
        ≡ options_of command.entry ++ known_of (rule_of option.entry) ∷ []) }
{
    let new = command.arg(option)?;
    Ok(new)
}

// The headings of options in help.
const DEFINITIONS: &str = "Definitions";

const LANGUAGE: &str = "Language";

const OUTPUT: &str = "Output";

const INCLUDES: &str = "Included files";

pub(crate) const MESSAGES: &str = "Messages";

const FOREIGN: &str = "For builds";

// Adds `-D`, `-U` and `-o`.
fn with_value_options<'a>(alloc: Global, command: Command<'a>) -> Result<Command<'a>, AllocError>
    ensures { IfOk result (λ new. options_of new ≡ options_of command.entry ++ value_options) }
{
    let define = definition_option(alloc, "define", 'D', "NAME[=CONTENT]", DEFINE_HELP);
    let first = with_option(command, DEFINITIONS, define)?;
    let undefine = definition_option(alloc, "undefine", 'U', "NAME", UNDEFINE_HELP);
    let second = with_option(first, DEFINITIONS, undefine)?;
    let output = value_option(alloc, "output", 'o', "FILE", OUTPUT_HELP);
    let third = with_option(second, OUTPUT, output)?;
    Ok(third)
}

// Adds the options for the language of the sources, with its extensions.
fn with_language_options<'a>(alloc: Global, command: Command<'a>) -> Result<Command<'a>, AllocError>
    ensures { IfOk result (λ new. options_of new ≡ options_of command.entry ++ language_options) }
{
    let rules = rules_option(alloc);
    let first = with_option(command, LANGUAGE, rules)?;
    let standard = long_option(alloc, "std", "VERSION", STANDARD_HELP);
    let second = with_option(first, LANGUAGE, standard)?;
    let extension = extension_option(alloc);
    let third = with_option(second, DEFINITIONS, extension)?;
    Ok(third)
}

fn rules_option<'a>(alloc: Global) -> Arg<'a>
    ensures { IsOption result (long_valued (codes "rules")) }
{
    let parser = ValueParser::Names(&RULE_SETS);
    long_option(alloc, "rules", "RULES", RULES_HELP).value_parser(parser)
}

const RULE_SETS: [&str; 2] = ["glsl", "pp-rs"];

fn extension_option<'a>(alloc: Global) -> Arg<'a>
    ensures { IsOption result (long_listed (codes "extension")) }
{
    listed_option(alloc, "extension", "NAME", EXTENSION_HELP)
}

const EXTENSION_HELP: &str = "Define the macro of an extension as 1, as a compiler that has it";

const STANDARD_HELP: &str =
    "The version of a source without #version, as 450, 330core or 310es; -std=VERSION too";

const RULES_HELP: &str = "Read sources by GLSL's rules, or by those of the Rust crate pp-rs";

const DEFINE_HELP: &str = "Define a macro before the source, as 1 if no content is given";

const UNDEFINE_HELP: &str = "Undefine NAME, also if predefined";

const OUTPUT_HELP: &str =
    "Write to the file, if no source has an error; in a folder to a file for each source";

const AFTER_HELP: &str = "\
Without a file, or with `-`, the standard input is read. A word @FILE stands for the words in the file.
KIND is one of comment, conflict, extra-tokens, guard, reserved, space, undef or unused-macros.
Defined are __VERSION__, GL_ES, GL_FRAGMENT_PRECISION_HIGH, GL_core_profile and GL_compatibility_profile, as the
#version of the source or --std says. Comments are not kept, and a #line of the source is not printed.
The status is 0 if all was printed, 1 at an error in a source, and 2 if a word is wrong or reading or writing failed.";

// Adds the options for how the source is printed, of which at most one may be given.
fn with_forms<'a>(alloc: Global, command: Command<'a>) -> Result<Command<'a>, AllocError>
    ensures { IfOk result (λ new. options_of new ≡ options_of command.entry ++ forms) }
{
    let compact = compact_flag(alloc)?;
    let first = with_option(command, OUTPUT, compact)?;
    let tokens = tokens_flag(alloc)?;
    let second = with_option(first, OUTPUT, tokens)?;
    let directives = long_flag(alloc, "directives", DIRECTIVES_HELP);
    let third = with_option(second, OUTPUT, directives)?;
    let definitions = definitions_flag(alloc)?;
    let fourth = with_option(third, OUTPUT, definitions)?;
    Ok(fourth)
}

fn definitions_flag<'a>(alloc: Global) -> Result<Arg<'a>, AllocError>
    ensures { IfOk result (λ option. IsOption option (named (codes "definitions"))) }
{
    let definitions = long_flag(alloc, "definitions", DEFINITIONS_HELP);
    let definitions = without(definitions, "compact")?;
    let definitions = without(definitions, "tokens")?;
    let definitions = without(definitions, "directives")?;
    Ok(definitions)
}

const DEFINITIONS_HELP: &str = "Print the macros that are defined at the end: -dM too";

const DIRECTIVES_HELP: &str = "Print the #version, #extension and #pragma lines alone";

fn compact_flag<'a>(alloc: Global) -> Result<Arg<'a>, AllocError>
    ensures { IfOk result (λ option. IsOption option (lettered (codes "compact") 80 SetTrue)) }
{
    let compact = short_flag(
        alloc,
        "compact",
        'P',
        "Print each run of tokens as one line",
    );
    let compact = without(compact, "tokens")?;
    let compact = without(compact, "directives")?;
    Ok(compact)
}

fn tokens_flag<'a>(alloc: Global) -> Result<Arg<'a>, AllocError>
    ensures { IfOk result (λ option. IsOption option (named (codes "tokens"))) }
{
    let tokens = long_flag(alloc, "tokens", "Print the items as JSON, one a line");
    let tokens = without(tokens, "directives")?;
    Ok(tokens)
}

// An option that isn't given beside another.
fn without<'a>(option: Arg<'a>, other: &'a str) -> Result<Arg<'a>, AllocError>
    ensures known { IfOk result (λ new. known_of (rule_of new) ≡ known_of (rule_of option.entry)) }
    ensures global { IfOk result (λ new. new.global ≡ option.entry.global) }
{
    option.conflicts_with(other)
}

// Adds the options for files that are included.
fn with_include_options<'a>(alloc: Global, command: Command<'a>) -> Result<Command<'a>, AllocError>
    ensures { IfOk result (λ new. options_of new ≡ options_of command.entry ++ include_options) }
{
    let folder = definition_option(alloc, "folder", 'I', "DIR", FOLDER_HELP);
    let first = with_option(command, INCLUDES, folder)?;
    let include = listed_option(alloc, "include", "FILE", INCLUDE_HELP);
    let second = with_option(first, INCLUDES, include)?;
    let names = long_flag(alloc, "line-names", LINE_NAMES_HELP);
    let third = with_option(second, OUTPUT, names)?;
    Ok(third)
}

/// An option that may be repeated, with a long name, which is its id too.
pub(crate) fn listed_option<'a>(
    alloc: Global,
    id: &'a str,
    value: &'a str,
    help: &'a str,
) -> Arg<'a>
    ensures { IsOption result (long_listed id.now) }
{
    long_option(alloc, id, value, help).action(ArgAction::Append)
}

const FOLDER_HELP: &str = "Look for included files in the folder DIR too";

const INCLUDE_HELP: &str = "Include FILE before each source: -include too";

const LINE_NAMES_HELP: &str = "Name files in #line lines by their names, and not by numbers";

fn with_general_options<'a>(alloc: Global, command: Command<'a>) -> Result<Command<'a>, AllocError>
    ensures { IfOk result (λ new. options_of new ≡ options_of command.entry ++ general_options) }
{
    let first_error = long_flag(alloc, "first-error", "End at the first error");
    let first = with_option(command, MESSAGES, first_error)?;
    let undef = long_flag(alloc, "undef", "Define no predefined name");
    let second = with_option(first, DEFINITIONS, undef)?;
    let budget = budget_option(alloc);
    let third = with_option(second, MESSAGES, budget)?;
    let page = page_flag(alloc)?;
    let fourth = with_option(third, OUTPUT, page)?;
    Ok(fourth)
}

fn page_flag<'a>(alloc: Global) -> Result<Arg<'a>, AllocError>
    ensures { IfOk result (λ option. IsOption option (named (codes "html"))) }
{
    let page = long_flag(alloc, "html", PAGE_HELP);
    let page = without(page, "compact")?;
    let page = without(page, "tokens")?;
    let page = without(page, "directives")?;
    let page = without(page, "definitions")?;
    let page = without(page, "dependencies")?;
    Ok(page)
}

const PAGE_HELP: &str = "Print a page that shows which lines are compiled, and what macros become";

fn budget_option<'a>(alloc: Global) -> Arg<'a>
    ensures { IsOption result (long_valued (codes "budget")) }
{
    let parser = ValueParser::unsigned(0, u64::MAX);
    long_option(alloc, "budget", "N", BUDGET_HELP).value_parser(parser)
}

const BUDGET_HELP: &str =
    "Take at most N steps for a source, 0 for any number, 100000000 if it isn't given";

// Adds the options for messages.
fn with_message_options<'a>(alloc: Global, command: Command<'a>) -> Result<Command<'a>, AllocError>
    ensures { IfOk result (λ new. options_of new ≡ options_of command.entry ++ message_options) }
{
    let most = most_errors_option(alloc);
    let first = with_option(command, MESSAGES, most)?;
    let format = error_format_option(alloc);
    let second = with_option(first, MESSAGES, format)?;
    let colour = colour_option(alloc);
    let third = with_option(second, MESSAGES, colour)?;
    let name = long_option(alloc, "stdin-name", "NAME", NAME_HELP);
    let fourth = with_option(third, MESSAGES, name)?;
    Ok(fourth)
}

fn most_errors_option<'a>(alloc: Global) -> Arg<'a>
    ensures { IsOption result (long_valued (codes "max-errors")) }
{
    let parser = ValueParser::unsigned(0, u64::MAX);
    long_option(alloc, "max-errors", "N", MOST_HELP).value_parser(parser)
}

fn error_format_option<'a>(alloc: Global) -> Arg<'a>
    ensures { IsOption result (long_valued (codes "error-format")) }
{
    let parser = ValueParser::Names(&FORMATS);
    long_option(alloc, "error-format", "FORMAT", FORMAT_HELP).value_parser(parser)
}

fn colour_option<'a>(alloc: Global) -> Arg<'a>
    ensures { IsOption result (long_valued (codes "color")) }
{
    let parser = ValueParser::Names(&COLOURS);
    long_option(alloc, "color", "WHEN", COLOUR_HELP).value_parser(parser)
}

const MOST_HELP: &str = "Report at most N errors of a source, 0 for all, 20 if it isn't given";

const FORMATS: [&str; 2] = ["text", "json"];

const FORMAT_HELP: &str = "Write messages on a source as text, or as JSON, one a line";

const COLOURS: [&str; 3] = ["auto", "always", "never"];

const COLOUR_HELP: &str = "Use colours in messages";

const NAME_HELP: &str = "Call the standard input so in messages";

// An option with a long name, which is its id too, and a value.
pub(crate) fn long_option<'a>(alloc: Global, id: &'a str, value: &'a str, help: &'a str) -> Arg<'a>
    ensures { IsOption result (long_valued id.now) }
{
    Arg::new(alloc, id)
        .long(id)
        .value_name(value)
        .action(ArgAction::Set)
        .help(help)
}

// Options of other preprocessors: `-E` and `-S STAGE` do nothing.
fn with_foreign_options<'a>(alloc: Global, command: Command<'a>) -> Result<Command<'a>, AllocError>
    ensures { IfOk result (λ new. options_of new ≡ options_of command.entry ++ foreign) }
{
    let only = short_flag(alloc, "only", 'E', ONLY_HELP);
    let first = with_option(command, FOREIGN, only)?;
    let stage = definition_option(alloc, "stage", 'S', "STAGE", STAGE_HELP);
    let second = with_option(first, FOREIGN, stage)?;
    Ok(second)
}

const ONLY_HELP: &str = "Accepted and ignored";

const STAGE_HELP: &str = "Accepted and ignored";

/// An option that may be repeated.
pub(crate) fn definition_option<'a>(
    alloc: Global,
    id: &'a str,
    short: char,
    value: &'a str,
    help: &'a str,
) -> Arg<'a>
    ensures { IsOption result (lettered id.now short Append) }
{
    value_option(alloc, id, short, value, help).action(ArgAction::Append)
}

fn value_option<'a>(
    alloc: Global,
    id: &'a str,
    short: char,
    value: &'a str,
    help: &'a str,
) -> Arg<'a>
    ensures { IsOption result (lettered id.now short Set) }
{
    Arg::new(alloc, id)
        .short(short)
        .value_name(value)
        .action(ArgAction::Set)
        .help(help)
}

pub(crate) fn long_flag<'a>(alloc: Global, id: &'a str, help: &'a str) -> Arg<'a>
    ensures { IsOption result (named id.now) }
{
    flag(alloc, id, help).long(id)
}

/// A flag with a letter.
pub(crate) fn short_flag<'a>(alloc: Global, id: &'a str, short: char, help: &'a str) -> Arg<'a>
    ensures { IsOption result (lettered id.now short SetTrue) }
{
    flag(alloc, id, help).short(short)
}

fn flag<'a>(alloc: Global, id: &'a str, help: &'a str) -> Arg<'a>
    ensures { IsOption result (nameless id.now SetTrue) }
{
    Arg::new(alloc, id).action(ArgAction::SetTrue).help(help)
}

fn files_argument<'a>(alloc: Global) -> Arg<'a>
    ensures { IsOption result (nameless (codes "files") Append) }
{
    Arg::new(alloc, "files")
        .value_name("FILE")
        .action(ArgAction::Append)
        .num_args(0..)
        .help("The sources")
}

impl<'a> Arguments<'a> {
    /// What the matches ask for.
    pub fn from_matches(
        alloc: Global,
        matches: &ArgMatches<'a>,
    ) -> Result<Arguments<'a>, AllocError>
        ensures extensions { IfOk result (λ asked. map (λ name. name.now) asked.extensions.items
            ≡ words_of (found_of matches.now) (codes "extension")) }
        ensures included { IfOk result (λ asked. map (λ file. file.now) asked.included.items
            ≡ words_of (found_of matches.now) (codes "include")) }
        ensures folders { IfOk result (λ asked. map (λ folder. folder.now) asked.folders.items
            ≡ words_of (found_of matches.now) (codes "folder")) }
        ensures line_names { IfOk result (λ asked. IsFlag (found_of matches.now) (codes "line-names")
            asked.has_line_names) }
        ensures dependencies { IfOk result (λ asked. AreDependencies (found_of matches.now) asked.dependencies) }
        ensures output { IfOk result (λ asked. option_map (λ name. name.now) asked.output
            ≡ option_and_then written_file (first_value (found_of matches.now) (codes "output"))) }
        ensures form { IfOk result (λ asked. IsForm (found_of matches.now) asked.form) }
        ensures page { IfOk result (λ asked. IsFlag (found_of matches.now) (codes "html") asked.is_page) }
        ensures rule_set { IfOk result (λ asked. IsRuleSet (found_of matches.now) asked.rule_set) }
        ensures standard { IfOk result (λ asked. option_map (λ word. word.now) asked.standard
            ≡ first_value (found_of matches.now) (codes "std")) }
        ensures predefining { IfOk result (λ asked. IsFlag (found_of matches.now) (codes "undef")
            (not asked.is_predefining)) }
        ensures first_error_alone { IfOk result (λ asked. IsFlag (found_of matches.now)
            (codes "first-error") asked.is_first_error_alone) }
        ensures most_errors { IfOk result (λ asked. IsLimit (found_of matches.now) asked.most_errors) }
        ensures budget { IfOk result (λ asked. IsBudget (found_of matches.now) asked.budget) }
        ensures json_errors { IfOk result (λ asked. IsAsked (found_of matches.now)
            (codes "error-format") (codes "json") asked.has_json_errors) }
        ensures colours { IfOk result (λ asked. AreColours (found_of matches.now) asked.colours) }
        ensures warning_words { IfOk result (λ asked. map (λ word. word.now) asked.warning_words.items
            ≡ words_of (found_of matches.now) (codes "warning")) }
        ensures warnings { IfOk result (λ asked. AreWarnings (found_of matches.now) asked.warnings) }
        ensures standard_input_name { IfOk result (λ asked. asked.standard_input_name.now
            ≡ unwrap_or (first_value (found_of matches.now) (codes "stdin-name")) (codes "<stdin>")) }
        ensures files { IfOk result (λ asked. map (λ file. file.now) asked.files.items
            ≡ files_or_input (words_of (found_of matches.now) (codes "files"))) }
    {
        let warning_words = words_of(alloc, matches, "warning")?;
        let warnings = Warnings::asked(warning_words.as_slice(), is_given(matches, "silent"));
        Ok(Arguments {
            changes: changes_of(alloc, matches)?,
            extensions: words_of(alloc, matches, "extension")?,
            included: words_of(alloc, matches, "include")?,
            folders: words_of(alloc, matches, "folder")?,
            dependencies: Dependencies::asked(alloc, matches)?,
            output: output_of(matches),
            form: form_of(matches),
            is_page: is_given(matches, "html"),
            has_line_names: is_given(matches, "line-names"),
            rule_set: rule_set_of(matches),
            standard: matches.get_str("std"),
            is_predefining: !is_given(matches, "undef"),
            is_first_error_alone: is_given(matches, "first-error"),
            most_errors: most_errors_of(matches),
            budget: budget_of(matches),
            has_json_errors: matches.get_str("error-format") == Some("json"),
            colours: colours_of(matches),
            warning_words,
            warnings,
            standard_input_name: matches.get_str("stdin-name").unwrap_or(STANDARD_INPUT_NAME),
            files: files_of(alloc, matches)?,
        })
    }
}

// The file of `-o`, if it isn't the standard output.
fn output_of<'a>(matches: &ArgMatches<'a>) -> Option<&'a str>
    ensures { option_map (λ name. name.now) result
        ≡ option_and_then written_file (first_value (found_of matches.now) (codes "output")) }
{
    match matches.get_str("output") {
        Some(name) => written_file(name),
        None => None,
    }
}

/// Returns the file that a name says to write to, or `None` if it says the standard output.
pub fn written_file(name: &str) -> Option<&str>
    ensures { option_map (λ file. file.now) result ≡ written_file name.now }
{
    if name == STANDARD_OUTPUT {
        None
    } else {
        Some(name)
    }
}

// The number of errors, all of them if it is 0.
fn most_errors_of(matches: &ArgMatches<'_>) -> usize
    ensures { IsLimit (found_of matches.now) result }
{
    match matches.get_one::<usize>("max-errors") {
        Some(0) => usize::MAX,
        Some(most) => most,
        None => MOST_ERRORS,
    }
}

// The number of steps, or none if it is 0.
fn budget_of(matches: &ArgMatches<'_>) -> Option<u64>
    ensures { IsBudget (found_of matches.now) result }
{
    match matches.get_one::<u64>("budget") {
        Some(0) => None,
        Some(steps) => Some(steps),
        None => Some(STEPS),
    }
}

fn rule_set_of(matches: &ArgMatches<'_>) -> RuleSet
    ensures { IsRuleSet (found_of matches.now) result }
{
    match matches.get_str("rules") {
        Some("pp-rs") => RuleSet::PpRs,
        _ => RuleSet::Glsl,
    }
}

fn colours_of(matches: &ArgMatches<'_>) -> Colours
    ensures { AreColours (found_of matches.now) result }
{
    match matches.get_str("color") {
        Some("always") => Colours::Always,
        Some("never") => Colours::Never,
        _ => Colours::Auto,
    }
}

/// Whether a flag was given.
pub(crate) fn is_given(matches: &ArgMatches<'_>, id: &str) -> bool
    ensures { IsFlag (found_of matches.now) id.now result }
{
    matches.get_flag(id)
}

fn files_of<'a>(alloc: Global, matches: &ArgMatches<'a>) -> Result<Vec<&'a str>, AllocError>
    ensures { IfOk result (λ files. map (λ file. file.now) files.items
        ≡ files_or_input (words_of (found_of matches.now) (codes "files"))) }
{
    let mut files = words_of(alloc, matches, "files")?;
    if files.is_empty() {
        files.push(STANDARD_INPUT)?;
    }
    Ok(files)
}

fn form_of(matches: &ArgMatches<'_>) -> Form
    ensures { IsForm (found_of matches.now) result }
{
    let tokens = is_given(matches, "tokens");
    let directives = is_given(matches, "directives");
    let definitions = is_given(matches, "definitions");
    let compact = is_given(matches, "compact");
    if definitions {
        Form::Definitions
    } else if tokens {
        Form::Tokens
    } else if directives {
        Form::Directives
    } else if compact {
        Form::Compact
    } else {
        Form::Lines
    }
}

// The `-D` and `-U` options, in their order.
fn changes_of<'a>(alloc: Global, matches: &ArgMatches<'a>) -> Result<Vec<Change<'a>>, AllocError> {
    let mut changes = Vec::new(alloc);
    push_changes(matches, &mut changes)?;
    Ok(changes)
}

fn push_changes<'a>(
    matches: &ArgMatches<'a>,
    changes: &mut Vec<Change<'a>>,
) -> Result<(), AllocError> {
    let undefined = matches.get_strs("undefine").unwrap_or(&[]);
    let undefined_places = places_of(matches, "undefine");
    let defined = matches.get_strs("define").unwrap_or(&[]);
    let mut taken = 0;
    for (word, place) in defined.iter().zip(places_of(matches, "define")) {
        let end = count_before(*place, undefined_places);
        push_undefined(undefined, taken, end, changes)?;
        taken = end;
        changes.push(definition_of(word))?;
    }
    push_undefined(undefined, taken, undefined.len(), changes)
}

/// The words that an argument was given, in order.
pub(crate) fn words_of<'a>(
    alloc: Global,
    matches: &ArgMatches<'a>,
    id: &str,
) -> Result<Vec<&'a str>, AllocError>
    ensures { IfOk result (λ words. map (λ word. word.now) words.items
        ≡ words_of (found_of matches.now) id.now) }
{
    let mut words = Vec::new(alloc);
    if let Some(given) = matches.get_strs(id) {
        words.extend_from_slice(given)?;
    }
    Ok(words)
}

fn places_of<'m>(matches: &'m ArgMatches<'_>, id: &str) -> &'m [usize] {
    match matches.indices_of(id) {
        Some(places) => places,
        None => &[],
    }
}

// How many of the places, which are in rising order, are before this one.
fn count_before(place: usize, places: &[usize]) -> usize
    ensures { result ≤ length places.now }
{
    let mut count = 0;
    for other in places {
        if *other < place {
            count += 1;
        }
    }
    count
}

// Appends the names of `-U` from `start` to `end`.
fn push_undefined<'a>(
    names: &[&'a str],
    start: usize,
    end: usize,
    changes: &mut Vec<Change<'a>>,
) -> Result<(), AllocError> {
    if let Some(names) = names.get(start..end) {
        for name in names {
            changes.push(Change::Undefine(name))?;
        }
    }
    Ok(())
}

// The definition of an argument `NAME`, `NAME=CONTENT` or `NAME(PARAMETERS)=CONTENT`.
fn definition_of(word: &str) -> Change<'_> {
    if let Some((name, parameters, content)) = call_parts_of(word) {
        return Change::DefineCall(name, parameters, content);
    }
    match word.split_once('=') {
        Some((name, content)) => Change::Define(name, content),
        None => Change::Define(word, "1"),
    }
}

// The name, the parameters in their parentheses, and the content of an argument `NAME(PARAMETERS)` or
// `NAME(PARAMETERS)=CONTENT`.
fn call_parts_of(word: &str) -> Option<(&str, &str, &str)> {
    let open = word.find('(')?;
    let close = word.find(')')?;
    let name = word.get(..open)?;
    let parameters = word.get(open..close.saturating_add(1))?;
    let rest = word.get(close.saturating_add(1)..)?;
    if name.contains('=') {
        return None;
    }
    if rest.is_empty() {
        return Some((name, parameters, "1"));
    }
    Some((name, parameters, rest.strip_prefix('=')?))
}
