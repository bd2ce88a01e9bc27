//! The options for the files that an output depends on.

ghost use Rattle.std.specs.Prelude.{◌≡◌, ◌++◌, IfOk};
ghost use Rattle.clap.specs.Words.{found_of};
ghost use Rattle.glslpp_parts.specs.Asked.{AreDependencies};
ghost use Rattle.glslpp_parts.specs.Options.{dependency_options, options_of};

use crate::arguments::{is_given, listed_option, long_flag, long_option, with_option, words_of};
use clap::{ArgMatches, Command};
use std::alloc::{AllocError, Global};

/// What is asked for of the files that an output depends on.
#[derive(Drop)]
pub struct Dependencies<'a> {
    /// Whether they are printed in place of the output.
    pub are_output: bool,
    /// Whether they are written beside the output.
    pub are_written: bool,
    /// The file to which they are written.
    pub file: Option<&'a str>,
    /// What depends on them, as it stands in a rule.
    pub targets: Vec<&'a str>,
    /// What depends on them, by its name.
    pub quoted_targets: Vec<&'a str>,
    /// Whether each of them has a rule too.
    pub have_targets: bool,
}

impl<'a> Dependencies<'a> {
    /// Returns what the command line asks for.
    pub(crate) fn asked(
        alloc: Global,
        matches: &ArgMatches<'a>,
    ) -> Result<Dependencies<'a>, AllocError>
        ensures { IfOk result (λ asked. AreDependencies (found_of matches.now) asked) }
    {
        Ok(Dependencies {
            are_output: is_given(matches, "dependencies"),
            are_written: is_given(matches, "write-dependencies"),
            file: matches.get_str("dependency-file"),
            targets: words_of(alloc, matches, "target")?,
            quoted_targets: words_of(alloc, matches, "quoted-target")?,
            have_targets: is_given(matches, "phony-targets"),
        })
    }
}

// The heading of the options in help.
const DEPENDENCIES: &str = "Dependencies";

const DEPENDENCIES_HELP: &str =
    "Print the rule for Make and Ninja, and not the source: -M and -MM too";

const WRITE_DEPENDENCIES_HELP: &str =
    "Write the rule for Make and Ninja beside the output: -MD and -MMD too";

const DEPENDENCY_FILE_HELP: &str = "Write the rule to FILE, not to that of -o with .d: -MF too";

const TARGET_HELP: &str = "The target of the rule as it is, not the file of -o: -MT too";

const QUOTED_TARGET_HELP: &str = "The same, written as Make reads it: -MQ too";

const PHONY_HELP: &str = "Add an empty rule for each included file: -MP too";

/// Adds the options for the files that an output depends on.
pub(crate) fn with_dependency_options<'a>(
    alloc: Global,
    command: Command<'a>,
) -> Result<Command<'a>, AllocError>
    ensures { IfOk result (λ new. options_of new ≡ options_of command.entry ++ dependency_options) }
{
    let only = long_flag(alloc, "dependencies", DEPENDENCIES_HELP);
    let first = with_option(command, DEPENDENCIES, only)?;
    let beside = long_flag(alloc, "write-dependencies", WRITE_DEPENDENCIES_HELP);
    let second = with_option(first, DEPENDENCIES, beside)?;
    let file = long_option(alloc, "dependency-file", "FILE", DEPENDENCY_FILE_HELP);
    let third = with_option(second, DEPENDENCIES, file)?;
    let target = listed_option(alloc, "target", "TARGET", TARGET_HELP);
    let fourth = with_option(third, DEPENDENCIES, target)?;
    let quoted = listed_option(alloc, "quoted-target", "TARGET", QUOTED_TARGET_HELP);
    let fifth = with_option(fourth, DEPENDENCIES, quoted)?;
    let phony = long_flag(alloc, "phony-targets", PHONY_HELP);
    let sixth = with_option(fifth, DEPENDENCIES, phony)?;
    Ok(sixth)
}
