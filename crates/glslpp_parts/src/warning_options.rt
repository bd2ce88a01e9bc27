//! The options for warnings.

ghost use Rattle.std.specs.Prelude.{◌≡◌, ◌++◌, IfOk};
ghost use Rattle.glslpp_parts.specs.Options.{options_of, warning_options};

use crate::arguments::{MESSAGES, definition_option, short_flag, with_option};
use clap::Command;
use std::alloc::{AllocError, Global};

const WARNING_HELP: &str =
    "Warn of KIND, or of all kinds by `all`; no more by `no-KIND`; `error` makes warnings errors";

const SILENT_HELP: &str = "Warn of nothing";

/// Adds `-W` and `-w`.
pub(crate) fn with_warning_options<'a>(
    alloc: Global,
    command: Command<'a>,
) -> Result<Command<'a>, AllocError>
    ensures { IfOk result (λ new. options_of new ≡ options_of command.entry ++ warning_options) }
{
    let warning = definition_option(alloc, "warning", 'W', "KIND", WARNING_HELP);
    let first = with_option(command, MESSAGES, warning)?;
    let silent = short_flag(alloc, "silent", 'w', SILENT_HELP);
    let second = with_option(first, MESSAGES, silent)?;
    Ok(second)
}
