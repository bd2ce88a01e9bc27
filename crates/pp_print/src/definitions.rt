//! Adding the definitions of the command line.

ghost use Rattle.std.specs.Prelude.{◌≡◌, Any, [], ◌∷◌, OnOk, IfErr};
ghost use Rattle.pp_rs.specs.Rules.{pp_rs};
ghost use Rattle.pp_print.specs.inner.Defining.{AreAdded, IsAddingFault};
ghost use Rattle.pp_print.specs.Runs.{IsRefused};
ghost use Rattle.pp_rs.specs.Kept.{rules_of};

use super::ends::RunFault;
use pp_rs::SOURCE_LIMIT;
use pp_rs::pp::Preprocessor;
use pp_rs::token::PreprocessorError;

/// Adds the definitions in order, each a name and its content. Stops at the first that can't be added, with `BadWord`
/// if its content has 2^32 - 1 bytes or more or has an error, and `OutOfMemory` if an allocation fails.
pub fn add_definitions(items: &mut Preprocessor<'_>, defs: &[(&str, &str)]) -> Result<(), RunFault>
    requires { rules_of items.old ≡ pp_rs }
    ensures added { OnOk result (AreAdded items.old defs.now items.new) }
    ensures err { IfErr result (λ fault. IsAddingFault fault (Any IsRefused defs.now)) }
{
    for definition in defs {
        add_definition(items, definition)?;
    }
    Ok(())
}

// Adds one definition.
fn add_definition(items: &mut Preprocessor<'_>, definition: &(&str, &str)) -> Result<(), RunFault>
    requires { rules_of items.old ≡ pp_rs }
    ensures added { OnOk result (AreAdded items.old (definition.now ∷ []) items.new) }
    ensures err { IfErr result (λ fault. IsAddingFault fault (IsRefused definition.now)) }
{
    let (name, content) = *definition;
    if content.len() >= SOURCE_LIMIT {
        return Err(RunFault::BadWord);
    }
    match items.add_define(name, content) {
        Ok(()) => Ok(()),
        Err((PreprocessorError::OutOfMemory, _)) => Err(RunFault::OutOfMemory),
        Err(_) => Err(RunFault::BadWord),
    }
}
