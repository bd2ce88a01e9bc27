//! The macros of extensions: those that the command line names, and those whose extensions the source turns on.

ghost use Rattle.std.specs.Prelude.{◌≡◌, ◌++◌, All, Any, IsTrue, Ok, OnOk, IfErr, IfOk, IfSome, codes, map};
ghost use Rattle.std.specs.Str.{chars};
ghost use Rattle.pp_lexer.specs.declared.token.Punct.{Punct};
ghost use Rattle.pp_lexer.specs.declared.token.TokenValue.{TokenValue};
ghost use Rattle.pp_rs.specs.Adding.{IsAdded};
ghost use Rattle.glslpp_parts.specs.Definitions.{IsFreeName, IsTold};
ghost use Rattle.glslpp_parts.specs.Extensions.{IsTurningOn, IsWithExtension, TurnsOn, as_defined, is_known};
ghost use Rattle.glslpp_parts.specs.Version.{said};

use crate::changes::Change;
use crate::definitions::check_name;
use crate::failure::Failure;
use crate::reading::is_text;
use pp_rs::pp::Preprocessor;
use pp_rs::token::{Punct, TokenValue};
use std::alloc::{AllocError, Global};

/// What the macro of an extension is.
pub const EXTENSION_CONTENT: &str = "1";

/// Fails at the first name that is no macro's.
pub fn check_extensions(alloc: Global, names: &[&str]) -> Result<(), Failure>
    ensures ok { OnOk result (All (λ name. IsFreeName name.now) names.now) }
    ensures told { IfErr result (λ failure. IsTold failure
        → Any (λ name. ¬ IsFreeName name.now) names.now) }
{
    for name in names {
        check_name(alloc, "--extension", name)?;
    }
    Ok(())
}

/// Appends the macros of these extensions, each as 1.
pub fn push_extensions<'a>(
    names: &[&'a str],
    changes: &mut Vec<Change<'a>>,
) -> Result<(), AllocError>
    ensures { OnOk result (said changes.new.items ≡ said changes.old.items ++ map as_defined names.now) }
{
    for name in names {
        changes.push(Change::Define(name, EXTENSION_CONTENT))?;
    }
    Ok(())
}

/// If the value is an `#extension` line that turns on one of the known extensions, its macro is defined as 1. Returns
/// whether it is.
pub fn define_extension(
    items: &mut Preprocessor<'_>,
    value: &TokenValue,
    known: &[&str],
) -> Result<bool, AllocError>
    ensures { IfOk result (λ is_defined. IsWithExtension is_defined known.now value.now items.old items.new) }
{
    match turned_on(value) {
        Some(name) if is_known(name, known) => {
            define(items, name)?;
            Ok(true)
        }
        _ => Ok(false),
    }
}

// The content has no error, so it fails for want of memory alone.
fn define(items: &mut Preprocessor<'_>, name: &str) -> Result<(), AllocError>
    ensures { OnOk result (IsAdded items.old name.now (codes "1") (Ok tt) items.new) }
{
    match items.add_define(name, EXTENSION_CONTENT) {
        Ok(()) => Ok(()),
        Err(_) => Err(AllocError),
    }
}

/// Returns the name of the extension that an `#extension` line turns on.
pub fn turned_on(value: &TokenValue) -> Option<&str>
    ensures { IfSome result (λ name. TurnsOn value.now (chars name.now)) }
{
    let TokenValue::Extension(extension) = value else {
        return None;
    };
    let [name, colon, behaviour] = extension.tokens.as_slice() else {
        return None;
    };
    match &name.value {
        TokenValue::Ident(name) if is_colon(&colon.value) && is_turning_on(&behaviour.value) => {
            Some(name.as_str())
        }
        _ => None,
    }
}

fn is_colon(value: &TokenValue) -> bool
    ensures { IsTrue result → value.now ≡ TokenValue.Punct Punct.Colon }
{
    matches!(value, TokenValue::Punct(Punct::Colon))
}

// Whether an extension is on by this behaviour.
fn is_turning_on(value: &TokenValue) -> bool
    ensures { IsTrue result → IsTurningOn value.now }
{
    match value {
        TokenValue::Ident(behaviour) => {
            is_text(behaviour, "enable")
                || is_text(behaviour, "require")
                || is_text(behaviour, "warn")
        }
        _ => false,
    }
}

// Whether the name is one of these.
fn is_known(name: &str, known: &[&str]) -> bool
    ensures { result ≡ is_known known.now name.now }
{
    known.iter().any(|other| *other == name)
}
