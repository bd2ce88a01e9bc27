//! Adding the definitions before a source.

ghost use Rattle.std.specs.Prelude.{◌≡◌, All, Any, IsTrue, ◌↔◌, OnOk, IfOk, IfErr, nat_eq};
ghost use Rattle.std.specs.List.{list_any};
ghost use Rattle.pp_lexer.specs.Lines.{is_line_break};
ghost use Rattle.glslpp_parts.specs.Definitions.{IsName, IsFreeName, is_builtin, IsOneLine, IsDefinable, IsTold};
ghost use Rattle.glslpp_parts.specs.Definitions.{IsWithDefinition, AreAdded, can_be_quoted};

use crate::changes::{Change, Definition};
use crate::columns::is_line_end_byte;
use crate::failure::{Failure, failure_of};
use crate::reading::is_read_as;
use crate::texts::Texts;
use pp_rs::SOURCE_LIMIT;
use pp_rs::pp::{Preprocessor, ValueRef};
use pp_rs::rules::Rules;
use pp_rs::token::PreprocessorError;
use std::alloc::{AllocError, Global};

/// Fails at the first `-D` or `-U` that can't define or undefine a macro: its name is no identifier, or its content has
/// a line end.
pub fn check_changes(alloc: Global, changes: &[Change<'_>]) -> Result<(), Failure>
    ensures ok { OnOk result (All IsDefinable changes.now) }
    ensures told { IfErr result (λ failure. IsTold failure
        → Any (λ change. ¬ IsDefinable change) changes.now) }
{
    for change in changes {
        check_change(alloc, *change)?;
    }
    Ok(())
}

fn check_change(alloc: Global, change: Change<'_>) -> Result<(), Failure>
    ensures ok { OnOk result (IsDefinable change.entry) }
    ensures told { IfErr result (λ failure. IsTold failure → ¬ IsDefinable change.entry) }
{
    match change {
        Change::Define(name, content) => {
            check_name(alloc, "-D", name)?;
            check_content(alloc, name, content)
        }
        Change::DefineCall(name, parameters, content) => {
            check_name(alloc, "-D", name)?;
            check_content(alloc, name, parameters)?;
            check_content(alloc, name, content)
        }
        Change::Undefine(name) => check_name(alloc, "-U", name),
    }
}

/// Fails at a name that no macro may have, after this option.
pub(crate) fn check_name(alloc: Global, option: &str, name: &str) -> Result<(), Failure>
    ensures ok { OnOk result (IsFreeName name.now) }
    ensures told { IfErr result (λ failure. IsTold failure → ¬ IsFreeName name.now) }
{
    if is_builtin(name) {
        return Err(refused_builtin(alloc, option, name));
    }
    if is_name(alloc, name)? {
        return Ok(());
    }
    let cause = if name.contains('(') {
        "not a macro with parameters, as `F(x)=x`"
    } else {
        "not a macro name"
    };
    Err(refusal(alloc, option, name, cause))
}

// Whether a name has a meaning that no definition may change (GLSL ES 3.20, 3.4).
fn is_builtin(name: &str) -> bool
    ensures { result ≡ is_builtin name.now }
{
    name == "__LINE__" || name == "defined"
}

fn refused_builtin(alloc: Global, option: &str, name: &str) -> Failure {
    let verb = if option == "-U" {
        "undefined"
    } else {
        "defined"
    };
    match format!(in alloc; "`{name}` can't be {verb}") {
        Ok(cause) => refusal(alloc, option, name, cause.as_str()),
        Err(_) => Failure::OutOfMemory,
    }
}

fn check_content(alloc: Global, name: &str, content: &str) -> Result<(), Failure>
    ensures ok { OnOk result (IsOneLine content.now) }
    ensures told { IfErr result (λ failure. IsTold failure → ¬ IsOneLine content.now) }
{
    if has_line_end(content) {
        return Err(refusal(alloc, "-D", name, "the content has more than one line"));
    }
    Ok(())
}

fn has_line_end(text: &str) -> bool
    ensures { result ≡ list_any is_line_break text.now }
{
    text.as_bytes().iter().any(|byte| is_line_end_byte(*byte))
}

fn refusal(alloc: Global, option: &str, name: &str, cause: &str) -> Failure {
    match format!(in alloc; "{option} {name}") {
        Ok(subject) => failure_of(alloc, subject.as_str(), cause),
        Err(_) => Failure::OutOfMemory,
    }
}

// Whether the text is one identifier, which all rules read alike.
fn is_name(alloc: Global, text: &str) -> Result<bool, AllocError>
    ensures { IfOk result (λ is. IsTrue is ↔ IsName text.now) }
{
    if text.len() >= SOURCE_LIMIT {
        return Ok(false);
    }
    is_read_as(alloc, Rules::PP_RS, text, ValueRef::Ident(text))
}

/// Fails at the first name of a file that can't stand between `"` on one line.
pub fn check_included(alloc: Global, files: &[&str]) -> Result<(), Failure>
    ensures ok { OnOk result (All (λ file. IsTrue (can_be_quoted file.now)) files.now) }
    ensures told { IfErr result (λ failure. IsTold failure
        → Any (λ file. ¬ IsTrue (can_be_quoted file.now)) files.now) }
{
    for file in files {
        if !can_be_quoted(file) {
            let cause =
                "the name of an included file has no `\"` and no line end, and is not empty";
            return Err(refusal(alloc, "-include", file, cause));
        }
    }
    Ok(())
}

// Whether a name can stand in the quotation marks of an `#include`.
fn can_be_quoted(name: &str) -> bool
    ensures { result ≡ can_be_quoted name.now }
{
    !name.is_empty() && !has_line_end(name) && !has_quotation_mark(name)
}

fn has_quotation_mark(text: &str) -> bool
    ensures { result ≡ list_any (λ byte. nat_eq byte 34) text.now }
{
    text.as_bytes().iter().any(|byte| *byte == b'"')
}

/// Adds the definitions to the preprocessor, and their contents to the texts.
pub fn add_definitions<'a>(
    alloc: Global,
    items: &mut Preprocessor<'_>,
    texts: &mut Texts<'a>,
    definitions: &[Definition<'a>],
) -> Result<(), Failure>
    ensures { OnOk result (AreAdded definitions.now texts.old items.old texts.new items.new) }
{
    for definition in definitions {
        add_definition(alloc, items, texts, *definition)?;
    }
    Ok(())
}

fn add_definition<'a>(
    alloc: Global,
    items: &mut Preprocessor<'_>,
    texts: &mut Texts<'a>,
    definition: Definition<'a>,
) -> Result<(), Failure>
    ensures { OnOk result (IsWithDefinition definition.entry texts.old items.old texts.new items.new) }
{
    let (name, content) = definition;
    if content.len() >= SOURCE_LIMIT {
        return Err(refusal(alloc, "-D", name, "the content is too long"));
    }
    match items.add_define(name, content) {
        Ok(()) => {
            texts.add(content)?;
            Ok(())
        }
        Err((PreprocessorError::OutOfMemory, _)) => Err(Failure::OutOfMemory),
        Err((error, _)) => Err(refused(alloc, name, &error)),
    }
}

fn refused(alloc: Global, name: &str, error: &PreprocessorError) -> Failure {
    match format!(in alloc; "{error}") {
        Ok(cause) => refusal(alloc, "-D", name, cause.as_str()),
        Err(_) => Failure::OutOfMemory,
    }
}
