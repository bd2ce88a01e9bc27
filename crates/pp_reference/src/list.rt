//! The list of tokens to read: taking from its front, and splicing in there.

ghost use Rattle.std.specs.Prelude.{◌≡◌, [], ◌∷◌, ◌++◌, List, IfOk, OnOk, MatchOption, position};
ghost use Rattle.pp_model.specs.Names.{is_same_name};
ghost use Rattle.pp_model.specs.SpliceList.{after_marks, open_names, outermost_call, parameter_of, replacement};
ghost use Rattle.pp_model.specs.SpliceList.{body_before, macro_before};
ghost use Rattle.pp_model.specs.inner.SpliceList.{followed_by};
ghost use Rattle.pp_model.specs.declared.splice.Entry.{Entry as Item};

use crate::lists::{ReadList, ReadLists};
use pp_lexer::token::{Text, Token, TokenValue};
use pp_model::copies::{copy_read, copy_token};
use pp_model::definition::Definition;
use pp_model::read::Read;
use pp_model::splice::{CallPlace, EndMark, Entry};
use std::alloc::{AllocError, Global};

/// Takes the first item.
pub fn take_first<T>(items: &mut Vec<T>) -> Option<T>
    ensures { MatchOption result ((items.old.items ≡ [])
        × (items.new.items ≡ [])) (λ first. items.old.items ≡ first ∷ items.new.items) }
{
    if items.is_empty() {
        None
    } else {
        Some(items.remove(0))
    }
}

/// Takes the first token, with the end marks before it.
pub fn take_token(list: &mut Vec<Entry>) -> Option<Read>
    ensures { MatchOption result ((after_marks list.old.items ≡ [])
        × (list.new.items ≡ [])) (λ read. after_marks list.old.items
        ≡ Entry.Plain read ∷ list.new.items) }
{
    while let Some(entry) = take_first(list) {
        if let Entry::Plain(read) = entry {
            return Some(read);
        }
    }
    None
}

/// Where the macro of the last mark was called.
pub fn outermost_call(list: &[Entry]) -> Option<CallPlace>
    ensures { result ≡ outermost_call list.now }
{
    let mut call = None;
    for entry in list {
        if let Entry::End(mark) = entry {
            call = Some(mark.call);
        }
    }
    call
}

/// The names of the marks.
pub fn open_names(alloc: Global, list: &[Entry]) -> Result<Vec<Text>, AllocError>
    ensures { IfOk result (λ names. names.items ≡ open_names list.now) }
{
    let mut names = Vec::new(alloc);
    for entry in list {
        if let Entry::End(mark) = entry {
            names.push(mark.name.try_clone(alloc)?)?;
        }
    }
    Ok(names)
}

/// Appends copies of the tokens.
fn push_tokens(alloc: Global, list: &mut Vec<Entry>, tokens: &[Read]) -> Result<(), AllocError>
    ensures { OnOk result ((rest : List Item) → list.new.items ++ rest
        ≡ list.old.items ++ followed_by tokens.now rest) }
{
    for read in tokens {
        list.push(Entry::Plain(copy_read(alloc, read)?))?;
    }
    Ok(())
}

/// The position of the name among the names.
fn position_of(names: &[Text], name: &Text) -> Option<usize>
    ensures { result ≡ position (is_same_name name.now) names.now }
{
    names.iter().position(|other| *name == *other)
}

/// The position of the parameter that the value names.
fn parameter_of(parameters: &[Text], value: &TokenValue) -> Option<usize>
    ensures { result ≡ parameter_of parameters.now value.now }
{
    match value {
        TokenValue::Ident(name) => position_of(parameters, name),
        _ => None,
    }
}

/// Appends the replacement of a token of a body, which is of this text.
fn push_replacement(
    alloc: Global,
    list: &mut Vec<Entry>,
    text: u32,
    token: &Token,
    parameter: Option<usize>,
    arguments: &[ReadList],
) -> Result<(), AllocError>
    ensures { OnOk result ((rest : List Item) → list.new.items ++ rest
        ≡ list.old.items ++ replacement arguments.now text token.now parameter rest) }
{
    let Some(position) = parameter else {
        list.push(Entry::Plain(Read::of_text(copy_token(alloc, token)?, text)))?;
        return Ok(());
    };
    match arguments.get(position) {
        Some(argument) => push_tokens(alloc, list, &argument.items),
        None => Ok(()),
    }
}

/// Appends a body, which is of this text, with its parameters replaced.
fn push_replaced(
    alloc: Global,
    list: &mut Vec<Entry>,
    parameters: &[Text],
    arguments: &[ReadList],
    text: u32,
    body: &[Token],
) -> Result<(), AllocError>
    ensures { OnOk result ((rest : List Item) → list.new.items ++ rest
        ≡ list.old.items ++ body_before parameters.now arguments.now text body.now rest) }
{
    for token in body {
        let parameter = parameter_of(parameters, &token.value);
        push_replacement(alloc, list, text, token, parameter, arguments)?;
    }
    Ok(())
}

/// Puts the replacement of a macro with its end mark before the list.
pub fn splice(
    alloc: Global,
    list: &mut Vec<Entry>,
    name: Text,
    definition: &Definition,
    call: CallPlace,
    arguments: &ReadLists,
) -> Result<(), AllocError>
    ensures { OnOk result (list.new.items
        ≡ macro_before name definition.now call arguments.now list.old.items) }
{
    let mut front = Vec::new(alloc);
    push_replaced(
        alloc,
        &mut front,
        &definition.parameters,
        &arguments.items,
        definition.text,
        &definition.body,
    )?;
    front.push(Entry::End(EndMark { name, call }))?;
    front.append(list)?;
    *list = front;
    Ok(())
}
