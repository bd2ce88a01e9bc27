//! What the line of a `#define` or an `#undef` says.

ghost use Rattle.std.specs.Prelude.{◌≡◌, true, false, if◌then◌else◌, Ok, Err};
ghost use Rattle.pp_expression.specs.Answers.{◌>>=◌ as ◌and_then◌};
ghost use Rattle.pp_model.specs.Conversions as conversions;
ghost use Rattle.pp_model.specs.Conversions.{closes_parameters, parts_parameters};
ghost use Rattle.pp_model.specs.DefineLines as spec;
ghost use Rattle.pp_model.specs.inner.DefineLines as parts;
ghost use Rattle.pp_model.specs.Lines.{first_token, first_name};
ghost use Rattle.pp_reference.specs.inner.Halting.{Meets};

use crate::conversion::{
    closes_parameters, identifier_of, opens_parameters, parts_parameters, refused_token,
};
use crate::item::SourceItem;
use crate::line::{after_first_token, ended_line, first_name, first_token, line_tokens};
use crate::lists::NameList;
use crate::names::is_among;
use crate::stop::Halt;
use pp_lexer::lexer::{self, LexerItem};
use pp_lexer::rules::Rules;
use pp_lexer::token::{Location, PreprocessorError, Text, TokenValue};
use pp_model::definition::{Definition, Named, Placed};
use pp_model::names::is_own_name;
use pp_model::place::SOURCE_TEXT;
use std::alloc::Global;
use std::marker::Model;

/// The parameters of a macro, and the items after their `)`.
#[derive(Drop)]
pub struct ParameterList<'a> {
    names: NameList,
    after: &'a [SourceItem],
}

impl<'a> Model for ParameterList<'a> {
    ghost use Rattle.pp_model.specs.DefineLines as spec;

    ghost Value = { spec.Parameters };

    ghost view = { λ p. record { names = p.names; after = p.after.now } };
}

// The parameters with one more, named by this token.
fn parameter_here(alloc: Global, names: NameList, token: &lexer::Token) -> Result<NameList, Halt>
    ensures { Meets result (parts.parameter_here names token.now
        (conversions.identifier_of token.now.value)) }
{
    let Some(name) = identifier_of(alloc, &token.value)? else {
        return Err(Halt::Fault(refused_token(alloc, token)?));
    };
    if is_among(&name, &names.items) {
        return Err(Halt::Fault((PreprocessorError::DuplicateParameter, token.location)));
    }
    let mut names = names;
    names.items.push(name)?;
    Ok(names)
}

// The parameters with one more, named by the first of these items.
fn parameter_at(
    alloc: Global,
    word: Location,
    names: NameList,
    items: &[SourceItem],
) -> Result<NameList, Halt>
    ensures { Meets result (first_token word items.now and_then λ token.
        parts.parameter_here names token (conversions.identifier_of token.value)) }
{
    let token = first_token(alloc, word, items)?;
    parameter_here(alloc, names, &token)
}

// Whether the parameters end here with their `)`. Otherwise only a comma is allowed here.
fn ends_parameters(alloc: Global, word: Location, items: &[SourceItem]) -> Result<bool, Halt>
    ensures { Meets result (first_token word items.now and_then λ token.
        if closes_parameters token.value then Ok true
        else if parts_parameters token.value then Ok false
        else Err (conversions.refused_token token)) }
{
    let token = first_token(alloc, word, items)?;
    if closes_parameters(&token.value) {
        return Ok(true);
    }
    if parts_parameters(&token.value) {
        return Ok(false);
    }
    Err(Halt::Fault(refused_token(alloc, &token)?))
}

// All parameters, read on after one of them.
fn after_parameter<'a>(
    alloc: Global,
    word: Location,
    names: NameList,
    items: &'a [SourceItem],
) -> Result<ParameterList<'a>, Halt>
    ensures { Meets result (spec.after_parameter word names items.now) }
{
    let rest = after_first_token(items);
    if ends_parameters(alloc, word, items)? {
        return Ok(ParameterList { names, after: rest });
    }
    let names = parameter_at(alloc, word, names, rest)?;
    after_parameter(alloc, word, names, after_first_token(rest))
}

// The parameters, read after the `(`.
fn parameters<'a>(
    alloc: Global,
    word: Location,
    items: &'a [SourceItem],
) -> Result<ParameterList<'a>, Halt>
    ensures { Meets result (spec.parameters word items.now) }
{
    let token = first_token(alloc, word, items)?;
    let rest = after_first_token(items);
    let names = NameList {
        items: Vec::new(alloc),
    };
    if closes_parameters(&token.value) {
        return Ok(ParameterList { names, after: rest });
    }
    let names = parameter_here(alloc, names, &token)?;
    after_parameter(alloc, word, names, rest)
}

// Whether the item is a `(` without a blank before it.
fn is_attached_paren(item: &LexerItem) -> bool
    ensures { result ≡ spec.is_attached_paren item.now }
{
    match item {
        Ok(token) => opens_parameters(&token.value) && !token.leading_whitespace,
        Err(_) => false,
    }
}

// Whether a `(` directly follows the name.
fn has_parameters(items: &[SourceItem]) -> bool
    ensures { result ≡ spec.has_parameters items.now }
{
    match items.first() {
        Some(first) => is_attached_paren(&first.item),
        None => false,
    }
}

// The definition after the name.
fn definition_at(alloc: Global, word: Location, items: &[SourceItem]) -> Result<Definition, Halt>
    ensures { Meets result (spec.definition_at word items.now) }
{
    if !has_parameters(items) {
        let body = line_tokens(alloc, items)?;
        return Ok(Definition {
            function_like: false,
            parameters: Vec::new(alloc),
            body: body.items,
            text: SOURCE_TEXT,
        });
    }
    let list = parameters(alloc, word, after_first_token(items))?;
    let body = line_tokens(alloc, list.after)?;
    Ok(Definition {
        function_like: true,
        parameters: list.names.items,
        body: body.items,
        text: SOURCE_TEXT,
    })
}

// The name, unless the rules keep it for the language.
fn free_name(rules: Rules, first: Placed) -> Result<Placed, Halt>
    ensures { Meets result (spec.free_name rules first) }
{
    if rules.keeps_own_names && is_own_name(&first.name) {
        let value = TokenValue::Ident(first.name);
        return Err(Halt::Fault((PreprocessorError::UnexpectedToken(value), first.location)));
    }
    Ok(first)
}

/// The name that comes first and is defined, or whose definition is taken away.
pub fn changed_name(
    alloc: Global,
    rules: Rules,
    word: Location,
    items: &[SourceItem],
) -> Result<Placed, Halt>
    ensures { Meets result (first_name word items.now and_then spec.free_name rules) }
{
    let first = first_name(alloc, word, items)?;
    free_name(rules, first)
}

/// The name and definition on the line of a `#define`, or its first fault.
pub fn defined_on(
    alloc: Global,
    rules: Rules,
    word: Location,
    items: &[SourceItem],
) -> Result<Named, Halt>
    ensures { Meets result (spec.defined_on rules word items.now) }
{
    let first = changed_name(alloc, rules, word, items)?;
    let definition = definition_at(alloc, word, after_first_token(items))?;
    Ok(Named {
        name: first.name,
        location: first.location,
        definition,
    })
}

/// The name on the line of an `#undef`, or its first fault.
pub fn undefined_on(
    alloc: Global,
    rules: Rules,
    word: Location,
    items: &[SourceItem],
) -> Result<Text, Halt>
    ensures { Meets result (spec.undefined_on rules word items.now) }
{
    let first = changed_name(alloc, rules, word, items)?;
    ended_line(alloc, word, after_first_token(items))?;
    Ok(first.name)
}
