//! The rest of a directive's line.

ghost use Rattle.std.specs.Prelude.{◌≡◌, ◌≤◌, [], ◌∷◌, Ok, length, IfOk, OnOk};
ghost use Rattle.pp_expression.specs.Answers.{◌>>=◌ as ◌and_then◌};
ghost use Rattle.pp_model.specs.Lines as spec;
ghost use Rattle.pp_model.specs.inner.Lines as parts;
ghost use Rattle.pp_reference.specs.inner.Halting.{Meets};

use crate::conversion::{conversion, identifier_of, is_newline, refused_token};
use crate::copies::copy_fault;
use crate::item::SourceItem;
use crate::stop::{Halt, Stop};
use pp_lexer::lexer::{self, LexerItem};
use pp_lexer::token::{Location, PreprocessorError, Text, Token};
use pp_model::definition::{Placed, TokenList};
use pp_model::outcome::{Fault, IncludeLine};
use std::alloc::Global;

pub fn ends_line(item: &LexerItem) -> bool
    ensures { result ≡ spec.ends_line item.now }
{
    match item {
        Ok(token) => is_newline(&token.value),
        Err(_) => false,
    }
}

/// How many items the rest of the line has, with its NewLine.
pub fn line_length(items: &[SourceItem]) -> usize
    ensures is { result ≡ spec.line_length items.now }
    ensures most { result ≤ length items.now }
{
    match items.split_first() {
        None => 0,
        Some((first, _)) if ends_line(&first.item) => 1,
        Some((_, rest)) => 1 + line_length(rest),
    }
}

// Where the item begins, if it is a NewLine.
fn newline_start(item: &LexerItem) -> Option<u32>
    ensures { result ≡ spec.newline_start item.now }
{
    match item {
        Ok(token) if is_newline(&token.value) => Some(token.location.start),
        _ => None,
    }
}

// Where the line's NewLine begins, or `from` if it has none.
fn line_end(from: u32, items: &[SourceItem]) -> u32
    ensures { result ≡ spec.line_end from items.now }
{
    let Some((first, rest)) = items.split_first() else {
        return from;
    };
    match newline_start(&first.item) {
        Some(start) => start,
        None => line_end(from, rest),
    }
}

/// An `#include` line with this place of its word, if these items come after it.
pub fn include_line(word: Location, items: &[SourceItem]) -> IncludeLine
    ensures { result ≡ spec.include_line word items.now }
{
    let rest = Location {
        start: word.end,
        end: line_end(word.end, items),
        line: word.line,
    };
    IncludeLine { word, rest }
}

/// The first error of the lexer on the line.
pub fn line_fault(alloc: Global, items: &[SourceItem]) -> Result<Option<Fault>, Stop>
    ensures { IfOk result (λ fault. fault ≡ spec.line_fault items.now) }
{
    let Some((first, rest)) = items.split_first() else {
        return Ok(None);
    };
    match &first.item {
        Err(fault) => Ok(Some(copy_fault(alloc, fault)?)),
        Ok(token) if is_newline(&token.value) => Ok(None),
        Ok(_) => line_fault(alloc, rest),
    }
}

/// Whether there is a comment anywhere before the line's end.
pub fn comments_before_end(items: &[SourceItem]) -> bool
    ensures { result ≡ spec.comments_before_end items.now }
{
    match items.split_first() {
        None => false,
        Some((first, _)) if ends_line(&first.item) => first.had_comments,
        Some((_, rest)) => comments_before_end(rest),
    }
}

fn no_tokens(alloc: Global) -> TokenList
    ensures { result ≡ [] }
{
    TokenList {
        items: Vec::new(alloc),
    }
}

/// These tokens with one before them.
pub fn with_first(first: Token, rest: TokenList) -> Result<TokenList, Stop>
    ensures { IfOk result (λ tokens. tokens ≡ first ∷ rest) }
{
    let mut tokens = rest;
    tokens.items.insert(0, first)?;
    Ok(tokens)
}

/// The line's tokens, or the first error or `#` among them.
pub fn line_tokens(alloc: Global, items: &[SourceItem]) -> Result<TokenList, Halt>
    ensures { Meets result (spec.line_tokens items.now) }
{
    let Some((first, rest)) = items.split_first() else {
        return Ok(no_tokens(alloc));
    };
    match &first.item {
        Err(fault) => Err(Halt::Fault(copy_fault(alloc, fault)?)),
        Ok(token) if is_newline(&token.value) => Ok(no_tokens(alloc)),
        Ok(token) => {
            let first = conversion(alloc, token)?;
            match line_tokens(alloc, rest) {
                Ok(tokens) => Ok(with_first(first, tokens)?),
                Err(halt) => {
                    drop(first);
                    Err(halt)
                }
            }
        }
    }
}

/// The token that comes first. The end of the source is an error at the directive's word.
pub fn first_token(
    alloc: Global,
    word: Location,
    items: &[SourceItem],
) -> Result<lexer::Token, Halt>
    ensures is { Meets result (spec.first_token word items.now) }
    ensures some { OnOk result (1 ≤ length items.now) }
{
    let Some(first) = items.first() else {
        return Err(Halt::Fault((PreprocessorError::UnexpectedEndOfInput, word)));
    };
    match &first.item {
        Ok(token) => Ok(token.clone(alloc).map_err(|_| Stop::OutOfMemory)?),
        Err(fault) => Err(Halt::Fault(copy_fault(alloc, fault)?)),
    }
}

/// The items after the first.
pub fn after_first_token(items: &[SourceItem]) -> &[SourceItem]
    ensures { result.now ≡ parts.after_first_token items.now }
{
    match items.split_first() {
        Some((_, rest)) => rest,
        None => items,
    }
}

// The name of the token, with its place. A token that is no name is a fault.
fn placed_name(alloc: Global, token: &lexer::Token) -> Result<Placed, Halt>
    ensures { Meets result (spec.name_of token.now and_then λ name.
        Ok (record { name = name; location = token.now.location })) }
{
    match identifier_of(alloc, &token.value)? {
        Some(name) => Ok(Placed {
            name,
            location: token.location,
        }),
        None => Err(Halt::Fault(refused_token(alloc, token)?)),
    }
}

/// The name that comes first. Anything else is a fault.
pub fn first_name(alloc: Global, word: Location, items: &[SourceItem]) -> Result<Placed, Halt>
    ensures { Meets result (spec.first_name word items.now) }
{
    let token = first_token(alloc, word, items)?;
    let name = placed_name(alloc, &token);
    drop(token);
    name
}

/// Fails unless the line ends here.
pub fn ended_line(alloc: Global, word: Location, items: &[SourceItem]) -> Result<(), Halt>
    ensures { Meets result (spec.ended_line word items.now) }
{
    let token = first_token(alloc, word, items)?;
    if is_newline(&token.value) {
        return Ok(());
    }
    Err(Halt::Fault(refused_token(alloc, &token)?))
}

/// The name that is alone on the line. Anything else is a fault.
pub fn only_name(alloc: Global, word: Location, items: &[SourceItem]) -> Result<Text, Halt>
    ensures { Meets result (spec.only_name word items.now) }
{
    let first = first_name(alloc, word, items)?;
    ended_line(alloc, word, after_first_token(items))?;
    Ok(first.name)
}
