//! The value of an `#if`, `#elif` or `#line` line.

ghost use Rattle.std.specs.Prelude.{◌≡◌, ◌≤◌, slice_get, IfOk};
ghost use Rattle.pp_reference.specs.inner.Changes.{meaning_of};
ghost use Rattle.pp_model.specs.Emitting.{answers_at};
ghost use Rattle.pp_model.specs.LineValues.{IsAlone, IsCondition, IsLineNumber};
ghost use Rattle.pp_model.specs.Onward.{IsFirstNumber};

use crate::definitions::Definitions;
use crate::line_words::line_words;
use crate::stop::{Budget, Stop};
use pp_lexer::token::PreprocessorError;
use pp_model::definition::TokenList;
use pp_model::line_value::unwanted_word;
use pp_model::numbering::{Numbering, as_line_number};
use pp_model::place::{Place, PlacedFault};
use pp_model::word::{LineKind, Words};
use std::alloc::Global;

// The value of the words, which are one expression, or their first fault.
fn value_alone(
    alloc: Global,
    directive: Place,
    words: &mut Words,
) -> Result<Result<i64, PlacedFault>, Stop>
    ensures { IfOk result (λ answer. IsAlone directive words.old (λ value. value) answer) }
{
    match words.take_expression(alloc, directive)? {
        Ok(value) => match words.peek() {
            Some(word) => Ok(Err(unwanted_word(alloc, word)?)),
            None => Ok(Ok(value)),
        },
        Err(fault) => Ok(Err(fault)),
    }
}

/// Whether the condition of an `#if` or `#elif` line holds, or its first fault.
pub fn condition(
    alloc: Global,
    directive: Place,
    tokens: TokenList,
    numbering: Numbering,
    definitions: &Definitions,
    levels: u32,
    budget: &mut Budget,
) -> Result<Result<bool, PlacedFault>, Stop>
    ensures reads { IfOk result (λ answer. IsCondition (answers_at levels) directive tokens
        numbering (meaning_of definitions.now) answer) }
    ensures budget { budget.new.steps ≤ budget.old.steps }
{
    let kind = LineKind::Condition;
    let mut words = line_words(
        alloc,
        kind,
        directive,
        tokens.items,
        numbering,
        definitions,
        levels,
        budget,
    )?;
    match value_alone(alloc, directive, &mut words)? {
        Ok(value) => Ok(Ok(value != 0)),
        Err(fault) => Ok(Err(fault)),
    }
}

/// The number of a `#line`.
#[derive(Drop)]
pub struct LineNumber {
    /// The number of its first expression, if it has one.
    pub first: Option<u32>,
    /// Its number, or its first fault.
    pub number: Result<u32, PlacedFault>,
}

/// The line number of a `#line`, or its first fault, and the number of its first expression.
pub fn line_number(
    alloc: Global,
    directive: Place,
    tokens: TokenList,
    numbering: Numbering,
    definitions: &Definitions,
    levels: u32,
    budget: &mut Budget,
) -> Result<LineNumber, Stop>
    ensures reads { IfOk result (λ answer. IsLineNumber (answers_at levels) directive tokens
        numbering (meaning_of definitions.now) answer.number) }
    ensures first { IfOk result (λ answer. IsFirstNumber (answers_at levels) directive tokens
        numbering (meaning_of definitions.now) answer.first) }
    ensures budget { budget.new.steps ≤ budget.old.steps }
{
    let kind = LineKind::LineNumber;
    let mut words = line_words(
        alloc,
        kind,
        directive,
        tokens.items,
        numbering,
        definitions,
        levels,
        budget,
    )?;
    let value = match words.take_expression(alloc, directive)? {
        Ok(value) => value,
        Err(fault) => return Ok(LineNumber {
            first: None,
            number: Err(fault),
        }),
    };
    let first = as_line_number(value);
    let Some(number) = first else {
        let fault = (PreprocessorError::LineOverflow, directive);
        return Ok(LineNumber {
            first,
            number: Err(fault),
        });
    };
    if words.peek().is_none() {
        return Ok(LineNumber {
            first,
            number: Ok(number),
        });
    }
    match value_alone(alloc, directive, &mut words)? {
        Ok(_) => Ok(LineNumber {
            first,
            number: Ok(number),
        }),
        Err(fault) => Ok(LineNumber {
            first,
            number: Err(fault),
        }),
    }
}
