//! The expressions of an `#if`, `#elif` or `#line` line, taken from its words.

ghost use Rattle.std.specs.Prelude.{◌≡◌, map, slice_get, IfOk, OnErr};
ghost use Rattle.std.specs.Option.{option_copied};
ghost use Rattle.pp_expression.specs.FirstFault.{Evaluates};
ghost use Rattle.pp_model.specs.LineValues.{TakesExpression, ended_early, line_of, symbol_of, unwanted_word};
ghost use Rattle.pp_model.specs.LineValues.{word_from_end, words_after};
ghost use Rattle.pp_model.specs.inner.LineValues.{fault_of_operand, reported_fault};

use crate::copies::{copy_fault, copy_value};
use crate::place::{Place, PlacedFault};
use crate::word::{Word, Words};
use pp_expression::evaluator::evaluate;
use pp_expression::symbol::{ExpressionFault, Found, Symbol, Value};
use pp_lexer::token::{PreprocessorError, Text, TokenValue};
use std::alloc::{AllocError, Global};

// What a word is in the grammar of expressions.
fn symbol_of(word: &Word) -> Symbol
    ensures { result ≡ symbol_of word.now }
{
    match word {
        Word::Plain(value, _) => match value {
            TokenValue::Integer(integer) => Symbol::Number(integer.value),
            TokenValue::Punct(punct) => Symbol::Punct(*punct),
            _ => Symbol::Other,
        },
        Word::Defined(_, Ok(answer)) => Symbol::Number(u64::from(*answer)),
        Word::Defined(_, Err(_)) => Symbol::Fault,
    }
}

// What the words are in the grammar of expressions.
fn symbols_of(alloc: Global, words: &[Word]) -> Result<Vec<Symbol>, AllocError>
    ensures { IfOk result (λ symbols. symbols.items ≡ map symbol_of words.now) }
{
    let mut symbols = Vec::with_capacity(alloc, words.len())?;
    for word in words {
        symbols.push(symbol_of(word))?;
    }
    Ok(symbols)
}

// The value of the expression at the front of the words, or its first fault.
fn evaluation(alloc: Global, words: &Words) -> Result<Result<Value, Found>, AllocError>
    ensures { IfOk result (λ evaluation. Evaluates (line_of words.now) evaluation) }
{
    let symbols = symbols_of(alloc, &words.words)?;
    let ending = words.ending.as_ref().map(|_| ExpressionFault::Unread);
    Ok(evaluate(alloc, &symbols, ending)?)
}

// The first of the last `left` words of the line.
fn word_from_end(words: &Words, left: usize) -> Option<&Word>
    ensures { option_copied result ≡ word_from_end left words.now }
{
    words.words.get(words.words.len().saturating_sub(left))
}

/// Returns the fault of a word that the grammar doesn't allow at its position.
///
/// The only error is that an allocation failed.
pub fn unwanted_word(alloc: Global, word: &Word) -> Result<PlacedFault, AllocError>
    ensures { IfOk result (λ fault. fault ≡ unwanted_word word.now) }
{
    match word {
        Word::Plain(value, place) => {
            let value = copy_value(alloc, value)?;
            Ok((PreprocessorError::UnexpectedToken(value), *place))
        }
        Word::Defined(place, _) => {
            let name = Text::from(String::from_str(alloc, "defined")?);
            let value = TokenValue::Ident(name);
            Ok((PreprocessorError::UnexpectedToken(value), *place))
        }
    }
}

/// Returns the fault of a line that ends too early, which is at the directive's word.
pub fn ended_early(directive: Place) -> PlacedFault
    ensures { result ≡ ended_early directive }
{
    (PreprocessorError::UnexpectedEndOfInput, directive)
}

// The fault of the operand of a `defined`, or for any other word that of a line that ends too early.
fn fault_of_operand(alloc: Global, directive: Place, word: &Word) -> Result<PlacedFault, AllocError>
    ensures { IfOk result (λ fault. fault ≡ fault_of_operand (ended_early directive) word.now) }
{
    match word {
        Word::Defined(_, Err(fault)) => copy_fault(alloc, fault),
        _ => Ok(ended_early(directive)),
    }
}

// The first fault of an expression, with its place.
fn reported_fault(
    alloc: Global,
    directive: Place,
    words: &Words,
    found: Found,
) -> Result<PlacedFault, AllocError>
    ensures { IfOk result (λ fault. fault ≡ reported_fault directive words.now found) }
{
    match found.kind {
        ExpressionFault::IntegerOverflow => Ok((PreprocessorError::IntegerOverflow, directive)),
        ExpressionFault::DivisionByZero => Ok((PreprocessorError::DivisionByZero, directive)),
        ExpressionFault::RemainderByZero => Ok((PreprocessorError::RemainderByZero, directive)),
        ExpressionFault::UnexpectedEndOfInput => Ok(ended_early(directive)),
        ExpressionFault::Unexpected => match word_from_end(words, found.left) {
            Some(word) => unwanted_word(alloc, word),
            None => Ok(ended_early(directive)),
        },
        ExpressionFault::Unread => match &words.ending {
            Some(fault) => copy_fault(alloc, fault),
            None => Ok(ended_early(directive)),
        },
        ExpressionFault::Operand => match word_from_end(words, found.left) {
            Some(word) => fault_of_operand(alloc, directive, word),
            None => Ok(ended_early(directive)),
        },
    }
}

impl Words {
    // Passes the words of an expression, up to the last `left` words. Most lines have no word after it.
    fn pass(&mut self, left: usize)
        ensures { self.new ≡ words_after left self.old }
    {
        if left == 0 {
            self.words.clear();
            return;
        }
        let count = self.words.len().saturating_sub(left);
        self.words.drain(..count);
    }

    /// Returns the next word, or `None` if no word is left.
    pub fn peek(&self) -> Option<&Word>
        ensures { option_copied result ≡ slice_get self.now.words 0 }
    {
        self.words.first()
    }

    /// Takes the longest expression at the front, and returns its value or its first fault.
    ///
    /// `directive` is the place of the directive's word. The outer error is that an allocation failed. Nothing is taken
    /// from words with a fault.
    pub fn take_expression(
        &mut self,
        alloc: Global,
        directive: Place,
    ) -> Result<Result<i64, PlacedFault>, AllocError>
        ensures takes { IfOk result (λ taken. TakesExpression directive self.old taken self.new) }
        ensures keeps { IfOk result (λ taken. OnErr taken (self.new ≡ self.old)) }
    {
        match evaluation(alloc, &*self)? {
            Ok(value) => {
                self.pass(value.left);
                Ok(Ok(value.value))
            }
            Err(found) => Ok(Err(reported_fault(alloc, directive, &*self, found)?)),
        }
    }
}
