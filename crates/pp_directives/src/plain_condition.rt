//! The condition of an `#if` or `#elif` line that has a value, if each macro on the line has no parameters and a number
//! or a punctuator alone as its body. Such a line needs no expander: its tokens are looked at where they are.

ghost use Rattle.std.specs.Prelude.{◌≡◌, ◌∷◌, ◌≤◌, [], Ok, IfOk, IfSome, IsTrue, MatchOption, if◌then◌else◌, is_some};
ghost use Rattle.std.specs.Prelude.{length};
ghost use Rattle.std.specs.Str.{IsAscii, chars};
ghost use Rattle.pp_expression.specs.declared.symbol.Symbol.TheVariants as symbol;
ghost use Rattle.pp_model.specs.Emitting.{answers_at, expansion_limit};
ghost use Rattle.pp_model.specs.LineValues.{IsCondition};
ghost use Rattle.pp_model.specs.Calls.{is_left_paren, is_right_paren};
ghost use Rattle.pp_model.specs.Names.{is_same_name, defined_name};
ghost use Rattle.pp_macros.specs.inner.Defined.{meaning_of};
ghost use Rattle.pp_directives.specs.WordTokens.{word_token, word_value};
ghost use Rattle.pp_directives.specs.inner.PlainConditions.{AreSymbolsOf, GivesOperand, GivesWord, IsBody, IsFreeName};
ghost use Rattle.pp_directives.specs.inner.PlainConditions.{plain_symbol};

use crate::token_list::{LineReads, LineToken};
use crate::words::is_line_name;
use pp_expression::evaluator::evaluate;
use pp_expression::symbol::Symbol;
use pp_lexer::lexer::{Form, PlainItem};
use pp_lexer::token::{Punct, TokenValue};
use pp_macros::define::{BodyEntry, Macro};
use pp_macros::list_lexer::Scope;
use pp_macros::names::Definitions;
use std::alloc::{AllocError, Global};
use std::marker::Model;

// The tokens of a line that were not looked at yet. Contracts see them.
#[derive(Drop)]
struct RestOfLine<'a> {
    line: &'a LineReads<'a>,
    position: usize,
}

impl<'a> Model for RestOfLine<'a> {
    ghost use Rattle.std.specs.Prelude.{List, drop};
    ghost use Rattle.pp_lexer.specs.declared.token.Token.{Token};

    ghost Value = { List Token };

    ghost view = { λ r. drop r.position r.line.now.tokens };
}

impl<'a> RestOfLine<'a> {
    // The next token, or `None` if it is no word of plain text, or at the end of the line.
    #[inline(always)]
    fn next(&mut self) -> Option<PlainItem<'a>>
        ensures takes { MatchOption result (self.new ≡ self.old) (λ word. self.old ≡ word_token word ∷ self.new) }
        ensures ascii { IfSome result (λ word. IsAscii word.spelling.now) }
        ensures fewer { length self.new ≤ length self.old }
    {
        match self.line.token_at(self.position)? {
            LineToken::Word(word) => {
                self.position += 1;
                Some(*word)
            }
            LineToken::Token(_) => None,
        }
    }

    // Whether it is the end of the line.
    #[inline(always)]
    fn is_over(&self) -> bool
        ensures { IsTrue result → self.now ≡ [] }
    {
        self.line.token_at(self.position).is_none()
    }
}

// What a number or a punctuator is in the grammar of expressions.
#[inline(always)]
fn plain_symbol(value: &TokenValue) -> Option<Symbol>
    ensures { result ≡ plain_symbol value.now }
{
    match value {
        TokenValue::Integer(integer) => Some(Symbol::Number(integer.value)),
        TokenValue::Punct(punct) => Some(Symbol::Punct(*punct)),
        _ => None,
    }
}

// The same of a word of plain text.
#[inline(always)]
fn form_symbol(word: &PlainItem<'_>) -> Option<Symbol>
    ensures { result ≡ plain_symbol (word_value word.now.form word.now.spelling.now) }
{
    match word.form {
        Form::Integer(value) | Form::Unsigned(value) => Some(Symbol::Number(value)),
        Form::Punct(punct) => Some(Symbol::Punct(punct)),
        _ => None,
    }
}

// The name that the word is, unless that is `__LINE__`.
#[inline(always)]
fn free_name<'a>(word: &PlainItem<'a>) -> Option<&'a str>
    requires { IsAscii word.now.spelling.now }
    ensures name { IfSome result (λ name. IsFreeName name.now (word_value word.now.form word.now.spelling.now)) }
    ensures ascii { IfSome result (λ name. IsAscii name.now) }
{
    match word.form {
        Form::Identifier if !is_line_name(word.spelling) => Some(word.spelling),
        _ => None,
    }
}

// Whether the name is `defined`. Most have another length, and need no call.
#[inline(always)]
fn is_defined_name(name: &str) -> bool
    requires { IsAscii name.now }
    ensures { result ≡ is_same_name name.now defined_name }
{
    name.len() == 7 && name == "defined"
}

// What the name of a macro is, if its body is a number or a punctuator alone.
fn body_symbol(found: &Macro) -> Option<Symbol>
    ensures { IfSome result (IsBody found.now.definition) }
{
    if found.is_function_like() || found.len() != 1 {
        return None;
    }
    match found.entry_at(0)? {
        BodyEntry::Token(token, _) => plain_symbol(&token.value),
        BodyEntry::Parameter { .. } => None,
    }
}

// Whether the name is defined.
#[inline(always)]
fn is_defined(name: &str, definitions: &Definitions) -> bool
    ensures { result ≡ is_some (meaning_of definitions.now (chars name.now)) }
{
    definitions.get(name).is_some()
}

// The value of a `defined`, from its operand, if that has no fault.
fn operand(line: &mut RestOfLine<'_>, definitions: &Definitions) -> Option<bool>
    ensures gives { IfSome result (λ answer. GivesOperand definitions.now line.old answer line.new) }
    ensures fewer { length line.new ≤ length line.old }
{
    let first = line.next()?;
    if !is_left_paren(&first) {
        return Some(is_defined(free_name(&first)?, definitions));
    }
    let name = free_name(&line.next()?)?;
    if !is_right_paren(&line.next()?) {
        return None;
    }
    Some(is_defined(name, definitions))
}

// Whether the word is a `(`.
#[inline(always)]
fn is_left_paren(word: &PlainItem<'_>) -> bool
    ensures { result ≡ is_left_paren (word_value word.now.form word.now.spelling.now) }
{
    matches!(word.form, Form::Punct(Punct::LeftParen))
}

// Whether the word is a `)`.
#[inline(always)]
fn is_right_paren(word: &PlainItem<'_>) -> bool
    ensures { result ≡ is_right_paren (word_value word.now.form word.now.spelling.now) }
{
    matches!(word.form, Form::Punct(Punct::RightParen))
}

// What a `defined` with this value is in the grammar of expressions.
#[inline(always)]
fn truth(answer: bool) -> Symbol
    ensures { result ≡ symbol.Number (if answer then 1 else 0) }
{
    Symbol::Number(u64::from(answer))
}

// What the word that begins with this one is in the grammar of expressions.
fn word_symbol(
    word: &PlainItem<'_>,
    line: &mut RestOfLine<'_>,
    definitions: &Definitions,
) -> Option<Symbol>
    requires { IsAscii word.now.spelling.now }
    ensures gives { IfSome result (λ symbol. GivesWord definitions.now (word_token word.now ∷ line.old) symbol
        line.new) }
    ensures fewer { length line.new ≤ length line.old }
{
    if let Some(symbol) = form_symbol(word) {
        return Some(symbol);
    }
    let name = free_name(word)?;
    if is_defined_name(name) {
        let answer = operand(line, definitions)?;
        return Some(truth(answer));
    }
    match definitions.get(name) {
        None => Some(Symbol::Number(0)),
        Some(found) => body_symbol(found),
    }
}

// What the words of a line are in the grammar of expressions.
fn plain_symbols(
    alloc: Global,
    line: &LineReads<'_>,
    scope: &Scope<'_>,
) -> Result<Option<Vec<Symbol>>, AllocError>
    ensures { IfOk result (λ found. IfSome found (λ symbols. AreSymbolsOf line.now scope.now.numbering
        scope.now.definitions.now symbols.items)) }
{
    let mut rest = RestOfLine { line, position: 0 };
    let mut symbols = Vec::with_capacity(alloc, 16)?;
    'words: while let Some(word) = rest.next() {
        let Some(symbol) = word_symbol(&word, &mut rest, scope.definitions) else {
            return Ok(None);
        };
        symbols.push(symbol)?;
    }
    if !rest.is_over() {
        return Ok(None);
    }
    Ok(Some(symbols))
}

/// Whether the condition of the line holds, or `None` if it has a fault or needs an expander.
///
/// The error is that an allocation failed.
pub fn plain_condition(
    alloc: Global,
    line: &LineReads<'_>,
    scope: &Scope<'_>,
) -> Result<Option<bool>, AllocError>
    ensures { IfOk result (λ found. IfSome found (λ holds. IsCondition (answers_at expansion_limit) line.now.directive
        line.now.tokens scope.now.numbering (meaning_of scope.now.definitions.now) (Ok holds))) }
{
    let Some(symbols) = plain_symbols(alloc, line, scope)? else {
        return Ok(None);
    };
    match evaluate(alloc, &symbols, None)? {
        Ok(value) if value.left == 0 => Ok(Some(value.value != 0)),
        _ => Ok(None),
    }
}
