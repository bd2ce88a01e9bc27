//! Texts as the lexer reads them.

ghost use Rattle.std.specs.Prelude.{◌≡◌, ◌-◌, ◌^◌, ◌<◌, ◌∷◌, [], ◌↔◌, IsTrue, false, length, IfOk, OnOk, MatchOption};
ghost use Rattle.std.specs.Prelude.{Ok, Some};
ghost use Rattle.std.specs.Str.{chars, IsAscii};
ghost use Rattle.pp_lexer.specs.PlainItems.{value_of as plain_value};
ghost use Rattle.pp_lexer.specs.Respelling.{lexer_value};
ghost use Rattle.pp_rs.specs.TokenRefs.{value_of};
ghost use Rattle.glslpp_parts.specs.Reading.{values_ahead, IsReadAs};
ghost use Rattle.glslpp_parts.specs.inner.Taking.{IsTaken};

use pp_rs::lexer::{Form, Lexer, LexerItem, PlainItem, Token, TokenValue as Word, without_suffix};
use pp_rs::pp::ValueRef;
use pp_rs::rules::Rules;
use pp_rs::token::{Float, PreprocessorError, Text};
use std::alloc::{AllocError, Global};

/// A value of the lexer, or an error instead of one.
pub(crate) type Read = Result<Word, PreprocessorError>;

/// The next value or error, or `None` at the end.
pub(crate) fn read_next(lexer: &mut Lexer<'_>) -> Result<Option<Read>, AllocError>
    requires { lexer.old.spent ≡ false }
    ensures next { IfOk result (λ read. MatchOption read (values_ahead lexer.old ≡ [])
        (λ value. values_ahead lexer.old ≡ value ∷ values_ahead lexer.new)) }
    ensures spent { OnOk result (lexer.new.spent ≡ false) }
{
    match lexer.next() {
        Some(Ok(token)) => Ok(Some(Ok(token.value))),
        Some(Err((PreprocessorError::OutOfMemory, _))) => Err(AllocError),
        Some(Err((error, _))) => Ok(Some(Err(error))),
        None => Ok(None),
    }
}

/// What takes the tokens of a text, in live and dead text alike.
pub(crate) trait TokenReader {
    /// Takes the next token.
    fn take(&mut self, token: &Token) -> Result<(), AllocError>;

    /// Takes an error that is in place of a token.
    fn take_error(&mut self) {}
}

/// Gives the reader each token of a text, which these rules read.
pub(crate) fn read_tokens<R: TokenReader>(
    alloc: Global,
    rules: Rules,
    text: &str,
    reader: &mut R,
) -> Result<(), AllocError>
    requires { length text.now < 2 ^ 32 - 1 }
{
    let mut lexer = Lexer::with_rules(alloc, text, rules);
    'tokens: while let Some(item) = lexer.next() {
        let end = give_item(&item, reader);
        drop(item);
        end?;
    }
    Ok(())
}

fn give_item<R: TokenReader>(item: &LexerItem, reader: &mut R) -> Result<(), AllocError> {
    match item {
        Ok(token) => reader.take(token),
        Err((PreprocessorError::OutOfMemory, _)) => Err(AllocError),
        Err(_) => {
            reader.take_error();
            Ok(())
        }
    }
}

/// Whether the text, read again by these rules, is one token of this value. For most texts no memory is taken.
pub(crate) fn is_read_as(
    alloc: Global,
    rules: Rules,
    text: &str,
    value: ValueRef<'_>,
) -> Result<bool, AllocError>
    requires { length text.now < 2 ^ 32 - 1 }
    ensures { IfOk result (λ is. IsTrue is ↔ IsReadAs rules (value_of value.entry) text.now) }
{
    let mut lexer = Lexer::with_rules(alloc, text, rules);
    match lexer.peek_word() {
        Some(word) if word.rest.is_empty() => Ok(is_word_of(&word, value)),
        _ => are_items_of(alloc, rules, text, value),
    }
}

// Whether the items of the text are one token of this value, and the newline after it.
#[inline(never)]
fn are_items_of(
    alloc: Global,
    rules: Rules,
    text: &str,
    value: ValueRef<'_>,
) -> Result<bool, AllocError>
    requires { length text.now < 2 ^ 32 - 1 }
    ensures { IfOk result (λ is. IsTrue is ↔ IsReadAs rules (value_of value.entry) text.now) }
{
    let mut lexer = Lexer::with_rules(alloc, text, rules);
    if !take_value(&mut lexer, value)? {
        return Ok(false);
    }
    if !take_newline(&mut lexer)? {
        return Ok(false);
    }
    take_end(&mut lexer)
}

// Takes what comes next, and returns whether it is this value.
fn take_value(lexer: &mut Lexer<'_>, value: ValueRef<'_>) -> Result<bool, AllocError>
    requires { lexer.old.spent ≡ false }
    ensures is { IfOk result (λ is. IsTaken is (Ok (lexer_value (value_of value.entry)))
        (values_ahead lexer.old) (values_ahead lexer.new)) }
    ensures spent { OnOk result (lexer.new.spent ≡ false) }
{
    let read = read_next(lexer)?;
    let is = is_value(&read, value);
    drop(read);
    Ok(is)
}

// Takes what comes next, and returns whether it is a newline.
fn take_newline(lexer: &mut Lexer<'_>) -> Result<bool, AllocError>
    requires { lexer.old.spent ≡ false }
    ensures is { IfOk result (λ is. IsTaken is (Ok Word.NewLine) (values_ahead lexer.old)
        (values_ahead lexer.new)) }
    ensures spent { OnOk result (lexer.new.spent ≡ false) }
{
    let read = read_next(lexer)?;
    let is = is_newline(&read);
    drop(read);
    Ok(is)
}

// Returns whether nothing comes next.
fn take_end(lexer: &mut Lexer<'_>) -> Result<bool, AllocError>
    requires { lexer.old.spent ≡ false }
    ensures { IfOk result (λ is. IsTrue is ↔ (values_ahead lexer.old ≡ [])) }
{
    let read = read_next(lexer)?;
    let is = read.is_none();
    drop(read);
    Ok(is)
}

// Whether this value was read.
fn is_value(read: &Option<Read>, value: ValueRef<'_>) -> bool
    ensures { IsTrue result ↔ (read.now ≡ Some (Ok (lexer_value (value_of value.entry)))) }
{
    match read {
        Some(Ok(word)) => is_same(word, value),
        _ => false,
    }
}

// Whether a newline was read.
fn is_newline(read: &Option<Read>) -> bool
    ensures { IsTrue result ↔ (read.now ≡ Some (Ok Word.NewLine)) }
{
    matches!(read, Some(Ok(Word::NewLine)))
}

// Whether the value of the word is this one.
fn is_word_of(word: &PlainItem<'_>, value: ValueRef<'_>) -> bool
    requires { IsAscii word.now.spelling.now }
    ensures { IsTrue result ↔ (plain_value word.now.form word.now.spelling.now ≡ lexer_value (value_of value.entry)) }
{
    match (word.form, value) {
        (Form::Identifier, ValueRef::Ident(name)) => is_ascii_text(word.spelling, name),
        (Form::Integer(number), ValueRef::Integer(integer)) => {
            integer.signed && integer.width == 32 && integer.value == number
        }
        (Form::Unsigned(number), ValueRef::Integer(integer)) => {
            !integer.signed && integer.width == 32 && integer.value == number
        }
        (Form::Float, ValueRef::Float(text, 32)) => is_ascii_text(word.spelling, text),
        (Form::SuffixedFloat, ValueRef::Float(text, 32)) => {
            is_ascii_text(without_suffix(word.spelling), text)
        }
        (Form::Punct(a), ValueRef::Punct(b)) => a == b,
        _ => false,
    }
}

// Whether the text is this one of ASCII characters.
fn is_ascii_text(ascii: &str, text: &str) -> bool
    requires { IsAscii ascii.now }
    ensures { IsTrue result ↔ (ascii.now ≡ chars text.now) }
{
    ascii == text
}

// Whether the lexer's value is this one.
fn is_same(word: &Word, value: ValueRef<'_>) -> bool
    ensures { IsTrue result ↔ (word.now ≡ lexer_value (value_of value.entry)) }
{
    match (word, value) {
        (Word::Ident(a), ValueRef::Ident(b)) => is_text(a, b),
        (Word::Integer(a), ValueRef::Integer(b)) => *a == b,
        (Word::Float(a), ValueRef::Float(text, width)) => is_float(a, text, width),
        (Word::Punct(a), ValueRef::Punct(b)) => *a == b,
        _ => false,
    }
}

fn is_float(float: &Float, text: &str, width: i32) -> bool
    ensures { IsTrue result ↔ (float.now ≡ record { text = chars text.now; width = width }) }
{
    if float.width != width {
        return false;
    }
    is_text(&float.text, text)
}

/// Whether the text is this word.
pub(crate) fn is_text(text: &Text, word: &str) -> bool
    ensures { IsTrue result ↔ (text.now ≡ chars word.now) }
{
    text.as_str() == word
}
