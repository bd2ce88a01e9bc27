//! The value of a number literal.

ghost use Rattle.std.specs.Prelude.{◌≡◌, ◌≤◌, ◌==◌, ◌||◌, drop, if◌then◌else◌, IfOk};
ghost use Rattle.std.specs.List.{list_any};
ghost use Rattle.pp_lexer.specs.Longest.{front_len};
ghost use Rattle.pp_lexer.specs.NumberValue.{begins_hex, begins_octal, is_float, whole, integer_value, float_exponent};
ghost use Rattle.pp_lexer.specs.NumberValue.{is_float_text, float_value};
ghost use Rattle.pp_lexer.specs.inner.NumberValue.{is_float_mark, integer_of};
ghost use Rattle.pp_lexer.specs.Outcome.{IsGiven};
ghost use Rattle.pp_lexer.specs.Numbers.{is_decimal};
ghost use Rattle.pp_lexer.specs.Surroundings.{begins_with};

use crate::lexer::item::TokenValue;
use crate::lexer::number::spelling::{FloatText, Spelling};
use crate::token::{Float, Integer, PreprocessorError, Text};
use std::alloc::{AllocError, Global};

// Whether the spelling begins with `0x`.
fn has_hex_mark(word: &Spelling<'_>) -> bool
    ensures { result ≡ begins_hex word.now }
{
    let mut text = word.twin();
    if text.next() != Some('0') {
        return false;
    }
    match text.peek() {
        Some(c) => c == 'x' || c == 'X',
        None => false,
    }
}

// Whether a digit follows a leading `0`.
fn has_octal_mark(word: &Spelling<'_>) -> bool
    ensures { result ≡ begins_octal word.now }
{
    let mut text = word.twin();
    if text.next() != Some('0') {
        return false;
    }
    match text.peek() {
        Some(c) => c.is_digit(10),
        None => false,
    }
}

// Whether there is a point or, in a number without `0x`, an `e`.
fn has_float_mark(hex: bool, word: &mut Spelling<'_>) -> bool
    ensures { result ≡ list_any (is_float_mark hex) word.old }
{
    'marks: loop {
        let Some(c) = word.next() else {
            return false;
        };
        if c == '.' || (!hex && (c == 'e' || c == 'E')) {
            return true;
        }
    }
}

// Whether the number is a float.
pub fn is_float(word: &Spelling<'_>) -> bool
    ensures { result ≡ is_float word.now }
{
    has_float_mark(has_hex_mark(word), &mut word.twin())
}

// The value of at least one digit.
fn whole_value(base: u32, text: &mut Spelling<'_>) -> Option<u64>
    requires low { 2 ≤ base }
    requires high { base ≤ 36 }
    ensures { result ≡ whole base text.old }
{
    if text.is_at_end() {
        return None;
    }
    let mut value: u64 = 0;
    'digits: loop {
        let Some(c) = text.next() else {
            return Some(value);
        };
        let digit = c.to_digit(base)?;
        let shifted = value.checked_mul(base as u64)?;
        value = shifted.checked_add(digit as u64)?;
    }
}

fn integer(signed: bool, width: i32, value: Option<u64>) -> Result<TokenValue, PreprocessorError>
    ensures { result ≡ integer_of signed width value }
{
    match value {
        Some(value) => Ok(TokenValue::Integer(Integer {
            value,
            signed,
            width,
        })),
        None => Err(PreprocessorError::IntegerOverflow),
    }
}

// The integer of this width with this spelling.
pub fn read_integer(
    signed: bool,
    width: i32,
    word: &Spelling<'_>,
) -> Result<TokenValue, PreprocessorError>
    ensures { result ≡ integer_value signed width word.now }
{
    let mut text = word.twin();
    if has_hex_mark(word) {
        text.next();
        text.next();
        return integer(signed, width, whole_value(16, &mut text));
    }
    if has_octal_mark(word) {
        return integer(signed, width, whole_value(8, &mut text));
    }
    integer(signed, width, whole_value(10, &mut text))
}

// Passes the digits, and returns whether there was one.
fn skip_digits(text: &mut FloatText<'_>) -> bool
    ensures any { result ≡ begins_with is_decimal text.old }
    ensures state { text.new ≡ drop (front_len is_decimal text.old) text.old }
{
    let found = text.is_digit_next();
    'digits: loop {
        if !text.is_digit_next() {
            return found;
        }
        text.next();
    }
}

// Passes the next character if it is one of the two, and returns whether it did.
fn skip_either(first: char, second: char, text: &mut FloatText<'_>) -> bool
    ensures test { result ≡ begins_with (λ c. (c == first) || (c == second)) text.old }
    ensures state { text.new ≡ drop (if result then 1 else 0) text.old }
{
    let found = text.is_either_next(first, second);
    if found {
        text.next();
    }
    found
}

// Passes the next character if it is `wanted`, and returns whether it did.
fn skip_char(wanted: char, text: &mut FloatText<'_>) -> bool
    ensures test { result ≡ begins_with (λ c. c == wanted) text.old }
    ensures state { text.new ≡ drop (if result then 1 else 0) text.old }
{
    let found = text.is_next(wanted);
    if found {
        text.next();
    }
    found
}

// Whether the rest is an exponent with a digit, or nothing.
fn ends_in_exponent(text: &mut FloatText<'_>) -> bool
    ensures { result ≡ float_exponent text.old }
{
    if text.is_at_end() {
        return true;
    }
    if !skip_char('e', text) {
        return false;
    }
    skip_either('+', '-', text);
    skip_digits(text) && text.is_at_end()
}

// Whether the text is that of a float.
fn reads_as_float(text: &mut FloatText<'_>) -> bool
    ensures { result ≡ is_float_text text.old }
{
    if skip_digits(text) {
        if skip_char('.', text) {
            skip_digits(text);
        }
        return ends_in_exponent(text);
    }
    if !skip_char('.', text) {
        return false;
    }
    if !skip_digits(text) {
        return false;
    }
    ends_in_exponent(text)
}

fn gather(alloc: Global, text: &mut FloatText<'_>) -> Result<Text, AllocError>
    ensures { IfOk result (λ t. t ≡ text.old) }
{
    let mut gathered = Text::new(alloc);
    'chars: loop {
        let Some(c) = text.next() else {
            return Ok(gathered);
        };
        gathered.push(c)?;
    }
}

// The float of this width with this spelling. The outer error is that its text could not be allocated.
pub fn read_float(
    alloc: Global,
    width: i32,
    word: &Spelling<'_>,
) -> Result<Result<TokenValue, PreprocessorError>, AllocError>
    ensures { IsGiven result (float_value width word.now) }
{
    if !reads_as_float(&mut FloatText::new(word)) {
        return Ok(Err(PreprocessorError::FloatParsingError));
    }
    let text = gather(alloc, &mut FloatText::new(word))?;
    Ok(Ok(TokenValue::Float(Float { text, width })))
}
