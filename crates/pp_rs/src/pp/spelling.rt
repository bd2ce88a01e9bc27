//! The text of tokens.

ghost use Rattle.std.specs.Prelude.{◌≡◌, ◌++◌, IsTrue, All, OnOk};
ghost use Rattle.std.specs.Prelude.{OnErr, IfOk, MatchResult, string_bytes, is_ok, if◌then◌else◌};
ghost use Rattle.std.specs.Fmt.{decimal};
ghost use Rattle.std.specs.Io.{StartsWith};
ghost use Rattle.std.specs.Str.{chars};
ghost use Rattle.pp_lexer.specs.TokenValue.{is_ordinary};
ghost use Rattle.pp_lexer.specs.PreprocessorError.{out_of_memory};
ghost use Rattle.pp_lexer.specs.Punctuators.{punctuator};
ghost use Rattle.pp_lexer.specs.Spelling.{integer_literal, float_literal, spelling, spelled_text, values_of};

use crate::pp::token_ref::ValueRef;
use crate::token::{
    Integer, Location, PreprocessorError, Punct, Token, TokenValue, float_letters, integer_letters,
    out_of_memory,
};
use std::alloc::{AllocError, Global};

/// Returns the text of ordinary tokens, with one space between each two and none at the ends.
///
/// A word has its text, a float its text and the letters of its width, an integer its decimal
/// digits, a `u` if it is unsigned and the letter of its width, a punctuator its characters. No
/// tokens give the empty text. The only error is `OutOfMemory`, with the place (0, 0, line 1), if an
/// allocation fails.
pub fn spell_tokens(
    alloc: Global,
    tokens: &[Token],
) -> Result<String, (PreprocessorError, Location)>
    requires ordinary { All (λ t. IsTrue (is_ordinary t.value)) tokens.now }
    ensures { MatchResult result (λ text. chars (string_bytes text)
        ≡ spelled_text (values_of tokens.now)) (λ e. e ≡ out_of_memory) }
{
    match join_spellings(alloc, tokens) {
        Ok(text) => Ok(text),
        Err(_) => Err(out_of_memory()),
    }
}

// The spellings of the tokens, joined by spaces.
fn join_spellings(alloc: Global, tokens: &[Token]) -> Result<String, AllocError>
    requires { All (λ t. IsTrue (is_ordinary t.value)) tokens.now }
    ensures { IfOk result (λ text. chars (string_bytes text)
        ≡ spelled_text (values_of tokens.now)) }
{
    let mut text = String::new(alloc);
    let Some((first, others)) = tokens.split_first() else {
        return Ok(text);
    };
    push_value(&mut text, &first.value)?;
    for token in others {
        text.push(' ')?;
        push_value(&mut text, &token.value)?;
    }
    Ok(text)
}

// Appends the text of an ordinary token. If memory runs out, nothing is appended.
pub(crate) fn push_value(text: &mut String, value: &TokenValue) -> Result<(), AllocError>
    requires { IsTrue (is_ordinary value.now) }
    ensures appended { OnOk result (chars (string_bytes text.new)
        ≡ chars (string_bytes text.old) ++ spelling value.now) }
    ensures refused { OnErr result (string_bytes text.new ≡ string_bytes text.old) }
{
    ValueRef::of_value(value).push_to(text)
}

// Appends a punctuator. Most have one character, for which no text is copied.
#[inline(always)]
pub(crate) fn push_punct(text: &mut String, punct: Punct) -> Result<(), AllocError>
    ensures appended { OnOk result (chars (string_bytes text.new)
        ≡ chars (string_bytes text.old) ++ punctuator punct) }
    ensures refused { OnErr result (string_bytes text.new ≡ string_bytes text.old) }
{
    let spelling = punct.spelling();
    let bytes = spelling.as_bytes();
    if bytes.len() == 1 {
        return text.push(bytes[0] as char);
    }
    text.push_str(spelling)
}

// Appends the decimal digits of a number, without a formatter: most numbers have one digit. If memory runs out, the
// first of them may be there.
fn push_decimal(text: &mut String, value: u64) -> Result<(), AllocError>
    ensures appended { OnOk result (string_bytes text.new ≡ string_bytes text.old ++ decimal value) }
    ensures refused { OnErr result (StartsWith (string_bytes text.new) (string_bytes text.old)) }
{
    if value >= 10 {
        push_decimal(text, value / 10)?;
    }
    text.push((b'0' + (value % 10) as u8) as char)?;
    Ok(())
}

// Appends the letters of a number. Most numbers have none.
#[inline(always)]
fn push_letters(text: &mut String, letters: &str) -> Result<(), AllocError>
    ensures bytes { string_bytes text.new
        ≡ if is_ok result then string_bytes text.old ++ letters.now else string_bytes text.old }
{
    if letters.is_empty() {
        return Ok(());
    }
    text.push_str(letters)
}

// Appends the digits of an integer, and its letters. If memory runs out, the first of them may be there.
fn push_digits(text: &mut String, integer: Integer) -> Result<(), AllocError>
    ensures appended { OnOk result (chars (string_bytes text.new)
        ≡ chars (string_bytes text.old) ++ integer_literal integer) }
    ensures refused { OnErr result (StartsWith (string_bytes text.new) (string_bytes text.old)) }
{
    push_decimal(text, integer.value)?;
    push_letters(text, integer_letters(integer.signed, integer.width))
}

// Appends an integer. If memory runs out, what was appended is taken back.
pub(crate) fn push_integer(text: &mut String, integer: Integer) -> Result<(), AllocError>
    ensures appended { OnOk result (chars (string_bytes text.new)
        ≡ chars (string_bytes text.old) ++ integer_literal integer) }
    ensures refused { OnErr result (string_bytes text.new ≡ string_bytes text.old) }
{
    let length = text.len();
    if let Err(refused) = push_digits(text, integer) {
        text.truncate(length);
        return Err(refused);
    }
    Ok(())
}

// Appends a text, and the letters after it. If memory runs out, the text may be there.
#[inline(always)]
fn push_both(text: &mut String, first: &str, second: &str) -> Result<(), AllocError>
    ensures appended { OnOk result (chars (string_bytes text.new)
        ≡ chars (string_bytes text.old) ++ (chars first.now ++ chars second.now)) }
    ensures refused { OnErr result (StartsWith (string_bytes text.new) (string_bytes text.old)) }
{
    text.push_str(first)?;
    push_letters(text, second)
}

// Appends a float: its text and the letters of its width. If memory runs out, what was appended is taken back.
#[inline(always)]
pub(crate) fn push_float(text: &mut String, digits: &str, width: i32) -> Result<(), AllocError>
    ensures appended { OnOk result (chars (string_bytes text.new)
        ≡ chars (string_bytes text.old) ++ float_literal (chars digits.now) width) }
    ensures refused { OnErr result (string_bytes text.new ≡ string_bytes text.old) }
{
    let length = text.len();
    if let Err(refused) = push_both(text, digits, float_letters(width)) {
        text.truncate(length);
        return Err(refused);
    }
    Ok(())
}
