//! The text of each token.

ghost use Rattle.std.specs.Prelude.{◌≡◌, ◌-◌, ◌^◌, ◌<◌, IsTrue, IfOk, IfSome, length, string_bytes};
ghost use Rattle.std.specs.Fmt.{decimal};
ghost use Rattle.std.specs.Str.{chars};
ghost use Rattle.pp_lexer.specs.declared.rules.Rules.{Rules};
ghost use Rattle.pp_rs.specs.TokenRefs.{value_of};
ghost use Rattle.glslpp_parts.specs.Reading.{IsReadAs, IsTextOf};

use crate::place::after_continuations;
use crate::reading::is_read_as;
use crate::texts::Spot;
use pp_rs::SOURCE_LIMIT;
use pp_rs::pp::ValueRef;
use pp_rs::rules::Rules;
use std::alloc::{AllocError, Global};

/// The text of a token as the source has it at its place, if the place is in the source and the text is read as the
/// token's value.
#[inline(always)]
pub(crate) fn written_word<'a>(
    alloc: Global,
    rules: Rules,
    value: ValueRef<'_>,
    spot: Option<Spot<'a>>,
) -> Result<Option<&'a str>, AllocError>
    ensures { IfOk result (λ written. IfSome written (λ word. IsTextOf rules (value_of value.entry) word.now)) }
{
    let Some(word) = source_word(spot) else {
        return Ok(None);
    };
    if is_text_of(alloc, rules, word, value)? {
        return Ok(Some(word));
    }
    Ok(None)
}

// The text at the place, if the place is in the source.
#[inline(always)]
fn source_word<'a>(spot: Option<Spot<'a>>) -> Option<&'a str> {
    match spot {
        Some(spot) if spot.is_in_file => spot.word(),
        _ => None,
    }
}

// Whether a word can be printed for the value as it is: it is read as the value, and has no continuation.
#[inline(always)]
fn is_text_of(
    alloc: Global,
    rules: Rules,
    word: &str,
    value: ValueRef<'_>,
) -> Result<bool, AllocError>
    ensures { IfOk result (λ is. IsTrue is → IsTextOf rules (value_of value.entry) word.now) }
{
    match value {
        ValueRef::Ident(name) => Ok(name == word),
        ValueRef::Punct(punct) => Ok(punct.spelling() == word),
        ValueRef::Integer(integer)
            if integer.signed
                && integer.width == 32
                && is_decimal(word.as_bytes(), integer.value) => Ok(true),
        ValueRef::Float(text, width) if width == 32 && text == word => Ok(true),
        _ => is_other_text_of(alloc, rules, word, value),
    }
}

// The same for a text that isn't the one by which the library spells the value.
#[inline(never)]
fn is_other_text_of(
    alloc: Global,
    rules: Rules,
    word: &str,
    value: ValueRef<'_>,
) -> Result<bool, AllocError>
    ensures { IfOk result (λ is. IsTrue is → IsReadAs rules (value_of value.entry) word.now) }
{
    if word.contains('\\') || word.len() >= SOURCE_LIMIT {
        return Ok(false);
    }
    is_read_as(alloc, rules, word, value)
}

// Whether these are the digits of the number.
fn is_decimal(bytes: &[u8], number: u64) -> bool
    ensures { IsTrue result → bytes.now ≡ decimal number }
{
    let Some((digit, front)) = bytes.split_last() else {
        return false;
    };
    if number < 10 {
        return front.is_empty() && u64::from(*digit) == 48 + number;
    }
    if u64::from(*digit) != 48 + number % 10 {
        return false;
    }
    is_decimal(front, number / 10)
}

/// The text of a token that isn't printed as the source has it: without its continuations, or spelled by its value if
/// an added definition or `__LINE__` gave it.
pub(crate) fn made_word(
    alloc: Global,
    rules: Rules,
    value: ValueRef<'_>,
    spot: Option<Spot<'_>>,
) -> Result<String, AllocError>
    ensures { IfOk result (λ word. IsTextOf rules (value_of value.entry) (string_bytes word)) }
{
    let Some(spot) = spot else {
        return spelled_word(alloc, value);
    };
    let joined = joined_word(alloc, spot)?;
    if spot.is_in_file && is_text_of(alloc, rules, joined.as_str(), value)? {
        return Ok(joined);
    }
    spelled_word(alloc, value)
}

/// The token as the library spells it.
pub(crate) fn spelled_word(alloc: Global, value: ValueRef<'_>) -> Result<String, AllocError>
    ensures { IfOk result (λ word. (rules : Rules) → IsTextOf rules (value_of value.entry) (string_bytes word)) }
{
    let mut word = String::new(alloc);
    value.push_to(&mut word)?;
    Ok(word)
}

// The text at a place, without its continuations. The place's end is counted as if no continuation came directly before
// the last character.
fn joined_word(alloc: Global, spot: Spot<'_>) -> Result<String, AllocError> {
    let mut word = String::new(alloc);
    let mut place = spot.start;
    for _ in spot.start..spot.end {
        let rest = spot.text.get(place..).unwrap_or("");
        let after = after_continuations(rest);
        let Some(c) = after.chars().next() else {
            return Ok(word);
        };
        word.push(c)?;
        if place.saturating_add(c.len_utf8()) >= spot.end {
            return Ok(word);
        }
        let skipped = rest.len().saturating_sub(after.len());
        place = place.saturating_add(skipped).saturating_add(c.len_utf8());
    }
    Ok(word)
}
