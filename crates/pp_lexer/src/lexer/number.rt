//! Numbers: the longest one at the front of the characters, and its value.

ghost use Rattle.std.specs.Prelude.{◌≡◌, ◌==◌, ◌||◌, IsTrue, [], ◌∷◌};
ghost use Rattle.pp_lexer.specs.NumberValue.{width_refusal, usual_suffix, has_suffix, float_suffix, integer_suffix};
ghost use Rattle.pp_lexer.specs.NumberValue.{float_outcome, integer_outcome, number_at};
ghost use Rattle.pp_lexer.specs.Outcome.{IsGiven};
ghost use Rattle.pp_lexer.specs.Numbers.{begins_number};
ghost use Rattle.pp_lexer.specs.Reading.{letters, advanced};
ghost use Rattle.pp_lexer.specs.Surroundings.{begins_with};

use crate::lexer::char_iterator::LexerCharIterator;
use crate::lexer::item::TokenValue;
use crate::lexer::look_ahead::{is_either_next, is_pair_next};
use crate::rules::Rules;
use crate::token::PreprocessorError;
use scan::take_number;
use spelling::Spelling;
use std::alloc::{AllocError, Global};
use value::{is_float, read_float, read_integer};

mod scan;
mod spelling;
mod value;

// A suffix: how many characters it takes, and the width that it says.
#[derive(Clone, Copy)]
struct Suffix {
    taken: u32,
    width: i32,
}

// The suffix of 32 bits: one of the two letters if it is here, and none otherwise.
fn usual_suffix(first: char, second: char, inner: &mut LexerCharIterator<'_>) -> Suffix
    ensures value { result ≡ usual_suffix (λ c. (c == first) || (c == second))
        (letters inner.old.rest) }
    ensures same { inner.new ≡ inner.old }
{
    let found = is_either_next(inner, first, second);
    Suffix {
        taken: if found { 1 } else { 0 },
        width: 32,
    }
}

// Whether one of these suffixes of one letter is here, and the rules take it.
fn has_letter(rules: Rules, small: char, capital: char, inner: &mut LexerCharIterator<'_>) -> bool
    ensures test { result ≡ has_suffix rules (small ∷ []) (capital ∷ []) (letters inner.old.rest) }
    ensures same { inner.new ≡ inner.old }
{
    rules.takes_widths && is_either_next(inner, small, capital)
}

// Whether one of these suffixes of two letters is here, and the rules take it.
fn has_letters(
    rules: Rules,
    small: (char, char),
    capital: (char, char),
    inner: &mut LexerCharIterator<'_>,
) -> bool
    ensures test { result ≡ has_suffix rules (small.0 ∷ small.1 ∷ []) (capital.0 ∷ capital.1 ∷ [])
        (letters inner.old.rest) }
    ensures same { inner.new ≡ inner.old }
{
    if !rules.takes_widths {
        return false;
    }
    is_pair_next(inner, small.0, small.1) || is_pair_next(inner, capital.0, capital.1)
}

// The suffix of a float by these rules.
fn float_suffix(rules: Rules, inner: &mut LexerCharIterator<'_>) -> Suffix
    ensures value { result ≡ float_suffix rules (letters inner.old.rest) }
    ensures same { inner.new ≡ inner.old }
{
    if has_letters(rules, ('l', 'f'), ('L', 'F'), inner) {
        return Suffix {
            taken: 2,
            width: 64,
        };
    }
    if has_letters(rules, ('h', 'f'), ('H', 'F'), inner) {
        return Suffix {
            taken: 2,
            width: 16,
        };
    }
    usual_suffix('f', 'F', inner)
}

// The suffix of an integer by these rules.
fn integer_suffix(rules: Rules, inner: &mut LexerCharIterator<'_>) -> Suffix
    ensures value { result ≡ integer_suffix rules (letters inner.old.rest) }
    ensures same { inner.new ≡ inner.old }
{
    if has_letter(rules, 'l', 'L', inner) {
        return Suffix {
            taken: 1,
            width: 64,
        };
    }
    if has_letters(rules, ('u', 'l'), ('U', 'L'), inner) {
        return Suffix {
            taken: 2,
            width: 64,
        };
    }
    if has_letter(rules, 's', 'S', inner) {
        return Suffix {
            taken: 1,
            width: 16,
        };
    }
    if has_letters(rules, ('u', 's'), ('U', 'S'), inner) {
        return Suffix {
            taken: 2,
            width: 16,
        };
    }
    usual_suffix('u', 'U', inner)
}

// Takes so many characters.
fn skip(count: u32, inner: &mut LexerCharIterator<'_>)
    ensures { inner.new ≡ advanced count inner.old }
{
    for i in 0..count {
        inner.next_char();
    }
}

// The error of a suffix letter for a width that the rules don't take: `l` for 64 bits, and these two for 16.
fn find_width_refusal(
    rules: Rules,
    first: char,
    second: char,
    inner: &mut LexerCharIterator<'_>,
) -> Option<PreprocessorError>
    ensures value { result ≡ width_refusal rules
        (λ c. (c == first) || (c == second)) (letters inner.old.rest) }
    ensures same { inner.new ≡ inner.old }
{
    if rules.takes_widths {
        return None;
    }
    if is_either_next(inner, 'l', 'L') {
        return Some(PreprocessorError::NotSupported64BitLiteral);
    }
    if is_either_next(inner, first, second) {
        return Some(PreprocessorError::NotSupported16BitLiteral);
    }
    None
}

fn finish_float(
    alloc: Global,
    rules: Rules,
    word: &Spelling<'_>,
    inner: &mut LexerCharIterator<'_>,
) -> Result<Result<TokenValue, PreprocessorError>, AllocError>
    ensures value { IsGiven result
        (float_outcome rules word.now (letters inner.old.rest)).value }
    ensures state { inner.new
        ≡ advanced (float_suffix rules (letters inner.old.rest)).taken inner.old }
{
    let refusal = find_width_refusal(rules, 'h', 'H', inner);
    let suffix = float_suffix(rules, inner);
    skip(suffix.taken, inner);
    if let Some(fault) = refusal {
        return Ok(Err(fault));
    }
    read_float(alloc, suffix.width, word)
}

fn finish_integer(
    rules: Rules,
    word: &Spelling<'_>,
    inner: &mut LexerCharIterator<'_>,
) -> Result<TokenValue, PreprocessorError>
    ensures value { result ≡ (integer_outcome rules word.now (letters inner.old.rest)).value }
    ensures state { inner.new
        ≡ advanced (integer_suffix rules (letters inner.old.rest)).taken inner.old }
{
    let unsigned = is_either_next(inner, 'u', 'U');
    let suffix = integer_suffix(rules, inner);
    skip(suffix.taken, inner);
    if let Some(fault) = find_width_refusal(rules, 's', 'S', inner) {
        return Err(fault);
    }
    read_integer(!unsigned, suffix.width, word)
}

/// Takes the longest number here and its suffix. The outer error is that a float's text could not be allocated, and
/// comes only in place of that float. The inner errors take as much of the text as the number:
///
/// - by pp-rs's rules [`PreprocessorError::NotSupported64BitLiteral`] if an `l` follows the number, and
///   [`PreprocessorError::NotSupported16BitLiteral`] if an `s` follows an integer or an `h` a float; these two come
///   before the next two;
/// - [`PreprocessorError::IntegerOverflow`] if an integer has no digit or one outside of its base, or is above
///   `u64::MAX`;
/// - [`PreprocessorError::FloatParsingError`] if a float's text has no digit where it needs one.
pub fn parse_number(
    alloc: Global,
    rules: Rules,
    inner: &mut LexerCharIterator<'_>,
) -> Result<Result<TokenValue, PreprocessorError>, AllocError>
    requires { IsTrue (begins_number (letters inner.old.rest)) }
    ensures value { IsGiven result (number_at rules (letters inner.old.rest)).value }
    ensures state { inner.new ≡ advanced (number_at rules (letters inner.old.rest)).taken
        inner.old }
{
    let start = inner.twin();
    let length = take_number(inner);
    let word = Spelling::new(&start, length);
    if is_float(&word) {
        return finish_float(alloc, rules, &word, inner);
    }
    Ok(finish_integer(rules, &word, inner))
}
