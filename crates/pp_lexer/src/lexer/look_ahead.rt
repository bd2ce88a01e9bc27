//! Looks at the next characters without taking them.

ghost use Rattle.std.specs.Prelude.{◌≡◌, ◌==◌, ◌||◌, [], ◌∷◌};
ghost use Rattle.pp_lexer.specs.Identifiers.{begins_identifier};
ghost use Rattle.pp_lexer.specs.Numbers.{is_decimal, begins_number};
ghost use Rattle.pp_lexer.specs.NumberValue.{begins_as};
ghost use Rattle.pp_lexer.specs.Reading.{letters};
ghost use Rattle.pp_lexer.specs.Surroundings.{begins_with};

use crate::lexer::char_iterator::LexerCharIterator;
use unicode_ident::is_xid_start;

// Whether this character is next.
pub fn is_next(inner: &mut LexerCharIterator<'_>, wanted: char) -> bool
    ensures test { result ≡ begins_with (λ c. c == wanted) (letters inner.old.rest) }
    ensures same { inner.new ≡ inner.old }
{
    match inner.peek_char() {
        Some(c) => c == wanted,
        None => false,
    }
}

// Whether one of the two is next.
pub fn is_either_next(inner: &mut LexerCharIterator<'_>, first: char, second: char) -> bool
    ensures test { result ≡ begins_with (λ c. (c == first) || (c == second))
        (letters inner.old.rest) }
    ensures same { inner.new ≡ inner.old }
{
    match inner.peek_char() {
        Some(c) => c == first || c == second,
        None => false,
    }
}

// Whether these two are next.
pub fn is_pair_next(inner: &mut LexerCharIterator<'_>, first: char, second: char) -> bool
    ensures test { result ≡ begins_as (first ∷ second ∷ []) (letters inner.old.rest) }
    ensures same { inner.new ≡ inner.old }
{
    if !is_next(inner, first) {
        return false;
    }
    let mut after = inner.twin();
    after.next_char();
    is_next(&mut after, second)
}

// Whether a digit is next.
pub fn is_digit_next(inner: &mut LexerCharIterator<'_>) -> bool
    ensures test { result ≡ begins_with is_decimal (letters inner.old.rest) }
    ensures same { inner.new ≡ inner.old }
{
    match inner.peek_char() {
        Some(c) => c.is_digit(10),
        None => false,
    }
}

/// Whether an identifier begins here: a letter or an underscore.
pub fn begins_identifier(inner: &mut LexerCharIterator<'_>) -> bool
    ensures test { result ≡ begins_identifier (letters inner.old.rest) }
    ensures same { inner.new ≡ inner.old }
{
    match inner.peek_char() {
        Some(c) => is_xid_start(c) || c == '_',
        None => false,
    }
}

/// Whether a number begins here: a digit, or a point and then a digit.
pub fn begins_number(inner: &mut LexerCharIterator<'_>) -> bool
    ensures test { result ≡ begins_number (letters inner.old.rest) }
    ensures same { inner.new ≡ inner.old }
{
    if is_digit_next(inner) {
        return true;
    }
    if !is_next(inner, '.') {
        return false;
    }
    let mut after = inner.twin();
    after.next_char();
    is_digit_next(&mut after)
}
