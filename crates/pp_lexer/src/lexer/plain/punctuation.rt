//! Punctuators of ASCII text, and `#`.

ghost use Rattle.std.specs.Prelude.{⊤, ◌≡◌, ◌<◌, ◌∷◌, [], ◌&&◌, ◌||◌, length, slice_index, Some, MatchOption};
ghost use Rattle.std.specs.Str.{IsUtf8};
ghost use Rattle.pp_lexer.specs.inner.PlainWords.{is_lone, single, before_equals, doubled, begins_comment, IsFirstWord};
ghost use Rattle.pp_lexer.specs.Numbers.{is_decimal, is_point};
ghost use Rattle.pp_lexer.specs.Punctuators.{punct_of};

use crate::lexer::plain::{Form, Word, ends_plainly};
use crate::token::Punct;

// The punctuator of one character.
#[inline(always)]
fn single(first: u8) -> Option<Punct>
    ensures { result ≡ single first }
{
    match first {
        123 => Some(Punct::LeftBrace),
        125 => Some(Punct::RightBrace),
        40 => Some(Punct::LeftParen),
        41 => Some(Punct::RightParen),
        91 => Some(Punct::LeftBracket),
        93 => Some(Punct::RightBracket),
        60 => Some(Punct::LeftAngle),
        62 => Some(Punct::RightAngle),
        59 => Some(Punct::Semicolon),
        44 => Some(Punct::Comma),
        58 => Some(Punct::Colon),
        46 => Some(Punct::Dot),
        61 => Some(Punct::Equal),
        33 => Some(Punct::Bang),
        45 => Some(Punct::Minus),
        126 => Some(Punct::Tilde),
        43 => Some(Punct::Plus),
        42 => Some(Punct::Star),
        47 => Some(Punct::Slash),
        37 => Some(Punct::Percent),
        124 => Some(Punct::Pipe),
        94 => Some(Punct::Caret),
        38 => Some(Punct::Ampersand),
        63 => Some(Punct::Question),
        _ => None,
    }
}

/// Whether the character is a punctuator and begins no other.
#[inline(always)]
pub fn is_lone(first: u8) -> bool
    ensures { result ≡ is_lone first }
{
    match first {
        40 | 41 | 44 | 58 | 59 | 63 | 91 | 93 | 123 | 125 | 126 => true,
        _ => false,
    }
}

// The punctuator of this character and an equals sign.
#[inline(always)]
fn before_equals(first: u8) -> Option<Punct>
    ensures { result ≡ before_equals first }
{
    match first {
        43 => Some(Punct::AddAssign),
        45 => Some(Punct::SubAssign),
        42 => Some(Punct::MulAssign),
        47 => Some(Punct::DivAssign),
        37 => Some(Punct::ModAssign),
        38 => Some(Punct::AndAssign),
        94 => Some(Punct::XorAssign),
        124 => Some(Punct::OrAssign),
        60 => Some(Punct::LessEqual),
        62 => Some(Punct::GreaterEqual),
        61 => Some(Punct::EqualEqual),
        33 => Some(Punct::NotEqual),
        _ => None,
    }
}

// The punctuator of this character twice, for a character other than `=`.
#[inline(always)]
fn doubled(first: u8) -> Option<Punct>
    ensures { result ≡ doubled first }
{
    match first {
        43 => Some(Punct::Increment),
        45 => Some(Punct::Decrement),
        38 => Some(Punct::LogicalAnd),
        124 => Some(Punct::LogicalOr),
        94 => Some(Punct::LogicalXor),
        60 => Some(Punct::LeftShift),
        62 => Some(Punct::RightShift),
        _ => None,
    }
}

// The punctuator of two characters.
#[inline(always)]
fn pair(first: u8, second: u8) -> Option<Punct>
    ensures { result ≡ punct_of (first ∷ second ∷ []) }
{
    if second == 61 {
        return before_equals(first);
    }
    if second == first {
        return doubled(first);
    }
    None
}

// The punctuator of three characters.
#[inline(always)]
fn triple(first: u8, second: u8, third: u8) -> Option<Punct>
    ensures { result ≡ punct_of (first ∷ second ∷ third ∷ []) }
{
    if third != 61 {
        return None;
    }
    if first != second {
        return None;
    }
    match first {
        60 => Some(Punct::LeftShiftAssign),
        62 => Some(Punct::RightShiftAssign),
        _ => None,
    }
}

// The longest punctuator at the front, whose first two characters make the punctuator `two`.
fn long_punctuator(bytes: &[u8], two: Punct) -> Option<Word>
    requires utf8 { IsUtf8 bytes.now }
    requires some { 1 < length bytes.now }
    requires pair { punct_of (slice_index bytes.now 0 ∷ slice_index bytes.now 1 ∷ []) ≡ Some two }
    ensures { MatchOption result ⊤ (IsFirstWord bytes.now) }
{
    if !ends_plainly(bytes, 2) {
        return None;
    }
    if bytes.len() == 2 {
        return Some(Word {
            form: Form::Punct(two),
            taken: 2,
        });
    }
    match triple(bytes[0], bytes[1], bytes[2]) {
        Some(three) => Some(Word {
            form: Form::Punct(three),
            taken: 3,
        }),
        None => Some(Word {
            form: Form::Punct(two),
            taken: 2,
        }),
    }
}

// Whether the first character begins a comment or a number, as the next one shows.
#[inline(always)]
fn begins_other(first: u8, second: u8) -> bool
    ensures { result ≡ ((is_point first && is_decimal second) || begins_comment first second) }
{
    if first == 46 {
        return second >= 48 && second < 58;
    }
    first == 47 && (second == 47 || second == 42)
}

/// The punctuator or the `#` at the front, if the next bytes show that it ends there.
#[inline(always)]
pub fn plain_punctuation(bytes: &[u8]) -> Option<Word>
    requires utf8 { IsUtf8 bytes.now }
    requires some { 0 < length bytes.now }
    ensures { MatchOption result ⊤ (IsFirstWord bytes.now) }
{
    let first = bytes[0];
    if first == 35 {
        return Some(Word {
            form: Form::Hash,
            taken: 1,
        });
    }
    let one = single(first)?;
    if is_lone(first) {
        return Some(Word {
            form: Form::Punct(one),
            taken: 1,
        });
    }
    if !ends_plainly(bytes, 1) {
        return None;
    }
    if bytes.len() == 1 {
        return Some(Word {
            form: Form::Punct(one),
            taken: 1,
        });
    }
    if begins_other(first, bytes[1]) {
        return None;
    }
    match pair(first, bytes[1]) {
        Some(two) => long_punctuator(bytes, two),
        None => Some(Word {
            form: Form::Punct(one),
            taken: 1,
        }),
    }
}
