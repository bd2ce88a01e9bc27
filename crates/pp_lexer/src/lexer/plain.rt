//! Words, spaces, comments and newlines of ASCII text, read byte by byte.

ghost use Rattle.std.specs.Prelude.{⊤, ◌≡◌, ◌<◌, ◌≤◌, true, false, length, take, get_or, slice_index, IsTrue};
ghost use Rattle.std.specs.Prelude.{MatchOption};
ghost use Rattle.std.specs.List.{list_all};
ghost use Rattle.std.specs.Str.{IsUtf8};
ghost use Rattle.pp_lexer.specs.inner.PlainWords.{is_space, begins, continues, begins_comment, Stops, IsFirstWord};
ghost use Rattle.pp_lexer.specs.inner.PlainWords.{IsPlainNewline};

use crate::token::Punct;
use number::plain_number;
use punctuation::plain_punctuation;

mod comment;
mod lanes;
mod number;
mod punctuation;
mod words;

pub use comment::{line_length, plain_comment, starless_length};
pub use words::plain_words;

/// What a word of ASCII text is.
#[derive(Clone, Copy)]
pub enum Form {
    /// An identifier.
    Identifier,
    /// A signed integer of this value.
    Integer(u64),
    /// An unsigned integer of this value, whose last byte is its suffix.
    Unsigned(u64),
    /// A float.
    Float,
    /// A float whose last byte is its suffix.
    SuffixedFloat,
    /// A punctuator.
    Punct(Punct),
    /// A `#`.
    Hash,
}

/// A word at the front of a text, and how many bytes it takes.
#[derive(Clone, Copy)]
pub struct Word {
    pub form: Form,
    pub taken: usize,
}

// Each byte with which an identifier may continue is at its own place, and a comma at every other place.
static CONTINUING: [u8; 256] = *b"\
    ,,,,,,,,,,,,,,,,,,,,,,,,,,,,,,,,\
    ,,,,,,,,,,,,,,,,0123456789,,,,,,\
    ,ABCDEFGHIJKLMNOPQRSTUVWXYZ,,,,_\
    ,abcdefghijklmnopqrstuvwxyz,,,,,\
    ,,,,,,,,,,,,,,,,,,,,,,,,,,,,,,,,\
    ,,,,,,,,,,,,,,,,,,,,,,,,,,,,,,,,\
    ,,,,,,,,,,,,,,,,,,,,,,,,,,,,,,,,\
    ,,,,,,,,,,,,,,,,,,,,,,,,,,,,,,,,";

// Whether the byte is a space, a tab, a vertical tab or a form feed.
#[inline(always)]
fn is_space(byte: u8) -> bool
    ensures { result ≡ is_space byte }
{
    byte == 32 || byte == 9 || byte == 11 || byte == 12
}

// Whether an identifier may begin with the byte.
#[inline(always)]
fn begins(byte: u8) -> bool
    ensures { result ≡ begins byte }
{
    continues(byte) && !byte.is_ascii_digit()
}

// Whether an identifier may continue with the byte.
#[inline(always)]
fn continues(byte: u8) -> bool
    ensures { result ≡ continues byte }
{
    CONTINUING[byte as usize] != b','
}

/// How many spaces there are at the front.
#[inline(always)]
pub fn spaces_length(bytes: &[u8]) -> usize
    ensures within { result ≤ length bytes.now }
    ensures passes { list_all is_space (take result bytes.now) ≡ true }
{
    for (i, byte) in bytes.iter().enumerate() {
        if !is_space(*byte) {
            return i;
        }
    }
    bytes.len()
}

/// Whether a comment begins at the front, as far as these bytes say.
#[inline(always)]
pub fn begins_comment(bytes: &[u8]) -> bool
    ensures { result ≡ begins_comment (get_or bytes.now 0 0) (get_or bytes.now 1 0) }
{
    bytes.len() > 1 && bytes[0] == 47 && (bytes[1] == 47 || bytes[1] == 42)
}

/// How many bytes the newline at the front takes, if these bytes alone say that there is one.
#[inline(always)]
pub fn newline_length(bytes: &[u8]) -> Option<usize>
    requires { IsUtf8 bytes.now }
    ensures { MatchOption result ⊤ (IsPlainNewline bytes.now) }
{
    if bytes.len() == 0 {
        return None;
    }
    if bytes.len() == 1 {
        return if bytes[0] == 10 { Some(1) } else { None };
    }
    if bytes[0] == 13 && bytes[1] == 10 {
        return Some(2);
    }
    if bytes[0] == 10 && bytes[1] < 128 && bytes[1] != 13 {
        return Some(1);
    }
    None
}

// How many bytes at the front continue an identifier.
#[inline(always)]
fn continued_length(bytes: &[u8]) -> usize
    ensures within { result ≤ length bytes.now }
    ensures passes { list_all continues (take result bytes.now) ≡ true }
    ensures stops { result < length bytes.now → continues (slice_index bytes.now result) ≡ false }
{
    for (i, byte) in bytes.iter().enumerate() {
        if !continues(*byte) {
            return i;
        }
    }
    bytes.len()
}

// Whether the text ends at `at`, or goes on with an ASCII byte other than a backslash.
#[inline(always)]
fn ends_plainly(bytes: &[u8], at: usize) -> bool
    ensures { IsTrue result → Stops (λ _. false) bytes.now at }
{
    if at >= bytes.len() {
        return true;
    }
    bytes[at] < 128 && bytes[at] != 92
}

// The identifier at the front, if the byte after it shows that it ends there.
#[inline(always)]
fn plain_identifier(bytes: &[u8]) -> Option<Word>
    requires utf8 { IsUtf8 bytes.now }
    requires some { 0 < length bytes.now }
    requires begins { begins (slice_index bytes.now 0) ≡ true }
    ensures { MatchOption result ⊤ (IsFirstWord bytes.now) }
{
    let taken = continued_length(bytes);
    if !ends_plainly(bytes, taken) {
        return None;
    }
    Some(Word {
        form: Form::Identifier,
        taken,
    })
}

/// The word at the front, if its bytes and the next ones alone show what it is.
#[inline(always)]
pub fn plain_word(text: &str) -> Option<Word>
    ensures { MatchOption result ⊤ (IsFirstWord text.now) }
{
    let bytes = text.as_bytes();
    if bytes.len() == 0 {
        return None;
    }
    let first = bytes[0];
    if begins(first) {
        return plain_identifier(bytes);
    }
    // no letter, so a digit
    if continues(first) || first == 46 {
        if let Some(number) = plain_number(bytes) {
            return Some(number);
        }
    }
    plain_punctuation(bytes)
}
