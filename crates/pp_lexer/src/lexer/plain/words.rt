//! Words and newlines of a plain text that are no errors, whatever they are.

ghost use Rattle.std.specs.Prelude.{⊤, ◌≡◌, ◌<◌, ◌≤◌, true, length, IsTrue, IfSome, MatchOption};
ghost use Rattle.pp_lexer.specs.inner.PlainWords.{is_lone};
ghost use Rattle.pp_lexer.specs.inner.Tame.{feeds, is_hash_form, ArePlainWords, BeginsLast, BeginsNumber};
ghost use Rattle.pp_lexer.specs.inner.Tame.{IsInnerDigit, IsTameFront};

use crate::lexer::plain::lanes::{MOST_AT_ONCE, free_length};
use crate::lexer::plain::number::{is_digit, plain_number};
use crate::lexer::plain::punctuation::is_lone;
use crate::lexer::plain::{Form, begins, continues, plain_identifier};

/// Words and newlines at the front of a text: how many bytes come before the last word, how many newlines are among
/// these, and how many bytes the last word takes.
#[derive(Clone, Copy)]
pub struct Words {
    pub before: usize,
    pub newlines: usize,
    pub taken: usize,
}

// So many bytes at the front of a text, and how many newlines are among them.
#[derive(Clone, Copy)]
struct Tame {
    length: usize,
    newlines: usize,
}

// So many bytes at the end of a front are searched for its last word.
const MOST_BACK: usize = 64;

// A shorter front costs no less if it is passed at once.
const WORTH: usize = 16;

// Whether a digit is at `at`, within an identifier.
#[inline(always)]
fn is_inner_digit(bytes: &[u8], at: usize) -> bool
    requires { at < length bytes.now }
    ensures { IsTrue result → IsInnerDigit bytes.now at }
{
    is_digit(bytes[at]) && at > 0 && continues(bytes[at - 1])
}

// The bytes at the front that may stand in such words, or about as many as are looked at at once.
#[inline(always)]
fn tame_front(bytes: &[u8]) -> Tame
    ensures tame { IsTameFront bytes.now result.length }
    ensures newlines { result.newlines ≡ feeds bytes.now result.length }
{
    let mut at: usize = 0;
    let mut newlines: usize = 0;
    'bytes: while at < MOST_AT_ONCE {
        at += free_length(&bytes[at..]);
        if at >= bytes.len() {
            break;
        }
        let byte = bytes[at];
        if byte == 10 {
            newlines += 1;
        } else if !is_inner_digit(bytes, at) {
            break;
        }
        at += 1;
    }
    Tame {
        length: at,
        newlines,
    }
}

// Whether a number begins at `at`, as the byte before it shows.
#[inline(always)]
fn begins_number(bytes: &[u8], at: usize) -> bool
    ensures { IsTrue result → BeginsNumber bytes.now at }
{
    if at >= bytes.len() || !is_digit(bytes[at]) {
        return false;
    }
    at == 0 || !(continues(bytes[at - 1]) || bytes[at - 1] == 46)
}

// Whether the word is a `#`. No number or identifier is one, but no clause says so of those that are found.
#[inline(always)]
fn is_hash(form: Form) -> bool
    ensures { result ≡ is_hash_form form }
{
    match form {
        Form::Hash => true,
        _ => false,
    }
}

// Whether a word begins at `at`, as its first byte and the one before show: a punctuator that begins no other, or an
// identifier.
#[inline(always)]
fn begins_last(bytes: &[u8], at: usize) -> bool
    requires { at < length bytes.now }
    ensures { IsTrue result → BeginsLast bytes.now at }
{
    let byte = bytes[at];
    is_lone(byte)
        || (begins(byte) && (at == 0 || !(continues(bytes[at - 1]) || bytes[at - 1] == 46)))
}

// What comes before the last such word of these bytes, if it begins among the last `MOST_BACK`. It looks no further
// back: a row of operators has no such word, and is searched for each of them.
#[inline(always)]
fn before_last(bytes: &[u8], front: Tame) -> Option<Tame>
    requires within { front.length ≤ length bytes.now }
    requires newlines { front.newlines ≡ feeds bytes.now front.length }
    ensures within { IfSome result (λ tame. tame.length < front.length) }
    ensures last { IfSome result (λ tame. BeginsLast bytes.now tame.length) }
    ensures newlines { IfSome result (λ tame. tame.newlines ≡ feeds bytes.now tame.length) }
{
    let mut at = front.length;
    let mut newlines = front.newlines;
    'bytes: while at > 0 && front.length - at < MOST_BACK {
        at -= 1;
        let byte = bytes[at];
        if begins_last(bytes, at) {
            return Some(Tame {
                length: at,
                newlines,
            });
        }
        if byte == 10 {
            newlines -= 1;
        }
    }
    None
}

/// Words and newlines at the front, if their bytes alone show that none of them is an error or a `#`. They are not more
/// than a few hundred bytes, but for the last word.
#[inline(always)]
pub fn plain_words(text: &str) -> Option<Words>
    ensures { MatchOption result ⊤ (ArePlainWords text.now) }
{
    let bytes = text.as_bytes();
    let front = tame_front(bytes);
    if begins_number(bytes, front.length) {
        if let Some(number) = plain_number(&bytes[front.length..]) {
            if !is_hash(number.form) {
                return Some(Words {
                    before: front.length,
                    newlines: front.newlines,
                    taken: number.taken,
                });
            }
        }
    }
    if front.length < WORTH {
        return None;
    }
    let last = before_last(bytes, front)?;
    if is_lone(bytes[last.length]) {
        return Some(Words {
            before: last.length,
            newlines: last.newlines,
            taken: 1,
        });
    }
    let name = plain_identifier(&bytes[last.length..])?;
    if is_hash(name.form) {
        return None;
    }
    Some(Words {
        before: last.length,
        newlines: last.newlines,
        taken: name.taken,
    })
}
