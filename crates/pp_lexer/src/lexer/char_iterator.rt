//! The characters after the phases, with their places and with a look at the next one.

ghost use Rattle.std.specs.Prelude.{⊤, ◌≡◌, ◌+◌, ◌-◌, ◌^◌, ◌<◌, ◌≤◌, length, None, option_map, MatchOption};
ghost use Rattle.std.specs.Str.{IsUtf8};
ghost use Rattle.pp_lexer.specs.Reading.{IsAhead, first_char, first_of, spots_after_first, after_first, spots};
ghost use Rattle.pp_lexer.specs.Spots.{spots_of};
ghost use Rattle.pp_lexer.specs.inner.Fronts.{spots_from, is_plain, IsLeft};

use crate::lexer::chars_and_line::Left;
use crate::lexer::replace_comments::ReplaceComments;
use std::marker::Model;

/// The last character taken, before any character was taken.
pub const NONE_CONSUMED_SENTINEL_VALUE: char = '\r';

/// A character with its place, in byte offsets and a 1-based line of the source.
#[derive(Clone, Copy)]
pub struct Spot {
    /// The character; a comment's is [`COMMENT_SENTINEL_VALUE`](crate::lexer::COMMENT_SENTINEL_VALUE).
    pub c: char,
    /// Its line.
    pub line: u32,
    /// The byte offset at which its stretch of the source begins.
    pub begin: u32,
    /// That offset plus the character's UTF-8 length. A token that ends with this character ends here.
    pub end: u32,
}

// The next character, after a look at it, and the reader after it.
#[derive(Drop)]
struct Ahead<'a> {
    spot: Spot,
    after: ReplaceComments<'a>,
}

/// A reader of the characters after the phases, which can look at the next one before it takes it.
#[derive(Drop)]
pub struct LexerCharIterator<'a> {
    inner: ReplaceComments<'a>,
    ahead: Option<Ahead<'a>>,
    last: Spot,
}

impl<'a> Model for LexerCharIterator<'a> {
    ghost use Rattle.std.specs.Prelude.{⊤, ◌<◌, ◌^◌, length, MatchOption};
    ghost use Rattle.pp_lexer.specs.Reading.{Reading, IsAhead, spots};

    ghost Value = { Reading };

    ghost view = { λ s. record { rest = spots s.inner.offset s.inner.rest; last = s.last } };

    ghost invariant = { λ s. (length (spots s.inner.offset s.inner.rest) < 2 ^ 32)
        × MatchOption s.ahead ⊤ (λ a. IsAhead a.spot (spots a.after.offset a.after.rest)
        (spots s.inner.offset s.inner.rest)) };
}

// Forgets the next character. Most often none is kept, and then nothing is written.
#[inline(always)]
fn forget(ahead: &mut Option<Ahead<'_>>)
    ensures { ahead.new ≡ None }
{
    if ahead.is_some() {
        *ahead = None;
    }
}

// Whether the byte is an ASCII character other than a newline, a backslash and a slash.
#[inline(always)]
fn is_plain(byte: u8) -> bool
    ensures { result ≡ is_plain byte }
{
    byte < 128 && (byte != 10 && (byte != 13 && (byte != 92 && byte != 47)))
}

// Takes the next character, if it is one byte that `is_plain` accepts.
#[inline(always)]
fn take_plain(inner: &mut ReplaceComments<'_>) -> Option<Spot>
    ensures { MatchOption result (inner.new ≡ inner.old)
        (λ s. IsAhead s (spots inner.new.offset inner.new.rest)
        (spots inner.old.offset inner.old.rest)) }
{
    let left = inner.left();
    let bytes = left.text.as_bytes();
    if bytes.len() == 0 {
        return None;
    }
    let byte = bytes[0];
    if !is_plain(byte) {
        return None;
    }
    *inner = ReplaceComments::at(Left {
        text: &left.text[1..],
        line: left.line,
        at: left.at + 1,
    });
    Some(Spot {
        c: byte as char,
        line: left.line,
        begin: left.at as u32,
        end: (left.at + 1) as u32,
    })
}

// Takes the next character after the phases.
fn next_spot(inner: &mut ReplaceComments<'_>) -> Option<Spot>
    ensures value { result ≡ first_of (spots inner.old.offset inner.old.rest) }
    ensures state { spots inner.new.offset inner.new.rest
        ≡ spots_after_first (spots inner.old.offset inner.old.rest) }
{
    if let Some(spot) = take_plain(inner) {
        return Some(spot);
    }
    let begin = inner.get_current_offset();
    let (c, line) = inner.next_item()?;
    let after = inner.get_current_offset();
    prove!(begin + c.len_utf8() <= after);
    Some(Spot {
        c,
        line,
        begin: begin as u32,
        end: (begin + c.len_utf8()) as u32,
    })
}

impl<'a> LexerCharIterator<'a> {
    /// Returns a reader at the start of a source of fewer than 2^32 - 1 bytes.
    pub fn new(input: &'a str) -> Self
        requires { length input.now < 2 ^ 32 - 1 }
        ensures { result ≡ record {
          rest = spots_of input.now;
          last = record {
            c = 13;
            line = 0;
            begin = 0;
            end = 1;
          };
        } }
    {
        LexerCharIterator {
            inner: ReplaceComments::new(input),
            ahead: None,
            last: Spot {
                c: NONE_CONSUMED_SENTINEL_VALUE,
                line: 0,
                begin: 0,
                end: 1,
            },
        }
    }

    /// Takes the next character, if there is one.
    pub fn next_char(&mut self) -> Option<char>
        ensures value { result ≡ option_map (λ s. s.c) (first_char self.old) }
        ensures state { self.new ≡ after_first self.old }
    {
        if let Some(ahead) = &self.ahead {
            let taken = ahead.spot;
            self.inner = ahead.after.duplicate();
            self.ahead = None;
            self.last = taken;
            return Some(taken.c);
        }
        let spot = next_spot(&mut self.inner)?;
        self.last = spot;
        Some(spot.c)
    }

    /// Peeks at the next character with its place.
    pub fn peek_spot(&mut self) -> Option<Spot>
        ensures value { result ≡ first_char self.old }
        ensures same { self.new ≡ self.old }
    {
        if let Some(ahead) = &self.ahead {
            return Some(ahead.spot);
        }
        let mut after = self.inner.duplicate();
        let spot = next_spot(&mut after)?;
        self.ahead = Some(Ahead { spot, after });
        Some(spot)
    }

    /// Peeks at the next character.
    pub fn peek_char(&mut self) -> Option<char>
        ensures value { result ≡ option_map (λ s. s.c) (first_char self.old) }
        ensures same { self.new ≡ self.old }
    {
        let spot = self.peek_spot()?;
        Some(spot.c)
    }

    // A second reader at the same position.
    pub fn twin(&self) -> Self
        ensures same { result ≡ self.now }
        ensures few { length result.rest < 2 ^ 32 }
    {
        LexerCharIterator {
            inner: self.inner.duplicate(),
            ahead: None,
            last: self.last,
        }
    }

    // What is left to read.
    pub(crate) fn left(&self) -> Left<'a>
        ensures { IsLeft result.line result.at result.text.now self.now.rest }
    {
        self.inner.left()
    }

    // Moves to `rest`; `last` is the character just before it.
    pub(crate) fn go(&mut self, rest: Left<'a>, last: Spot)
        requires room { rest.at + length rest.text.now < 2 ^ 32 - 1 }
        requires lines { rest.line ≤ rest.at + 1 }
        requires utf8 { IsUtf8 rest.text.now }
        ensures { self.new ≡ record {
          rest = spots_from rest.entry.line rest.entry.at
              rest.entry.text.now;
          last = last;
        } }
    {
        self.inner = ReplaceComments::at(rest);
        forget(&mut self.ahead);
        self.last = last;
    }

    /// The character that was taken last.
    pub fn last_consumed(&self) -> Spot
        ensures { result ≡ self.now.last }
    {
        self.last
    }
}
