ghost use Rattle.std.specs.Prelude.{⊤, ◌≡◌, ◌+◌, ◌-◌, ◌^◌, ◌<◌, ◌≤◌, length, MatchOption};
ghost use Rattle.std.specs.Str.{chars};
ghost use Rattle.std.specs.Char.{len_utf8};
ghost use Rattle.std.specs.Iterator.{at_most};
ghost use Rattle.pp_lexer.specs.Cursor.{start_of, first, after, is_item};
ghost use Rattle.pp_lexer.specs.Lines.{lines};
ghost use Rattle.pp_lexer.specs.inner.Readers.{IsFirstPiece, IsAtEnd, IsSkipped};
ghost use Rattle.pp_lexer.specs.inner.Fronts.{left};

use std::alloc::AllocError;
use std::marker::Model;

/// The characters of a source with their lines: phases 4 and 5 of the logical phases of compilation, GLSL ES 3.20
/// section 3.10.
///
/// An iterator of `(char, u32)`, a character and its line. From the left, each CR LF and each LF CR is one newline,
/// returned as `'\n'`, and so is each other CR or LF. Lines count from 1: a line is one more than the newlines before
/// it. It allocates nothing, and after its `None` stays at its end.
#[derive(Drop)]
pub struct CharsAndLine<'a> {
    text: &'a str,
    line: u32,
    total: usize,
}

impl<'a> Model for CharsAndLine<'a> {
    ghost use Rattle.std.specs.Prelude.{◌+◌, ◌-◌, ◌^◌, ◌<◌, ◌≤◌, length};
    ghost use Rattle.std.specs.Str.{chars};
    ghost use Rattle.pp_lexer.specs.Cursor.{Cursor};
    ghost use Rattle.pp_lexer.specs.Lines.{pieces};
    ghost use Rattle.pp_lexer.specs.inner.Readers.{placed_from};

    ghost Value = { Cursor };

    ghost view = { λ s. record {
      rest = placed_from s.line (s.total - length s.text.now) (pieces (chars s.text.now));
      offset = s.total - length s.text.now;
      total = s.total;
    } };

    ghost invariant = { λ s. (length s.text.now ≤ s.total)
        × (s.total < 2 ^ 32 - 1) × (s.line + length s.text.now ≤ s.total + 1) };
}

/// What is left of a source, with the line and the offset of its first byte.
#[derive(Clone, Copy)]
pub(crate) struct Left<'a> {
    pub(crate) text: &'a str,
    pub(crate) line: u32,
    pub(crate) at: usize,
}

// Whether the item is this character.
pub(crate) fn is_char(item: Option<(char, u32)>, c: char) -> bool
    ensures { result ≡ is_item item c }
{
    match item {
        Some((first, _)) => first == c,
        None => false,
    }
}

// The text without this character at its front, or the whole text if it begins with another.
fn skip_char(text: &str, c: char) -> &str
    ensures { IsSkipped text.now c result.now }
{
    let mut rest = text.chars();
    match rest.next() {
        Some(first) if first == c => rest.as_str(),
        _ => text,
    }
}

// The first character of a text, with a newline pair as one newline, and the text after it.
fn split_piece(text: &str) -> Option<(char, &str)>
    ensures { MatchOption result (IsAtEnd text.now) (λ p. IsFirstPiece text.now p.0 p.1.now) }
{
    let mut rest = text.chars();
    let current = rest.next()?;
    match current {
        '\n' => Some(('\n', skip_char(rest.as_str(), '\r'))),
        '\r' => Some(('\n', skip_char(rest.as_str(), '\n'))),
        _ => Some((current, rest.as_str())),
    }
}

impl<'a> CharsAndLine<'a> {
    /// Returns a reader at the start of `input`, which has fewer than 2^32 - 1 bytes.
    pub fn new(input: &'a str) -> Self
        requires { length input.now < 2 ^ 32 - 1 }
        ensures { result ≡ start_of (lines (chars input.now)) (length input.now) }
    {
        CharsAndLine {
            text: input,
            line: 1,
            total: input.len(),
        }
    }

    /// Returns the byte offset at which the last character's stretch of the source ended: 0 before the first character,
    /// and the length of the source after `None`. A newline pair is one stretch.
    pub fn get_current_offset(&self) -> usize
        ensures value { result ≡ self.now.offset }
        ensures bound { result < 2 ^ 32 - 1 }
    {
        self.total - self.text.len()
    }

    // A second reader at the same position.
    pub(crate) fn duplicate(&self) -> Self
        ensures { result ≡ self.now }
    {
        CharsAndLine {
            text: self.text,
            line: self.line,
            total: self.total,
        }
    }

    // What is left to read.
    pub(crate) fn left(&self) -> Left<'a>
        ensures value { self.now ≡ left result.line result.at result.text.now }
        ensures room { result.at + length result.text.now < 2 ^ 32 - 1 }
        ensures lines { result.line ≤ result.at + 1 }
    {
        let at = self.get_current_offset();
        let line = self.line;
        Left {
            text: self.text,
            line,
            at,
        }
    }

    // A reader of what is left.
    pub(crate) fn at(rest: Left<'a>) -> Self
        requires room { rest.at + length rest.text.now < 2 ^ 32 - 1 }
        requires lines { rest.line ≤ rest.at + 1 }
        ensures { result ≡ left rest.entry.line rest.entry.at rest.entry.text.now }
    {
        CharsAndLine {
            text: rest.text,
            line: rest.line,
            total: rest.at + rest.text.len(),
        }
    }

    // `next`, with the extra clause that the stretch has room for the character.
    pub(crate) fn next_item(&mut self) -> Option<(char, u32)>
        ensures value { result ≡ first self.old }
        ensures state { self.new ≡ after self.old }
        ensures room { MatchOption result (self.old.offset ≤ self.new.offset)
            (λ p. self.old.offset + len_utf8 p.0 ≤ self.new.offset) }
    {
        let (current, rest) = split_piece(self.text)?;
        let line = self.line;
        self.text = rest;
        if current == '\n' {
            self.line += 1;
        }
        Some((current, line))
    }
}

impl<'a> Iterator for CharsAndLine<'a> {
    type Item = (char, u32);

    ghost next_gives = { λ s r t. (r ≡ first s) × (t ≡ after s) };

    ghost remaining = { λ s. at_most (length s.rest) };

    fn next(&mut self) -> Option<(char, u32)> {
        self.next_item()
    }
}

impl<'a> Clone for CharsAndLine<'a> {
    ghost is_clone = { λ s r. r ≡ s };

    ghost is_infallible = { λ _. ⊤ };

    fn clone(&self) -> Result<CharsAndLine<'a>, AllocError> {
        Ok(self.duplicate())
    }
}
