ghost use Rattle.std.specs.Prelude.{⊤, ◌≡◌, ◌+◌, ◌-◌, ◌^◌, ◌<◌, ◌≤◌, length, MatchOption};
ghost use Rattle.std.specs.Str.{chars};
ghost use Rattle.std.specs.Char.{len_utf8};
ghost use Rattle.std.specs.Iterator.{at_most};
ghost use Rattle.pp_lexer.specs.Cursor.{start_of, first, after};
ghost use Rattle.pp_lexer.specs.Lines.{lines};
ghost use Rattle.pp_lexer.specs.Continuations.{continued};
ghost use Rattle.pp_lexer.specs.Comments.{replaced};
ghost use Rattle.pp_lexer.specs.inner.Fronts.{left};
ghost use Rattle.pp_lexer.specs.inner.Readers.{joined, uncommented, past_line, past_block};

use crate::lexer::chars_and_line::{Left, is_char};
use crate::lexer::plain::{line_length, starless_length};
use crate::lexer::skip_backslash_newline::SkipBackslashNewline;
use std::alloc::AllocError;
use std::marker::Model;

/// The mark that replaces a comment. No other character of [`ReplaceComments`] is a carriage return, since each newline
/// is a line feed.
pub const COMMENT_SENTINEL_VALUE: char = '\r';

/// The characters of a source with their lines, with one mark for each comment: phases 4 to 7 of the logical phases of
/// compilation, GLSL ES 3.20 section 3.10.
///
/// An iterator of `(char, u32)`, a character and its line in the source, over the characters of
/// [`SkipBackslashNewline`]. A `//` comment ends before the next newline or at the end of the input. A `/*` comment
/// ends after the next `*/` that follows its `/*`, or at the end of the input. Comments don't nest, and `/*/` is not
/// closed. Each comment is one [`COMMENT_SENTINEL_VALUE`] with the line of its first `/`. It allocates nothing, and
/// after its `None` stays at its end.
#[derive(Drop)]
pub struct ReplaceComments<'a> {
    inner: SkipBackslashNewline<'a>,
}

impl<'a> Model for ReplaceComments<'a> {
    ghost use Rattle.pp_lexer.specs.Cursor.{Cursor};
    ghost use Rattle.pp_lexer.specs.inner.Readers.{uncommented};

    ghost Value = { Cursor };

    ghost view = { λ s. uncommented s.inner };
}

// Passes the front of a line comment's rest, up to a newline or a backslash.
fn skip_to_line_end(inner: &mut SkipBackslashNewline<'_>)
    ensures state { past_line inner.new ≡ past_line inner.old }
    ensures forward { inner.old.offset ≤ inner.new.offset }
{
    let left = inner.left();
    let bytes = left.text.as_bytes();
    let count = line_length(bytes);
    if count == 0 {
        return;
    }
    *inner = SkipBackslashNewline::at(Left {
        text: &left.text[count..],
        line: left.line,
        at: left.at + count,
    });
}

// Passes the rest of a line comment.
fn skip_line(inner: &mut SkipBackslashNewline<'_>)
    ensures state { inner.new ≡ past_line inner.old }
    ensures forward { inner.old.offset ≤ inner.new.offset }
{
    skip_to_line_end(inner);
    'line: loop {
        let mut peek = inner.duplicate();
        let Some((next, _)) = peek.next_item() else {
            return;
        };
        if next == '\n' {
            return;
        }
        *inner = peek;
    }
}

// Passes the front of a block comment's rest, up to a star, a newline or a backslash.
fn skip_starless(inner: &mut SkipBackslashNewline<'_>)
    ensures state { past_block inner.new ≡ past_block inner.old }
    ensures forward { inner.old.offset ≤ inner.new.offset }
    ensures shorter { length inner.new.rest ≤ length inner.old.rest }
{
    let left = inner.left();
    let bytes = left.text.as_bytes();
    let count = starless_length(bytes);
    if count == 0 {
        return;
    }
    *inner = SkipBackslashNewline::at(Left {
        text: &left.text[count..],
        line: left.line,
        at: left.at + count,
    });
}

// Passes the rest of a block comment.
fn skip_block(inner: &mut SkipBackslashNewline<'_>)
    ensures state { inner.new ≡ past_block inner.old }
    ensures forward { inner.old.offset ≤ inner.new.offset }
{
    let mut was_star = false;
    'block: loop {
        if !was_star {
            skip_starless(inner);
        }
        let Some((next, _)) = inner.next_item() else {
            return;
        };
        if was_star && next == '/' {
            return;
        }
        was_star = next == '*';
    }
}

// The next character, or the mark of the comment that begins at it.
fn next_uncommented(inner: &mut SkipBackslashNewline<'_>) -> Option<(char, u32)>
    ensures value { result ≡ first (uncommented inner.old) }
    ensures state { uncommented inner.new ≡ after (uncommented inner.old) }
    ensures room { MatchOption result (inner.old.offset ≤ inner.new.offset)
        (λ p. inner.old.offset + len_utf8 p.0 ≤ inner.new.offset) }
{
    let (current, line) = inner.next_item()?;
    if current != '/' {
        return Some((current, line));
    }
    let mut peek = inner.duplicate();
    let next = peek.next_item();
    if is_char(next, '/') {
        skip_line(&mut peek);
        *inner = peek;
        return Some((COMMENT_SENTINEL_VALUE, line));
    }
    if is_char(next, '*') {
        skip_block(&mut peek);
        *inner = peek;
        return Some((COMMENT_SENTINEL_VALUE, line));
    }
    Some((current, line))
}

impl<'a> ReplaceComments<'a> {
    /// Returns a reader at the start of `input`, which has fewer than 2^32 - 1 bytes.
    pub fn new(input: &'a str) -> Self
        requires { length input.now < 2 ^ 32 - 1 }
        ensures { result ≡ start_of (replaced (length input.now)
            (continued (lines (chars input.now)))) (length input.now) }
    {
        ReplaceComments {
            inner: SkipBackslashNewline::new(input),
        }
    }

    /// Returns the byte offset at which the last character's stretch of the source ended: 0 before the first character,
    /// and the length of the source after `None`. A mark's stretch ends after its comment's last character; for a `/*`
    /// comment that isn't closed this is the end of the source.
    pub fn get_current_offset(&self) -> usize
        ensures value { result ≡ self.now.offset }
        ensures bound { result < 2 ^ 32 - 1 }
    {
        self.inner.get_current_offset()
    }

    // A second reader at the same position.
    pub(crate) fn duplicate(&self) -> Self
        ensures { result ≡ self.now }
    {
        ReplaceComments {
            inner: self.inner.duplicate(),
        }
    }

    // What is left to read.
    pub(crate) fn left(&self) -> Left<'a>
        ensures value { self.now ≡ uncommented (joined (left result.line result.at
            result.text.now)) }
        ensures room { result.at + length result.text.now < 2 ^ 32 - 1 }
        ensures lines { result.line ≤ result.at + 1 }
    {
        self.inner.left()
    }

    // A reader of what is left.
    pub(crate) fn at(rest: Left<'a>) -> Self
        requires room { rest.at + length rest.text.now < 2 ^ 32 - 1 }
        requires lines { rest.line ≤ rest.at + 1 }
        ensures { result
            ≡ uncommented (joined (left rest.entry.line rest.entry.at rest.entry.text.now)) }
    {
        Self {
            inner: SkipBackslashNewline::at(rest),
        }
    }

    // `next`, with the extra clause that the stretch has room for the character.
    pub(crate) fn next_item(&mut self) -> Option<(char, u32)>
        ensures value { result ≡ first self.old }
        ensures state { self.new ≡ after self.old }
        ensures room { MatchOption result (self.old.offset ≤ self.new.offset)
            (λ p. self.old.offset + len_utf8 p.0 ≤ self.new.offset) }
    {
        next_uncommented(&mut self.inner)
    }
}

impl<'a> Iterator for ReplaceComments<'a> {
    type Item = (char, u32);

    ghost next_gives = { λ s r t. (r ≡ first s) × (t ≡ after s) };

    ghost remaining = { λ s. at_most (length s.rest) };

    fn next(&mut self) -> Option<(char, u32)> {
        self.next_item()
    }
}

impl<'a> Clone for ReplaceComments<'a> {
    ghost is_clone = { λ s r. r ≡ s };

    ghost is_infallible = { λ _. ⊤ };

    fn clone(&self) -> Result<ReplaceComments<'a>, AllocError> {
        Ok(self.duplicate())
    }
}
