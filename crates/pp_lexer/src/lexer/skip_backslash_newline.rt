ghost use Rattle.std.specs.Prelude.{⊤, ◌≡◌, ◌+◌, ◌-◌, ◌^◌, ◌<◌, ◌≤◌, length, MatchOption};
ghost use Rattle.std.specs.Str.{chars};
ghost use Rattle.std.specs.Char.{len_utf8};
ghost use Rattle.std.specs.Iterator.{at_most};
ghost use Rattle.pp_lexer.specs.Cursor.{start_of, first, after};
ghost use Rattle.pp_lexer.specs.Lines.{lines};
ghost use Rattle.pp_lexer.specs.Continuations.{continued};
ghost use Rattle.pp_lexer.specs.inner.Fronts.{left};
ghost use Rattle.pp_lexer.specs.inner.Readers.{joined};

use crate::lexer::chars_and_line::{CharsAndLine, Left, is_char};
use std::alloc::AllocError;
use std::marker::Model;

/// The characters of a source with their lines, with continued lines joined: phases 4 to 6 of the logical phases of
/// compilation, GLSL ES 3.20 section 3.10.
///
/// An iterator of `(char, u32)`, a character and its line in the source. It leaves out each backslash directly before a
/// newline of [`CharsAndLine`], and that newline. If a backslash and a newline meet only because something between them
/// was left out, both stay. It allocates nothing, and after its `None` stays at its end.
#[derive(Drop)]
pub struct SkipBackslashNewline<'a> {
    inner: CharsAndLine<'a>,
}

impl<'a> Model for SkipBackslashNewline<'a> {
    ghost use Rattle.pp_lexer.specs.Cursor.{Cursor};
    ghost use Rattle.pp_lexer.specs.inner.Readers.{joined};

    ghost Value = { Cursor };

    ghost view = { λ s. joined s.inner };
}

// The next character outside of a continuation.
fn take_joined(inner: &mut CharsAndLine<'_>) -> Option<(char, u32)>
    ensures value { result ≡ first (joined inner.old) }
    ensures state { joined inner.new ≡ after (joined inner.old) }
    ensures room { MatchOption result (inner.old.offset ≤ inner.new.offset)
        (λ p. inner.old.offset + len_utf8 p.0 ≤ inner.new.offset) }
{
    'continuations: loop {
        let (current, line) = inner.next_item()?;
        if current != '\\' {
            return Some((current, line));
        }
        let mut peek = inner.duplicate();
        let next = peek.next_item();
        if !is_char(next, '\n') {
            return Some((current, line));
        }
        *inner = peek;
    }
}

impl<'a> SkipBackslashNewline<'a> {
    /// Returns a reader at the start of `input`, which has fewer than 2^32 - 1 bytes.
    pub fn new(input: &'a str) -> Self
        requires { length input.now < 2 ^ 32 - 1 }
        ensures { result ≡ start_of (continued (lines (chars input.now))) (length input.now) }
    {
        SkipBackslashNewline {
            inner: CharsAndLine::new(input),
        }
    }

    /// Returns the byte offset at which the last character's stretch of the source ended: 0 before the first character,
    /// and the length of the source after `None`. The continuations before a character belong to that character's
    /// stretch.
    pub fn get_current_offset(&self) -> usize
        ensures value { result ≡ self.now.offset }
        ensures bound { result < 2 ^ 32 - 1 }
    {
        self.inner.get_current_offset()
    }

    // A second reader at the same position.
    pub(crate) fn duplicate(&self) -> Self
        ensures { result ≡ self.now }
    {
        SkipBackslashNewline {
            inner: self.inner.duplicate(),
        }
    }

    // What is left to read.
    pub(crate) fn left(&self) -> Left<'a>
        ensures value { self.now ≡ joined (left result.line result.at result.text.now) }
        ensures room { result.at + length result.text.now < 2 ^ 32 - 1 }
        ensures lines { result.line ≤ result.at + 1 }
    {
        self.inner.left()
    }

    // A reader of what is left.
    pub(crate) fn at(rest: Left<'a>) -> Self
        requires room { rest.at + length rest.text.now < 2 ^ 32 - 1 }
        requires lines { rest.line ≤ rest.at + 1 }
        ensures { result ≡ joined (left rest.entry.line rest.entry.at rest.entry.text.now) }
    {
        Self {
            inner: CharsAndLine::at(rest),
        }
    }

    // `next`, with the extra clause that the stretch has room for the character.
    pub(crate) fn next_item(&mut self) -> Option<(char, u32)>
        ensures value { result ≡ first self.old }
        ensures state { self.new ≡ after self.old }
        ensures room { MatchOption result (self.old.offset ≤ self.new.offset)
            (λ p. self.old.offset + len_utf8 p.0 ≤ self.new.offset) }
    {
        take_joined(&mut self.inner)
    }
}

impl<'a> Iterator for SkipBackslashNewline<'a> {
    type Item = (char, u32);

    ghost next_gives = { λ s r t. (r ≡ first s) × (t ≡ after s) };

    ghost remaining = { λ s. at_most (length s.rest) };

    fn next(&mut self) -> Option<(char, u32)> {
        self.next_item()
    }
}

impl<'a> Clone for SkipBackslashNewline<'a> {
    ghost is_clone = { λ s r. r ≡ s };

    ghost is_infallible = { λ _. ⊤ };

    fn clone(&self) -> Result<SkipBackslashNewline<'a>, AllocError> {
        Ok(self.duplicate())
    }
}
