//! The spelling of a number, read again without an allocation.

ghost use Rattle.std.specs.Prelude.{◌≡◌, ◌==◌, ◌||◌, take};
ghost use Rattle.pp_lexer.specs.NumberValue.{float_text};
ghost use Rattle.pp_lexer.specs.Numbers.{is_decimal};
ghost use Rattle.pp_lexer.specs.Reading.{letters};
ghost use Rattle.pp_lexer.specs.Spellings.{nothing, next_of, after_first};
ghost use Rattle.pp_lexer.specs.Surroundings.{begins_with};

use crate::lexer::char_iterator::LexerCharIterator;
use std::marker::Model;

// The characters at the front of a reader, as many as `left` says.
#[derive(Drop)]
pub struct Spelling<'a> {
    inner: LexerCharIterator<'a>,
    left: u32,
}

impl<'a> Model for Spelling<'a> {
    ghost use Rattle.std.specs.Prelude.{List, ℕ, take};
    ghost use Rattle.pp_lexer.specs.Reading.{letters};

    ghost Value = { List ℕ };

    ghost view = { λ s. take s.left (letters s.inner.rest) };
}

impl<'a> Spelling<'a> {
    pub fn new(inner: &LexerCharIterator<'a>, length: u32) -> Self
        ensures { result ≡ take length (letters inner.now.rest) }
    {
        Spelling {
            inner: inner.twin(),
            left: length,
        }
    }

    pub fn twin(&self) -> Self
        ensures { result ≡ self.now }
    {
        Spelling {
            inner: self.inner.twin(),
            left: self.left,
        }
    }

    pub fn next(&mut self) -> Option<char>
        ensures value { result ≡ next_of self.old }
        ensures state { self.new ≡ after_first self.old }
    {
        if self.left == 0 {
            return None;
        }
        let c = self.inner.next_char()?;
        self.left -= 1;
        Some(c)
    }

    // Peeks at the next character.
    pub fn peek(&self) -> Option<char>
        ensures { result ≡ next_of self.now }
    {
        self.twin().next()
    }

    pub fn is_at_end(&self) -> bool
        ensures { result ≡ nothing self.now }
    {
        self.peek().is_none()
    }
}

// The text of a float: its spelling without the `x` and with a small `e`.
#[derive(Drop)]
pub struct FloatText<'a> {
    spelling: Spelling<'a>,
}

impl<'a> Model for FloatText<'a> {
    ghost use Rattle.std.specs.Prelude.{List, ℕ};
    ghost use Rattle.pp_lexer.specs.NumberValue.{float_text};

    ghost Value = { List ℕ };

    ghost view = { λ s. float_text s.spelling };
}

// Takes the next character of the float's text from the rest of the spelling.
fn next_of_text(spelling: &mut Spelling<'_>) -> Option<char>
    ensures value { result ≡ next_of (float_text spelling.old) }
    ensures state { float_text spelling.new ≡ after_first (float_text spelling.old) }
{
    'dropped: loop {
        let c = spelling.next()?;
        if c == 'e' || c == 'E' {
            return Some('e');
        }
        if c != 'x' && c != 'X' {
            return Some(c);
        }
    }
}

impl<'a> FloatText<'a> {
    pub fn new(spelling: &Spelling<'a>) -> Self
        ensures { result ≡ float_text spelling.now }
    {
        FloatText {
            spelling: spelling.twin(),
        }
    }

    pub fn next(&mut self) -> Option<char>
        ensures value { result ≡ next_of self.old }
        ensures state { self.new ≡ after_first self.old }
    {
        next_of_text(&mut self.spelling)
    }

    // Peeks at the next character.
    fn peek(&self) -> Option<char>
        ensures { result ≡ next_of self.now }
    {
        let mut ahead = self.spelling.twin();
        next_of_text(&mut ahead)
    }

    pub fn is_next(&self, wanted: char) -> bool
        ensures { result ≡ begins_with (λ c. c == wanted) self.now }
    {
        match self.peek() {
            Some(c) => c == wanted,
            None => false,
        }
    }

    pub fn is_either_next(&self, first: char, second: char) -> bool
        ensures { result ≡ begins_with (λ c. (c == first) || (c == second)) self.now }
    {
        match self.peek() {
            Some(c) => c == first || c == second,
            None => false,
        }
    }

    pub fn is_digit_next(&self) -> bool
        ensures { result ≡ begins_with is_decimal self.now }
    {
        match self.peek() {
            Some(c) => c.is_digit(10),
            None => false,
        }
    }

    pub fn is_at_end(&self) -> bool
        ensures { result ≡ nothing self.now }
    {
        self.peek().is_none()
    }
}
