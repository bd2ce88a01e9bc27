//! The length of the longest number.

ghost use Rattle.std.specs.Prelude.{◌≡◌, ◌≤◌, ◌==◌, ◌||◌, if◌then◌else◌, IsTrue, IsSome, option_map};
ghost use Rattle.std.specs.Char.{is_digit};
ghost use Rattle.pp_lexer.specs.Longest.{longest, front_len};
ghost use Rattle.pp_lexer.specs.Numbers.{is_decimal, is_hex, decimal_tail, exponent, fraction, is_number};
ghost use Rattle.pp_lexer.specs.Numbers.{begins_number};
ghost use Rattle.pp_lexer.specs.inner.Numbers.{hex_tail};
ghost use Rattle.pp_lexer.specs.Reading.{first_char, letters, advanced};
ghost use Rattle.pp_lexer.specs.inner.Scan.{Takes, upcoming, further};
ghost use Rattle.pp_lexer.specs.Spellings.{many};
ghost use Rattle.pp_lexer.specs.Surroundings.{begins_with};

use crate::lexer::char_iterator::LexerCharIterator;
use std::marker::Model;

// A reader that counts the characters which it takes.
#[derive(Drop)]
struct Scanner<'a> {
    inner: LexerCharIterator<'a>,
    taken: u32,
}

impl<'a> Model for Scanner<'a> {
    ghost use Rattle.std.specs.Prelude.{◌+◌, ◌^◌, ◌<◌, length};
    ghost use Rattle.pp_lexer.specs.inner.Scan.{Scan};

    ghost Value = { Scan };

    ghost view = { λ s. record { reading = s.inner; taken = s.taken } };

    ghost invariant = { λ s. s.taken + length s.inner.rest < 2 ^ 32 };
}

impl<'a> Scanner<'a> {
    fn new(inner: &LexerCharIterator<'a>) -> Self
        ensures { result ≡ record { reading = inner.now; taken = 0 } }
    {
        Scanner {
            inner: inner.twin(),
            taken: 0,
        }
    }

    fn peek(&mut self) -> Option<char>
        ensures value { result ≡ option_map (λ s. s.c) (first_char self.old.reading) }
        ensures same { self.new ≡ self.old }
    {
        self.inner.peek_char()
    }

    fn take(&mut self)
        requires { IsSome (first_char self.old.reading) }
        ensures { self.new ≡ further 1 self.old }
    {
        self.inner.next_char();
        self.taken += 1;
    }

    fn finish(self) -> (LexerCharIterator<'a>, u32)
        ensures { result ≡ (self.entry.reading, self.entry.taken) }
    {
        let Scanner { inner, taken } = self;
        (inner, taken)
    }
}

// Takes the digits of the base.
fn take_digits(radix: u32, text: &mut Scanner<'_>)
    requires low { 2 ≤ radix }
    requires high { radix ≤ 36 }
    ensures { text.new ≡ further (front_len (λ c. is_digit c radix) (upcoming text.old)) text.old }
{
    'digits: loop {
        let Some(c) = text.peek() else {
            return;
        };
        if !c.is_digit(radix) {
            return;
        }
        text.take();
    }
}

// Takes the next character if it is one of the two, and returns whether it did.
fn take_either(first: char, second: char, text: &mut Scanner<'_>) -> bool
    ensures test { result ≡ begins_with (λ c. (c == first) || (c == second)) (upcoming text.old) }
    ensures moved { text.new ≡ further (if result then 1 else 0) text.old }
{
    let Some(c) = text.peek() else {
        return false;
    };
    if c != first && c != second {
        return false;
    }
    text.take();
    true
}

// Takes the next character if it is `wanted`, and returns whether it did.
fn take_char(wanted: char, text: &mut Scanner<'_>) -> bool
    ensures test { result ≡ begins_with (λ c. c == wanted) (upcoming text.old) }
    ensures moved { text.new ≡ further (if result then 1 else 0) text.old }
{
    let Some(c) = text.peek() else {
        return false;
    };
    if c != wanted {
        return false;
    }
    text.take();
    true
}

// Takes an exponent, if there is one here.
fn take_exponent(text: &mut Scanner<'_>)
    ensures { Takes exponent text.old text.new }
{
    if !take_either('e', 'E', text) {
        return;
    }
    take_either('+', '-', text);
    take_digits(10, text)
}

// Takes the digits after a point, and the exponent.
fn take_fraction(text: &mut Scanner<'_>)
    ensures { Takes fraction text.old text.new }
{
    take_digits(10, text);
    take_exponent(text)
}

// Takes what follows `0x`.
fn take_hex(text: &mut Scanner<'_>)
    ensures { Takes (many is_hex hex_tail) text.old text.new }
{
    take_digits(16, text);
    if !take_char('.', text) {
        return;
    }
    take_fraction(text)
}

// Takes the digits of a decimal number, its fraction and its exponent.
fn take_decimal(text: &mut Scanner<'_>)
    ensures { Takes (many is_decimal decimal_tail) text.old text.new }
{
    take_digits(10, text);
    if take_char('.', text) {
        return take_fraction(text);
    }
    take_exponent(text)
}

// Takes the longest number.
fn take_longest(text: &mut Scanner<'_>)
    requires { IsTrue (begins_number (upcoming text.old)) }
    ensures { Takes is_number text.old text.new }
{
    if take_char('.', text) {
        return take_fraction(text);
    }
    if !take_char('0', text) {
        return take_decimal(text);
    }
    if take_either('x', 'X', text) {
        return take_hex(text);
    }
    take_decimal(text)
}

// Takes the longest number here, and returns how many characters it has.
pub fn take_number(inner: &mut LexerCharIterator<'_>) -> u32
    requires { IsTrue (begins_number (letters inner.old.rest)) }
    ensures length { result ≡ longest is_number (letters inner.old.rest) }
    ensures state { inner.new ≡ advanced (longest is_number (letters inner.old.rest)) inner.old }
{
    let mut text = Scanner::new(inner);
    take_longest(&mut text);
    let (after, length) = text.finish();
    *inner = after;
    length
}
