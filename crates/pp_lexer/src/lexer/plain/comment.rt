//! Comments that the bytes of a text alone show, and runs of bytes within comments.

ghost use Rattle.std.specs.Prelude.{⊤, ◌≡◌, ◌<◌, ◌≤◌, true, false, length, take, slice_index, IsTrue, MatchOption};
ghost use Rattle.std.specs.List.{list_all};
ghost use Rattle.std.specs.Str.{IsUtf8};
ghost use Rattle.pp_lexer.specs.Lines.{is_line_break};
ghost use Rattle.pp_lexer.specs.inner.Fronts.{goes_on, is_straight, is_starless};
ghost use Rattle.pp_lexer.specs.inner.PlainWords.{IsPlainComment};

use crate::lexer::plain::lanes::quiet_length;
use memchr::memchr3;

/// A comment at the front of a text: how many bytes it takes, and how many newlines are among them.
#[derive(Clone, Copy)]
pub struct Comment {
    pub taken: usize,
    pub newlines: usize,
}

// A point for each byte of ASCII other than a newline, a carriage return and a backslash.
static STRAIGHT: [u8; 256] = *b"\
    ..........!..!..................\
    ................................\
    ............................!...\
    ................................\
    !!!!!!!!!!!!!!!!!!!!!!!!!!!!!!!!\
    !!!!!!!!!!!!!!!!!!!!!!!!!!!!!!!!\
    !!!!!!!!!!!!!!!!!!!!!!!!!!!!!!!!\
    !!!!!!!!!!!!!!!!!!!!!!!!!!!!!!!!";

// A point for each byte other than a star, a newline, a carriage return and a backslash.
static STARLESS: [u8; 256] = *b"\
    ..........!..!..................\
    ..........!.....................\
    ............................!...\
    ................................\
    ................................\
    ................................\
    ................................\
    ................................";

// Whether the byte is an ASCII character other than a newline, a carriage return and a backslash.
#[inline(always)]
fn is_straight(byte: u8) -> bool
    ensures { result ≡ is_straight byte }
{
    STRAIGHT[byte as usize] == b'.'
}

/// How many bytes there are before the next newline or backslash, or before the end.
#[inline(always)]
pub fn line_length(bytes: &[u8]) -> usize
    ensures within { result ≤ length bytes.now }
    ensures passes { list_all goes_on (take result bytes.now) ≡ true }
    ensures stops { result < length bytes.now → goes_on (slice_index bytes.now result) ≡ false }
{
    match memchr3(b'\n', b'\r', b'\\', bytes) {
        Some(at) => at,
        None => bytes.len(),
    }
}

// Whether the byte is none of a star, a newline, a carriage return and a backslash.
#[inline(always)]
fn is_starless(byte: u8) -> bool
    ensures { result ≡ is_starless byte }
{
    STARLESS[byte as usize] == b'.'
}

/// How many bytes there are before the next star, newline or backslash, or before the end.
#[inline(always)]
pub fn starless_length(bytes: &[u8]) -> usize
    ensures within { result ≤ length bytes.now }
    ensures passes { list_all is_starless (take result bytes.now) ≡ true }
    ensures stops { result < length bytes.now → is_starless (slice_index bytes.now result) ≡ false }
{
    for (i, byte) in bytes.iter().enumerate() {
        if !is_starless(*byte) {
            return i;
        }
    }
    bytes.len()
}

// Whether the text ends at `at`, or goes on with a newline.
#[inline(always)]
fn ends_line(bytes: &[u8], at: usize) -> bool
    ensures { IsTrue result → at < length bytes.now
        → is_line_break (slice_index bytes.now at) ≡ true }
{
    at >= bytes.len() || bytes[at] == 10 || bytes[at] == 13
}

// The line comment at the front, if its bytes and the next one alone show where it ends.
#[inline(always)]
fn line_comment(bytes: &[u8]) -> Option<Comment>
    requires utf8 { IsUtf8 bytes.now }
    requires some { 1 < length bytes.now }
    requires slash { slice_index bytes.now 0 ≡ 47 }
    requires second { slice_index bytes.now 1 ≡ 47 }
    ensures { MatchOption result ⊤ (IsPlainComment bytes.now) }
{
    let taken = line_length(&bytes[2..]) + 2;
    if !ends_line(bytes, taken) {
        return None;
    }
    Some(Comment { taken, newlines: 0 })
}

// The block comment at the front, if its bytes alone show where it ends.
#[inline(always)]
fn block_comment(bytes: &[u8]) -> Option<Comment>
    requires utf8 { IsUtf8 bytes.now }
    requires some { 1 < length bytes.now }
    requires slash { slice_index bytes.now 0 ≡ 47 }
    requires second { slice_index bytes.now 1 ≡ 42 }
    ensures { MatchOption result ⊤ (IsPlainComment bytes.now) }
{
    let body = &bytes[2..];
    let mut at: usize = 0;
    let mut newlines: usize = 0;
    let mut was_star = false;
    'characters: while at < body.len() {
        let byte = body[at];
        if was_star && byte == 47 {
            return Some(Comment {
                taken: at + 3,
                newlines,
            });
        }
        if byte == 10 {
            newlines += 1;
        } else if !is_straight(byte) {
            return None;
        }
        was_star = byte == 42;
        at += 1;
        if !was_star {
            at += quiet_length(&body[at..]);
        }
    }
    None
}

/// The comment at the front, if its bytes and the next one alone show where it ends.
#[inline(always)]
pub fn plain_comment(bytes: &[u8]) -> Option<Comment>
    requires { IsUtf8 bytes.now }
    ensures { MatchOption result ⊤ (IsPlainComment bytes.now) }
{
    if bytes.len() < 2 || bytes[0] != 47 {
        return None;
    }
    if bytes[1] == 47 {
        return line_comment(bytes);
    }
    if bytes[1] == 42 {
        return block_comment(bytes);
    }
    None
}
