//! Decimal and hexadecimal integers, and floats, of ASCII text.

ghost use Rattle.std.specs.Prelude.{⊤, ◌≡◌, ◌<◌, ◌≤◌, true, false, length, take, slice_index, IsTrue, IfSome};
ghost use Rattle.std.specs.Prelude.{MatchOption};
ghost use Rattle.std.specs.List.{list_all};
ghost use Rattle.std.specs.Str.{IsUtf8};
ghost use Rattle.std.specs.Str.Parse.{digits_value};
ghost use Rattle.pp_lexer.specs.Numbers.{is_decimal, is_hex};
ghost use Rattle.pp_lexer.specs.NumberValue.{float_exponent, is_float, is_float_text};
ghost use Rattle.pp_lexer.specs.inner.NumberValue.{float_power};
ghost use Rattle.pp_lexer.specs.inner.PlainWords.{continues_number, Stops, IsSuffixed, BeginsHex, BeginsSign};
ghost use Rattle.pp_lexer.specs.inner.PlainWords.{IsFirstWord};

use crate::lexer::plain::{Form, Word, continues};

/// Whether the byte is a decimal digit.
#[inline(always)]
pub fn is_digit(byte: u8) -> bool
    ensures { result ≡ is_decimal byte }
{
    byte >= 48 && byte < 58
}

// How many decimal digits there are at the front.
#[inline(always)]
fn digits_length(bytes: &[u8]) -> usize
    ensures within { result ≤ length bytes.now }
    ensures passes { list_all is_decimal (take result bytes.now) ≡ true }
{
    for (i, byte) in bytes.iter().enumerate() {
        if !is_digit(*byte) {
            return i;
        }
    }
    bytes.len()
}

// The value of decimal digits, unless there are more than 19. Each number of 19 digits is below 2^64.
#[inline(always)]
fn decimal_value(digits: &[u8]) -> Option<u64>
    requires { list_all is_decimal digits.now ≡ true }
    ensures { IfSome result (λ value. value ≡ digits_value 10 digits.now) }
{
    if digits.len() > 19 {
        return None;
    }
    let mut value: u64 = 0;
    for digit in digits {
        value = value * 10 + (*digit - 48) as u64;
    }
    Some(value)
}

// Whether the text ends at `at`, or goes on with a byte which shows that the number ends there and has no suffix.
#[inline(always)]
fn ends_number(bytes: &[u8], at: usize) -> bool
    ensures { IsTrue result → Stops continues_number bytes.now at }
{
    if at >= bytes.len() {
        return true;
    }
    let next = bytes[at];
    next < 128 && next != 92 && !(continues(next) || next == 46)
}

// Whether one of the two letters is at `at`, and the number ends after it.
#[inline(always)]
fn ends_in_suffix(bytes: &[u8], at: usize, small: u8, capital: u8) -> bool
    ensures { IsTrue result → IsSuffixed small capital bytes.now at }
{
    if at >= bytes.len() || !(bytes[at] == small || bytes[at] == capital) {
        return false;
    }
    ends_number(bytes, at + 1)
}

// The integer of the `digits` digits at the front, and of a `u` after them, if the bytes after it show that it ends
// there.
#[inline(always)]
fn plain_integer(bytes: &[u8], digits: usize) -> Option<Word>
    requires utf8 { IsUtf8 bytes.now }
    requires within { digits ≤ length bytes.now }
    requires digits { list_all is_decimal (take digits bytes.now) ≡ true }
    ensures { MatchOption result ⊤ (IsFirstWord bytes.now) }
{
    if digits == 0 {
        return None;
    }
    if bytes[0] == 48 && digits > 1 {
        return None;
    }
    let value = decimal_value(&bytes[..digits])?;
    if ends_number(bytes, digits) {
        return Some(Word {
            form: Form::Integer(value),
            taken: digits,
        });
    }
    if ends_in_suffix(bytes, digits, b'u', b'U') {
        return Some(Word {
            form: Form::Unsigned(value),
            taken: digits + 1,
        });
    }
    None
}

// Whether the byte is a hexadecimal digit.
#[inline(always)]
fn is_hex_digit(byte: u8) -> bool
    ensures { result ≡ is_hex byte }
{
    (byte as char).is_digit(16)
}

// How many hexadecimal digits there are at the front.
#[inline(always)]
fn hex_length(bytes: &[u8]) -> usize
    ensures within { result ≤ length bytes.now }
    ensures passes { list_all is_hex (take result bytes.now) ≡ true }
{
    for (i, byte) in bytes.iter().enumerate() {
        if !is_hex_digit(*byte) {
            return i;
        }
    }
    bytes.len()
}

// The value of hexadecimal digits, unless it is too large.
#[inline(always)]
fn hex_value(digits: &[u8]) -> Option<u64>
    ensures { IfSome result (λ value. value ≡ digits_value 16 digits.now) }
{
    let mut value: u64 = 0;
    for byte in digits {
        let digit = (*byte as char).to_digit(16)?;
        let shifted = value.checked_mul(16)?;
        value = shifted.checked_add(digit as u64)?;
    }
    Some(value)
}

// Whether the text begins as a hexadecimal integer.
#[inline(always)]
fn begins_hex(bytes: &[u8]) -> bool
    ensures { IsTrue result → BeginsHex bytes.now }
{
    bytes.len() > 2 && bytes[0] == 48 && (bytes[1] == b'x' || bytes[1] == b'X')
}

// The hexadecimal integer at the front, with a `u` after it, if the bytes after it show that it ends there.
#[inline(never)]
fn plain_hex(bytes: &[u8]) -> Option<Word>
    requires utf8 { IsUtf8 bytes.now }
    requires begins { BeginsHex bytes.now }
    ensures { MatchOption result ⊤ (IsFirstWord bytes.now) }
{
    let digits = hex_length(&bytes[2..]);
    if digits == 0 {
        return None;
    }
    let spelled = digits + 2;
    let value = hex_value(&bytes[2..spelled])?;
    if ends_number(bytes, spelled) {
        return Some(Word {
            form: Form::Integer(value),
            taken: spelled,
        });
    }
    if ends_in_suffix(bytes, spelled, b'u', b'U') {
        return Some(Word {
            form: Form::Unsigned(value),
            taken: spelled + 1,
        });
    }
    None
}

// Whether the text begins with a sign.
#[inline(always)]
fn begins_with_sign(bytes: &[u8]) -> bool
    ensures { IsTrue result → BeginsSign bytes.now }
{
    bytes.len() > 0 && (bytes[0] == b'+' || bytes[0] == b'-')
}

// How many bytes the digits at the front take, and a sign before them, or 0 if there is no digit.
#[inline(always)]
fn power_length(bytes: &[u8]) -> usize
    ensures within { result ≤ length bytes.now }
    ensures power { 0 < result → float_power (take result bytes.now) ≡ true }
{
    if !begins_with_sign(bytes) {
        return digits_length(bytes);
    }
    let digits = digits_length(&bytes[1..]);
    if digits == 0 {
        return 0;
    }
    digits + 1
}

// How many bytes the exponent at the front takes, or 0 if there is none that a float's text can have.
#[inline(always)]
fn exponent_length(bytes: &[u8]) -> usize
    ensures within { result ≤ length bytes.now }
    ensures exponent { float_exponent (take result bytes.now) ≡ true }
{
    if bytes.len() == 0 || bytes[0] != b'e' {
        return 0;
    }
    let power = power_length(&bytes[1..]);
    if power == 0 {
        return 0;
    }
    power + 1
}

// The float that the `spelled` bytes at the front spell, and an `f` after them, if the bytes after it show that it ends
// there.
#[inline(always)]
fn spelled_float(bytes: &[u8], spelled: usize) -> Option<Word>
    requires utf8 { IsUtf8 bytes.now }
    requires within { spelled ≤ length bytes.now }
    requires text { is_float_text (take spelled bytes.now) ≡ true }
    requires float { is_float (take spelled bytes.now) ≡ true }
    ensures { MatchOption result ⊤ (IsFirstWord bytes.now) }
{
    if ends_number(bytes, spelled) {
        return Some(Word {
            form: Form::Float,
            taken: spelled,
        });
    }
    if ends_in_suffix(bytes, spelled, b'f', b'F') {
        return Some(Word {
            form: Form::SuffixedFloat,
            taken: spelled + 1,
        });
    }
    None
}

// The float at the front that has a point after `whole` digits, if the bytes after it show that it ends there.
#[inline(always)]
fn pointed_float(bytes: &[u8], whole: usize) -> Option<Word>
    requires utf8 { IsUtf8 bytes.now }
    requires within { whole < length bytes.now }
    requires digits { list_all is_decimal (take whole bytes.now) ≡ true }
    requires point { slice_index bytes.now whole ≡ 46 }
    ensures { MatchOption result ⊤ (IsFirstWord bytes.now) }
{
    let fraction = digits_length(&bytes[whole + 1..]);
    if whole + fraction == 0 {
        return None;
    }
    let mantissa = whole + 1 + fraction;
    let exponent = exponent_length(&bytes[mantissa..]);
    spelled_float(bytes, mantissa + exponent)
}

// The float at the front that has an exponent after `whole` digits, if the bytes after it show that it ends there.
#[inline(never)]
fn whole_float(bytes: &[u8], whole: usize) -> Option<Word>
    requires utf8 { IsUtf8 bytes.now }
    requires within { whole ≤ length bytes.now }
    requires digits { list_all is_decimal (take whole bytes.now) ≡ true }
    ensures { MatchOption result ⊤ (IsFirstWord bytes.now) }
{
    let exponent = exponent_length(&bytes[whole..]);
    if whole == 0 || exponent == 0 {
        return None;
    }
    spelled_float(bytes, whole + exponent)
}

/// The integer or float at the front, if the bytes after it show that it ends there, and it is not octal and has no
/// capital `E`.
#[inline(always)]
pub fn plain_number(bytes: &[u8]) -> Option<Word>
    requires { IsUtf8 bytes.now }
    ensures { MatchOption result ⊤ (IsFirstWord bytes.now) }
{
    if begins_hex(bytes) {
        return plain_hex(bytes);
    }
    let whole = digits_length(bytes);
    if whole < bytes.len() && bytes[whole] == b'.' {
        return pointed_float(bytes, whole);
    }
    if whole < bytes.len() && bytes[whole] == b'e' {
        return whole_float(bytes, whole);
    }
    plain_integer(bytes, whole)
}
