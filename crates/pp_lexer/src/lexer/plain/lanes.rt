//! Runs of bytes of one class, sixteen bytes at a time.

ghost use Rattle.std.specs.Prelude.{◌≡◌, ◌≤◌, true, length, take};
ghost use Rattle.std.specs.List.{list_all};
ghost use Rattle.pp_lexer.specs.inner.Fronts.{is_quiet};
ghost use Rattle.pp_lexer.specs.inner.Tame.{is_free};
ghost use Rattle.pp_lexer.specs.inner.Lanes.{first_set};

use std::simd::prelude::*;

// How many bytes are looked at at once.
const LANES: usize = 16;

/// About so many bytes of words are passed in one step of work.
pub const MOST_AT_ONCE: usize = 256;

// The place of the lowest bit that is set, or the number of lanes.
#[inline(always)]
fn first_set(mask: u64) -> usize
    ensures { result ≡ first_set mask }
{
    if mask == 0 {
        LANES
    } else {
        mask.trailing_zeros() as usize
    }
}

// How many of the next bytes come before one that isn't quiet.
#[inline(always)]
fn quiet_run(bytes: &[u8]) -> usize
    requires { 16 ≤ length bytes.now }
    ensures within { result ≤ 16 }
    ensures passes { list_all is_quiet (take result bytes.now) ≡ true }
{
    let v = u8x16::from_slice(bytes);
    let stops = v.simd_eq(u8x16::splat(b'*'))
        | v.simd_eq(u8x16::splat(b'\n'))
        | v.simd_eq(u8x16::splat(b'\r'))
        | v.simd_eq(u8x16::splat(b'\\'))
        | v.simd_ge(u8x16::splat(128));
    first_set(stops.to_bitmask())
}

/// So many bytes at the front are ASCII characters other than a star, a newline, a carriage return and a backslash. It
/// may be fewer than there are: less than sixteen bytes before the end aren't looked at.
#[inline(always)]
pub fn quiet_length(bytes: &[u8]) -> usize
    ensures within { result ≤ length bytes.now }
    ensures passes { list_all is_quiet (take result bytes.now) ≡ true }
{
    let mut at = 0;
    'loads: while bytes.len() - at >= LANES {
        let run = quiet_run(&bytes[at..]);
        at += run;
        if run < LANES {
            return at;
        }
    }
    at
}

// How many of the next bytes come before one that isn't free.
#[inline(always)]
fn free_run(bytes: &[u8]) -> usize
    requires { 16 ≤ length bytes.now }
    ensures within { result ≤ 16 }
    ensures passes { list_all is_free (take result bytes.now) ≡ true }
{
    let v = u8x16::from_slice(bytes);
    let stops = (v.simd_ge(u8x16::splat(b'/')) & v.simd_le(u8x16::splat(b'9')))
        | (v.simd_le(u8x16::splat(31)) & v.simd_ne(u8x16::splat(b'\t')))
        | v.simd_eq(u8x16::splat(b'"'))
        | v.simd_eq(u8x16::splat(b'#'))
        | v.simd_eq(u8x16::splat(b'$'))
        | v.simd_eq(u8x16::splat(b'\''))
        | v.simd_eq(u8x16::splat(b'@'))
        | v.simd_eq(u8x16::splat(b'\\'))
        | v.simd_eq(u8x16::splat(b'`'))
        | v.simd_ge(u8x16::splat(127));
    first_set(stops.to_bitmask())
}

/// So many bytes at the front are letters, underscores, spaces, tabs and punctuators other than `/`. It may be fewer
/// than there are: less than sixteen bytes before the end aren't looked at, and not many more than `MOST_AT_ONCE`.
#[inline(always)]
pub fn free_length(bytes: &[u8]) -> usize
    ensures within { result ≤ length bytes.now }
    ensures passes { list_all is_free (take result bytes.now) ≡ true }
{
    let mut at = 0;
    'loads: while at < MOST_AT_ONCE && bytes.len() - at >= LANES {
        let run = free_run(&bytes[at..]);
        at += run;
        if run < LANES {
            return at;
        }
    }
    at
}
