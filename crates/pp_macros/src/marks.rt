//! Marks of names, by which most names that aren't in a list are known at once.

ghost use Rattle.std.specs.Prelude.{◌≡◌, ◌<◌, bit_or};
ghost use Rattle.std.specs.Str.{chars};
ghost use Rattle.pp_macros.specs.inner.Marks.{mark_number, mark_of, has_mark};

use std::marker::Model;

// How many marks there are.
const MARKS: usize = 64;

/// The marks of some names. Each name has one of 64 marks, by its length, its first byte and its last, so a name whose
/// mark isn't there is none of these.
#[derive(Clone, Copy)]
pub struct Marks {
    // a bit for each mark
    bits: u64,
}

impl Model for Marks {
    ghost use Rattle.std.specs.Prelude.{ℕ};

    ghost Value = { ℕ };

    ghost view = { λ marks. marks.bits };

    ghost inverse = { λ bits. record { bits = bits } };
}

// The number of the mark of a name.
#[inline(always)]
fn mark_number(name: &str) -> usize
    ensures is { result ≡ mark_number (chars name.now) }
    ensures small { result < 64 }
{
    let bytes = name.as_bytes();
    let Some(first) = bytes.first() else {
        return 0;
    };
    let last = bytes[bytes.len() - 1];
    (bytes.len() + *first as usize * 5 + last as usize * 3) % MARKS
}

/// The mark of a name.
#[inline(always)]
pub fn mark_of(name: &str) -> u64
    ensures { result ≡ mark_of (chars name.now) }
{
    1 << mark_number(name)
}

impl Marks {
    /// The marks of no names.
    pub fn none() -> Self
        ensures { result ≡ 0 }
    {
        Marks { bits: 0 }
    }

    /// Adds a mark.
    #[inline(always)]
    pub fn add(&mut self, mark: u64)
        ensures { self.new ≡ bit_or self.old mark }
    {
        self.bits |= mark;
    }

    /// Whether the mark of the name is there. If it isn't, the name is none of those whose marks were added.
    #[inline(always)]
    pub fn has(self, name: &str) -> bool
        ensures { result ≡ has_mark self (chars name.now) }
    {
        let mark = mark_of(name);
        self.bits & mark == mark
    }
}
