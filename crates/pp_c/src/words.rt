//! The entries of words, numbers and punctuators, and the items of errors.

ghost use Rattle.std.specs.Prelude.{◌≡◌, ◌+◌, ◌∷◌, []};
ghost use Rattle.std.specs.Str.{chars};
ghost use Rattle.pp_rs.specs.Entry.{ident as ident_leaf, integer as integer_leaf};
ghost use Rattle.pp_rs.specs.Entry.{float as float_leaf, punct as punct_leaf};
ghost use Rattle.pp_c.specs.Entries.{in_32_bits};
ghost use Rattle.pp_c.specs.Numbers.{punctuator_number};
ghost use Rattle.pp_c.specs.Tokens.{item_at, leaf_entry, error_entry, place_entry};
ghost use Rattle.pp_c.specs.inner.Kinds.{kind_number};
ghost use Rattle.pp_c.specs.inner.Taking.{entry_in, Takes};

use crate::faults::number_of;
use crate::items::{FIRST_PUNCTUATOR, Item, Kind, SIGNED, bit_if};
use crate::output::{Entry, Output};
use pp_rs::token::{Integer, Location, PreprocessorError, Punct};

// An item that has no text, no number and no items that belong to it.
#[inline(always)]
fn numbered_item_at(place: Location, kind: u16, flags: u32) -> Item
    ensures { result ≡ item_at place kind flags }
{
    Item {
        kind,
        error: 0,
        flags,
        children: 0,
        width: 0,
        start: place.start,
        end: place.end,
        line: place.line,
        text_length: 0,
        value: 0,
    }
}

/// An item of a kind that has no text, no number and no items that belong to it.
#[inline(always)]
pub(crate) fn item_at(place: Location, kind: Kind, flags: u32) -> Item
    ensures { result ≡ item_at place (kind_number kind) flags }
{
    numbered_item_at(place, kind as u16, flags)
}

/// The entry of an integer literal.
#[inline(always)]
pub(crate) fn integer_entry(place: Location, flags: u32, integer: Integer) -> Entry<'static>
    ensures { entry_in result ≡ leaf_entry place flags 0 (integer_leaf integer) }
{
    let mut item = item_at(place, Kind::Integer, flags | bit_if(integer.signed, SIGNED));
    item.width = integer.width;
    item.value = integer.value;
    Entry { item, text: None }
}

/// The entry of an identifier or a keyword.
#[inline(always)]
pub(crate) fn name_entry(place: Location, flags: u32, name: &str) -> Entry<'_>
    ensures { entry_in result ≡ leaf_entry place flags 0 (ident_leaf (chars name.now)) }
{
    Entry {
        item: item_at(place, Kind::Ident, flags),
        text: Some(name),
    }
}

/// The entry of a float literal.
#[inline(always)]
pub(crate) fn float_entry(place: Location, flags: u32, digits: &str, width: i32) -> Entry<'_>
    ensures { entry_in result ≡ leaf_entry place flags 0 (float_leaf (chars digits.now) width) }
{
    let mut item = item_at(place, Kind::Float, flags);
    item.width = width;
    Entry {
        item,
        text: Some(digits),
    }
}

// The number of a punctuator.
#[inline(always)]
fn number_of_punctuator(punct: Punct) -> u16
    ensures { result ≡ punctuator_number punct }
{
    FIRST_PUNCTUATOR + punct as u16
}

/// The entry of a punctuator.
#[inline(always)]
pub(crate) fn punctuator_entry(place: Location, flags: u32, punct: Punct) -> Entry<'static>
    ensures { entry_in result ≡ leaf_entry place flags 0 (punct_leaf punct) }
{
    Entry {
        item: numbered_item_at(place, number_of_punctuator(punct), flags),
        text: Some(punct.spelling()),
    }
}

/// Gives an error and its true place. The place and the `others` items that follow it belong to the
/// error.
pub(crate) fn give_error(
    error: &PreprocessorError,
    location: Location,
    place: Location,
    others: u32,
    output: &mut Output<'_>,
)
    ensures { Takes output.old
        (error_entry location (in_32_bits (others + 1)) error.now ∷ place_entry place ∷ []) output.new }
{
    let mut item = item_at(location, Kind::Error, 0);
    item.error = number_of(error);
    item.children = others.saturating_add(1);
    output.take_item(item);
    output.take_item(item_at(place, Kind::Place, 0));
}
