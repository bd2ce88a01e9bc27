//! The table in which texts are found by their hash.

ghost use Rattle.std.specs.Prelude.{◌≡◌, ◌<◌, ◌++◌, ◌∷◌, [], List, false, position, vec_len, length, OnOk, OnErr, IfOk};
ghost use Rattle.std.specs.Prelude.{MatchOption, ◌^◌};
ghost use Rattle.std.specs.Str.{chars};
ghost use Rattle.pp_model.specs.Names.{Name, is_in, is_same_name};
ghost use Rattle.pp_macros.specs.inner.NamePlaces.{hash_of, place_index, IsCrowded, IsFree, AreDistinct, FindsNames};
ghost use Rattle.pp_macros.specs.inner.NamePlaces.{names_of};

use pp_lexer::token::Text;
use std::alloc::{AllocError, Global};
use std::collections::BTreeMap;
use std::rc::Rc;

// The number of places at which a text may be.
const NEAR: usize = 8;

/// A place of a table, with the hash of a text and its number. It is free if no text has this number.
#[derive(Clone, Copy)]
pub struct Place {
    hash: u32,
    number: u32,
}

// A place without a text.
const FREE: Place = Place {
    hash: 0,
    number: u32::MAX,
};

/// A table in which texts are found by their hash.
///
/// A text is at one of the eight places that begin at its hash: the first one that was free when it was added. If none
/// of them was free, it is in the ordered map.
#[derive(Drop)]
pub struct Table {
    places: Vec<Place>,
    others: BTreeMap<String, u32>,
    ghost some: { 0 < vec_len places },
}

/// Whether the text is this name.
#[inline(always)]
pub fn is_text(text: &Text, name: &str) -> bool
    ensures { result ≡ is_same_name (chars name.now) text.now }
{
    name == text.as_str()
}

// The hash of a name: FNV-1a of its bytes.
#[inline(always)]
fn hash_of(name: &str) -> u32
    ensures { result ≡ hash_of (chars name.now) }
{
    let bytes = name.as_bytes();
    let mut hash = 0x811c9dc5u32;
    for byte in bytes {
        hash = (hash ^ u32::from(*byte)).wrapping_mul(0x01000193);
    }
    hash
}

impl Table {
    /// A table of these texts, with this many places.
    #[inline(never)]
    pub fn of(alloc: Global, places: usize, texts: &[Rc<Text>]) -> Result<Self, AllocError>
        requires some { 0 < places }
        requires few { length texts.now < 2 ^ 32 }
        requires distinct { AreDistinct (names_of texts.now) }
        ensures { IfOk result (λ table. FindsNames table.places.items table.others.entries (names_of texts.now)) }
    {
        let mut table = Table {
            places: vec![in alloc; FREE; places]?,
            others: BTreeMap::new(alloc),
        };
        for (number, text) in texts.iter().enumerate() {
            table.put(alloc, &texts[..number], text.as_str())?;
        }
        Ok(table)
    }

    /// The number of places.
    #[inline(always)]
    pub fn len(&self) -> usize
        ensures { result ≡ vec_len self.now.places }
    {
        self.places.len()
    }

    // The place that comes `after` places after the first one of a hash.
    #[inline(always)]
    fn index(&self, hash: u32, after: usize) -> usize
        requires { after < 8 }
        ensures is { result ≡ place_index self.now.places.items hash after }
        ensures inside { result < length self.now.places.items }
    {
        (hash as usize + after) & (self.places.len() - 1)
    }

    /// The number of the text.
    #[inline(always)]
    pub fn find(&self, texts: &[Rc<Text>], name: &str) -> Option<u32>
        requires distinct { AreDistinct (names_of texts.now) }
        requires finds { FindsNames self.now.places.items self.now.others.entries (names_of texts.now) }
        ensures { result ≡ position (is_same_name (chars name.now)) (names_of texts.now) }
    {
        let hash = hash_of(name);
        for after in 0..NEAR {
            let place = self.places[self.index(hash, after)];
            let number = place.number as usize;
            if number >= texts.len() {
                return None;
            }
            if place.hash == hash && is_text(&texts[number], name) {
                return Some(place.number);
            }
        }
        self.others.get(name).copied()
    }

    // The first free place for a text with this hash, in a table of `count` texts.
    fn free_place(&self, hash: u32, count: u32) -> Option<usize>
        ensures { MatchOption result
            (IsCrowded self.now.places.items hash count)
            (IsFree self.now.places.items hash count) }
    {
        for after in 0..NEAR {
            let place = self.index(hash, after);
            if self.places[place].number >= count {
                return Some(place);
            }
        }
        None
    }

    /// Adds a new text after these. If an allocation fails, these are found as before.
    pub fn put(&mut self, alloc: Global, texts: &[Rc<Text>], name: &str) -> Result<(), AllocError>
        requires few { length texts.now < 2 ^ 32 }
        requires new { is_in (chars name.now) (names_of texts.now) ≡ false }
        requires finds { FindsNames self.old.places.items self.old.others.entries (names_of texts.now) }
        ensures ok { OnOk result
            (FindsNames self.new.places.items self.new.others.entries (names_of texts.now ++ chars name.now ∷ [])) }
        ensures err { OnErr result
            (FindsNames self.new.places.items self.new.others.entries (names_of texts.now)) }
    {
        let hash = hash_of(name);
        let number = texts.len() as u32;
        match self.free_place(hash, number) {
            Some(place) => {
                self.places[place] = Place { hash, number };
            }
            None => {
                let key = String::from_str(alloc, name)?;
                self.others.insert(key, number)?;
            }
        }
        Ok(())
    }
}
