//! Texts with numbers, each found by its hash.

ghost use Rattle.std.specs.Prelude.{◌≡◌, ◌++◌, ◌∷◌, [], false, position, OnOk, OnErr, IfSome};
ghost use Rattle.std.specs.Prelude.{IsTrue, Some, ◌<◌, ◌^◌, length};
ghost use Rattle.std.specs.Str.{chars};
ghost use Rattle.pp_model.specs.Names.{is_in, is_same_name};
ghost use Rattle.pp_macros.specs.inner.NamePlaces.{AreDistinct, names_of};
ghost use Rattle.pp_macros.specs.inner.NameTable.{IsTableOf};

use crate::marks::{Marks, mark_of};
use crate::names::table::{Table, is_text};
use pp_lexer::token::Text;
use std::alloc::{AllocError, Global};
use std::marker::Model;
use std::rc::Rc;

// Up to this many texts are compared one by one.
const FEW: usize = 8;

// At most this many texts are there, so that the number of each takes 32 bits.
const MOST: usize = 4294967295;

// The number of places of the first table.
const FIRST_PLACES: usize = 32;

/// Texts, all different. The number of each is how many there were when it was added.
///
/// Most others are known by their marks. A few texts are compared one by one. If there are more, each has one of eight
/// places by its hash. A text whose eight places are taken is in an ordered map. So nobody can make the search slow by
/// a choice of names, and no seed is needed.
#[derive(Drop)]
pub struct Texts {
    alloc: Global,
    texts: Vec<Rc<Text>>,
    // those of the texts
    marks: Marks,
    // `None` until there were more than a few texts
    table: Option<Table>,
}

impl Model for Texts {
    ghost use Rattle.std.specs.Prelude.{◌<◌, ◌^◌, List, length};
    ghost use Rattle.pp_model.specs.Names.{Name};
    ghost use Rattle.pp_macros.specs.inner.Marks.{AreMarked};
    ghost use Rattle.pp_macros.specs.inner.NamePlaces.{AreDistinct, names_of};
    ghost use Rattle.pp_macros.specs.inner.NameTable.{IsTableOf};

    ghost Value = { List Name };

    ghost view = { λ t. names_of t.texts.items };

    ghost invariant = { λ t. AreDistinct (names_of t.texts.items) × IsTableOf (names_of t.texts.items) t.table
        × AreMarked t.marks (names_of t.texts.items) × (length t.texts.items < 2 ^ 32) };
}

// The number of the text, found without a table.
#[inline(always)]
fn number_among(texts: &[Rc<Text>], name: &str) -> Option<usize>
    ensures is { result ≡ position (λ text. is_same_name (chars name.now) text.value) texts.now }
    ensures inside { IfSome result (λ number. number < length texts.now) }
{
    texts.iter().position(|text| is_text(text, name))
}

// The number of the text.
#[inline(always)]
fn number_of(table: &Option<Table>, texts: &[Rc<Text>], name: &str) -> Option<u32>
    requires few { length texts.now < 2 ^ 32 }
    requires distinct { AreDistinct (names_of texts.now) }
    requires finds { IsTableOf (names_of texts.now) table.now }
    ensures { result ≡ position (is_same_name (chars name.now)) (names_of texts.now) }
{
    match table {
        None => Some(number_among(texts, name)? as u32),
        Some(table) => table.find(texts, name),
    }
}

// The size of a new table, if one is needed before one more text is added.
fn places_wanted(table: &Option<Table>, count: usize) -> Option<usize>
    ensures { IfSome result (λ places. 0 < places) }
{
    match table {
        None => (count >= FEW).then_some(FIRST_PLACES),
        Some(table) => {
            let places = table.len();
            (count >= places / 2).then_some(places.saturating_mul(2))
        }
    }
}

// Makes a new table of the texts, if one more text needs it.
fn grow(table: &mut Option<Table>, alloc: Global, texts: &[Rc<Text>]) -> Result<(), AllocError>
    requires few { length texts.now < 2 ^ 32 }
    requires distinct { AreDistinct (names_of texts.now) }
    requires finds { IsTableOf (names_of texts.now) table.old }
    ensures { IsTableOf (names_of texts.now) table.new }
{
    if let Some(places) = places_wanted(table, texts.len()) {
        *table = Some(Table::of(alloc, places, texts)?);
    }
    Ok(())
}

// Adds a new text to the table, if there is one, after the texts that it has.
fn put(
    table: &mut Option<Table>,
    alloc: Global,
    texts: &[Rc<Text>],
    name: &str,
) -> Result<(), AllocError>
    requires few { length texts.now < 2 ^ 32 }
    requires new { is_in (chars name.now) (names_of texts.now) ≡ false }
    requires finds { IsTableOf (names_of texts.now) table.old }
    ensures ok { OnOk result (IsTableOf (names_of texts.now ++ chars name.now ∷ []) table.new) }
    ensures err { OnErr result (IsTableOf (names_of texts.now) table.new) }
{
    match table {
        None => Ok(()),
        Some(table) => table.put(alloc, texts, name),
    }
}

impl Texts {
    /// No texts. It allocates nothing.
    pub fn new(alloc: Global) -> Self
        ensures { result ≡ [] }
    {
        Texts {
            alloc,
            texts: Vec::new(alloc),
            marks: Marks::none(),
            table: None,
        }
    }

    /// How many texts there are: the number of the next one.
    pub fn count(&self) -> u32
        ensures { result ≡ length self.now }
    {
        self.texts.len() as u32
    }

    /// The number of the text.
    #[inline(always)]
    pub fn find(&self, name: &str) -> Option<u32>
        ensures { result ≡ position (is_same_name (chars name.now)) self.now }
    {
        if !self.marks.has(name) {
            return None;
        }
        self.find_marked(name)
    }

    // The number of the text. It is a function of its own, so that a text whose mark is missing is known without a
    // call.
    #[inline(never)]
    fn find_marked(&self, name: &str) -> Option<u32>
        ensures { result ≡ position (is_same_name (chars name.now)) self.now }
    {
        number_of(&self.table, &self.texts, name)
    }

    /// Adds a text that isn't there. There are 4,294,967,295 texts at most: one more is refused. If it is, or if an
    /// allocation fails, nothing changes.
    pub fn push(&mut self, text: Rc<Text>) -> Result<(), AllocError>
        requires { is_in text.value self.old ≡ false }
        ensures ok { OnOk result (self.new ≡ self.old ++ text.value ∷ []) }
        ensures err { OnErr result (self.new ≡ self.old) }
    {
        if self.texts.len() >= MOST {
            return Err(AllocError);
        }
        self.texts.reserve(1)?;
        grow(&mut self.table, self.alloc, &self.texts)?;
        put(&mut self.table, self.alloc, &self.texts, text.as_str())?;
        self.marks.add(mark_of(text.as_str()));
        self.texts.push_reserved(text);
        Ok(())
    }
}
