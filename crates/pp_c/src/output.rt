//! The caller's memory, into which items are written.

ghost use Rattle.std.specs.Prelude.{◌≡◌, ◌↔◌, ◌+◌, ◌-◌, ◌<◌, ◌≤◌, ◌∷◌, [], length, IsTrue};
ghost use Rattle.pp_c.specs.Entries.{bare, room_of, with_text};
ghost use Rattle.pp_c.specs.inner.Making.{IsSmall};
ghost use Rattle.pp_c.specs.inner.Taking.{entry_in, Takes, TakesIfRoom, written_over};

use crate::items::{Item, Sizes};

/// An item, and its text, if it has one.
#[derive(Clone, Copy)]
pub(crate) struct Entry<'t> {
    pub item: Item,
    pub text: Option<&'t str>,
}

impl Entry<'_> {
    // How much room it takes.
    #[inline(always)]
    fn room(&self) -> Sizes
        ensures { result ≡ room_of (entry_in self.now ∷ []) }
    {
        match self.text {
            Some(text) => room_of_text(text),
            None => Sizes { items: 1, texts: 0 },
        }
    }
}

// How much room an item with this text takes.
#[inline(always)]
fn room_of_text(text: &str) -> Sizes
    ensures { (item : _) → result ≡ room_of (with_text item text.now ∷ []) }
{
    Sizes {
        items: 1,
        texts: text.len() as u64,
    }
}

/// The caller's room for items and their texts, and how many came so far. Items and texts that don't fit are only
/// counted.
#[derive(Drop)]
pub(crate) struct Output<'a> {
    items: &'a mut [Item],
    texts: &'a mut [u8],
    sizes: Sizes,
}

impl<'a> Output<'a> {
    /// An output into which nothing was written yet.
    pub(crate) fn new(items: &'a mut [Item], texts: &'a mut [u8]) -> Self
        ensures same_items { result.items.ghost_name ≡ items.entry.ghost_name }
        ensures same_texts { result.texts.ghost_name ≡ texts.entry.ghost_name }
        ensures items { result.items.now ≡ items.old }
        ensures texts { result.texts.now ≡ texts.old }
        ensures sizes { result.sizes ≡ record { items = 0; texts = 0 } }
    {
        Output {
            items,
            texts,
            sizes: Sizes { items: 0, texts: 0 },
        }
    }

    /// How much room the items that came so far take.
    pub(crate) fn sizes(&self) -> Sizes
        ensures { result ≡ self.now.sizes }
    {
        self.sizes
    }

    /// Whether there is no room for any item more.
    pub(crate) fn is_full(&self) -> bool
        ensures { IsTrue result ↔ (length self.now.items.now ≤ self.now.sizes.items) }
    {
        self.items.len() as u64 <= self.sizes.items
    }

    /// Whether there is so much room behind what came so far.
    pub(crate) fn has_room(&self, wanted: Sizes) -> bool
        ensures room { IsTrue result ↔ ((wanted.items ≤ length self.now.items.now - self.now.sizes.items)
            × (wanted.texts ≤ length self.now.texts.now - self.now.sizes.texts)) }
        ensures small { IsSmall self.now }
    {
        let items = (self.items.len() as u64).saturating_sub(self.sizes.items);
        let texts = (self.texts.len() as u64).saturating_sub(self.sizes.texts);
        wanted.items <= items && wanted.texts <= texts
    }

    /// Takes an item, and its text, if it has one.
    #[inline(always)]
    pub(crate) fn take(&mut self, one: Entry<'_>)
        ensures { Takes self.old (entry_in one.entry ∷ []) self.new }
    {
        match one.text {
            Some(text) => self.take_text(one.item, text),
            None => self.take_item(one.item),
        }
    }

    /// Takes an item and its text if there is room for both, and returns whether there is.
    #[inline(always)]
    pub(crate) fn take_if_room(&mut self, one: Entry<'_>) -> bool
        ensures { TakesIfRoom self.old (entry_in one.entry ∷ []) result self.new }
    {
        if !self.has_room(one.room()) {
            return false;
        }
        self.take(one);
        true
    }

    /// Takes an item without a text.
    #[inline(always)]
    pub(crate) fn take_item(&mut self, item: Item)
        ensures { Takes self.old (bare item ∷ []) self.new }
    {
        put(self.items, self.sizes.items as usize, item);
        self.sizes.items = self.sizes.items.saturating_add(1);
    }

    // Takes an item with its text.
    #[inline(always)]
    fn take_text(&mut self, item: Item, text: &str)
        ensures { Takes self.old (with_text item text.now ∷ []) self.new }
    {
        let bytes = text.as_bytes();
        let start = self.sizes.texts;
        let mut item = item;
        item.value = start;
        item.text_length = u32::try_from(bytes.len()).unwrap_or(u32::MAX);
        copy(self.texts, start as usize, bytes);
        self.sizes.texts = start.saturating_add(bytes.len() as u64);
        self.take_item(item);
    }
}

// Puts an item at `at`, if there is room.
fn put(items: &mut [Item], at: usize, item: Item)
    ensures room { length items.new ≡ length items.old }
    ensures written { at < length items.old → items.new ≡ written_over at (item ∷ []) items.old }
{
    if at < items.len() {
        items[at] = item;
    }
}

// Copies a text to `start`, if there is room. Most punctuators are of one byte, which needs no call to be copied.
#[inline(always)]
fn copy(texts: &mut [u8], start: usize, bytes: &[u8])
    ensures room { length texts.new ≡ length texts.old }
    ensures written { start + length bytes.now ≤ length texts.old
        → texts.new ≡ written_over start bytes.now texts.old }
{
    let room = texts.len();
    if bytes.len() == 1 && start < room {
        texts[start] = bytes[0];
    } else if start <= room && bytes.len() <= room - start {
        texts[start..start + bytes.len()].copy_from_slice(bytes);
    }
}
