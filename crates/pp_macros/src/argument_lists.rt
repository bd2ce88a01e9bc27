//! The arguments of a call: lists of tokens, each a part of one list.

ghost use Rattle.std.specs.Prelude.{◌≡◌, ◌<◌, ◌^◌, [], Some, None, IfSome, IsSome, MatchOption, is_some, option_map};
ghost use Rattle.std.specs.Prelude.{set, slice_get, length};
ghost use Rattle.pp_model.specs.Calls.{is_one_empty};
ghost use Rattle.pp_macros.specs.Held.{HoldsOrdinary};
ghost use Rattle.pp_macros.specs.inner.Frames.{argument_at};
ghost use Rattle.pp_macros.specs.inner.Parts.{lists_of, AreInOrder, next_read, after_read};
ghost use Rattle.pp_macros.specs.inner.Reading.{AllReadOrdinary};

use crate::list_lexer::take_out;
use pp_model::read::Read;
use std::alloc::Global;
use std::marker::Model;

/// A part of a list of tokens.
#[derive(Clone, Copy)]
pub struct Part {
    /// The index of its first token.
    pub start: usize,
    /// The index after its last token.
    pub end: usize,
}

/// Lists of tokens with their paint, one for each argument. A directive item among them holds
/// ordinary tokens.
#[derive(Drop)]
pub struct ArgumentLists {
    tokens: Vec<Read>,
    parts: Vec<Part>,
}

// The part with this index.
fn part_at(parts: &[Part], index: usize) -> Option<&Part>
    ensures { option_map (λ part. part.now) result ≡ slice_get parts.now index }
{
    parts.get(index)
}

// The token at the position.
fn read_at(tokens: &[Read], position: usize) -> Option<&Read>
    requires { AllReadOrdinary tokens.now }
    ensures token { option_map (λ read. read.now) result ≡ slice_get tokens.now position }
    ensures small { IfSome result (λ _. position < 2 ^ 63) }
    ensures holds { IfSome result (λ read. HoldsOrdinary read.now.token.value) }
{
    tokens.get(position)
}

impl Model for ArgumentLists {
    ghost use Rattle.std.specs.Prelude.{List, length};
    ghost use Rattle.pp_model.specs.declared.read.Read.{Read};
    ghost use Rattle.pp_macros.specs.inner.Parts.{lists_of, AreInOrder};
    ghost use Rattle.pp_macros.specs.inner.Reading.{AllReadOrdinary};

    ghost Value = { List (List Read) };

    ghost view = { λ lists. lists_of lists.tokens.items lists.parts.items };

    ghost invariant = { λ lists. AllReadOrdinary lists.tokens.items
        × AreInOrder 0 lists.parts.items (length lists.tokens.items) };
}

impl ArgumentLists {
    /// Makes a list of each of these parts of the tokens, which follow one another.
    pub fn new(tokens: Vec<Read>, parts: Vec<Part>) -> ArgumentLists
        requires holds { AllReadOrdinary tokens.items }
        requires order { AreInOrder 0 parts.items (length tokens.items) }
        ensures { result ≡ lists_of tokens.items parts.items }
    {
        ArgumentLists { tokens, parts }
    }

    /// The tokens, and the parts of them that are the lists.
    pub fn into_parts(self) -> (Vec<Read>, Vec<Part>)
        ensures is { lists_of result.0.items result.1.items ≡ self }
        ensures holds { AllReadOrdinary result.0.items }
        ensures order { AreInOrder 0 result.1.items (length result.0.items) }
    {
        (self.tokens, self.parts)
    }

    /// The number of lists.
    pub fn len(&self) -> usize
        ensures { result ≡ length self.now }
    {
        self.parts.len()
    }

    /// Whether there is one list, without a token.
    pub fn is_one_empty(&self) -> bool
        ensures { result ≡ is_one_empty self.now }
    {
        match self.parts.as_slice() {
            [only] => only.start == only.end,
            _ => false,
        }
    }
}

/// Lists of tokens with their paint, one for each argument of an open macro, and what is left of the one that is being
/// read.
#[derive(Drop)]
pub struct OpenArguments {
    tokens: Vec<Read>,
    parts: Vec<Part>,
    reading: Option<Part>,
    // whether no part has a token of the one that is being read
    is_last: bool,
}

impl Model for OpenArguments {
    ghost use Rattle.std.specs.Prelude.{◌≡◌, true, IfSome, option_map, length};
    ghost use Rattle.pp_macros.specs.inner.Parts.{OpenLists, list_of, lists_of, AreInOrder, AreApart};
    ghost use Rattle.pp_macros.specs.inner.Reading.{AllReadOrdinary};

    ghost Value = { OpenLists };

    ghost view = { λ a. record {
      lists = lists_of a.tokens.items a.parts.items;
      reading = option_map (list_of a.tokens.items) a.reading;
    } };

    ghost invariant = { λ a. AllReadOrdinary a.tokens.items
        × AreInOrder 0 a.parts.items (length a.tokens.items)
        × (a.is_last ≡ true → IfSome a.reading (λ part. AreApart part a.parts.items)) };
}

impl OpenArguments {
    /// No lists. It allocates nothing.
    #[inline(always)]
    pub fn nothing(alloc: Global) -> OpenArguments
        ensures { result ≡ record { lists = []; reading = None } }
    {
        OpenArguments {
            tokens: Vec::new(alloc),
            parts: Vec::new(alloc),
            reading: None,
            is_last: false,
        }
    }

    /// These lists. None of them is being read.
    #[inline(always)]
    pub fn new(lists: ArgumentLists) -> OpenArguments
        ensures { result ≡ record { lists = lists; reading = None } }
    {
        let (tokens, parts) = lists.into_parts();
        OpenArguments {
            tokens,
            parts,
            reading: None,
            is_last: false,
        }
    }

    /// The tokens, and the parts of them that are the lists.
    #[inline(always)]
    pub fn into_lists(self) -> (Vec<Read>, Vec<Part>)
        ensures { lists_of result.0.items result.1.items ≡ self.lists }
    {
        (self.tokens, self.parts)
    }

    /// Whether a list is being read.
    #[inline(always)]
    pub fn is_reading(&self) -> bool
        ensures { result ≡ is_some self.now.reading }
    {
        self.reading.is_some()
    }

    /// The next token of the list that is being read.
    #[inline(always)]
    pub fn token(&self) -> Option<&Read>
        ensures token { option_map (λ read. read.now) result ≡ next_read self.now.reading }
        ensures holds { IfSome result (λ read. HoldsOrdinary read.now.token.value) }
    {
        let Some(part) = self.reading else {
            return None;
        };
        if part.end <= part.start {
            return None;
        }
        read_at(&self.tokens, part.start)
    }

    /// Passes that token.
    #[inline(always)]
    pub fn pass(&mut self)
        requires { IsSome (next_read self.old.reading) }
        ensures { self.new ≡ record self.old { reading = after_read self.old.reading } }
    {
        let Some(part) = self.reading else {
            return;
        };
        if part.end <= part.start {
            return;
        }
        self.reading = Some(Part {
            start: part.start + 1,
            end: part.end,
        });
    }

    /// Whether a list is being read for the last time.
    #[inline(always)]
    pub(crate) fn is_last(&self) -> bool {
        self.is_last
    }

    /// Moves out the next token of the list that is being read, if that is the last time. Otherwise nothing changes.
    #[inline(always)]
    pub fn take(&mut self) -> Option<Read>
        ensures takes { MatchOption result (self.new ≡ self.old) (λ read. (next_read self.old.reading ≡ Some read)
            × (self.new ≡ record self.old { reading = after_read self.old.reading })) }
        ensures holds { IfSome result (λ read. HoldsOrdinary read.token.value) }
    {
        if !self.is_last {
            return None;
        }
        let Some(part) = self.reading else {
            return None;
        };
        if part.end <= part.start || self.tokens.len() <= part.start {
            return None;
        }
        let read = take_out(&mut self.tokens[part.start]);
        self.reading = Some(Part {
            start: part.start + 1,
            end: part.end,
        });
        Some(read)
    }

    /// Begins to read the list with this index.
    #[inline(always)]
    pub fn begin(&mut self, index: usize)
        ensures { self.new ≡ record self.old { reading = Some (argument_at self.old.lists index) } }
    {
        self.is_last = false;
        self.reading = match part_at(&self.parts, index) {
            Some(part) => Some(*part),
            None => Some(Part { start: 0, end: 0 }),
        };
    }

    /// Begins to read the list with this index for the last time. It is empty then.
    #[inline(always)]
    pub fn begin_last(&mut self, index: usize)
        ensures { self.new ≡ record {
          lists = set self.old.lists index [];
          reading = Some (argument_at self.old.lists index);
        } }
    {
        if self.parts.len() <= index {
            self.begin(index);
            return;
        }
        let list = self.parts[index];
        self.parts[index] = Part {
            start: list.end,
            end: list.end,
        };
        self.reading = Some(list);
        self.is_last = true;
    }

    /// Ends the list that is being read.
    #[inline(always)]
    pub fn end(&mut self)
        ensures { self.new ≡ record self.old { reading = None } }
    {
        self.is_last = false;
        self.reading = None;
    }
}
