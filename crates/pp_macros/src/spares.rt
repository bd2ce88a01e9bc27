//! Lists that were used and are empty now, to be used again with their room.

ghost use Rattle.std.specs.Prelude.{◌≡◌, [], IfOk};

use crate::argument_lists::Part;
use pp_lexer::token::TokenValue;
use pp_model::read::Read;
use std::alloc::{AllocError, Global};

// There is room to keep this many lists of a kind.
const MOST_LISTS: usize = 8;

// A list with room for more than this is not kept.
const MOST_ROOM: usize = 256;

/// Lists that were used and are empty now.
#[derive(Drop)]
pub struct SpareLists<T> {
    lists: Vec<Vec<T>>,
}

impl<T: Drop> SpareLists<T> {
    /// None. It allocates nothing.
    pub(crate) fn none(alloc: Global) -> Self {
        SpareLists {
            lists: Vec::new(alloc),
        }
    }

    /// An empty list: one of these, or a new one with this room. Then there is room to keep lists, which `keep` doesn't
    /// ask for, since it can't say that an allocation failed.
    pub fn take(&mut self, alloc: Global, room: usize) -> Result<Vec<T>, AllocError>
        ensures { IfOk result (λ list. list.items ≡ []) }
    {
        match self.lists.pop() {
            Some(mut list) => {
                list.clear();
                Ok(list)
            }
            None => {
                self.lists.reserve(MOST_LISTS)?;
                Ok(Vec::with_capacity(alloc, room)?)
            }
        }
    }

    /// Keeps the room of a list, if it has some and not much. What is in it is dropped.
    pub(crate) fn keep(&mut self, mut list: Vec<T>) {
        list.clear();
        let room = list.capacity();
        if room == 0 || room > MOST_ROOM || self.lists.len() >= self.lists.capacity() {
            drop(list);
            return;
        }
        self.lists.push_reserved(list);
    }
}

/// Lists of tokens and of parts that were used and are empty now. Whoever needs a list takes one of these,
/// and gives it back after use, so that calls of macros one after another need no more memory than one of them.
#[derive(Drop)]
pub struct Spares {
    tokens: SpareLists<Read>,
    parts: SpareLists<Part>,
}

// Drops the tokens. Most own nothing, which is seen here without a call.
fn drop_tokens(tokens: &mut Vec<Read>)
    ensures { tokens.new.items ≡ [] }
{
    'tokens: while let Some(read) = tokens.pop() {
        match read.token.value {
            TokenValue::Punct(_) | TokenValue::Integer(_) => {}
            value => drop(value),
        }
    }
}

impl Spares {
    /// None. It allocates nothing.
    pub(crate) fn none(alloc: Global) -> Spares {
        Spares {
            tokens: SpareLists::none(alloc),
            parts: SpareLists::none(alloc),
        }
    }

    /// An empty list of tokens. A new one has this room.
    pub fn take_tokens(&mut self, alloc: Global, room: usize) -> Result<Vec<Read>, AllocError>
        ensures { IfOk result (λ tokens. tokens.items ≡ []) }
    {
        self.tokens.take(alloc, room)
    }

    /// An empty list of parts. A new one has this room.
    pub fn take_parts(&mut self, alloc: Global, room: usize) -> Result<Vec<Part>, AllocError>
        ensures { IfOk result (λ parts. parts.items ≡ []) }
    {
        self.parts.take(alloc, room)
    }

    /// Takes back a list of tokens, and drops these.
    pub(crate) fn keep_tokens(&mut self, mut tokens: Vec<Read>) {
        drop_tokens(&mut tokens);
        self.tokens.keep(tokens);
    }

    /// Takes back a list of parts.
    pub(crate) fn keep_parts(&mut self, parts: Vec<Part>) {
        self.parts.keep(parts);
    }
}
