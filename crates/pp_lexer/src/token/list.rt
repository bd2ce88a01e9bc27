//! Lists of tokens: made from a `Vec`, turned into one, and read.

ghost use Rattle.std.specs.Prelude.{◌≡◌, ◌<◌, ◌^◌, [], ◌↔◌, IsTrue, List, Some, count_by, length, slice_get};
ghost use Rattle.std.specs.Iterator.Adapters.{IterYieldsInOrder};
ghost use Rattle.std.specs.Slice.Iter.{iter_rest};
ghost use Rattle.pp_lexer.specs.Entry.{is_outermost};
ghost use Rattle.pp_lexer.specs.Preorder.{preorder};
ghost use Rattle.pp_lexer.specs.declared.token.Token.{Token};

use crate::token::{Token, Tokens};
use std::ops::Index;
use std::{fmt, slice};

impl Tokens {
    /// Returns the tokens as a slice.
    pub fn as_slice(&self) -> &[Token]
        ensures { preorder result.now ≡ self.now }
    {
        self.items.as_slice()
    }

    /// Returns an iterator over the tokens, in their order. Those inside a directive come with it.
    pub fn iter(&self) -> slice::Iter<'_, Token>
        ensures tokens { preorder (iter_rest result) ≡ self.now }
        ensures len { length (iter_rest result) ≡ count_by is_outermost self.now }
        ensures bound { length (iter_rest result) < 2 ^ 64 }
        ensures runs { IterYieldsInOrder Token }
    {
        self.items.iter()
    }

    /// Returns the number of tokens. Those inside a directive don't count.
    pub fn len(&self) -> usize
        ensures { result ≡ count_by is_outermost self.now }
    {
        self.items.len()
    }

    /// Returns whether the list has no token.
    pub fn is_empty(&self) -> bool
        ensures empty { IsTrue result ↔ (self.now ≡ []) }
        ensures len { IsTrue result ↔ (count_by is_outermost self.now ≡ 0) }
    {
        self.items.is_empty()
    }
}

impl From<Vec<Token>> for Tokens {
    ghost from_gives = { λ items tokens. tokens ≡ preorder items.items };

    fn from(items: Vec<Token>) -> Self {
        Tokens { items }
    }
}

/// Gives the tokens back. It allocates nothing.
impl From<Tokens> for Vec<Token> {
    ghost from_gives = { λ tokens items. preorder items.items ≡ tokens };

    fn from(tokens: Tokens) -> Self {
        let Tokens { items } = tokens;
        items
    }
}

/// Gives what `iter` gives.
impl<'a> IntoIterator for &'a Tokens {
    type Item = &'a Token;

    type IntoIter = slice::Iter<'a, Token>;

    ghost into_iter_gives = { λ tokens it. (preorder (iter_rest it) ≡ tokens.now)
        × (length (iter_rest it) < 2 ^ 64) × IterYieldsInOrder Token };

    fn into_iter(self) -> slice::Iter<'a, Token> {
        self.iter()
    }
}

/// Gives the token at an index below `len`.
impl Index<usize> for Tokens {
    type Output = Token;

    ghost can_index = { λ tokens index. index < count_by is_outermost tokens };

    ghost index_gives = { λ tokens index token. (items : List Token)
        × (preorder items ≡ tokens) × (slice_get items index ≡ Some token) };

    fn index(&self, index: usize) -> &Token {
        &self.items[index]
    }
}

/// Writes what `Debug` of a `Vec` writes.
impl fmt::Debug for Tokens {
    #[cycle(tokens_debug)]
    fn fmt<W: fmt::Write>(&self, f: &mut fmt::Formatter<W>) -> fmt::Result {
        fmt::Debug::fmt(&self.items, f)
    }
}
