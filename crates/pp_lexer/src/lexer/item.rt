//! The items of the Lexer: tokens with their places, and errors.

ghost use Rattle.std.specs.Prelude.{◌≡◌, ◌↔◌, false, IsTrue, IsOk, MatchResult};

use crate::token::{Float, Integer, Location, PreprocessorError, Punct, Text, refused};
use std::alloc::Global;

/// The value of a token of the Lexer: an ordinary token, a newline or a `#`.
#[derive(PartialEq, Eq, Debug, Drop)]
pub enum TokenValue {
    /// A `#`.
    Hash,
    /// The end of a line.
    NewLine,
    /// An identifier or a keyword.
    Ident(Text),
    /// An integer literal.
    Integer(Integer),
    /// A float literal.
    Float(Float),
    /// A punctuator.
    Punct(Punct),
}

/// A token of the Lexer, with its place and its whitespace flags.
#[derive(PartialEq, Eq, Debug, Drop)]
pub struct Token {
    /// Its value.
    pub value: TokenValue,
    /// Its place in the source.
    pub location: Location,
    /// Whether it is the first of the text or of its line, or comes after a blank or a comment.
    pub leading_whitespace: bool,
    /// Whether only blanks and comments come before it on its line.
    pub start_of_line: bool,
}

/// An item of the Lexer: a token, or an error with its place.
pub type LexerItem = Result<Token, (PreprocessorError, Location)>;

impl From<Punct> for TokenValue {
    ghost use Rattle.std.specs.Prelude.{◌≡◌};
    ghost use Rattle.pp_lexer.specs.declared.lexer.item.TokenValue.TheVariants.{Punct as punct_value};

    ghost from_gives = { λ punct value. value ≡ punct_value punct };

    fn from(punct: Punct) -> Self {
        TokenValue::Punct(punct)
    }
}

impl TokenValue {
    ghost use Rattle.pp_lexer.specs.PreprocessorError.{out_of_memory};
    ghost use Rattle.pp_lexer.specs.LexerToken.{holds_memory};

    /// Returns a copy. The only error is `OutOfMemory`, as `out_of_memory` returns it. Only the
    /// copy of an identifier or a float can fail.
    pub fn clone(&self, alloc: Global) -> Result<Self, (PreprocessorError, Location)>
        ensures copied { MatchResult result (λ copy. copy ≡ self.now) (λ error. error
            ≡ out_of_memory) }
        ensures without_memory { holds_memory self.now ≡ false → IsOk result }
    {
        Ok(match self {
            TokenValue::Hash => TokenValue::Hash,
            TokenValue::NewLine => TokenValue::NewLine,
            TokenValue::Ident(text) => TokenValue::Ident(text.try_clone(alloc).map_err(refused)?),
            TokenValue::Integer(integer) => TokenValue::Integer(*integer),
            TokenValue::Float(float) => TokenValue::Float(float.clone(alloc)?),
            TokenValue::Punct(punct) => TokenValue::Punct(*punct),
        })
    }
}

impl Token {
    ghost use Rattle.pp_lexer.specs.PreprocessorError.{out_of_memory};
    ghost use Rattle.pp_lexer.specs.LexerToken.{holds_memory};

    /// Returns a copy. The only error is `OutOfMemory`, as `out_of_memory` returns it. Only the
    /// copy of an identifier or a float can fail.
    pub fn clone(&self, alloc: Global) -> Result<Self, (PreprocessorError, Location)>
        ensures copied { MatchResult result (λ copy. copy ≡ self.now) (λ error. error
            ≡ out_of_memory) }
        ensures without_memory { holds_memory self.now.value ≡ false → IsOk result }
    {
        Ok(Token {
            value: self.value.clone(alloc)?,
            location: self.location,
            leading_whitespace: self.leading_whitespace,
            start_of_line: self.start_of_line,
        })
    }
}

// Whether two tokens are equal in all fields, as `==` decides.
#[tactic(auto, using(crate::proofs::values::EqualityLemmas::lexer_token_decides))]
fn same_token(a: &Token, b: &Token) -> bool
    ensures { IsTrue result ↔ (a.now ≡ b.now) }
{
    *a == *b
}
