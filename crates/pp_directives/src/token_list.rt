//! Lists into which the tokens of a line are read.

ghost use Rattle.std.specs.Prelude.{◌≡◌, ◌∷◌, ◌++◌, ◌+◌, ◌<◌, ◌^◌, List, [], Some, None, OnOk, IfOk, IfSome, All};
ghost use Rattle.std.specs.Prelude.{MatchOption, drop, map};
ghost use Rattle.std.specs.Str.{IsAscii};
ghost use Rattle.pp_lexer.specs.declared.lexer.plain.Form.TheVariants.{Identifier};
ghost use Rattle.pp_lexer.specs.declared.token.Token.{Token};
ghost use Rattle.pp_macros.specs.inner.Bodies.{with_token};
ghost use Rattle.pp_directives.specs.WordTokens.{word_token};
ghost use Rattle.pp_directives.specs.inner.TokenLists.{Kept, IsReadable, token_of};
ghost use Rattle.pp_model.specs.Painting.{read_in};

use crate::convert::word_token;
use pp_lexer::lexer::{Form, PlainItem};
use pp_lexer::token::Token;
use pp_macros::define::Body;
use pp_model::copies::copy_value;
use pp_model::place::Place;
use pp_model::read::Read;
use std::alloc::{AllocError, Global};
use std::marker::Model;

/// A token of a line. For a word of plain text no memory was taken yet.
#[derive(Drop)]
pub enum LineToken<'a> {
    /// A word of plain text, which is no `#`.
    Word(PlainItem<'a>),
    /// Any other token.
    Token(Token),
}

impl LineToken<'_> {
    // The token itself.
    #[inline(always)]
    fn into_token(self, alloc: Global) -> Result<Token, AllocError>
        requires { IsReadable self }
        ensures { IfOk result (λ token. token ≡ token_of self.entry) }
    {
        match self {
            LineToken::Word(word) => word_token(alloc, word),
            LineToken::Token(token) => Ok(token),
        }
    }

    // A copy of the token.
    fn copy(&self, alloc: Global) -> Result<Token, AllocError>
        requires { IsReadable self.now }
        ensures { IfOk result (λ token. token ≡ token_of self.now) }
    {
        match self {
            LineToken::Word(word) => word_token(alloc, *word),
            LineToken::Token(token) => Ok(Token {
                value: copy_value(alloc, &token.value)?,
                location: token.location,
            }),
        }
    }
}

/// A list of tokens that grows.
pub trait TokenList<'a> {
    // The tokens.
    ghost tokens: { Self → List Token };

    // What is kept with them, and stays.
    ghost kept: { Self → Kept };

    /// Puts the token after the others.
    fn put(&mut self, alloc: Global, token: LineToken<'a>) -> Result<(), AllocError>
        requires { IsReadable token }
        ensures tokens { OnOk result (tokens self.new ≡ tokens self.old ++ token_of token.entry ∷ []) }
        ensures kept { OnOk result (kept self.new ≡ kept self.old) };
}

impl<'a> TokenList<'a> for Vec<Token> {
    ghost tokens = { λ list. list.items };

    ghost kept = { λ list. record { directive = None; parameters = [] } };

    #[inline(always)]
    fn put(&mut self, alloc: Global, token: LineToken<'a>) -> Result<(), AllocError> {
        self.push(token.into_token(alloc)?)?;
        Ok(())
    }
}

// Puts the parameter or the other token that an identifier is after the others.
#[inline(always)]
fn push_identifier(body: &mut Body, alloc: Global, word: PlainItem<'_>) -> Result<(), AllocError>
    requires identifier { word.form ≡ Identifier }
    requires ascii { IsAscii word.spelling.now }
    ensures { OnOk result (body.new ≡ with_token body.old (word_token word.entry)) }
{
    if body.push_parameter(word.spelling, word.location)? {
        return Ok(());
    }
    body.push_other(word_token(alloc, word)?)
}

impl<'a> TokenList<'a> for Body {
    ghost tokens = { λ body. body.tokens };

    ghost kept = { λ body. record { directive = None; parameters = body.parameters } };

    #[inline(always)]
    fn put(&mut self, alloc: Global, token: LineToken<'a>) -> Result<(), AllocError> {
        match token {
            LineToken::Word(word) => match word.form {
                Form::Identifier => push_identifier(self, alloc, word),
                _ => self.push_other(word_token(alloc, word)?),
            },
            LineToken::Token(token) => self.push(token),
        }
    }
}

// The tokens of this text as an expander reads them.
fn reads_of(alloc: Global, text: u32, tokens: &[LineToken<'_>]) -> Result<Vec<Read>, AllocError>
    requires { All IsReadable tokens.now }
    ensures { IfOk result (λ reads. reads.items ≡ map (read_in text) (map token_of tokens.now)) }
{
    let mut reads = Vec::with_capacity(alloc, tokens.len())?;
    for token in tokens {
        reads.push(Read::of_text(token.copy(alloc)?, text))?;
    }
    Ok(reads)
}

/// The line of an `#if`, `#elif` or `#line`: the place of that word, and the tokens after it. They are of the text in
/// which the place is. Contracts see the place and the tokens.
#[derive(Drop)]
pub struct LineReads<'a> {
    directive: Place,
    tokens: Vec<LineToken<'a>>,
}

impl<'a> Model for LineReads<'a> {
    ghost use Rattle.std.specs.Prelude.{All, map};
    ghost use Rattle.pp_directives.specs.inner.LineReads.{LineTokens};
    ghost use Rattle.pp_directives.specs.inner.TokenLists.{IsReadable, token_of};

    ghost Value = { LineTokens };

    ghost view = { λ line. record { directive = line.directive; tokens = map token_of line.tokens.items } };

    ghost invariant = { λ line. All IsReadable line.tokens.items };
}

impl<'a> LineReads<'a> {
    /// No tokens after the word at this place, with room for those of a short line.
    pub fn new(alloc: Global, directive: Place) -> Result<LineReads<'a>, AllocError>
        ensures { IfOk result (λ line. line ≡ record { directive = directive; tokens = [] }) }
    {
        let tokens = Vec::with_capacity(alloc, 16)?;
        Ok(LineReads { directive, tokens })
    }

    /// The place of the word.
    pub fn directive(&self) -> Place
        ensures { result ≡ self.now.directive }
    {
        self.directive
    }

    /// The token at this position.
    #[inline(always)]
    pub fn token_at(&self, position: usize) -> Option<&LineToken<'a>>
        ensures found { MatchOption result (drop position self.now.tokens ≡ [])
            (λ token. drop position self.now.tokens ≡ token_of token.now ∷ drop (position + 1) self.now.tokens) }
        ensures readable { IfSome result (λ token. IsReadable token.now) }
        ensures small { IfSome result (λ _. position < 2 ^ 63) }
    {
        self.tokens.get(position)
    }

    /// The tokens as an expander reads them, none of them painted. The error is that an allocation failed.
    pub fn reads(&self, alloc: Global) -> Result<Vec<Read>, AllocError>
        ensures { IfOk result (λ reads. reads.items ≡ map (read_in self.now.directive.text) self.now.tokens) }
    {
        reads_of(alloc, self.directive.text, &self.tokens)
    }
}

impl<'a> TokenList<'a> for LineReads<'a> {
    ghost tokens = { λ list. list.tokens };

    ghost kept = { λ list. record { directive = Some list.directive; parameters = [] } };

    #[inline(always)]
    fn put(&mut self, _alloc: Global, token: LineToken<'a>) -> Result<(), AllocError> {
        self.tokens.push(token)?;
        Ok(())
    }
}
