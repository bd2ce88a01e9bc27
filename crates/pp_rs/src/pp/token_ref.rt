//! Tokens before memory is taken for them, and what takes them.

ghost use Rattle.std.specs.Prelude.{◌≡◌, ◌++◌, Bool, false, ⊤, IsTrue, IfOk, OnOk, OnErr, None, string_bytes};
ghost use Rattle.std.specs.Str.{chars};
ghost use Rattle.pp_lexer.specs.Spelling.{spelling};
ghost use Rattle.pp_directives.specs.WordTokens.{word_token, word_value};
ghost use Rattle.pp_lexer.specs.TokenValue.{is_ordinary};
ghost use Rattle.pp_rs.specs.inner.NextWord.{IsPlain};
ghost use Rattle.pp_rs.specs.TokenRefs.{TakesText, token_of, value_of};

use crate::lexer::{Form, PlainItem, without_suffix};
use crate::pp::spelling::{push_float, push_integer, push_punct};
use crate::token::{Float, Integer, Location, Punct, Text, Token, TokenValue};
use pp_model::splice::Origin;
use std::alloc::{AllocError, Global};

/// The value of an ordinary token, before memory is taken for it.
#[derive(Clone, Copy)]
pub enum ValueRef<'a> {
    /// An identifier or a keyword.
    Ident(&'a str),
    /// An integer.
    Integer(Integer),
    /// A float: its spelling, without a suffix, and its width in bits.
    Float(&'a str, i32),
    /// A punctuator.
    Punct(Punct),
}

/// An ordinary token, before memory is taken for it.
#[derive(Clone, Copy)]
pub struct TokenRef<'a> {
    /// What it is.
    pub value: ValueRef<'a>,
    /// Its place.
    pub location: Location,
    /// Where it comes from, as [`Preprocessor::origin`](crate::pp::Preprocessor::origin) tells it.
    pub origin: Origin,
}

/// What takes the tokens of [`Preprocessor::give_tokens`](crate::pp::Preprocessor::give_tokens).
pub trait TokenSink {
    ghost use Rattle.pp_rs.specs.declared.pp.token_ref.TokenRef.{TokenRef};

    // What it is once it has taken a token.
    ghost takes: { Self → TokenRef → Self → Type 0 };

    // What it is once memory has run out for one.
    ghost refuses: { Self → Self → Type 0 };

    // Whether it takes no more.
    ghost is_full: { Self → Bool };

    /// Takes a token. Fails only if an allocation fails.
    fn take(&mut self, token: TokenRef<'_>) -> Result<(), AllocError>
        requires { is_full self.old ≡ false }
        ensures taken { OnOk result (takes self.old token.entry self.new) }
        ensures refused { OnErr result (refuses self.old self.new) };

    /// Whether it takes no more tokens.
    fn is_full(&self) -> bool
        ensures { result ≡ is_full self.now };
}

/// A text takes the text of each token, as `spell_tokens` spells it, and a space after it. It is never full.
impl TokenSink for String {
    ghost takes = { TakesText };

    ghost refuses = { λ _ _. ⊤ };

    ghost is_full = { λ _. false };

    #[inline(always)]
    fn take(&mut self, token: TokenRef<'_>) -> Result<(), AllocError> {
        token.value.push_to(self)?;
        self.push(' ')
    }

    #[inline(always)]
    fn is_full(&self) -> bool {
        false
    }
}

impl<'a> TokenRef<'a> {
    /// The token with memory of its own. The error is that an allocation failed.
    pub fn to_token(self, alloc: Global) -> Result<Token, AllocError>
        ensures { IfOk result (λ token. token ≡ token_of self.entry) }
    {
        Ok(Token {
            value: self.value.to_value(alloc)?,
            location: self.location,
        })
    }

    // A word of this text, which no macro gave.
    #[inline(always)]
    pub(crate) fn of_word(text: u32, word: &PlainItem<'a>) -> TokenRef<'a>
        requires { IsPlain word.now }
        ensures token { token_of result ≡ word_token word.now }
        ensures origin { result.origin ≡ record { text = text; call = None } }
    {
        TokenRef {
            value: ValueRef::of_word(word),
            location: word.location,
            origin: Origin { text, call: None },
        }
    }

    // A token, and where it comes from.
    #[inline(always)]
    pub(crate) fn of_token(token: &'a Token, origin: Origin) -> TokenRef<'a>
        requires { IsTrue (is_ordinary token.now.value) }
        ensures token { token_of result ≡ token.now }
        ensures origin { result.origin ≡ origin }
    {
        TokenRef {
            value: ValueRef::of_value(&token.value),
            location: token.location,
            origin,
        }
    }
}

impl<'a> ValueRef<'a> {
    /// Appends the token's text, as `spell_tokens` spells it.
    ///
    /// Fails only if an allocation fails. Then nothing is appended.
    #[inline(always)]
    pub fn push_to(self, text: &mut String) -> Result<(), AllocError>
        ensures appended { OnOk result (chars (string_bytes text.new)
            ≡ chars (string_bytes text.old) ++ spelling (value_of self.entry)) }
        ensures refused { OnErr result (string_bytes text.new ≡ string_bytes text.old) }
    {
        match self {
            ValueRef::Ident(name) => text.push_str(name),
            ValueRef::Integer(integer) => push_integer(text, integer),
            ValueRef::Float(digits, width) => push_float(text, digits, width),
            ValueRef::Punct(punct) => push_punct(text, punct),
        }
    }

    // The value with memory of its own. The error is that an allocation failed.
    fn to_value(self, alloc: Global) -> Result<TokenValue, AllocError>
        ensures { IfOk result (λ value. value ≡ value_of self.entry) }
    {
        Ok(match self {
            ValueRef::Ident(name) => TokenValue::Ident(text_of(alloc, name)?),
            ValueRef::Integer(integer) => TokenValue::Integer(integer),
            ValueRef::Float(digits, width) => TokenValue::Float(Float {
                text: text_of(alloc, digits)?,
                width,
            }),
            ValueRef::Punct(punct) => TokenValue::Punct(punct),
        })
    }

    // The value of a word of plain text.
    #[inline(always)]
    fn of_word(word: &PlainItem<'a>) -> ValueRef<'a>
        requires { IsPlain word.now }
        ensures { value_of result ≡ word_value word.now.form word.now.spelling.now }
    {
        match word.form {
            Form::Identifier => ValueRef::Ident(word.spelling),
            Form::Integer(value) => ValueRef::Integer(Integer {
                value,
                signed: true,
                width: 32,
            }),
            Form::Unsigned(value) => ValueRef::Integer(Integer {
                value,
                signed: false,
                width: 32,
            }),
            Form::Float => ValueRef::Float(word.spelling, 32),
            Form::SuffixedFloat => ValueRef::Float(without_suffix(word.spelling), 32),
            Form::Punct(punct) => ValueRef::Punct(punct),
            Form::Hash => unreachable!(),
        }
    }

    // The value of an ordinary token.
    #[inline(always)]
    pub(crate) fn of_value(value: &'a TokenValue) -> ValueRef<'a>
        requires { IsTrue (is_ordinary value.now) }
        ensures { value_of result ≡ value.now }
    {
        match value {
            TokenValue::Ident(name) => ValueRef::Ident(name.as_str()),
            TokenValue::Integer(integer) => ValueRef::Integer(*integer),
            TokenValue::Float(float) => ValueRef::Float(float.text.as_str(), float.width),
            TokenValue::Punct(punct) => ValueRef::Punct(*punct),
            TokenValue::Version(_) | TokenValue::Extension(_) | TokenValue::Pragma(_) => {
                unreachable!()
            }
        }
    }
}

// A text of these characters.
fn text_of(alloc: Global, characters: &str) -> Result<Text, AllocError>
    ensures { IfOk result (λ text. text ≡ chars characters.now) }
{
    Ok(Text::from(String::from_str(alloc, characters)?))
}
