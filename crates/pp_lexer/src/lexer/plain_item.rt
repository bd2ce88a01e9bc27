//! The next item as a word of plain text, before memory is taken for it.

ghost use Rattle.std.specs.Prelude.{◌≡◌, true, IfOk, MatchResult};
ghost use Rattle.std.specs.Str.{IsAscii};
ghost use Rattle.pp_lexer.specs.LexerToken.{holds_memory};
ghost use Rattle.pp_lexer.specs.PlainItems.{value_of, without_suffix};

use crate::lexer::item::TokenValue;
use crate::lexer::plain::Form;
use crate::token::{Float, Integer, Location, Text};
use std::alloc::{AllocError, Global};

/// A word of plain text with its place: a token without the memory that its value takes.
#[derive(Clone, Copy)]
pub struct PlainItem<'a> {
    /// What the word is.
    pub form: Form,
    /// Its bytes in the source.
    pub spelling: &'a str,
    /// Its place.
    pub location: Location,
    /// Whether it is the first of the text or of its line, or comes after a blank or a comment.
    pub leading_whitespace: bool,
    /// Whether only blanks and comments come before it on its line.
    pub start_of_line: bool,
    /// What is left of the source after it.
    pub rest: &'a str,
}

/// The spelling without its last byte.
#[inline(always)]
pub fn without_suffix(spelling: &str) -> &str
    requires { IsAscii spelling.now }
    ensures value { result.now ≡ without_suffix spelling.now }
    ensures ascii { IsAscii result.now }
{
    if spelling.is_empty() {
        return spelling;
    }
    &spelling[..spelling.len() - 1]
}

// The text with this spelling.
#[inline(always)]
fn ascii_text(alloc: Global, spelling: &str) -> Result<Text, AllocError>
    requires { IsAscii spelling.now }
    ensures { IfOk result (λ text. text ≡ spelling.now) }
{
    Ok(Text::from(String::from_str(alloc, spelling)?))
}

/// The value of a word of this form with this spelling. The error is that the text of an identifier or of a float could
/// not be allocated.
#[inline(always)]
pub fn plain_value(alloc: Global, form: Form, spelling: &str) -> Result<TokenValue, AllocError>
    requires { IsAscii spelling.now }
    ensures { MatchResult result (λ value. value ≡ value_of form spelling.now)
        (λ _. (w : _) → holds_memory (value_of form w) ≡ true) }
{
    Ok(match form {
        Form::Identifier => TokenValue::Ident(ascii_text(alloc, spelling)?),
        Form::Integer(value) => TokenValue::Integer(Integer {
            value,
            signed: true,
            width: 32,
        }),
        Form::Unsigned(value) => TokenValue::Integer(Integer {
            value,
            signed: false,
            width: 32,
        }),
        Form::Float => TokenValue::Float(Float {
            text: ascii_text(alloc, spelling)?,
            width: 32,
        }),
        Form::SuffixedFloat => TokenValue::Float(Float {
            text: ascii_text(alloc, without_suffix(spelling))?,
            width: 32,
        }),
        Form::Punct(punct) => TokenValue::Punct(punct),
        Form::Hash => TokenValue::Hash,
    })
}
