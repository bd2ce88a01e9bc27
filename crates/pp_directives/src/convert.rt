//! Tokens of the lexer as tokens of the preprocessor.

ghost use Rattle.std.specs.Prelude.{◌≡◌, ◌≢◌, Ok, IsTrue, IfOk};
ghost use Rattle.std.specs.Str.{IsAscii};
ghost use Rattle.pp_lexer.specs.PlainItems.{token_of};
ghost use Rattle.pp_lexer.specs.declared.lexer.plain.Form.TheVariants.{Hash};
ghost use Rattle.pp_macros.specs.Held.{HoldsOrdinary};
ghost use Rattle.pp_lexer.specs.TokenValue.{is_ordinary};
ghost use Rattle.pp_lexer.specs.declared.lexer.item.TokenValue.TheVariants.{NewLine};
ghost use Rattle.pp_model.specs.Conversions.{conversion};
ghost use Rattle.pp_macros.specs.Item.{as_placed_step};
ghost use Rattle.pp_directives.specs.WordTokens.{word_token};

use pp_lexer::lexer::{self, Form, PlainItem, without_suffix};
use pp_lexer::token::{Float, Integer, Text, Token, TokenValue};
use pp_macros::step::{PlacedExit, PlacedStep};
use pp_model::conversion::convert_lexer_token;
use pp_model::place::placed;
use std::alloc::{AllocError, Global};

/// The token of the preprocessor as a step over this text: for a number sign it is an error at its place.
pub fn placed_token(text: u32, token: lexer::Token) -> PlacedStep<Token>
    requires { token.value ≢ NewLine }
    ensures is { result ≡ as_placed_step text (conversion token) }
    ensures ordinary { IfOk result (λ token. IsTrue (is_ordinary token.value)) }
{
    convert_lexer_token(token).map_err(|fault| PlacedExit::Error(placed(text, fault)))
}

// The text with this spelling.
#[inline(always)]
fn text_of(alloc: Global, spelling: &str) -> Result<Text, AllocError>
    requires { IsAscii spelling.now }
    ensures { IfOk result (λ text. text ≡ spelling.now) }
{
    Ok(Text::from(String::from_str(alloc, spelling)?))
}

/// The token of a word of plain text. The error is that its text could not be allocated.
#[inline(always)]
pub fn word_token(alloc: Global, item: PlainItem<'_>) -> Result<Token, AllocError>
    requires no_hash { item.form ≢ Hash }
    requires ascii { IsAscii item.spelling.now }
    ensures is { IfOk result (λ token. conversion (token_of item.entry) ≡ Ok token) }
    ensures word { IfOk result (λ token. token ≡ word_token item.entry) }
    ensures holds { IfOk result (λ token. HoldsOrdinary token.value) }
{
    let value = match item.form {
        Form::Identifier => TokenValue::Ident(text_of(alloc, item.spelling)?),
        Form::Integer(value) => TokenValue::Integer(Integer {
            value,
            signed: true,
            width: 32,
        }),
        Form::Unsigned(value) => TokenValue::Integer(Integer {
            value,
            signed: false,
            width: 32,
        }),
        Form::Float => TokenValue::Float(Float {
            text: text_of(alloc, item.spelling)?,
            width: 32,
        }),
        Form::SuffixedFloat => TokenValue::Float(Float {
            text: text_of(alloc, without_suffix(item.spelling))?,
            width: 32,
        }),
        Form::Punct(punct) => TokenValue::Punct(punct),
        Form::Hash => unreachable!(),
    };
    Ok(Token {
        value,
        location: item.location,
    })
}
