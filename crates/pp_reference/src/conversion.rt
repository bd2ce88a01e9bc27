//! Tokens of the lexer as tokens of the preprocessed source, or as faults.

ghost use Rattle.std.specs.Prelude.{◌≡◌, IfOk};
ghost use Rattle.pp_model.specs.Conversions as spec;
ghost use Rattle.pp_reference.specs.inner.Halting.{Meets};

use crate::stop::{Halt, Stop};
use pp_lexer::lexer;
use pp_lexer::token::{PreprocessorError, Punct, Text, Token};
use pp_model::conversion;
use pp_model::conversion::convert_lexer_token;
use pp_model::outcome::Fault;
use std::alloc::Global;

/// Whether it is the end of a line.
pub fn is_newline(value: &lexer::TokenValue) -> bool
    ensures { result ≡ spec.is_newline value.now }
{
    matches!(value, lexer::TokenValue::NewLine)
}

pub fn is_hash(value: &lexer::TokenValue) -> bool
    ensures { result ≡ spec.is_hash value.now }
{
    matches!(value, lexer::TokenValue::Hash)
}

pub fn opens_parameters(value: &lexer::TokenValue) -> bool
    ensures { result ≡ spec.opens_parameters value.now }
{
    matches!(value, lexer::TokenValue::Punct(Punct::LeftParen))
}

pub fn closes_parameters(value: &lexer::TokenValue) -> bool
    ensures { result ≡ spec.closes_parameters value.now }
{
    matches!(value, lexer::TokenValue::Punct(Punct::RightParen))
}

pub fn parts_parameters(value: &lexer::TokenValue) -> bool
    ensures { result ≡ spec.parts_parameters value.now }
{
    matches!(value, lexer::TokenValue::Punct(Punct::Comma))
}

/// The token with its value and place. A `#` and a newline are faults.
pub fn conversion(alloc: Global, token: &lexer::Token) -> Result<Token, Halt>
    ensures { Meets result (spec.conversion token.now) }
{
    let copy = token.clone(alloc).map_err(|_| Stop::OutOfMemory)?;
    if is_newline(&copy.value) {
        return Err(Halt::Fault((PreprocessorError::UnexpectedNewLine, copy.location)));
    }
    Ok(convert_lexer_token(copy)?)
}

/// The fault of a token that isn't allowed at its position.
pub fn refused_token(alloc: Global, token: &lexer::Token) -> Result<Fault, Stop>
    ensures { IfOk result (λ fault. fault ≡ spec.refused_token token.now) }
{
    let copy = token.clone(alloc).map_err(|_| Stop::OutOfMemory)?;
    Ok(conversion::refused_token(copy))
}

/// The text of the value, if it is an identifier.
pub fn identifier_of(alloc: Global, value: &lexer::TokenValue) -> Result<Option<Text>, Stop>
    ensures { IfOk result (λ name. name ≡ spec.identifier_of value.now) }
{
    match value {
        lexer::TokenValue::Ident(name) => Ok(Some(name.try_clone(alloc)?)),
        _ => Ok(None),
    }
}
