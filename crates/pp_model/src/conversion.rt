//! Tokens of the lexer as tokens of the preprocessed source, or as faults.

ghost use Rattle.std.specs.Prelude.{◌≡◌, ◌≢◌, IsTrue, IfOk};
ghost use Rattle.pp_lexer.specs.TokenValue.{is_ordinary};
ghost use Rattle.pp_lexer.specs.declared.lexer.item.TokenValue.TheVariants.{NewLine};
ghost use Rattle.pp_model.specs.Conversions.{conversion, refused_token};

use crate::outcome::Fault;
use pp_lexer::lexer;
use pp_lexer::token::{Location, PreprocessorError, Token, TokenValue};

/// The token with its value and place.
///
/// A `#` is no token of the preprocessed source: it is `UnexpectedHash` at its place. A newline has no result, since
/// each caller handles it as a separator. It allocates nothing.
pub fn convert_lexer_token(token: lexer::Token) -> Result<Token, (PreprocessorError, Location)>
    requires { token.value ≢ NewLine }
    ensures is { result ≡ conversion token }
    ensures ordinary { IfOk result (λ token. IsTrue (is_ordinary token.value)) }
{
    let location = token.location;
    let value = match token.value {
        lexer::TokenValue::Ident(name) => TokenValue::Ident(name),
        lexer::TokenValue::Integer(integer) => TokenValue::Integer(integer),
        lexer::TokenValue::Float(float) => TokenValue::Float(float),
        lexer::TokenValue::Punct(punct) => TokenValue::Punct(punct),
        lexer::TokenValue::Hash => return Err((PreprocessorError::UnexpectedHash, location)),
        lexer::TokenValue::NewLine => unreachable!(),
    };
    Ok(Token { value, location })
}

/// Returns the fault of a token that isn't allowed at its position.
pub fn refused_token(token: lexer::Token) -> Fault
    ensures { result ≡ refused_token token }
{
    if matches!(token.value, lexer::TokenValue::NewLine) {
        return (PreprocessorError::UnexpectedNewLine, token.location);
    }
    match convert_lexer_token(token) {
        Ok(token) => (
            PreprocessorError::UnexpectedToken(token.value),
            token.location,
        ),
        Err(fault) => fault,
    }
}
