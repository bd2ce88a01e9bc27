//! The contents of added definitions.

ghost use Rattle.std.specs.Prelude.{◌≡◌, ◌-◌, ◌^◌, ◌<◌, [], length, IfOk};
ghost use Rattle.pp_model.specs.Conversions.{is_newline};
ghost use Rattle.pp_model.specs.Run.{items_by, content_tokens};
ghost use Rattle.pp_macros.specs.inner.LineReading as spec;

use crate::source_lexer::SourceLexer;
use pp_lexer::lexer;
use pp_lexer::rules::Rules;
use pp_macros::define::Body;
use pp_macros::halt::Halt;
use pp_macros::parameter_names::ParameterNames;
use pp_model::conversion::convert_lexer_token;
use std::alloc::Global;

// Whether it is a newline.
fn is_newline(token: &lexer::Token) -> bool
    ensures { result ≡ is_newline token.now.value }
{
    matches!(token.value, lexer::TokenValue::NewLine)
}

/// The body that a content of fewer than 2^32 - 1 bytes is by these rules: its tokens without the newlines. The error
/// is the first error of the lexer or number sign in it, or that an allocation failed.
pub fn content_body(alloc: Global, content: &str, rules: Rules) -> Result<Body, Halt>
    requires { length content.now < 2 ^ 32 - 1 }
    ensures is { spec.Meets (λ body. body.tokens) result (content_tokens
        (items_by rules content.now)) }
    ensures parameters { IfOk result (λ body. body.parameters ≡ []) }
{
    let mut lexer = SourceLexer::new(alloc, content, rules);
    let mut body = Body::new(alloc, ParameterNames::new(alloc));
    'content: while let Some(token) = lexer.next_token()? {
        if !is_newline(&token) {
            body.push(convert_lexer_token(token)?)?;
        }
    }
    Ok(body)
}
