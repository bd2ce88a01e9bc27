//! What `==` means: it decides whether two values are equal in all fields.

ghost use Rattle.std.specs.Prelude.{◌≡◌, ◌↔◌, IsTrue};

use crate::token::{Float, PreprocessorError, Token, TokenValue};

/// `==` of floats.
#[tactic(auto, using(crate::proofs::values::EqualityLemmas::float_decides))]
fn same_float(a: &Float, b: &Float) -> bool
    ensures { IsTrue result ↔ (a.now ≡ b.now) }
{
    *a == *b
}

/// `==` of token values.
#[tactic(auto, using(crate::proofs::values::EqualityLemmas::value_decides))]
fn same_value(a: &TokenValue, b: &TokenValue) -> bool
    ensures { IsTrue result ↔ (a.now ≡ b.now) }
{
    *a == *b
}

/// `==` of tokens.
#[tactic(auto, using(crate::proofs::values::EqualityLemmas::token_decides))]
fn same_token(a: &Token, b: &Token) -> bool
    ensures { IsTrue result ↔ (a.now ≡ b.now) }
{
    *a == *b
}

/// `==` of errors.
#[tactic(auto, using(crate::proofs::values::EqualityLemmas::error_decides))]
fn same_error(a: &PreprocessorError, b: &PreprocessorError) -> bool
    ensures { IsTrue result ↔ (a.now ≡ b.now) }
{
    *a == *b
}
