//! The parentheses and commas of a call.

ghost use Rattle.std.specs.Prelude.{◌≡◌, ◌≤◌, ◌<◌, ◌+◌, ◌^◌, ◌&&◌, ◌==◌};
ghost use Rattle.pp_model.specs.Calls.{is_comma, is_left_paren, is_right_paren, nesting, nesting_after};
ghost use Rattle.pp_model.specs.CallNesting.{nesting_named};

use pp_lexer::token::{Punct, TokenValue};

/// The position of a token among the parentheses of a call.
#[derive(Clone, Copy)]
pub enum Nesting {
    /// It closes the call.
    Closes,
    /// This many inner parentheses are open after it.
    Within(u32),
    /// It opens one too many.
    TooMany,
}

/// Returns whether the value is a `(`.
pub fn is_left_paren(value: &TokenValue) -> bool
    ensures { result ≡ is_left_paren value.now }
{
    matches!(value, TokenValue::Punct(Punct::LeftParen))
}

/// Returns whether the value is a `)`.
pub fn is_right_paren(value: &TokenValue) -> bool
    ensures { result ≡ is_right_paren value.now }
{
    matches!(value, TokenValue::Punct(Punct::RightParen))
}

// Whether the value is a comma.
fn is_comma(value: &TokenValue) -> bool
    ensures { result ≡ is_comma value.now }
{
    matches!(value, TokenValue::Punct(Punct::Comma))
}

/// Returns the position of a token of a call, if `depth` inner parentheses are open before it.
pub fn nesting_of(depth: u32, value: &TokenValue) -> Nesting
    ensures { nesting depth value.now ≡ nesting_named result }
{
    if is_left_paren(value) {
        if depth < u32::MAX {
            Nesting::Within(depth + 1)
        } else {
            Nesting::TooMany
        }
    } else if is_right_paren(value) {
        if depth == 0 {
            Nesting::Closes
        } else {
            Nesting::Within(depth - 1)
        }
    } else {
        Nesting::Within(depth)
    }
}

/// Returns whether an argument ends at a token, if `depth` inner parentheses are open before it.
pub fn ends_argument(depth: usize, value: &TokenValue) -> bool
    ensures { result ≡ (is_comma value.now && (depth == 0)) }
{
    is_comma(value) && depth == 0
}

/// Returns how many inner parentheses are open after a token, if `depth` are open before it.
pub fn nesting_after(depth: usize, value: &TokenValue) -> usize
    requires { depth + 1 < 2 ^ 64 }
    ensures is { result ≡ nesting_after depth value.now }
    ensures most { result ≤ depth + 1 }
{
    if is_left_paren(value) {
        depth + 1
    } else if is_right_paren(value) {
        depth.saturating_sub(1)
    } else {
        depth
    }
}
