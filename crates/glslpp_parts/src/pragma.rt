//! What `#pragma` lines say.

use pp_rs::token::TokenValue;

/// Returns whether a directive is `#pragma once`.
pub fn is_once(value: &TokenValue) -> bool {
    let TokenValue::Pragma(pragma) = value else {
        return false;
    };
    match pragma.tokens.as_slice() {
        [word] => match &word.value {
            TokenValue::Ident(name) => name.as_str() == "once",
            _ => false,
        },
        _ => false,
    }
}
