//! What a directive gives.

use pp_lexer::token::Token;
use pp_model::outcome::IncludeLine;

/// What a directive gives.
#[derive(Drop)]
pub enum Given {
    /// Nothing: it acts.
    Nothing,
    /// An item, which holds its line.
    Item(Token),
    /// An `#include` line, which asks for its text.
    Include(IncludeLine),
}
