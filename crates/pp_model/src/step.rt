//! One step of reading a source.

use crate::definition::{Named, TokenList};
use crate::outcome::Outcome;
use pp_lexer::token::Location;

/// What a token or a line of the source does.
#[derive(Drop)]
pub enum Step {
    /// It gives nothing.
    Passed,
    /// It gives this, or is the end.
    Given(Outcome),
    /// A `#define` of this name.
    Defines(Named),
    /// An `#if` or `#elif` with this place of its word, and the tokens of its line.
    Condition(Location, TokenList),
    /// A `#line` with this place of its word, and the tokens of its line.
    LineNumber(Location, TokenList),
}
