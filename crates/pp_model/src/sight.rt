//! What a reader meets at a position of a source.

use crate::directive::Directive;
use crate::outcome::Fault;
use pp_lexer::token::{Location, Token};

/// What a reader of a source meets.
#[derive(Drop)]
pub enum Sight {
    /// Nothing: the source is at its end.
    End,
    /// The end of a line.
    NewLine,
    /// An error of the lexer, also after the `#` of a directive.
    Fault(Fault),
    /// A token of the text.
    Token(Token),
    /// A `#` that is not the first on its line.
    Hash(Location),
    /// The `#` of a directive, alone on its line.
    Lone,
    /// The `#` of a directive, followed by something other than a word. This is the error that it
    /// has in live text.
    NoWord(Fault),
    /// The `#` of a directive, with its word and the word's place.
    Directive(Directive, Location),
}
