//! The outcomes of reading and expanding.

use pp_lexer::token::{Location, PreprocessorError, Token};

/// An error with its place.
pub type Fault = (PreprocessorError, Location);

/// An `#include` line that is asked for its text.
#[derive(PartialEq, Eq, Debug, Clone, Copy)]
pub struct IncludeLine {
    /// The place of its word.
    pub word: Location,
    /// The place of the rest of its line: from the end of the word to the line's end, with blanks and comments.
    pub rest: Location,
}

/// An outcome of reading a source, or of expanding it.
#[derive(PartialEq, Eq, Debug, Drop)]
pub enum Outcome {
    /// A token, or a `#version`, `#extension` or `#pragma` line.
    Token(Token),
    /// An error.
    Fault(Fault),
    /// An `#include` line.
    Include(IncludeLine),
    /// The end: nothing is left.
    End,
}
