//! The lines that open, part and close blocks.

use pp_lexer::token::Location;

/// What a line does to a block.
#[derive(Clone, Copy, PartialEq, Eq)]
pub enum Part {
    /// `#if`, `#ifdef` or `#ifndef`
    Opens,
    /// `#elif`
    Elif,
    /// `#else`
    Else,
    /// `#endif`
    Closes,
}

/// A directive line that opens, parts or closes a block.
#[derive(Clone, Copy)]
pub struct BlockLine {
    /// The position of its `#` among the items of the source.
    pub position: usize,
    /// The place of its word.
    pub word: Location,
    /// What it does.
    pub part: Part,
}
