//! What a caller in C passes and gets: items, definitions and sizes.

ghost use Rattle.std.specs.Prelude.{◌≡◌};
ghost use Rattle.pp_c.specs.Numbers.{bit_if};

/// An item, or a token or a place that one holds.
#[repr(C)]
#[derive(Clone, Copy)]
pub struct Item {
    /// What it is, as a number of the header: an error, a place, or a kind of token.
    pub kind: u16,
    /// The number of the error, or 0 if it is none.
    pub error: u16,
    /// Its flags, as bits.
    pub flags: u32,
    /// How many of the items after it belong to it, with those that belong to these: to an error its true place, and
    /// the token that it carries, if any; to a directive the tokens of its line.
    pub children: u32,
    /// The width of a number in bits.
    pub width: i32,
    /// The byte offset at which it begins.
    pub start: u32,
    /// The byte offset just after it.
    pub end: u32,
    /// The line on which it begins. The first line is 1.
    pub line: u32,
    /// The number of bytes of its text.
    pub text_length: u32,
    /// The value of an integer. For any other item, the byte offset of its text in `texts`.
    pub value: u64,
}

/// A definition. Its name and its content lie in `words`. In a call that takes texts it may also be one: then its
/// content is the text, and its name begins at 2^64 - 1.
#[repr(C)]
#[derive(Clone, Copy)]
pub struct Definition {
    /// The byte offset of the name in `words`, or 2^64 - 1 if it is a text.
    pub name_start: u64,
    /// The number of bytes of the name.
    pub name_length: u64,
    /// The byte offset of the content in `words`.
    pub content_start: u64,
    /// The number of bytes of the content.
    pub content_length: u64,
    /// After how many items it is added. Items that belong to another item don't count.
    pub after: u64,
    /// Written: 0 if it was added, and otherwise the error of its content.
    pub error: u32,
    /// Written: the byte offset in the content at which that error begins.
    pub start: u32,
    /// Written: the byte offset just after it.
    pub end: u32,
    /// Written: the 1-based line on which it begins.
    pub line: u32,
}

/// The first error of a content, and its place there.
#[repr(C)]
#[derive(Clone, Copy)]
pub struct ContentFault {
    /// The number of the error, or 0 if there is none.
    pub error: u32,
    /// The byte offset at which it begins.
    pub start: u32,
    /// The byte offset just after it.
    pub end: u32,
    /// The 1-based line on which it begins.
    pub line: u32,
}

/// How much room items and their texts take.
#[repr(C)]
#[derive(Clone, Copy)]
pub struct Sizes {
    /// The number of items, with those that belong to others.
    pub items: u64,
    /// The number of bytes of their texts.
    pub texts: u64,
}

/// A line and a column of a source.
#[repr(C)]
#[derive(Clone, Copy)]
pub struct Position {
    /// The line, from 1.
    pub line: u32,
    /// The column, in characters from 1.
    pub column: u32,
}

/// What an item is. Its number is that of the header.
#[derive(Clone, Copy)]
pub(crate) enum Kind {
    /// An error.
    Error,
    /// The place of an error in the source.
    Place,
    /// An identifier or a keyword.
    Ident,
    /// An integer literal.
    Integer,
    /// A float literal.
    Float,
    /// A `#version` line.
    Version,
    /// An `#extension` line.
    Extension,
    /// A `#pragma` line.
    Pragma,
    /// The end of a line. Only the lexer gives it.
    NewLine,
    /// A `#`. Only the lexer gives it.
    Hash,
    /// The rest of an `#include` line that asks for its text.
    IncludeLine,
}

/// The number of the first punctuator. The others follow in the order of `Punct`.
pub(crate) const FIRST_PUNCTUATOR: u16 = 16;

/// An integer without a suffix `u`.
pub(crate) const SIGNED: u32 = 1;

/// A `#version` before all other directives and tokens.
pub(crate) const FIRST_DIRECTIVE: u32 = 2;

/// A `#version` after a comment.
pub(crate) const COMMENTS_BEFORE: u32 = 4;

/// An `#extension` after an ordinary token.
pub(crate) const NON_DIRECTIVE_BEFORE: u32 = 8;

/// A token of the lexer at the start of a line, or after a blank or a comment.
pub(crate) const LEADING_WHITESPACE: u32 = 16;

/// A token of the lexer with only blanks and comments before it on its line.
pub(crate) const START_OF_LINE: u32 = 32;

/// The bit if the condition holds, and otherwise 0.
pub(crate) fn bit_if(condition: bool, bit: u32) -> u32
    ensures { result ≡ bit_if condition bit }
{
    if condition { bit } else { 0 }
}
