//! The list of tokens to read, into which macros are spliced.

use crate::read::Read;
use pp_lexer::token::{Location, Text};

/// Where a macro was called.
#[derive(PartialEq, Eq, Debug, Clone, Copy)]
pub struct CallPlace {
    /// The place of its name.
    pub name: Location,
    /// The number of the text in which that is.
    pub text: u32,
    /// The line that `__LINE__` gives within it, if it is the outermost macro: the line of an object-like macro's name,
    /// or of the `)` of a call.
    pub line: u32,
}

/// Where an item comes from.
#[derive(PartialEq, Eq, Debug, Clone, Copy)]
pub struct Origin {
    /// The number of the text in which its place is.
    pub text: u32,
    /// Where the outermost macro was called that was open when the token was taken or the error was found, if one was.
    pub call: Option<CallPlace>,
}

/// The end of a macro's replacement. The macro is open as long as its mark is in the list.
#[derive(Drop)]
pub struct EndMark {
    /// The macro's name.
    pub name: Text,
    /// Where it was called.
    pub call: CallPlace,
}

/// An entry of the list.
#[derive(Drop)]
pub enum Entry {
    /// A token to read.
    Plain(Read),
    /// The end of a macro's replacement.
    End(EndMark),
}
