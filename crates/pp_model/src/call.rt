//! Calls of a preprocessor, and their replies.

use crate::outcome::{Fault, Outcome};

/// A call.
#[derive(Clone, Copy)]
pub enum Call<'a> {
    /// `add_define` of this name with this content.
    AddDefine(&'a str, &'a str),
    /// `include` of this text.
    Include(&'a str),
    /// `next`.
    Next,
}

/// The reply to a call.
#[derive(PartialEq, Eq, Debug, Drop)]
pub enum Reply {
    /// The definition was added.
    Added,
    /// The definition has an error, and changes nothing.
    Refused(Fault),
    /// The text comes next.
    Included,
    /// The text would be inside too many others, and nothing changes.
    TooDeep,
    /// `next` returned the next item, or the end.
    Given(Outcome),
}
