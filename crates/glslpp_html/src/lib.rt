//! Sources as pages of HTML, whose text is that of the sources.
#![tactic(auto)]

pub mod overview;
pub mod page;
pub mod source;
mod style;
mod tag;
mod text;
mod whole;
