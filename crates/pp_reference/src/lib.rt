//! A plain, slow program that computes the definitions of `pp_model`, so that they can be compared with worked sources.
#![tactic(auto)]

pub mod block;
pub mod calls;
pub mod condition;
pub mod conversion;
pub mod copies;
pub mod define_line;
pub mod definitions;
pub mod emitted;
pub mod expand;
pub mod expander;
pub mod item;
pub mod line;
pub mod line_words;
pub mod list;
pub mod lists;
pub mod names;
pub mod reader;
pub mod redefinition;
pub mod run;
pub mod sight;
pub mod source;
pub mod source_reader;
pub mod source_text;
pub mod stop;
