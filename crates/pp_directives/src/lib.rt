//! A source's reader: its directives act, and the tokens between them are given.
#![tactic(auto)]

pub mod content;
pub mod convert;
pub mod directive_halt;
pub mod directives;
pub mod given;
pub mod if_parser;
pub mod limit;
pub mod line_value;
mod line_words;
pub mod lines;
pub mod parameters;
mod plain_condition;
pub mod source_lexer;
pub mod source_reader;
pub mod suspended;
pub mod token_list;
mod words;
