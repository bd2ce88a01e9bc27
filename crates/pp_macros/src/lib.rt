//! Macros: definitions, the expander over a reader of tokens, calls and their arguments. Also the blocks that are open.
#![tactic(auto)]

pub mod argument_lists;
pub mod arguments;
pub mod blocks;
pub mod budget;
pub mod calls;
pub mod define;
pub mod frames;
pub mod halt;
pub mod list_lexer;
pub mod list_step;
pub mod macro_processor;
mod marks;
pub mod names;
pub mod parameter_names;
pub mod reader;
pub mod spares;
pub mod step;
