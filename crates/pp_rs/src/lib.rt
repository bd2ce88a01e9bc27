//! A preprocessor for GLSL: source text becomes preprocessed tokens.
#![tactic(auto)]

pub use pp_lexer::lexer::SOURCE_LIMIT;
pub use pp_lexer::{lexer, rules, token};

pub mod laws;
pub mod pp;
