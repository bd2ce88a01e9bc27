//! The lexer of a preprocessor for GLSL: the character phases, and tokens with their places.
#![tactic(auto)]

pub mod lexer;
pub mod rules;
pub mod token;
