//! The value of an expression of `#if`, `#elif` or `#line`, or its first fault (GLSL ES 3.20
//! section 3.4).
#![tactic(auto)]

mod arithmetic;
pub mod evaluator;
mod halt;
pub mod laws;
pub mod operator;
mod pending;
pub mod symbol;
