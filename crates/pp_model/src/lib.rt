//! The definitions of preprocessing, in `specs/`, the types that they name, and laws about them. The crate
//! `pp_reference` has a plain, slow program that computes them. The value of the words of an `#if`, `#elif` or `#line`
//! line is computed here, for that program and for the preprocessor.
#![tactic(auto)]

pub mod block;
pub mod call;
pub mod conversion;
pub mod copies;
pub mod definition;
pub mod directive;
pub mod laws;
pub mod line_value;
pub mod names;
pub mod numbering;
pub mod outcome;
pub mod parentheses;
pub mod place;
pub mod read;
pub mod sight;
pub mod splice;
pub mod step;
pub mod truth;
pub mod word;
