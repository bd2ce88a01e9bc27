//! Tests that no data can hold: of values that no source gives, of symbols, of readers and writers of std, and of how a
//! run ends. What data can hold is in `pp_vectors` and `test_calls`, whose programs read it, and in the scripts of
//! `tests`. The tests of all crates are here, since a crate with tests is proved twice.
#![tactic(auto)]

#[cfg(test)]
mod devices;
#[cfg(test)]
mod expressions;
#[cfg(test)]
mod failing;
#[cfg(test)]
mod program;
#[cfg(test)]
mod rules;
#[cfg(test)]
mod tokens;
