//! The arguments of calls.

ghost use Rattle.std.specs.Prelude.{◌≡◌, IfOk};
ghost use Rattle.pp_model.specs.Calls.{arguments_of, misfit, paren_at, is_one_empty};

use crate::list::take_first;
use crate::lists::{ReadList, ReadLists};
use pp_lexer::token::{Location, PreprocessorError};
use pp_model::definition::Definition;
use pp_model::parentheses::{ends_argument, is_left_paren, nesting_after};
use pp_model::place::Place;
use pp_model::read::{Read, Taken};
use std::alloc::{AllocError, Global};
use std::marker::Model;

/// The tokens between the parentheses of a call, and the place of the closing one.
#[derive(Drop)]
pub struct Gathered {
    /// The tokens.
    pub tokens: Vec<Read>,
    /// The place of the `)`.
    pub closing: Location,
}

impl Model for Gathered {
    ghost use Rattle.pp_model.specs.Calls as spec;

    ghost Value = { spec.Gathered };

    ghost view = { λ g. record { tokens = g.tokens.items; closing = g.closing } };
}

/// The place of the `(`, if what was taken is one.
pub fn paren_at(taken: &Taken) -> Option<Place>
    ensures { result ≡ paren_at taken.now }
{
    match taken {
        Taken::Token(read) if is_left_paren(&read.token.value) => Some(read.place()),
        _ => None,
    }
}

/// The tokens of a call, cut at the commas outside inner parentheses.
pub fn arguments_of(alloc: Global, mut tokens: Vec<Read>) -> Result<ReadLists, AllocError>
    ensures { IfOk result (λ arguments. arguments ≡ arguments_of tokens.items) }
{
    let mut pieces = Vec::new(alloc);
    let mut piece = Vec::new(alloc);
    let mut depth: usize = 0;
    while let Some(read) = take_first(&mut tokens) {
        let after = nesting_after(depth, &read.token.value);
        if ends_argument(depth, &read.token.value) {
            pieces.push(ReadList { items: piece })?;
            piece = Vec::new(alloc);
        } else {
            piece.push(read)?;
        }
        depth = after;
    }
    pieces.push(ReadList { items: piece })?;
    Ok(ReadLists { items: pieces })
}

/// Whether there is one list, without a token.
fn is_one_empty(arguments: &[ReadList]) -> bool
    ensures { result ≡ is_one_empty arguments.now }
{
    match arguments {
        [only] => only.items.is_empty(),
        _ => false,
    }
}

/// The error of a wrong number of arguments.
pub fn misfit(definition: &Definition, arguments: &ReadLists) -> Option<PreprocessorError>
    ensures { result ≡ misfit definition.now.parameters arguments.now }
{
    let wanted = definition.parameters.len();
    let given = arguments.items.len();
    if wanted == 0 && is_one_empty(&arguments.items) {
        None
    } else if wanted < given {
        Some(PreprocessorError::TooManyDefineArguments)
    } else if given < wanted {
        Some(PreprocessorError::TooFewDefineArguments)
    } else {
        None
    }
}
