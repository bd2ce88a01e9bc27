//! Tokens that are taken, and whether they may still open a macro.

ghost use Rattle.std.specs.Prelude.{◌≡◌};
ghost use Rattle.pp_model.specs.Painting.{read_in, taken_of, item_of};
ghost use Rattle.pp_model.specs.Places.{place_of};

use crate::outcome::{IncludeLine, Outcome};
use crate::place::{Place, PlacedFault, placed, unplaced};
use pp_lexer::token::{PreprocessorError, Token};

/// A token that is read, the text that it is in, and whether it is painted. An identifier is painted if its name is
/// open, here or around, when it is taken. From then on it opens no macro.
#[derive(PartialEq, Eq, Debug, Drop)]
pub struct Read {
    /// The token.
    pub token: Token,
    /// The number of the text in which its place is.
    pub text: u32,
    /// Whether it is painted.
    pub painted: bool,
}

impl Read {
    /// Returns a token of this text unpainted, as every token of a text and of a body begins.
    pub fn of_text(token: Token, text: u32) -> Read
        ensures { result ≡ read_in text token }
    {
        Read {
            token,
            text,
            painted: false,
        }
    }

    /// Returns its place.
    pub fn place(&self) -> Place
        ensures { result ≡ place_of self.now }
    {
        Place::in_text(self.text, self.token.location)
    }
}

/// What is taken from a splice list or a reader, and the result of expanding it.
#[derive(PartialEq, Eq, Debug, Drop)]
pub enum Taken {
    /// A token, or a `#version`, `#extension` or `#pragma` line.
    Token(Read),
    /// An error.
    Fault(PlacedFault),
    /// The end: nothing is left.
    End,
}

impl Taken {
    /// Returns an outcome of reading this text, unpainted.
    pub fn of_text(text: u32, outcome: Outcome) -> Taken
        ensures { result ≡ taken_of text outcome }
    {
        match outcome {
            Outcome::Token(token) => Taken::Token(Read::of_text(token, text)),
            Outcome::Fault(fault) => Taken::Fault(placed(text, fault)),
            Outcome::Include(line) => Taken::Fault((
                PreprocessorError::UnknownDirective,
                Place::asking(text, line),
            )),
            Outcome::End => Taken::End,
        }
    }

    /// Returns the item, without its paint and its text.
    pub fn into_item(self) -> Outcome
        ensures { result ≡ item_of self }
    {
        match self {
            Taken::Token(read) => Outcome::Token(read.token),
            Taken::Fault(fault) => match fault.1.asks {
                Some(rest) => Outcome::Include(IncludeLine {
                    word: fault.1.location,
                    rest,
                }),
                None => Outcome::Fault(unplaced(fault)),
            },
            Taken::End => Outcome::End,
        }
    }
}
