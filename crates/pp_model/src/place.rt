//! Places in texts, and errors with their places.

ghost use Rattle.std.specs.Prelude.{◌≡◌};
ghost use Rattle.pp_model.specs.Places.{asking, fault_in, in_text, place_in, placed, unasked, unplaced};

use crate::outcome::{Fault, IncludeLine};
use crate::splice::CallPlace;
use pp_lexer::token::{Location, PreprocessorError};

/// The number of the source among the texts. The contents that are added have the numbers from 1 on, in their order.
pub const SOURCE_TEXT: u32 = 0;

/// A place in one of the texts.
#[derive(PartialEq, Eq, Debug, Clone, Copy)]
pub struct Place {
    /// The bytes and the line.
    pub location: Location,
    /// The number of the text.
    pub text: u32,
    /// Where the outermost macro was called that was open when an error or a word of a line was found there, if one
    /// was.
    pub call: Option<CallPlace>,
    /// The rest of the line, if an `#include` line asks for its text there.
    pub asks: Option<Location>,
}

impl Place {
    /// Returns a place of this text.
    pub fn in_text(text: u32, location: Location) -> Place
        ensures { result ≡ in_text text location }
    {
        Place {
            location,
            text,
            call: None,
            asks: None,
        }
    }

    /// Returns the place of the word of an `#include` line of this text that asks for its text.
    pub fn asking(text: u32, line: IncludeLine) -> Place
        ensures { result ≡ asking text line }
    {
        Place {
            location: line.word,
            text,
            call: None,
            asks: Some(line.rest),
        }
    }

    /// Returns the place in this call, if there is one, in place of any call that it has.
    pub fn in_call(self, call: Option<CallPlace>) -> Place
        ensures { result ≡ place_in call self }
    {
        Place {
            location: self.location,
            text: self.text,
            call: call.or(self.call),
            asks: self.asks,
        }
    }
}

/// An error with its place in one of the texts.
pub type PlacedFault = (PreprocessorError, Place);

/// Returns an error of this text with its text.
pub fn placed(text: u32, fault: Fault) -> PlacedFault
    ensures { result ≡ placed text fault }
{
    (fault.0, Place::in_text(text, fault.1))
}

/// Returns the error in this call, if there is one, in place of any call that it has.
pub fn fault_in(call: Option<CallPlace>, fault: PlacedFault) -> PlacedFault
    ensures { result ≡ fault_in call fault }
{
    (fault.0, fault.1.in_call(call))
}

/// Returns an error that can't be answered: it asks for no text.
pub fn unasked(fault: PlacedFault) -> PlacedFault
    ensures { result ≡ unasked fault }
{
    let mut place = fault.1;
    place.asks = None;
    (fault.0, place)
}

/// Returns an error without its text and its call.
pub fn unplaced(fault: PlacedFault) -> Fault
    ensures { result ≡ unplaced fault }
{
    (fault.0, fault.1.location)
}
