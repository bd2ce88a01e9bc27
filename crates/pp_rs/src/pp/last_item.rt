//! What is kept of the last item.

ghost use Rattle.std.specs.Prelude.{◌≡◌};
ghost use Rattle.pp_rs.specs.Kept.{from_text, last_error};

use crate::token::Location;
use pp_model::place::Place;
use pp_model::splice::CallPlace;
use std::marker::Model;

/// What is kept of the last item: its text, and if it is an error its call and, if it asks for a text, the rest of its
/// line.
#[derive(Drop)]
pub(crate) struct LastItem {
    text: u32,
    // Whether the item is an error. What follows is of the last error, so that no token has to clear it.
    is_error: bool,
    error_call: Option<CallPlace>,
    error_asks: Option<Location>,
}

impl Model for LastItem {
    ghost use Rattle.std.specs.Prelude.{if◌then◌else◌, None};
    ghost use Rattle.pp_rs.specs.Kept as kept;

    ghost Value = { kept.LastItem };

    ghost view = { λ l. record {
      text = l.text;
      call = if l.is_error then l.error_call else None;
      asks = if l.is_error then l.error_asks else None;
    } };
}

impl LastItem {
    /// An item of this text that is no error.
    pub fn from_text(text: u32) -> LastItem
        ensures { result ≡ from_text text }
    {
        LastItem {
            text,
            is_error: false,
            error_call: None,
            error_asks: None,
        }
    }

    /// Notes an item of this text that is no error.
    #[inline(always)]
    pub fn set_text(&mut self, text: u32)
        ensures { self.new ≡ from_text text }
    {
        self.text = text;
        self.is_error = false;
    }

    /// Notes an error at this place.
    pub fn set_error(&mut self, place: Place)
        ensures { self.new ≡ last_error place }
    {
        self.text = place.text;
        self.is_error = true;
        self.error_call = place.call;
        self.error_asks = place.asks;
    }

    /// Notes the end, or a text that comes next, which leaves the text of the item as it is.
    pub fn set_end(&mut self)
        ensures { self.new ≡ from_text self.old.text }
    {
        self.is_error = false;
    }

    /// The text of the item.
    pub fn text(&self) -> u32
        ensures { result ≡ self.now.text }
    {
        self.text
    }

    /// The call of the item, if it is an error.
    pub fn call(&self) -> Option<CallPlace>
        ensures { result ≡ self.now.call }
    {
        if self.is_error { self.error_call } else { None }
    }

    /// The rest of the line of the item, if it is an error that asks for a text.
    pub fn asks(&self) -> Option<Location>
        ensures { result ≡ self.now.asks }
    {
        if self.is_error { self.error_asks } else { None }
    }
}
