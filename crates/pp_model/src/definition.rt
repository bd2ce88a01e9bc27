//! Macros.

ghost use Rattle.std.specs.Prelude.{◌≡◌};
ghost use Rattle.pp_model.specs.Acts.{defined_in};

use pp_lexer::token::{Location, Text, Token};
use std::marker::Model;

/// A list of tokens.
#[derive(Drop)]
pub struct TokenList {
    /// The tokens.
    pub items: Vec<Token>,
}

impl Model for TokenList {
    ghost use Rattle.std.specs.Prelude.{List};
    ghost use Rattle.pp_lexer.specs.declared.token.Token.{Token};

    ghost Value = { List Token };

    ghost view = { λ list. list.items.items };
}

/// A name with its place.
#[derive(Drop)]
pub struct Placed {
    /// The name.
    pub name: Text,
    /// Its place.
    pub location: Location,
}

/// The definition of a macro.
#[derive(Drop)]
pub struct Definition {
    /// Whether it has parameters in parentheses, possibly none.
    pub function_like: bool,
    /// The names of its parameters, which are all different.
    pub parameters: Vec<Text>,
    /// The tokens that replace it.
    pub body: Vec<Token>,
    /// The number of the text in which their places are.
    pub text: u32,
}

impl Model for Definition {
    ghost use Rattle.pp_model.specs.Definitions as spec;

    ghost Value = { spec.Definition };

    ghost view = { λ d. record {
      function_like = d.function_like;
      parameters = d.parameters.items;
      body = d.body.items;
      text = d.text;
    } };
}

/// A definition with the name that a `#define` line gives it.
#[derive(Drop)]
pub struct Named {
    /// The name.
    pub name: Text,
    /// The place of the name.
    pub location: Location,
    /// The definition.
    pub definition: Definition,
}

impl Named {
    /// Returns what the line defines if it is a line of this text.
    pub fn in_text(mut self, text: u32) -> Named
        ensures { result ≡ defined_in text self }
    {
        self.definition.text = text;
        self
    }
}
