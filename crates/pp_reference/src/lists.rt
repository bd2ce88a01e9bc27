//! Lists of tokens with their paint, lists of such lists, and lists of names.

use pp_lexer::token::Text;
use pp_model::read::Read;
use std::marker::Model;

/// A list of tokens with their paint.
#[derive(Drop)]
pub struct ReadList {
    /// The tokens.
    pub items: Vec<Read>,
}

impl Model for ReadList {
    ghost use Rattle.std.specs.Prelude.{List};
    ghost use Rattle.pp_model.specs.declared.read.Read.{Read};

    ghost Value = { List Read };

    ghost view = { λ list. list.items.items };
}

/// A list of lists of tokens, as the arguments of a call.
#[derive(Drop)]
pub struct ReadLists {
    /// The lists.
    pub items: Vec<ReadList>,
}

impl Model for ReadLists {
    ghost use Rattle.std.specs.Prelude.{List};
    ghost use Rattle.pp_model.specs.declared.read.Read.{Read};

    ghost Value = { List (List Read) };

    ghost view = { λ lists. lists.items.items };
}

/// A list of names.
#[derive(Drop)]
pub struct NameList {
    /// The names.
    pub items: Vec<Text>,
}

impl Model for NameList {
    ghost use Rattle.std.specs.Prelude.{List, ℕ};

    ghost Value = { List (List ℕ) };

    ghost view = { λ list. list.items.items };
}
