//! Tests of names.

ghost use Rattle.std.specs.Prelude.{◌≡◌};
ghost use Rattle.pp_model.specs.Names.{is_in};

use pp_lexer::token::Text;

/// Whether the name is among the names.
pub fn is_among(name: &Text, names: &[Text]) -> bool
    ensures { result ≡ is_in name.now names.now }
{
    names.iter().any(|other| *name == *other)
}
