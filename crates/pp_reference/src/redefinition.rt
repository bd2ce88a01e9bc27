//! Whether two definitions say the same.

ghost use Rattle.std.specs.Prelude.{◌≡◌, ◌↔◌, IsTrue};
ghost use Rattle.pp_lexer.specs.Spelling.{values_of};
ghost use Rattle.pp_model.specs.Definitions.{IsSameDefinition};

use pp_lexer::token::{Text, Token, TokenValue};
use pp_model::definition::Definition;

// Whether the two values are the same.
fn is_same_value(old: &TokenValue, new: &TokenValue) -> bool
    ensures { IsTrue result ↔ (old.now ≡ new.now) }
{
    *old == *new
}

// Whether the tokens have the same values.
fn have_same_values(old: &[Token], new: &[Token]) -> bool
    ensures { IsTrue result ↔ (values_of old.now ≡ values_of new.now) }
{
    match (old.split_first(), new.split_first()) {
        (None, None) => true,
        (Some((first, others)), Some((same, rest))) => {
            is_same_value(&first.value, &same.value) && have_same_values(others, rest)
        }
        _ => false,
    }
}

// Whether the names are the same, in the same order.
fn are_same_names(old: &[Text], new: &[Text]) -> bool
    ensures { IsTrue result ↔ (old.now ≡ new.now) }
{
    match (old.split_first(), new.split_first()) {
        (None, None) => true,
        (Some((first, others)), Some((same, rest))) => {
            *first == *same && are_same_names(others, rest)
        }
        _ => false,
    }
}

/// Whether a redefinition is allowed: the two definitions say the same.
pub fn is_same_definition(old: &Definition, new: &Definition) -> bool
    ensures { IsTrue result ↔ IsSameDefinition old.now new.now }
{
    old.function_like == new.function_like
        && are_same_names(&old.parameters, &new.parameters)
        && have_same_values(&old.body, &new.body)
}
