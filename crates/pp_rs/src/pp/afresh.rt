//! Preprocessing the output again.

ghost use Rattle.std.specs.Prelude.{◌≡◌, ◌↔◌, ◌-◌, ◌^◌, ◌<◌, true, length, IfOk, IfErr, IsTrue, All, Ok, map};
ghost use Rattle.pp_lexer.specs.PreprocessorError.{out_of_memory};
ghost use Rattle.pp_lexer.specs.Rules.{pp_rs};
ghost use Rattle.pp_lexer.specs.Spelling.{values_of};
ghost use Rattle.pp_lexer.specs.TokenValue.{is_ordinary};
ghost use Rattle.pp_model.specs.Run.{items_of};
ghost use Rattle.pp_rs.specs.Afresh.{HasShortText, AreReadAfresh, IsOutput};
ghost use Rattle.pp_rs.specs.Collecting.{AreItemsFrom};
ghost use Rattle.pp_rs.specs.Comes.{start};
ghost use Rattle.pp_rs.specs.inner.ItemValues.{value_of_item};

use crate::SOURCE_LIMIT;
use crate::pp::all_items::preprocess_all;
use crate::pp::preprocessor::{Preprocessor, PreprocessorItem};
use crate::pp::spelling::spell_tokens;
use crate::token::{Location, PreprocessorError, Token};
use std::alloc::Global;

// Whether the item is a token with the value of this one.
fn has_value(item: &PreprocessorItem, token: &Token) -> bool
    ensures { IsTrue result ↔ (value_of_item item.now ≡ Ok token.now.value) }
{
    match item {
        Ok(given) => given.value == token.value,
        Err(_) => false,
    }
}

// Whether the items are tokens with these values.
fn have_values(items: &[PreprocessorItem], tokens: &[Token]) -> bool
    ensures { IsTrue result ↔ (map value_of_item items.now ≡ map Ok (values_of tokens.now)) }
{
    items.len() == tokens.len()
        && items
            .iter()
            .zip(tokens)
            .all(|(item, token)| has_value(item, token))
}

// The items of a text, and with them the end.
fn items_of_text(
    alloc: Global,
    text: &str,
) -> Result<Vec<PreprocessorItem>, (PreprocessorError, Location)>
    requires { length text.now < 2 ^ 32 - 1 }
    ensures items { IfOk result (λ items. AreItemsFrom pp_rs (start (items_of text.now)) items.items) }
    ensures refused { IfErr result (λ fault. fault ≡ out_of_memory) }
{
    let mut pp = Preprocessor::new(alloc, text);
    let items = preprocess_all(alloc, &mut pp);
    drop(pp);
    items
}

/// Returns whether the text that spells the tokens with single spaces, preprocessed again, gives exactly tokens of the
/// same values. pp-rs 0.2.1 has no such function.
///
/// True for every ordinary token list that a run of some source gives, if its text has fewer than 2^32 - 1 bytes. False
/// if the text is longer, or gives anything else. The only error is `OutOfMemory`, if an allocation fails.
pub fn are_read_afresh(
    alloc: Global,
    tokens: &[Token],
) -> Result<bool, (PreprocessorError, Location)>
    requires ordinary { All (λ t. IsTrue (is_ordinary t.value)) tokens.now }
    ensures same { IfOk result (λ same. IsTrue same ↔ (HasShortText tokens.now × AreReadAfresh tokens.now)) }
    ensures output { IfOk result (λ same. IsOutput tokens.now → same ≡ true) }
    ensures refused { IfErr result (λ fault. fault ≡ out_of_memory) }
{
    let text = spell_tokens(alloc, tokens)?;
    if text.len() >= SOURCE_LIMIT {
        return Ok(false);
    }
    let items = items_of_text(alloc, text.as_str())?;
    let are_same = have_values(&items, tokens);
    drop(items);
    Ok(are_same)
}
