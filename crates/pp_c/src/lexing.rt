//! The items of the lexer.

ghost use Rattle.std.specs.Prelude.{◌≡◌, ◌≢◌, ◌↔◌, ◌<◌, ◌≤◌, ◌-◌, ◌^◌, ◌∷◌, [], length, IsOk, OnOk, IsUtf8};
ghost use Rattle.pp_rs.specs.PreprocessorError.{out_of_memory};
ghost use Rattle.pp_c.specs.Lexing.{lexer_flags, lexer_entry, lexeme_entries, lexer_entries};
ghost use Rattle.pp_c.specs.inner.Taking.{Takes};

use crate::definitions::LIMIT;
use crate::items::{Kind, LEADING_WHITESPACE, START_OF_LINE, bit_if};
use crate::output::Output;
use crate::status::Refusal;
use crate::words::{float_entry, give_error, integer_entry, item_at, name_entry, punctuator_entry};
use pp_macros::step::is_out_of_memory;
use pp_rs::lexer::{Lexer, LexerItem, Token, TokenValue};
use pp_rs::token::Location;
use std::alloc::{AllocError, Global};
use std::str;

/// Gives the items of the lexer of a source.
pub(crate) fn lex(alloc: Global, source: &[u8], output: &mut Output<'_>) -> Result<(), Refusal>
    ensures given { OnOk result (Takes output.old (lexer_entries source.now) output.new) }
    ensures text { IsOk result → IsUtf8 source.now }
    ensures not_utf8 { (result ≡ Err Refusal.NotUtf8)
        ↔ ((length source.now < 2 ^ 32 - 1) × ¬ (IsUtf8 source.now)) }
    ensures too_long { (result ≡ Err Refusal.TooLong) ↔ (2 ^ 32 - 1 ≤ length source.now) }
    ensures no_definition { result ≢ Err Refusal.BadDefinition }
    ensures no_budget { result ≢ Err Refusal.OverBudget }
    ensures no_texts { result ≢ Err Refusal.TooDeep }
{
    if source.len() >= LIMIT {
        return Err(Refusal::TooLong);
    }
    let Ok(source) = str::from_utf8(source) else {
        return Err(Refusal::NotUtf8);
    };
    let mut lexer = Lexer::new(alloc, source);
    'items: while let Some(item) = lexer.next() {
        give_item(item, lexer.place(), output)?;
    }
    Ok(())
}

// Gives an item of the lexer. `place` is its place, also for an error.
fn give_item(item: LexerItem, place: Location, output: &mut Output<'_>) -> Result<(), AllocError>
    ensures given { OnOk result (Takes output.old (lexeme_entries item place) output.new) }
    ensures reported { OnOk result (item ≢ Err out_of_memory) }
{
    match item {
        Ok(token) => give_token(&token, output),
        Err((error, location)) => {
            if is_out_of_memory(&error) {
                return Err(AllocError);
            }
            give_error(&error, location, place, 0, output);
        }
    }
    Ok(())
}

// Gives a token of the lexer.
fn give_token(token: &Token, output: &mut Output<'_>)
    ensures { Takes output.old
        (lexer_entry token.now.location (lexer_flags token.now) token.now.value ∷ []) output.new }
{
    let place = token.location;
    let flags = bit_if(token.leading_whitespace, LEADING_WHITESPACE)
        | bit_if(token.start_of_line, START_OF_LINE);
    match &token.value {
        TokenValue::Hash => output.take_item(item_at(place, Kind::Hash, flags)),
        TokenValue::NewLine => output.take_item(item_at(place, Kind::NewLine, flags)),
        TokenValue::Ident(name) => output.take(name_entry(place, flags, name.as_str())),
        TokenValue::Integer(integer) => output.take(integer_entry(place, flags, *integer)),
        TokenValue::Float(float) => {
            output.take(float_entry(place, flags, float.text.as_str(), float.width))
        }
        TokenValue::Punct(punct) => output.take(punctuator_entry(place, flags, *punct)),
    }
}
