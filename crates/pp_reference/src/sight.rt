//! What a reader meets at a position of a source.

ghost use Rattle.std.specs.Prelude.{◌≡◌, ◌≤◌, ◌+◌, length, IfOk};
ghost use Rattle.pp_model.specs.Conversions as conversions;
ghost use Rattle.pp_model.specs.Sights as spec;

use crate::conversion::{conversion, identifier_of, is_hash, is_newline, refused_token};
use crate::copies::copy_fault;
use crate::item::SourceItem;
use crate::line::first_token;
use crate::stop::{Halt, Stop};
use pp_lexer::lexer;
use pp_model::directive::directive_of;
use pp_model::sight::Sight;
use std::alloc::Global;

// The sight of a directive's `#` that this token follows.
fn named_directive(alloc: Global, token: &lexer::Token) -> Result<Sight, Stop>
    ensures is { IfOk result (λ sight. sight
        ≡ spec.named_directive token.now (conversions.identifier_of token.now.value)) }
    ensures seen { IfOk result (λ sight. spec.least_items sight ≤ 2) }
{
    match identifier_of(alloc, &token.value)? {
        Some(name) => Ok(Sight::Directive(directive_of(&name), token.location)),
        None if is_newline(&token.value) => Ok(Sight::Lone),
        None => Ok(Sight::NoWord(refused_token(alloc, token)?)),
    }
}

// The sight of a token that these items follow.
fn token_sight(alloc: Global, token: &lexer::Token, rest: &[SourceItem]) -> Result<Sight, Stop>
    ensures is { IfOk result (λ sight. sight ≡ spec.token_sight token.now rest.now) }
    ensures seen { IfOk result (λ sight. spec.least_items sight ≤ 1 + length rest.now) }
{
    if is_newline(&token.value) {
        return Ok(Sight::NewLine);
    }
    if is_hash(&token.value) && !token.start_of_line {
        return Ok(Sight::Hash(token.location));
    }
    if is_hash(&token.value) {
        return match first_token(alloc, token.location, rest) {
            Ok(word) => named_directive(alloc, &word),
            Err(Halt::Fault(fault)) => Ok(Sight::Fault(fault)),
            Err(Halt::Stop(stop)) => Err(stop),
        };
    }
    match conversion(alloc, token) {
        Ok(token) => Ok(Sight::Token(token)),
        Err(Halt::Fault(fault)) => Ok(Sight::Fault(fault)),
        Err(Halt::Stop(stop)) => Err(stop),
    }
}

/// The sight at the front of these items.
pub fn sight_of(alloc: Global, items: &[SourceItem]) -> Result<Sight, Stop>
    ensures is { IfOk result (λ sight. sight ≡ spec.sight_of items.now) }
    ensures seen { IfOk result (λ sight. spec.least_items sight ≤ length items.now) }
{
    let Some((first, rest)) = items.split_first() else {
        return Ok(Sight::End);
    };
    match &first.item {
        Ok(token) => token_sight(alloc, token, rest),
        Err(fault) => Ok(Sight::Fault(copy_fault(alloc, fault)?)),
    }
}
