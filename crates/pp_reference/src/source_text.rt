//! What comes before a position of a source.

ghost use Rattle.std.specs.Prelude.{◌≡◌, ◌≤◌, length, IfOk};
ghost use Rattle.pp_model.specs.Moves as moves;
ghost use Rattle.pp_model.specs.Sights as sights;
ghost use Rattle.pp_model.specs.SourceReader as spec;

use crate::block::is_live;
use crate::conversion::is_hash;
use crate::item::SourceItem;
use crate::line::ends_line;
use crate::sight::sight_of;
use crate::stop::Stop;
use pp_lexer::lexer::LexerItem;
use pp_model::sight::Sight;
use pp_model::truth::Truth;
use std::alloc::Global;

fn is_directive(sight: &Sight) -> bool
    ensures { result ≡ sights.is_directive sight.now }
{
    matches!(sight, Sight::Directive(_, _) | Sight::Lone)
}

fn is_text(sight: &Sight) -> bool
    ensures { result ≡ sights.is_text sight.now }
{
    matches!(sight, Sight::Token(_))
}

// Whether the first of these items begins a directive.
fn begins_with_directive(alloc: Global, items: &[SourceItem]) -> Result<bool, Stop>
    ensures { IfOk result (λ begins. begins ≡ sights.is_directive (sights.sight_of items.now)) }
{
    let sight = sight_of(alloc, items)?;
    Ok(is_directive(&sight))
}

// Whether the first of these items is a token of the text.
fn begins_with_text(alloc: Global, items: &[SourceItem]) -> Result<bool, Stop>
    ensures { IfOk result (λ begins. begins ≡ sights.is_text (sights.sight_of items.now)) }
{
    let sight = sight_of(alloc, items)?;
    Ok(is_text(&sight))
}

/// Whether one of these items begins a directive.
pub fn has_directive(alloc: Global, items: &[SourceItem]) -> Result<bool, Stop>
    ensures { IfOk result (λ has. has ≡ spec.has_directive items.now) }
{
    let Some((_, rest)) = items.split_first() else {
        return Ok(false);
    };
    if begins_with_directive(alloc, items)? {
        return Ok(true);
    }
    has_directive(alloc, rest)
}

/// Whether the item is the `#` of a directive.
pub fn is_directive_hash(item: &LexerItem) -> bool
    ensures { result ≡ sights.is_directive_hash item.now }
{
    match item {
        Ok(token) => is_hash(&token.value) && token.start_of_line,
        Err(_) => false,
    }
}

/// The items of an error in front, with the `#` of a directive before it.
pub fn error_length(items: &[SourceItem]) -> usize
    requires { 1 ≤ length items.now }
    ensures is { result ≡ moves.error_length items.now }
    ensures within { result ≤ length items.now }
{
    let first = &items[0];
    if items.len() > 1 && is_directive_hash(&first.item) {
        2
    } else {
        1
    }
}

// Whether the position is on the line of a directive: whether the item before it is the directive's `#`, or is on the
// directive's line and doesn't end it.
fn is_on_directive_line(source: &[SourceItem], position: usize) -> bool
    requires { position ≤ length source.now }
    ensures { result ≡ spec.is_on_directive_line source.now position }
{
    if position == 0 {
        return false;
    }
    let before = &source[position - 1];
    is_directive_hash(&before.item)
        || (!ends_line(&before.item) && is_on_directive_line(source, position - 1))
}

// Whether there is a live token of the text at the position.
fn is_live_text(
    alloc: Global,
    source: &[SourceItem],
    truths: &[Truth],
    position: usize,
) -> Result<bool, Stop>
    requires { position ≤ length source.now }
    ensures { IfOk result (λ live. live ≡ spec.is_live_text source.now truths.now position) }
{
    if !begins_with_text(alloc, &source[position..])? || is_on_directive_line(source, position) {
        return Ok(false);
    }
    is_live(alloc, source, truths, position)
}

/// Whether there is a live token of the text before the position.
#[tactic(auto, using(crate::proofs::SourceTextLemmas::text_before_step))]
pub fn has_live_text_before(
    alloc: Global,
    source: &[SourceItem],
    truths: &[Truth],
    position: usize,
) -> Result<bool, Stop>
    requires { position ≤ length source.now }
    ensures { IfOk result (λ has. has ≡ spec.has_live_text_before source.now truths.now position) }
{
    if position == 0 {
        return Ok(false);
    }
    if is_live_text(alloc, source, truths, position - 1)? {
        return Ok(true);
    }
    has_live_text_before(alloc, source, truths, position - 1)
}
