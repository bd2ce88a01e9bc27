//! Definitions and texts that a caller in C passes.

ghost use Rattle.std.specs.Prelude.{◌≡◌, true, false, IfOk, IfErr, OnOk, ⊤};
ghost use Rattle.pp_c.specs.Calls.{part_of, with_answer, is_text, LiesIn, CanEnter, HasLongContent, LacksWords};
ghost use Rattle.pp_c.specs.inner.Making.{AddsOne};
ghost use Rattle.pp_c.specs.inner.Refusing.{IsAddingRefusal};

use crate::faults::number_of;
use crate::items::Definition;
use crate::status::Refusal;
use pp_macros::step::is_out_of_memory;
use pp_rs::pp::{IncludeError, Preprocessor};
use pp_rs::token::Location;

/// The least number of bytes that is too many for a source or a content.
pub(crate) const LIMIT: usize = 4294967295;

// Where the name of a text begins.
const TEXT: u64 = 18446744073709551615;

// The part of the words with this start and length, if it lies in them.
fn part(words: &str, start: u64, length: u64) -> Result<&str, Refusal>
    ensures part { IfOk result (λ part. part.now ≡ part_of words.now start length) }
    ensures lies { OnOk result (LiesIn words.now start length) }
    ensures outside { IfErr result (λ refusal. (refusal ≡ Refusal.BadDefinition)
        × ¬ (LiesIn words.now start length)) }
{
    let Some(end) = start.checked_add(length) else {
        return Err(Refusal::BadDefinition);
    };
    let (start, end) = (start as usize, end as usize);
    if !words.is_char_boundary(start) || !words.is_char_boundary(end) {
        return Err(Refusal::BadDefinition);
    }
    Ok(&words[start..end])
}

// Writes an error and its place in the content into a definition, or into a text.
fn answer(definition: &mut Definition, error: u32, place: Location)
    ensures { definition.new ≡ with_answer definition.old error place }
{
    definition.error = error;
    definition.start = place.start;
    definition.end = place.end;
    definition.line = place.line;
}

/// Includes a text, if the call takes texts and it is one, or adds a definition, and writes the error of its content
/// into it, or 0 if there is none.
pub(crate) fn enter<'a>(
    pp: &mut Preprocessor<'a>,
    texts: bool,
    words: &'a str,
    definition: &mut Definition,
) -> Result<(), Refusal>
    ensures added { OnOk result (AddsOne texts words.now definition.old definition.new pp.old pp.new) }
    ensures fits { OnOk result (CanEnter texts words.now definition.old) }
    ensures err { IfErr result (λ refusal. IsAddingRefusal refusal
        (HasLongContent words.now definition.old) (LacksWords texts words.now definition.old)
        (is_text texts definition.old ≡ true)) }
{
    if texts && definition.name_start == TEXT {
        include(pp, words, definition)
    } else {
        add(pp, words, definition)
    }
}

// Includes a text.
fn include<'a>(
    pp: &mut Preprocessor<'a>,
    words: &'a str,
    definition: &mut Definition,
) -> Result<(), Refusal>
    requires { is_text true definition.old ≡ true }
    ensures added { OnOk result (AddsOne true words.now definition.old definition.new pp.old pp.new) }
    ensures fits { OnOk result (CanEnter true words.now definition.old) }
    ensures err { IfErr result (λ refusal. IsAddingRefusal refusal
        (HasLongContent words.now definition.old) (LacksWords true words.now definition.old) ⊤) }
{
    let text = part(words, definition.content_start, definition.content_length)?;
    if text.len() >= LIMIT {
        return Err(Refusal::TooLong);
    }
    match pp.include(text) {
        Ok(()) => {
            answer(definition, 0, Location::default());
            Ok(())
        }
        Err(IncludeError::TooDeep) => Err(Refusal::TooDeep),
        Err(IncludeError::TooLong | IncludeError::OutOfMemory) => Err(Refusal::OutOfMemory),
    }
}

// Adds a definition.
fn add(pp: &mut Preprocessor<'_>, words: &str, definition: &mut Definition) -> Result<(), Refusal>
    ensures added { OnOk result (AddsOne false words.now definition.old definition.new pp.old pp.new) }
    ensures fits { OnOk result (CanEnter false words.now definition.old) }
    ensures err { IfErr result (λ refusal. IsAddingRefusal refusal
        (HasLongContent words.now definition.old) (LacksWords false words.now definition.old) ⊥) }
{
    let name = part(words, definition.name_start, definition.name_length)?;
    let content = part(words, definition.content_start, definition.content_length)?;
    if content.len() >= LIMIT {
        return Err(Refusal::TooLong);
    }
    match pp.add_define(name, content) {
        Ok(()) => {
            answer(definition, 0, Location::default());
            Ok(())
        }
        Err((error, place)) => {
            if is_out_of_memory(&error) {
                return Err(Refusal::OutOfMemory);
            }
            answer(definition, number_of(&error) as u32, place);
            Ok(())
        }
    }
}
