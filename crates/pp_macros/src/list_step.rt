//! Steps over a list of tokens.

ghost use Rattle.std.specs.Prelude.{◌≡◌, ◌&&◌, IfOk, is_none, not};
ghost use Rattle.pp_macros.specs.inner.CallTurns.{TurnsOrRefuses, TakenHoldsOrdinary};
ghost use Rattle.pp_macros.specs.Held.{HoldsOrdinary};
ghost use Rattle.pp_macros.specs.inner.Expander.{TakesNext};
ghost use Rattle.pp_macros.specs.inner.Nesting.{AreKnown, open_names, seen_by};
ghost use Rattle.pp_macros.specs.inner.Defined.{meaning_of, names_in};
ghost use Rattle.pp_macros.specs.inner.Plain.{is_plain};
ghost use Rattle.pp_model.specs.Names.{is_in};
ghost use Rattle.pp_macros.specs.inner.Reader.{of_list};

use crate::calls::Taken;
use crate::list_lexer::ListLexer;
use crate::macro_processor::MacroProcessor;
use crate::names::Definitions;
use crate::step::{PlacedExit, PlacedStep};
use pp_lexer::token::{Text, TokenValue};
use pp_model::names::is_line_name;
use pp_model::read::Read;

// Whether no macro has this name: it is neither defined nor open, here or around.
fn opens_none(name: &Text, definitions: &Definitions, processor: &MacroProcessor) -> bool
    requires { AreKnown (names_in definitions.now) processor.now }
    ensures { result ≡ (is_none (meaning_of definitions.now name.now)
        && not (is_in name.now (open_names processor.now))) }
{
    let Some(id) = definitions.find(name.as_str()) else {
        return true;
    };
    match definitions.get_define(id) {
        Some(_) => false,
        None => !processor.is_open(id),
    }
}

/// Whether the token gives itself, with its paint: it isn't `__LINE__`, and it is painted, or is not a name that is
/// defined, or open here or around.
#[inline(always)]
pub fn is_plain(read: &Read, definitions: &Definitions, processor: &MacroProcessor) -> bool
    requires { AreKnown (names_in definitions.now) processor.now }
    ensures { result ≡ is_plain definitions.now (open_names processor.now) read.now }
{
    let value = &read.token.value;
    if read.painted {
        return !is_line_name(value);
    }
    match value {
        TokenValue::Ident(name) => opens_none(name, definitions, processor) && !is_line_name(value),
        _ => true,
    }
}

/// One step of the processor, with a list as what follows the frames.
#[inline(always)]
pub fn step_list(processor: &mut MacroProcessor, list: &mut ListLexer<'_>) -> PlacedStep<Taken>
    requires { AreKnown (names_in list.old.definitions) processor.old }
    ensures turns { TurnsOrRefuses processor.old.here (seen_by processor.old.below (of_list list.old)) result
        processor.new.here (seen_by processor.new.below (of_list list.new)) }
    ensures below { processor.new.below ≡ processor.old.below }
    ensures holds { IfOk result TakenHoldsOrdinary }
{
    if processor.is_idle() {
        match list.peek() {
            None => return Err(PlacedExit::Finished),
            Some(read) if is_plain(read, list.definitions(), &*processor) => {
                return Ok(Taken::Token(list.take()));
            }
            Some(_) => {}
        }
    }
    step_any(processor, list)
}

// Does the same with any token.
fn step_any(processor: &mut MacroProcessor, list: &mut ListLexer<'_>) -> PlacedStep<Taken>
    requires { AreKnown (names_in list.old.definitions) processor.old }
    ensures turns { TurnsOrRefuses processor.old.here (seen_by processor.old.below (of_list list.old)) result
        processor.new.here (seen_by processor.new.below (of_list list.new)) }
    ensures below { processor.new.below ≡ processor.old.below }
    ensures holds { IfOk result TakenHoldsOrdinary }
{
    processor.step(list)
}

/// Takes the next token without looking it up, with a list as what follows the frames.
#[inline(always)]
pub fn take_list(processor: &mut MacroProcessor, list: &mut ListLexer<'_>) -> PlacedStep<Read>
    requires { AreKnown (names_in list.old.definitions) processor.old }
    ensures takes { TakesNext processor.old.here (seen_by processor.old.below (of_list list.old)) result
        processor.new.here (seen_by processor.new.below (of_list list.new)) }
    ensures below { processor.new.below ≡ processor.old.below }
    ensures holds { IfOk result (λ read. HoldsOrdinary read.token.value) }
{
    if processor.is_idle() && processor.is_alone() {
        match list.peek() {
            Some(read) if !is_line_name(&read.token.value) => return Ok(list.take()),
            _ => {}
        }
    }
    take_any(processor, list)
}

// Does the same with any token.
fn take_any(processor: &mut MacroProcessor, list: &mut ListLexer<'_>) -> PlacedStep<Read>
    requires { AreKnown (names_in list.old.definitions) processor.old }
    ensures takes { TakesNext processor.old.here (seen_by processor.old.below (of_list list.old)) result
        processor.new.here (seen_by processor.new.below (of_list list.new)) }
    ensures below { processor.new.below ≡ processor.old.below }
    ensures holds { IfOk result (λ read. HoldsOrdinary read.token.value) }
{
    processor.take_next(list)
}
