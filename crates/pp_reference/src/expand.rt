//! The next item of an expander, and an argument's expansion alone.

ghost use Rattle.std.specs.Prelude.{◌≡◌, ◌≤◌, IfOk};
ghost use Rattle.pp_reference.specs.inner.Changes.{meaning_of};
ghost use Rattle.pp_model.specs.Emitting.{Collects, Each, Alone, answers_at, expansion_limit};
ghost use Rattle.pp_model.specs.Reading.{reading_of, argument_reading, masked_names};
ghost use Rattle.pp_reference.specs.inner.Seen.{seen, EmitsFrom};
ghost use Rattle.pp_reference.specs.inner.SeenList.{list_state};

use crate::calls::misfit;
use crate::copies::{copy_names, copy_reads};
use crate::definitions::Definitions;
use crate::emitted::Emitted;
use crate::expander::{Expander, MacroCall, Turn};
use crate::lists::{ReadList, ReadLists};
use crate::reader::{ArgumentReader, Reader};
use crate::stop::{Budget, Stop};
use pp_lexer::token::{PreprocessorError, Text};
use pp_model::numbering::Numbering;
use pp_model::place::PlacedFault;
use pp_model::read::{Read, Taken};
use std::alloc::{AllocError, Global};

/// How many expansions of arguments may be nested.
pub const EXPANSION_LIMIT: u32 = 128;

/// The limit, as a number that is opaque to proofs.
#[tactic(auto, unfolding(pp_model::specs::Emitting::expansion_limit))]
pub fn expansion_limit() -> u32
    ensures { result ≡ expansion_limit }
{
    EXPANSION_LIMIT
}

/// The answer to a call: its arguments, each expanded alone, or a fault.
#[cycle(answers)]
pub fn answer(
    alloc: Global,
    call: &MacroCall,
    numbering: Numbering,
    visible: &Definitions,
    hidden: &[Text],
    levels: u32,
    budget: &mut Budget,
) -> Result<Result<ReadLists, PlacedFault>, Stop>
    ensures answers { IfOk result (λ answer. answers_at levels call.now.opening.definition
        (record {
          paren = call.now.site.paren;
          arguments = call.now.site.arguments;
          numbering = numbering;
          visible = meaning_of visible.now;
          open_around = hidden.now;
        }) answer) }
    ensures budget { budget.new.steps ≤ budget.old.steps }
{
    let opening = &call.opening;
    let site = &call.site;
    if let Some(error) = misfit(&opening.definition, &site.arguments) {
        return Ok(Err((error, site.paren)));
    }
    if levels == 0 {
        return Ok(Err((PreprocessorError::RecursionLimitReached, site.paren)));
    }
    expand_arguments(
        alloc,
        &site.arguments.items,
        numbering,
        visible,
        hidden,
        levels - 1,
        budget,
    )
}

/// The arguments, each expanded alone, or the first fault.
#[cycle(answers)]
pub fn expand_arguments(
    alloc: Global,
    arguments: &[ReadList],
    numbering: Numbering,
    visible: &Definitions,
    hidden: &[Text],
    levels: u32,
    budget: &mut Budget,
) -> Result<Result<ReadLists, PlacedFault>, Stop>
    ensures each { IfOk result (λ answer. Each (Alone levels) numbering
        (meaning_of visible.now) hidden.now arguments.now answer) }
    ensures budget { budget.new.steps ≤ budget.old.steps }
{
    let mut expanded = Vec::new(alloc);
    for argument in arguments {
        match expand_argument(
            alloc,
            &argument.items,
            numbering,
            visible,
            hidden,
            levels,
            budget,
        )? {
            Ok(list) => expanded.push(list)?,
            Err(fault) => return Ok(Err(fault)),
        }
    }
    Ok(Ok(ReadLists { items: expanded }))
}

/// The result of expanding a list of tokens alone.
#[cycle(answers)]
pub fn expand_argument(
    alloc: Global,
    tokens: &[Read],
    numbering: Numbering,
    visible: &Definitions,
    hidden: &[Text],
    levels: u32,
    budget: &mut Budget,
) -> Result<Result<ReadList, PlacedFault>, Stop>
    ensures alone { IfOk result (λ expanded. Alone levels tokens.now numbering
        (meaning_of visible.now) hidden.now expanded) }
    ensures budget { budget.new.steps ≤ budget.old.steps }
{
    let mut expander = argument_expander(alloc, tokens, numbering, visible, hidden)?;
    let expanded = collect(alloc, &mut expander, levels, budget);
    drop(expander);
    expanded
}

/// The items of an argument up to the end, or the first fault.
#[cycle(answers)]
fn collect(
    alloc: Global,
    expander: &mut Expander<ArgumentReader<'_>>,
    levels: u32,
    budget: &mut Budget,
) -> Result<Result<ReadList, PlacedFault>, Stop>
    ensures collects { IfOk result (λ expanded. Collects argument_reading (answers_at levels)
        (seen list_state expander.old) expanded) }
    ensures budget { budget.new.steps ≤ budget.old.steps }
{
    let mut items = Vec::new(alloc);
    'items: loop {
        budget.spend()?;
        let taken = emit_alone(expander, levels, budget)?.taken;
        match taken {
            Taken::Token(read) => items.push(read)?,
            Taken::Fault(fault) => return Ok(Err(fault)),
            Taken::End => return Ok(Ok(ReadList { items })),
        }
    }
}

/// An expander at the start of an argument.
fn argument_expander<'a>(
    alloc: Global,
    tokens: &[Read],
    numbering: Numbering,
    visible: &'a Definitions,
    hidden: &[Text],
) -> Result<Expander<ArgumentReader<'a>>, AllocError>
    ensures { IfOk result (λ expander. seen list_state expander
        ≡ reading_of tokens.now numbering (meaning_of visible.now) hidden.now) }
{
    let reader = ArgumentReader {
        tokens: copy_reads(alloc, tokens)?,
        numbering,
        definitions: visible,
    };
    Ok(Expander::new(alloc, reader, copy_names(alloc, hidden)?))
}

/// The answer to a call in an argument.
#[cycle(answers)]
fn answer_alone(
    expander: &Expander<ArgumentReader<'_>>,
    call: &MacroCall,
    levels: u32,
    budget: &mut Budget,
) -> Result<Result<ReadLists, PlacedFault>, Stop>
    ensures answers { IfOk result (λ answer. answers_at levels call.now.opening.definition
        (record {
          paren = call.now.site.paren;
          arguments = call.now.site.arguments;
          numbering = argument_reading.numbering (list_state expander.now.reader);
          visible = argument_reading.visible (list_state expander.now.reader);
          open_around = masked_names (seen list_state expander.now);
        }) answer) }
    ensures budget { budget.new.steps ≤ budget.old.steps }
{
    let around = expander.masked()?;
    let numbering = expander.reader.numbering();
    let visible = expander.reader.visible();
    answer(
        expander.alloc,
        call,
        numbering,
        visible,
        &around,
        levels,
        budget,
    )
}

/// The next item of an argument.
#[cycle(answers)]
fn emit_alone(
    expander: &mut Expander<ArgumentReader<'_>>,
    levels: u32,
    budget: &mut Budget,
) -> Result<Emitted, Stop>
    ensures emits { IfOk result (λ item. EmitsFrom argument_reading (answers_at levels)
        (seen list_state expander.old) item (seen list_state expander.new)) }
    ensures budget { budget.new.steps ≤ budget.old.steps }
{
    'turns: loop {
        budget.spend()?;
        match expander.turn(budget)? {
            Turn::Item(item) => return Ok(item),
            Turn::Replaced => {}
            Turn::Called(call) => match answer_alone(expander, &call, levels, budget) {
                Ok(answer) => {
                    if let Some(item) = expander.resolve(call, answer)? {
                        return Ok(item);
                    }
                }
                Err(stop) => {
                    drop(call);
                    return Err(stop);
                }
            },
        }
    }
}

/// The answer to a call in an expander.
fn answer_in<R: Reader>(
    expander: &Expander<R>,
    call: &MacroCall,
    levels: u32,
    budget: &mut Budget,
) -> Result<Result<ReadLists, PlacedFault>, Stop>
    ensures answers { IfOk result (λ answer. answers_at levels call.now.opening.definition
        (record {
          paren = call.now.site.paren;
          arguments = call.now.site.arguments;
          numbering = R.reading.numbering (R.state expander.now.reader);
          visible = R.reading.visible (R.state expander.now.reader);
          open_around = masked_names (seen R.state expander.now);
        }) answer) }
    ensures budget { budget.new.steps ≤ budget.old.steps }
{
    let around = expander.masked()?;
    let numbering = expander.reader.numbering();
    let visible = expander.reader.visible();
    answer(
        expander.alloc,
        call,
        numbering,
        visible,
        &around,
        levels,
        budget,
    )
}

/// The next item of an expander.
pub fn emit<R: Reader>(
    expander: &mut Expander<R>,
    levels: u32,
    budget: &mut Budget,
) -> Result<Emitted, Stop>
    ensures emits { IfOk result (λ item. EmitsFrom R.reading (answers_at levels)
        (seen R.state expander.old) item (seen R.state expander.new)) }
    ensures budget { budget.new.steps ≤ budget.old.steps }
{
    'turns: loop {
        budget.spend()?;
        match expander.turn(budget)? {
            Turn::Item(item) => return Ok(item),
            Turn::Replaced => {}
            Turn::Called(call) => match answer_in(expander, &call, levels, budget) {
                Ok(answer) => {
                    if let Some(item) = expander.resolve(call, answer)? {
                        return Ok(item);
                    }
                }
                Err(stop) => {
                    drop(call);
                    return Err(stop);
                }
            },
        }
    }
}
