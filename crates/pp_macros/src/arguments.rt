//! Arguments of calls, each expanded alone.

ghost use Rattle.std.specs.Prelude.{◌≡◌, ◌++◌, ◌-◌, [], IfOk, None, OnOk, Some, length, Ok, Err};
ghost use Rattle.std.specs.List.{list_all};
ghost use Rattle.pp_model.specs.Calls.{arguments_of, misfit};
ghost use Rattle.pp_model.specs.Emitting.{answers_at};
ghost use Rattle.pp_macros.specs.inner.Defined.{names_in};
ghost use Rattle.pp_macros.specs.inner.Finishing.{Finishes, ExpandsOnto, ExpandsEach, IsAtStart, AreOfCall, site_at};
ghost use Rattle.pp_macros.specs.inner.Finishing.{ComesToCall};
ghost use Rattle.pp_macros.specs.Halting.{halt_of, result_in};
ghost use Rattle.pp_macros.specs.inner.Frames.{names_of, outermost_frame_call};
ghost use Rattle.pp_macros.specs.inner.Left.{IsSound};
ghost use Rattle.pp_macros.specs.inner.Nesting.{AreKnown, listed_in, open_names, seen_by};
ghost use Rattle.pp_macros.specs.inner.Noting.{noted, noted_halt, noted_in};
ghost use Rattle.pp_macros.specs.inner.Parts.{lists_of, AreInOrder};
ghost use Rattle.pp_macros.specs.inner.Reader.{of_list};
ghost use Rattle.pp_macros.specs.inner.Reading.{AllReadOrdinary};
ghost use Rattle.pp_macros.specs.inner.Expander.{Satisfies};
ghost use Rattle.pp_macros.specs.inner.Plain.{is_plain};
ghost use Rattle.pp_macros.specs.declared.step.PlacedExit.TheVariants.{Error};

use crate::argument_lists::{ArgumentLists, Part};
use crate::calls::{MacroCall, Taken};
use crate::halt::{Halted, PlacedHalt, halt_of, noted_halt};
use crate::list_lexer::{ListLexer, Scope, take_out};
use crate::list_step::{is_plain, step_list};
use crate::macro_processor::MacroProcessor;
use crate::names::Definitions;
use crate::step::PlacedExit;
use pp_lexer::token::{PreprocessorError, Text};
use pp_model::parentheses::{ends_argument, nesting_after};
use pp_model::place::{Place, PlacedFault};
use pp_model::read::Read;
use std::alloc::{AllocError, Global};

// The parts between the commas that are outside inner parentheses.
fn parts_of(processor: &mut MacroProcessor, tokens: &[Read]) -> Result<Vec<Part>, AllocError>
    ensures same { processor.new ≡ processor.old }
    ensures cut { IfOk result (λ parts. lists_of tokens.now parts.items ≡ arguments_of tokens.now) }
    ensures order { IfOk result (λ parts. AreInOrder 0 parts.items (length tokens.now)) }
{
    let mut parts = processor.take_parts(4)?;
    let mut start = 0;
    let mut depth: usize = 0;
    for (at, read) in tokens.iter().enumerate() {
        if ends_argument(depth, &read.token.value) {
            parts.push(Part { start, end: at })?;
            start = at + 1;
            continue;
        }
        depth = nesting_after(depth, &read.token.value);
    }
    parts.push(Part {
        start,
        end: tokens.len(),
    })?;
    Ok(parts)
}

// The arguments of a call with these tokens.
fn arguments_of(
    processor: &mut MacroProcessor,
    tokens: Vec<Read>,
) -> Result<ArgumentLists, AllocError>
    requires { AllReadOrdinary tokens.items }
    ensures same { processor.new ≡ processor.old }
    ensures cut { IfOk result (λ arguments. arguments ≡ arguments_of tokens.items) }
{
    let parts = parts_of(processor, &tokens)?;
    Ok(ArgumentLists::new(tokens, parts))
}

// The error of a wrong number of arguments.
fn misfit(parameters: &[Text], arguments: &ArgumentLists) -> Option<PreprocessorError>
    ensures { result ≡ misfit parameters.now arguments.now }
{
    let wanted = parameters.len();
    let given = arguments.len();
    if wanted == 0 && arguments.is_one_empty() {
        None
    } else if wanted < given {
        Some(PreprocessorError::TooManyDefineArguments)
    } else if given < wanted {
        Some(PreprocessorError::TooFewDefineArguments)
    } else {
        None
    }
}

// Notes the fault of a call.
fn note(fault: &mut Option<PlacedFault>, error: PreprocessorError, place: Place) -> Halted
    ensures { fault.new ≡ Some (error, place) }
{
    drop(fault.replace((error, place)));
    Halted
}

// Notes the fault of a step, unless an allocation failed.
fn note_step(fault: &mut Option<PlacedFault>, found: PlacedFault) -> Halted
    requires { fault.old ≡ None }
    ensures { noted_halt fault.new ≡ halt_of found }
{
    match halt_of(found) {
        PlacedHalt::Fault((error, place)) => note(fault, error, place),
        PlacedHalt::OutOfMemory => Halted,
    }
}

/// Expands the arguments of a call, and opens its frame.
pub fn finish_call(
    alloc: Global,
    processor: &mut MacroProcessor,
    call: MacroCall,
    scope: &Scope<'_>,
    levels: u32,
) -> Result<(), PlacedHalt>
    requires free { processor.old.here.held ≡ None }
    requires known { AreKnown (names_in scope.now.definitions.now) processor.old }
    ensures finishes { Finishes levels scope.now.numbering scope.now.definitions.now (names_of processor.old.below) call
        processor.old.here result processor.new.here }
    ensures below { processor.new.below ≡ processor.old.below }
{
    let mut fault = None;
    match finish(alloc, processor, call, scope, levels, &mut fault) {
        Ok(()) => Ok(()),
        Err(_) => Err(noted_halt(fault)),
    }
}

// Expands the arguments of a call, and opens its frame. A fault is noted.
#[cycle(answers)]
fn finish(
    alloc: Global,
    processor: &mut MacroProcessor,
    mut call: MacroCall,
    scope: &Scope<'_>,
    levels: u32,
    fault: &mut Option<PlacedFault>,
) -> Result<(), Halted>
    requires free { processor.old.here.held ≡ None }
    requires known { AreKnown (names_in scope.now.definitions.now) processor.old }
    requires none { fault.old ≡ None }
    ensures finishes { Finishes levels scope.now.numbering scope.now.definitions.now (names_of processor.old.below) call
        processor.old.here (noted result fault.new) processor.new.here }
    ensures below { processor.new.below ≡ processor.old.below }
    ensures none { OnOk result (fault.new ≡ None) }
{
    let expanded = expand_call(alloc, &mut *processor, &mut call, scope, levels, fault)?;
    processor.open_call(call, expanded)?;
    Ok(())
}

// The arguments of a call, each expanded alone, if their number fits and a level is left.
#[cycle(answers)]
fn expand_call(
    alloc: Global,
    processor: &mut MacroProcessor,
    call: &mut MacroCall,
    scope: &Scope<'_>,
    levels: u32,
    fault: &mut Option<PlacedFault>,
) -> Result<ArgumentLists, Halted>
    requires free { processor.old.here.held ≡ None }
    requires known { AreKnown (names_in scope.now.definitions.now) processor.old }
    requires none { fault.old ≡ None }
    ensures same { processor.new ≡ processor.old }
    ensures answers { Satisfies (noted result fault.new) (λ out. answers_at levels call.old.opened.definition
        (site_at call.old scope.now.numbering scope.now.definitions.now (open_names processor.old)) out) }
    ensures least { IfOk result (λ outs. AreOfCall levels scope.now.definitions.now call.old outs) }
    ensures left { call.new ≡ record call.old { tokens = [] } }
    ensures none { OnOk result (fault.new ≡ None) }
{
    let arguments = arguments_of(&mut *processor, call.take_tokens(alloc))?;
    match misfit(call.parameters(), &arguments) {
        Some(error) => return Err(note(fault, error, call.paren())),
        None => {}
    }
    if levels == 0 {
        return Err(note(
            fault,
            PreprocessorError::RecursionLimitReached,
            call.paren(),
        ));
    }
    expand_arguments(alloc, processor, arguments, scope, levels - 1, fault)
}

// The arguments, each expanded alone, or the first fault.
#[cycle(answers)]
fn expand_arguments(
    alloc: Global,
    processor: &mut MacroProcessor,
    arguments: ArgumentLists,
    scope: &Scope<'_>,
    levels: u32,
    fault: &mut Option<PlacedFault>,
) -> Result<ArgumentLists, Halted>
    requires free { processor.old.here.held ≡ None }
    requires known { AreKnown (names_in scope.now.definitions.now) processor.old }
    requires none { fault.old ≡ None }
    ensures same { processor.new ≡ processor.old }
    ensures expands { Satisfies (noted result fault.new) (ExpandsEach levels scope.now.numbering
        scope.now.definitions.now (open_names processor.old) arguments) }
    ensures none { OnOk result (fault.new ≡ None) }
{
    let (mut tokens, parts) = arguments.into_parts();
    processor.pay(tokens.len().saturating_mul(2))?;
    if are_plain(&tokens, scope.definitions, &*processor) {
        return Ok(ArgumentLists::new(tokens, parts));
    }
    let expanded = expand_parts(alloc, processor, &mut tokens, &parts, scope, levels, fault);
    processor.keep_lists(tokens, parts);
    expanded
}

// The parts of the tokens, each expanded alone, or the first fault. The tokens are moved out.
#[cycle(answers)]
fn expand_parts(
    alloc: Global,
    processor: &mut MacroProcessor,
    tokens: &mut [Read],
    parts: &[Part],
    scope: &Scope<'_>,
    levels: u32,
    fault: &mut Option<PlacedFault>,
) -> Result<ArgumentLists, Halted>
    requires holds { AllReadOrdinary tokens.old }
    requires order { AreInOrder 0 parts.now (length tokens.old) }
    requires free { processor.old.here.held ≡ None }
    requires known { AreKnown (names_in scope.now.definitions.now) processor.old }
    requires none { fault.old ≡ None }
    ensures same { processor.new ≡ processor.old }
    ensures expands { Satisfies (noted result fault.new) (ExpandsEach levels scope.now.numbering
        scope.now.definitions.now (open_names processor.old) (lists_of tokens.old parts.now)) }
    ensures none { OnOk result (fault.new ≡ None) }
{
    let mut items = processor.take_tokens(tokens.len())?;
    let mut expanded = processor.take_parts(parts.len())?;
    for part in parts {
        let start = items.len();
        let argument = &mut tokens[part.start..part.end];
        expand_argument(alloc, processor, argument, &mut items, scope, levels, fault)?;
        expanded.push(Part {
            start,
            end: items.len(),
        })?;
    }
    Ok(ArgumentLists::new(items, expanded))
}

// Whether each token gives itself.
fn are_plain(tokens: &[Read], definitions: &Definitions, processor: &MacroProcessor) -> bool
    requires { AreKnown (names_in definitions.now) processor.now }
    ensures { result ≡ list_all (is_plain definitions.now (open_names processor.now)) tokens.now }
{
    tokens
        .iter()
        .all(|read| is_plain(read, definitions, processor))
}

// Moves the tokens to the end of the items. It is a function of its own, so that calls inside each other keep no room
// for it on the stack.
#[inline(never)]
fn append(tokens: &mut [Read], items: &mut Vec<Read>) -> Result<(), AllocError>
    ensures { OnOk result (items.new.items ≡ items.old.items ++ tokens.old) }
{
    for at in 0..tokens.len() {
        items.push(take_out(&mut tokens[at]))?;
    }
    Ok(())
}

// The noted fault, if there is one, was found in the outermost macro that is open here.
#[inline(never)]
fn note_call(fault: &mut Option<PlacedFault>, processor: &MacroProcessor)
    ensures { fault.new ≡ noted_in (outermost_frame_call processor.now.here.frames) fault.old }
{
    match fault {
        Some(found) => found.1 = found.1.in_call(processor.outermost_call()),
        None => {}
    }
}

// Expands a list of tokens alone, and appends the result to the items. The tokens are moved out.
#[cycle(answers)]
fn expand_argument(
    alloc: Global,
    processor: &mut MacroProcessor,
    tokens: &mut [Read],
    items: &mut Vec<Read>,
    scope: &Scope<'_>,
    levels: u32,
    fault: &mut Option<PlacedFault>,
) -> Result<(), Halted>
    requires ordinary { AllReadOrdinary tokens.old }
    requires before { AllReadOrdinary items.old.items }
    requires free { processor.old.here.held ≡ None }
    requires known { AreKnown (names_in scope.now.definitions.now) processor.old }
    requires none { fault.old ≡ None }
    ensures same { processor.new ≡ processor.old }
    ensures expands { Satisfies (noted result fault.new) (ExpandsOnto levels scope.now.numbering
        scope.now.definitions.now (open_names processor.old) tokens.old items.old.items items.new.items) }
    ensures none { OnOk result (fault.new ≡ None) }
{
    if are_plain(&*tokens, scope.definitions, &*processor) {
        append(tokens, items)?;
        return Ok(());
    }
    let around = processor.nest();
    let mut lexer = ListLexer::argument(tokens, *scope);
    let ended = expand_list(alloc, processor, &mut lexer, items, scope, levels, fault);
    drop(lexer);
    note_call(fault, &*processor);
    processor.unnest(around);
    ended
}

// Expands the tokens of a list to its end, and appends the result to the items. After a fault the macros stay open in
// which it was found.
#[cycle(answers)]
fn expand_list(
    alloc: Global,
    processor: &mut MacroProcessor,
    lexer: &mut ListLexer<'_>,
    items: &mut Vec<Read>,
    scope: &Scope<'_>,
    levels: u32,
    fault: &mut Option<PlacedFault>,
) -> Result<(), Halted>
    requires start { IsAtStart scope.now.numbering scope.now.definitions.now (names_of processor.old.below)
        processor.old.here (listed_in processor.old.below lexer.old) }
    requires before { AllReadOrdinary items.old.items }
    requires known { AreKnown (names_in scope.now.definitions.now) processor.old }
    requires none { fault.old ≡ None }
    ensures below { processor.new.below ≡ processor.old.below }
    ensures expands { Satisfies (result_in (outermost_frame_call processor.new.here.frames) (noted result fault.new))
        (ExpandsOnto levels scope.now.numbering scope.now.definitions.now
        (names_of processor.old.below) lexer.old.tokens items.old.items items.new.items) }
    ensures none { OnOk result (fault.new ≡ None) }
{
    'calls: while let Some(call) = next_call(&mut *processor, &mut *lexer, items, fault)? {
        finish(alloc, &mut *processor, call, scope, levels, fault)?;
    }
    Ok(())
}

// Expands the tokens of a list up to its next call, and appends the result to the items. It is a function of its own,
// as `append` is.
#[inline(never)]
fn next_call(
    processor: &mut MacroProcessor,
    lexer: &mut ListLexer<'_>,
    items: &mut Vec<Read>,
    fault: &mut Option<PlacedFault>,
) -> Result<Option<MacroCall>, Halted>
    requires before { AllReadOrdinary items.old.items }
    requires sound { IsSound processor.old.here (seen_by processor.old.below (of_list lexer.old)) }
    requires known { AreKnown (names_in lexer.old.definitions) processor.old }
    requires none { fault.old ≡ None }
    ensures comes { ComesToCall processor.old.here (listed_in processor.old.below lexer.old) items.old.items
        (noted result fault.new) processor.new.here (listed_in processor.new.below lexer.new) items.new.items }
    ensures below { processor.new.below ≡ processor.old.below }
    ensures holds { OnOk result (AllReadOrdinary items.new.items) }
    ensures same { OnOk result (lexer.new.definitions ≡ lexer.old.definitions) }
    ensures none { OnOk result (fault.new ≡ None) }
{
    'items: loop {
        processor.pay(2)?;
        processor.give_frames(&*lexer, items)?;
        match step_list(&mut *processor, &mut *lexer) {
            Ok(Taken::Token(read)) => items.push(read)?,
            Ok(Taken::Call(call)) => return Ok(Some(call)),
            Err(PlacedExit::Continue) => {}
            Err(PlacedExit::Finished) => return Ok(None),
            Err(PlacedExit::Error(found)) => return Err(note_step(fault, found)),
        }
    }
}
