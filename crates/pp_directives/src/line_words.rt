//! The words of an `#if`, `#elif` or `#line` line.

ghost use Rattle.std.specs.Prelude.{◌≡◌, [], IfOk, is_some};
ghost use Rattle.pp_model.specs.LineWords.{unwanted_closing};
ghost use Rattle.pp_model.specs.inner.LineWords.{is_open_paren, is_close_paren};
ghost use Rattle.pp_macros.specs.inner.Defined.{meaning_of};
ghost use Rattle.pp_macros.specs.Halting.{halt_in};
ghost use Rattle.pp_macros.specs.Held.{AllHoldOrdinary};
ghost use Rattle.pp_macros.specs.inner.Frames.{outermost_frame_call};
ghost use Rattle.pp_directives.specs.inner.ReadingWords.{IsReading, GivesItem, TakesOff, GivesTaken, IsNameOrFault};
ghost use Rattle.pp_directives.specs.inner.ReadingWords.{GivesOperand, GivesInParentheses, GivesClosed, AreWordsOf};
ghost use Rattle.pp_directives.specs.inner.ReadingWords.{AreWordsOfLine};
ghost use Rattle.pp_directives.specs.inner.LineItems.{taken_of_read};

use crate::token_list::LineReads;
use pp_lexer::token::{PreprocessorError, Text, TokenValue};
use pp_macros::arguments::finish_call;
use pp_macros::calls::Taken;
use pp_macros::halt::{PlacedHalt, halt_of};
use pp_macros::list_lexer::{ListLexer, Scope};
use pp_macros::list_step::{step_list, take_list};
use pp_macros::macro_processor::{MacroProcessor, SpareCounts};
use pp_macros::step::PlacedExit;
use pp_model::line_value::ended_early;
use pp_model::parentheses::{is_left_paren, is_right_paren};
use pp_model::place::{Place, PlacedFault, fault_in};
use pp_model::read::Read;
use pp_model::splice::CallPlace;
use pp_model::word::{LineKind, Word, WordReading, Words, reading_of, unwanted_reading};
use std::alloc::{AllocError, Global};

// A line that is being read: the open macros, and the rest of its tokens.
#[derive(Drop)]
struct LineExpander<'a> {
    expander: MacroProcessor,
    lexer: ListLexer<'a>,
}

// What was found on a line, or nothing at its end, and where it was called from, if a macro gave it.
#[derive(Drop)]
struct LineItem {
    found: Option<Read>,
    call: Option<CallPlace>,
}

// The reader of a line's words: the kind of the line, the place of its directive, what holds there, and how many
// levels deep arguments may be read inside each other.
#[derive(Drop)]
struct WordReader<'a> {
    alloc: Global,
    kind: LineKind,
    directive: Place,
    scope: Scope<'a>,
    levels: u32,
}

// Whether it is a `(`.
fn is_open_paren(found: &Option<Read>) -> bool
    ensures { result ≡ is_open_paren (taken_of_read found.now) }
{
    match found {
        Some(read) => is_left_paren(&read.token.value),
        None => false,
    }
}

// Whether it is a `)`.
fn is_close_paren(found: &Option<Read>) -> bool
    ensures { result ≡ is_close_paren (taken_of_read found.now) }
{
    match found {
        Some(read) => is_right_paren(&read.token.value),
        None => false,
    }
}

// Why a line has no value, in the call of the outermost macro that is open on it, if one is.
fn found_in(line: &LineExpander<'_>, halt: PlacedHalt) -> PlacedHalt
    ensures { result ≡ halt_in (outermost_frame_call line.now.expander.here.frames) halt }
{
    halt.in_call(line.expander.outermost_call())
}

// Ends the reading of a line, and gives back the counts of its processor.
fn close_line(mut line: LineExpander<'_>) -> SpareCounts {
    line.expander.take_counts()
}

impl<'a> WordReader<'a> {
    // The next item of the line.
    #[inline(always)]
    fn next_item(&self, line: &mut LineExpander<'_>) -> Result<LineItem, PlacedHalt>
        requires { IsReading self.now line.old }
        ensures reads { GivesItem self.now line.old result line.new }
        ensures less { TakesOff self.now line.old result line.new }
    {
        'items: loop {
            let before = line.expander.outermost_call();
            match step_list(&mut line.expander, &mut line.lexer) {
                Ok(Taken::Token(read)) => {
                    let call = line.expander.item_call(before);
                    return Ok(LineItem {
                        found: Some(read),
                        call,
                    });
                }
                Ok(Taken::Call(call)) => match finish_call(
                    self.alloc,
                    &mut line.expander,
                    call,
                    &self.scope,
                    self.levels,
                ) {
                    Ok(()) => {}
                    Err(halt) => return Err(found_in(line, halt)),
                },
                Err(PlacedExit::Continue) => {}
                Err(PlacedExit::Finished) => {
                    let call = line.expander.outermost_call();
                    return Ok(LineItem { found: None, call });
                }
                Err(PlacedExit::Error(fault)) => return Err(found_in(line, halt_of(fault))),
            }
        }
    }

    // Takes the next token without looking it up, or `None` at the end of the line.
    #[inline(always)]
    fn take(&self, line: &mut LineExpander<'_>) -> Result<Option<Read>, PlacedHalt>
        requires { IsReading self.now line.old }
        ensures { GivesTaken self.now line.old result line.new }
    {
        match take_list(&mut line.expander, &mut line.lexer) {
            Ok(read) => Ok(Some(read)),
            Err(PlacedExit::Finished) => Ok(None),
            Err(PlacedExit::Continue) => Ok(None),
            Err(PlacedExit::Error(fault)) => Err(halt_of(fault)),
        }
    }

    // Whether the name is defined.
    fn is_defined(&self, name: &Text) -> bool
        ensures { result ≡ is_some (meaning_of self.now.scope.definitions.now name.now) }
    {
        self.scope.definitions.get(name.as_str()).is_some()
    }

    // The fault of an item where `defined` needs its operand or a parenthesis.
    fn unwanted_word(&self, found: Option<Read>) -> PlacedFault
        ensures { result ≡ unwanted_closing self.now.kind self.now.directive (taken_of_read found) }
    {
        match found {
            Some(read) => unwanted_reading(reading_of(self.kind, read)),
            None => ended_early(self.directive),
        }
    }

    // The name of an identifier, or the fault of anything else where `defined` needs a name.
    fn name_or_fault(&self, found: Option<Read>) -> Result<Text, PlacedFault>
        ensures { IsNameOrFault self.now.directive found result }
    {
        match found {
            Some(read) => {
                let place = read.place();
                let value = read.token.value;
                match value {
                    TokenValue::Ident(name) => Ok(name),
                    other => Err((PreprocessorError::UnexpectedToken(other), place)),
                }
            }
            None => Err(ended_early(self.directive)),
        }
    }

    // The value of a `defined` after its `(` and the name.
    fn closed_operand(&self, line: &mut LineExpander<'_>, name: &Text) -> Result<bool, PlacedHalt>
        requires { IsReading self.now line.old }
        ensures { GivesClosed self.now name.now line.old result line.new }
    {
        let item = self.next_item(line)?;
        if is_close_paren(&item.found) {
            drop(item);
            Ok(self.is_defined(name))
        } else {
            let fault = self.unwanted_word(item.found);
            Err(PlacedHalt::Fault(fault_in(item.call, fault)))
        }
    }

    // The value of a `defined` after its `(`.
    fn operand_in_parentheses(&self, line: &mut LineExpander<'_>) -> Result<bool, PlacedHalt>
        requires { IsReading self.now line.old }
        ensures { GivesInParentheses self.now line.old result line.new }
    {
        let found = self.take(line)?;
        match self.name_or_fault(found) {
            Ok(name) => self.closed_operand(line, &name),
            Err(fault) => Err(found_in(line, PlacedHalt::Fault(fault))),
        }
    }

    // The value of a `defined`, from its operand.
    fn operand(&self, line: &mut LineExpander<'_>) -> Result<bool, PlacedHalt>
        requires { IsReading self.now line.old }
        ensures { GivesOperand self.now line.old result line.new }
    {
        let found = self.take(line)?;
        if is_open_paren(&found) {
            drop(found);
            return self.operand_in_parentheses(line);
        }
        match self.name_or_fault(found) {
            Ok(name) => Ok(self.is_defined(&name)),
            Err(fault) => Err(found_in(line, PlacedHalt::Fault(fault))),
        }
    }

    // The words of the rest of a line.
    fn read_words(&self, line: &mut LineExpander<'_>) -> Result<Words, AllocError>
        requires { IsReading self.now line.old }
        ensures { IfOk result (AreWordsOf self.now line.old) }
    {
        let mut words = Vec::with_capacity(self.alloc, 16)?;
        'words: loop {
            let item = match self.next_item(line) {
                Ok(item) => item,
                Err(PlacedHalt::Fault(fault)) => return Ok(Words::new(words, Some(fault))),
                Err(PlacedHalt::OutOfMemory) => return Err(AllocError),
            };
            let call = item.call;
            let Some(read) = item.found else {
                return Ok(Words::new(words, None));
            };
            let place = read.place().in_call(call);
            match reading_of(self.kind, read) {
                WordReading::Refused(fault) => {
                    return Ok(Words::new(words, Some(fault_in(call, fault))));
                }
                WordReading::Word(word) => words.push(Word::of_read(word, call))?,
                WordReading::Operator(operator) => {
                    drop(operator);
                    match self.operand(line) {
                        Ok(answer) => words.push(Word::Defined(place, Ok(answer)))?,
                        Err(PlacedHalt::Fault(fault)) => {
                            words.push(Word::Defined(place, Err(fault)))?;
                            return Ok(Words::new(words, None));
                        }
                        Err(PlacedHalt::OutOfMemory) => return Err(AllocError),
                    }
                }
            }
        }
    }
}

/// The words of a line, and the fault that ends their reading, if there is one.
pub fn line_words(
    alloc: Global,
    kind: LineKind,
    tokens: &LineReads<'_>,
    scope: &Scope<'_>,
    levels: u32,
    counts: &mut SpareCounts,
) -> Result<Words, AllocError>
    requires { AllHoldOrdinary tokens.now.tokens }
    ensures { IfOk result (AreWordsOfLine kind tokens.now.directive levels tokens.now.tokens scope.now.numbering
        scope.now.definitions.now) }
{
    let reader = WordReader {
        alloc,
        kind,
        directive: tokens.directive(),
        scope: *scope,
        levels,
    };
    let mut reads = tokens.reads(alloc)?;
    let expander = MacroProcessor::with_counts(alloc, counts.take(alloc));
    let lexer = ListLexer::line(&mut reads, *scope);
    let mut line = LineExpander { expander, lexer };
    let words = reader.read_words(&mut line);
    *counts = close_line(line);
    words
}
