//! Calls of function-like macros: taking, and the search for their arguments.

ghost use Rattle.std.specs.Prelude.{◌≡◌, ◌⊎◌, if◌then◌else◌, [], OnOk, true, IfOk, IfSome};
ghost use Rattle.std.specs.Prelude.{Err, None, option_map};
ghost use Rattle.pp_macros.specs.Item.{no_memory};
ghost use Rattle.pp_macros.specs.inner.Seeking.{Enters, FollowsToken};
ghost use Rattle.pp_macros.specs.Held.{HoldsOrdinary};
ghost use Rattle.pp_macros.specs.inner.Reading.{AllReadOrdinary};
ghost use Rattle.pp_macros.specs.inner.CallTurns.{TurnsOrRefuses, is_out_of_memory_step, paren_of, TakenHoldsOrdinary};
ghost use Rattle.pp_macros.specs.inner.Expander.{StepsFetching, StepsTaking, TakesNext, TakesOnto, TakesRun};
ghost use Rattle.pp_macros.specs.inner.Expander.{GathersNext, PutsIfFound, Satisfies, place_after, gathered_to};
ghost use Rattle.pp_macros.specs.inner.Expander.{is_pause};
ghost use Rattle.pp_macros.specs.inner.Defined.{AreNumbered, names_in, numbered_by};
ghost use Rattle.pp_macros.specs.inner.Nesting.{AreKnown, MayWait, seen_by};
ghost use Rattle.pp_macros.specs.inner.Reader.{definitions_of};
ghost use Rattle.pp_macros.specs.inner.Turns.{macro_of, macro_of_value, Opens};
ghost use Rattle.pp_macros.specs.declared.step.PlacedExit.TheVariants.{Error, Finished};
ghost use Rattle.pp_macros.specs.declared.halt.PlacedHalt.TheVariants as halt;
ghost use Rattle.pp_lexer.specs.declared.token.PreprocessorError.TheVariants.{UnexpectedEndOfInput};

mod giving;

use crate::define::Macro;
use crate::halt::{PlacedHalt, halt_of};
use crate::macro_processor::MacroProcessor;
use crate::reader::MeLexer;
use crate::step::{PlacedExit, PlacedStep, is_out_of_memory, no_memory};
use pp_lexer::token::{Location, PreprocessorError, Text, Token, TokenValue, out_of_memory};
use pp_model::names::is_line_name;
use pp_model::parentheses::{Nesting, is_left_paren, nesting_of};
use pp_model::place::{Place, unasked};
use pp_model::read::Read;
use pp_model::splice::CallPlace;
use std::alloc::{AllocError, Global};
use std::marker::Model;
use std::mem;
use std::rc::Rc;

/// A call whose `)` has been taken.
#[derive(Drop)]
pub struct MacroCall {
    opened: Rc<Macro>,
    call: CallPlace,
    paren: Place,
    tokens: Vec<Read>,
}

impl Model for MacroCall {
    ghost use Rattle.pp_macros.specs.inner.Calling as spec;
    ghost use Rattle.pp_macros.specs.inner.Reading.{AllReadOrdinary};

    ghost Value = { spec.MacroCall };

    ghost view = { λ c. record {
      opened = c.opened.value;
      call = c.call;
      paren = c.paren;
      tokens = c.tokens.items;
    } };

    ghost invariant = { λ c. AllReadOrdinary c.tokens.items };
}

impl MacroCall {
    /// Moves out the tokens between its parentheses.
    pub fn take_tokens(&mut self, alloc: Global) -> Vec<Read>
        ensures taken { result.items ≡ self.old.tokens }
        ensures holds { AllReadOrdinary result.items }
        ensures left { self.new ≡ record self.old { tokens = [] } }
    {
        mem::replace(&mut self.tokens, Vec::new(alloc))
    }

    /// The names of the parameters of its macro.
    pub fn parameters(&self) -> &[Text]
        ensures { result.now ≡ self.now.opened.definition.parameters }
    {
        self.opened.parameters()
    }

    /// The place of its `(`.
    pub fn paren(&self) -> Place
        ensures { result ≡ self.now.paren }
    {
        self.paren
    }

    /// Its macro, and where that is called.
    pub fn into_macro(self) -> (Rc<Macro>, CallPlace)
        ensures opened { result.0.value ≡ self.opened }
        ensures call { result.1 ≡ self.call }
    {
        (self.opened, self.call)
    }
}

/// What a step gives: a token, or a call whose arguments are not expanded yet.
#[derive(Drop)]
pub enum Taken {
    /// A token.
    Token(Read),
    /// A call.
    Call(MacroCall),
}

// Whether an allocation failed.
fn is_out_of_memory_step(step: &PlacedStep<Read>) -> bool
    ensures { result ≡ is_out_of_memory_step step.now }
{
    match step {
        Err(PlacedExit::Error(fault)) => is_out_of_memory(&fault.0),
        Err(PlacedExit::Continue) => false,
        Err(PlacedExit::Finished) => false,
        Ok(_) => false,
    }
}

// The place of the `(`, if the step is one.
fn paren_of(step: &PlacedStep<Read>) -> Option<Place>
    ensures { result ≡ paren_of step.now }
{
    match step {
        Ok(read) => {
            if is_left_paren(&read.token.value) {
                Some(read.place())
            } else {
                None
            }
        }
        Err(_) => None,
    }
}

// Whether the step is a pause.
fn is_pause(step: &PlacedStep<Read>) -> bool
    ensures { result ≡ is_pause step.now }
{
    match step {
        Err(PlacedExit::Continue) => true,
        Err(PlacedExit::Error(_)) => false,
        Err(PlacedExit::Finished) => false,
        Ok(_) => false,
    }
}

// The macro that a token with this value opens when it is taken, painted or not.
fn find_macro(
    lexer: &dyn MeLexer,
    value: &TokenValue,
    painted: bool,
) -> Result<Option<Rc<Macro>>, AllocError>
    ensures opened { IfOk result (λ found. option_map (λ m. (m.value.name, m.value.definition)) found
        ≡ (if painted then None else macro_of_value (reader lexer.now) value.now)) }
    ensures numbered { IfOk result (λ found. IfSome found (λ m.
        AreNumbered (names_in (definitions_of (reader lexer.now))) (numbered_by m.value))) }
{
    if painted {
        return Ok(None);
    }
    let TokenValue::Ident(name) = value else {
        return Ok(None);
    };
    let Some(id) = lexer.find(name.as_str()) else {
        return Ok(None);
    };
    match lexer.get_define(id) {
        Some(found) => Ok(Some(found.clone()?)),
        None => Ok(None),
    }
}

// The fault of a call that doesn't end, after its `(` and these tokens.
#[inline(never)]
fn ended_after(paren: Place, tokens: &[Read]) -> PlacedHalt
    ensures { result ≡ halt.Fault (UnexpectedEndOfInput, place_after paren tokens.now) }
{
    match tokens.last() {
        Some(read) => PlacedHalt::Fault((PreprocessorError::UnexpectedEndOfInput, read.place())),
        None => PlacedHalt::Fault((PreprocessorError::UnexpectedEndOfInput, paren)),
    }
}

// The number of tokens to make room for when a call of this macro is gathered.
fn room_for(opened: &Macro) -> usize {
    opened.parameters().len().saturating_mul(2).clamp(16, 256)
}

impl MacroProcessor {
    // One step of taking. An identifier is painted if its name is open, here or around.
    fn take(&mut self, lexer: &mut dyn MeLexer) -> PlacedStep<Read>
        requires waits { MayWait self.old.below (reader lexer.old) }
        requires known { AreKnown (names_in (definitions_of (reader lexer.old))) self.old }
        ensures steps { StepsTaking self.old.here (seen_by self.old.below (reader lexer.old)) result
            self.new.here (seen_by self.new.below (reader lexer.new)) }
        ensures below { self.new.below ≡ self.old.below }
        ensures waits { MayWait self.new.below (reader lexer.new) }
        ensures holds { IfOk result (λ read. HoldsOrdinary read.token.value) }
    {
        let mut read = self.fetch(lexer)?;
        self.paint(&*lexer, &mut read);
        Ok(read)
    }

    // The step that is held or, if none is, the next one of the frames or the reader.
    fn fetch(&mut self, lexer: &mut dyn MeLexer) -> PlacedStep<Read>
        requires waits { MayWait self.old.below (reader lexer.old) }
        ensures steps { StepsFetching self.old.here (seen_by self.old.below (reader lexer.old)) result
            self.new.here (seen_by self.new.below (reader lexer.new)) }
        ensures below { self.new.below ≡ self.old.below }
        ensures waits { MayWait self.new.below (reader lexer.new) }
        ensures holds { IfOk result (λ read. HoldsOrdinary read.token.value) }
    {
        if self.is_holding() {
            return self.take_held();
        }
        let read = self.step_frames(lexer)?;
        self.take_in(&*lexer, read)
    }

    /// Takes the next step that isn't a pause.
    pub fn take_next(&mut self, lexer: &mut dyn MeLexer) -> PlacedStep<Read>
        requires waits { MayWait self.old.below (reader lexer.old) }
        requires known { AreKnown (names_in (definitions_of (reader lexer.old))) self.old }
        ensures takes { TakesNext self.old.here (seen_by self.old.below (reader lexer.old)) result
            self.new.here (seen_by self.new.below (reader lexer.new)) }
        ensures below { self.new.below ≡ self.old.below }
        ensures waits { MayWait self.new.below (reader lexer.new) }
        ensures holds { IfOk result (λ read. HoldsOrdinary read.token.value) }
    {
        loop {
            let step = self.take(lexer);
            if !is_pause(&step) {
                return step;
            }
            drop(step);
        }
    }

    // Takes the next step that isn't a pause, and puts its token after the tokens.
    fn push_next(&mut self, lexer: &mut dyn MeLexer, tokens: &mut Vec<Read>) -> PlacedStep<()>
        requires waits { MayWait self.old.below (reader lexer.old) }
        requires known { AreKnown (names_in (definitions_of (reader lexer.old))) self.old }
        ensures takes { TakesOnto self.old.here (seen_by self.old.below (reader lexer.old)) tokens.old.items result
            self.new.here (seen_by self.new.below (reader lexer.new)) tokens.new.items }
        ensures below { self.new.below ≡ self.old.below }
        ensures waits { MayWait self.new.below (reader lexer.new) }
        ensures kept { result ≡ Err Finished → tokens.new.items ≡ tokens.old.items }
    {
        if self.push_ahead(&*lexer, tokens)? {
            return Ok(());
        }
        let read = self.take_next(lexer)?;
        tokens.push(read)?;
        Ok(())
    }

    // Takes the token that the open macros have next, and puts it after the tokens, if it is taken as it is in its
    // list. It passes the pauses before it. Returns whether there was such a token.
    fn push_ahead(
        &mut self,
        lexer: &dyn MeLexer,
        tokens: &mut Vec<Read>,
    ) -> Result<bool, AllocError>
        requires waits { MayWait self.old.below (reader lexer.now) }
        requires known { AreKnown (names_in (definitions_of (reader lexer.now))) self.old }
        ensures puts { IfOk result (λ found. PutsIfFound self.old.here (seen_by self.old.below (reader lexer.now))
            tokens.old.items found self.new.here tokens.new.items) }
        ensures below { self.new.below ≡ self.old.below }
        ensures known { OnOk result (AreKnown (names_in (definitions_of (reader lexer.now))) self.new) }
    {
        if self.is_holding() {
            return Ok(false);
        }
        'pauses: while self.has_frames() {
            let Some(ahead) = self.ahead() else {
                self.pass_pause();
                continue;
            };
            if is_line_name(&ahead.token.value) {
                return Ok(false);
            }
            let painted = ahead.painted;
            let mut read = self.make_read(painted)?;
            self.paint(lexer, &mut read);
            tokens.push(read)?;
            return Ok(true);
        }
        Ok(false)
    }

    // Takes tokens that are no parentheses, and then one more, and puts them after the tokens. If no macro is open and
    // nothing is held, the reader puts them there at once.
    fn push_run(&mut self, lexer: &mut dyn MeLexer, tokens: &mut Vec<Read>) -> PlacedStep<()>
        requires waits { MayWait self.old.below (reader lexer.old) }
        requires known { AreKnown (names_in (definitions_of (reader lexer.old))) self.old }
        ensures takes { TakesRun self.old.here (seen_by self.old.below (reader lexer.old)) tokens.old.items result
            self.new.here (seen_by self.new.below (reader lexer.new)) tokens.new.items }
        ensures below { self.new.below ≡ self.old.below }
        ensures waits { OnOk result (MayWait self.new.below (reader lexer.new)) }
    {
        if !self.is_idle() {
            self.pay(1)?;
            return self.push_next(lexer, tokens);
        }
        let start = tokens.len();
        let found = lexer.push_flat(tokens)?;
        self.pay(tokens.len().saturating_sub(start).saturating_add(1))?;
        self.paint_from(&*lexer, tokens, start);
        if found {
            return Ok(());
        }
        self.push_next(lexer, tokens)
    }

    // Gathers the tokens of a call whose `(` is at `paren`, and returns the place of its `)`, or the first fault before
    // it.
    fn gather(
        &mut self,
        lexer: &mut dyn MeLexer,
        paren: Place,
        tokens: &mut Vec<Read>,
    ) -> Result<Location, PlacedHalt>
        requires empty { tokens.old.items ≡ [] }
        requires waits { MayWait self.old.below (reader lexer.old) }
        requires known { AreKnown (names_in (definitions_of (reader lexer.old))) self.old }
        ensures gathers { Satisfies result (λ end. GathersNext 0 paren
            self.old.here (seen_by self.old.below (reader lexer.old)) (gathered_to tokens.new.items end)
            self.new.here (seen_by self.new.below (reader lexer.new))) }
        ensures below { self.new.below ≡ self.old.below }
        ensures holds { OnOk result (AllReadOrdinary tokens.new.items) }
    {
        let mut depth: u32 = 0;
        'tokens: loop {
            match self.push_run(lexer, tokens) {
                Ok(()) => {}
                Err(PlacedExit::Error(fault)) => return Err(halt_of(unasked(fault))),
                Err(PlacedExit::Finished) => return Err(ended_after(paren, tokens)),
                Err(PlacedExit::Continue) => return Err(ended_after(paren, tokens)),
            }
            let Some(read) = tokens.last() else {
                unreachable!();
            };
            let place = read.place();
            match nesting_of(depth, &read.token.value) {
                Nesting::Closes => {
                    drop(tokens.pop());
                    return Ok(place.location);
                }
                Nesting::TooMany => {
                    return Err(PlacedHalt::Fault((PreprocessorError::IntegerOverflow, place)));
                }
                Nesting::Within(deeper) => depth = deeper,
            }
        }
    }

    // Looks for the call of a function-like macro after its name. Anything else is held, and the name is given.
    fn enter_call(
        &mut self,
        lexer: &mut dyn MeLexer,
        read: Read,
        opened: Rc<Macro>,
    ) -> PlacedStep<Taken>
        requires function { opened.value.definition.function_like ≡ true }
        requires waits { MayWait self.old.below (reader lexer.old) }
        requires known { AreKnown (names_in (definitions_of (reader lexer.old))) self.old }
        requires holds { HoldsOrdinary read.token.value }
        ensures enters { Enters read opened.value
            self.old.here (seen_by self.old.below (reader lexer.old)) result
            self.new.here (seen_by self.new.below (reader lexer.new))
            ⊎ (result ≡ Err (Error no_memory)) }
        ensures below { self.new.below ≡ self.old.below }
        ensures holds { IfOk result TakenHoldsOrdinary }
    {
        let next = self.take_next(lexer);
        if is_out_of_memory_step(&next) {
            drop(next);
            return Err(PlacedExit::Error(no_memory()));
        }
        let Some(paren) = paren_of(&next) else {
            self.put_back(next);
            return Ok(Taken::Token(read));
        };
        drop(next);
        let (text, name) = (read.text, read.token.location);
        drop(read);
        let mut tokens = self.take_tokens(room_for(&opened))?;
        let closing = self.gather(lexer, paren, &mut tokens)?;
        Ok(Taken::Call(MacroCall {
            opened,
            call: CallPlace {
                name,
                text,
                line: closing.line,
            },
            paren,
            tokens,
        }))
    }

    // Opens the macro of a name that is taken, or begins its call.
    #[inline(never)]
    fn enter(&mut self, lexer: &mut dyn MeLexer, read: Read, opened: Rc<Macro>) -> PlacedStep<Taken>
        requires opens { Opens (seen_by self.old.below (reader lexer.old)) read opened.value }
        requires waits { MayWait self.old.below (reader lexer.old) }
        requires known { AreKnown (names_in (definitions_of (reader lexer.old))) self.old }
        requires holds { HoldsOrdinary read.token.value }
        ensures follows { FollowsToken (macro_of (seen_by self.old.below (reader lexer.old)) read) read
            self.old.here (seen_by self.old.below (reader lexer.old)) result
            self.new.here (seen_by self.new.below (reader lexer.new))
            ⊎ (result ≡ Err (Error no_memory)) }
        ensures below { self.new.below ≡ self.old.below }
        ensures holds { IfOk result TakenHoldsOrdinary }
    {
        if opened.is_function_like() {
            return self.enter_call(lexer, read, opened);
        }
        let (text, name) = (read.text, read.token.location);
        drop(read);
        self.open_bare(opened, text, name)?;
        Err(PlacedExit::Continue)
    }

    // Follows a token that is taken: it opens its macro, begins its call, or is given.
    #[inline(always)]
    fn follow(&mut self, lexer: &mut dyn MeLexer, read: Read) -> PlacedStep<Taken>
        requires holds { HoldsOrdinary read.token.value }
        requires waits { MayWait self.old.below (reader lexer.old) }
        requires known { AreKnown (names_in (definitions_of (reader lexer.old))) self.old }
        ensures follows { FollowsToken (macro_of (seen_by self.old.below (reader lexer.old)) read) read
            self.old.here (seen_by self.old.below (reader lexer.old)) result
            self.new.here (seen_by self.new.below (reader lexer.new))
            ⊎ (result ≡ Err (Error no_memory)) }
        ensures below { self.new.below ≡ self.old.below }
        ensures holds { IfOk result TakenHoldsOrdinary }
    {
        let Some(opened) = find_macro(&*lexer, &read.token.value, read.painted)? else {
            return Ok(Taken::Token(read));
        };
        self.enter(lexer, read, opened)
    }

    /// One step: takes a token, which is given, opens its macro, or begins a call that is gathered.
    pub fn step(&mut self, lexer: &mut dyn MeLexer) -> PlacedStep<Taken>
        requires waits { MayWait self.old.below (reader lexer.old) }
        requires known { AreKnown (names_in (definitions_of (reader lexer.old))) self.old }
        ensures turns { TurnsOrRefuses self.old.here (seen_by self.old.below (reader lexer.old)) result
            self.new.here (seen_by self.new.below (reader lexer.new)) }
        ensures below { self.new.below ≡ self.old.below }
        ensures holds { IfOk result TakenHoldsOrdinary }
    {
        let read = self.take(lexer)?;
        self.follow(lexer, read)
    }
}
