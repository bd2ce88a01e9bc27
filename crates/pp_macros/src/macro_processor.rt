//! The macros that are open, over a reader.

ghost use Rattle.std.specs.Prelude.{List, ◌≡◌, ◌==◌, ◌≤◌, ◌<◌, ◌∷◌, ◌++◌, [], ℕ, drop, length, IfOk, IfSome, OnErr};
ghost use Rattle.std.specs.Prelude.{OnOk, MatchResult, Ok, Some, None, IsSome, option_map, is_some};
ghost use Rattle.std.specs.Prelude.{pos, false, true, slice_index_or, unwrap_or};
ghost use Rattle.std.specs.List.{list_any};
ghost use Rattle.pp_lexer.specs.declared.token.TokenValue.TheVariants as value;
ghost use Rattle.pp_model.specs.Names.{Name};
ghost use Rattle.pp_model.specs.Painting.{is_one_of, painted_among};
ghost use Rattle.pp_model.specs.Taking.{line_number};
ghost use Rattle.pp_macros.specs.inner.Frames as spec;
ghost use Rattle.pp_macros.specs.inner.Frames.{bare_call, new_frame, outermost_frame_call, outermost_frame_line};
ghost use Rattle.pp_macros.specs.Held.{HoldsOrdinary};
ghost use Rattle.pp_macros.specs.inner.Ahead.{read_of, given_next};
ghost use Rattle.pp_macros.specs.inner.Bodies.{noted_by};
ghost use Rattle.pp_macros.specs.inner.Defined.{AreNumbered, names_in, number_in};
ghost use Rattle.pp_macros.specs.inner.Left.{HaveNumbers};
ghost use Rattle.pp_macros.specs.inner.Giving.{read_ahead};
ghost use Rattle.pp_macros.specs.inner.Idle.{is_idle};
ghost use Rattle.pp_macros.specs.inner.Nesting.{AreKnown, nothing_open, open_names, stepped, with_frames};
ghost use Rattle.pp_macros.specs.inner.Reader.{definitions_of, shown_line};
ghost use Rattle.pp_macros.specs.inner.Reading.{painted_from};
ghost use Rattle.pp_macros.specs.inner.Expander.{kept_call, step_of_outcome, taken_as, without_end};
ghost use Rattle.pp_macros.specs.inner.Turns.{Moves};

use crate::argument_lists::{ArgumentLists, Part};
use crate::budget::Budget;
use crate::calls::MacroCall;
use crate::define::Macro;
use crate::frames::{Ahead, Frame};
use crate::names::NameId;
use crate::reader::{MeLexer, number_of};
use crate::spares::Spares;
use crate::step::{PlacedExit, PlacedStep};
use pp_lexer::token::{Integer, Location, PreprocessorError, Token, TokenValue};
use pp_model::names::is_line_name;
use pp_model::place::Place;
use pp_model::read::Read;
use pp_model::splice::CallPlace;
use std::alloc::{AllocError, Global};
use std::marker::Model;
use std::mem;
use std::rc::Rc;

/// What a processor in which no macro is open leaves to the next one: its counts, with their room, and the budget.
#[derive(Drop)]
pub struct SpareCounts {
    counts: Vec<usize>,
    budget: Budget,
}

impl Model for SpareCounts {
    ghost use Rattle.std.specs.Prelude.{[]};
    ghost use Rattle.pp_macros.specs.inner.Frames.{AreCounted};

    ghost Value = { Unit {0} };

    ghost view = { λ s. tt };

    ghost invariant = { λ s. AreCounted s.counts.items [] };
}

impl SpareCounts {
    /// No counts. It allocates nothing.
    pub fn none(alloc: Global, budget: Budget) -> SpareCounts {
        SpareCounts {
            counts: Vec::new(alloc),
            budget,
        }
    }

    /// Takes them out.
    pub fn take(&mut self, alloc: Global) -> SpareCounts {
        mem::replace(self, SpareCounts::none(alloc, Budget::unbounded()))
    }
}

/// Macros that are open, the innermost last, over a reader, and a step that was taken in the search for a `(` and is
/// held.
///
/// An argument of a call is expanded by the same processor. Before the frames of its expansion, those from `base` on,
/// are the frames of the expansions that wait for it.
#[derive(Drop)]
pub struct MacroProcessor {
    alloc: Global,
    frames: Vec<Frame>,
    base: usize,
    held: Option<PlacedStep<Read>>,
    // by number, how many of the frames have it; past the end none has
    counts: Vec<usize>,
    spares: Spares,
    budget: Budget,
}

impl Model for MacroProcessor {
    ghost use Rattle.std.specs.Prelude.{◌≤◌, IfOk, IfSome, drop, length, reverse, take};
    ghost use Rattle.pp_macros.specs.Held.{HoldsOrdinary};
    ghost use Rattle.pp_macros.specs.inner.Nesting as spec;
    ghost use Rattle.pp_macros.specs.inner.Frames.{AreCounted};

    ghost Value = { spec.MacroProcessor };

    ghost view = { λ p. record {
      here = record { held = p.held; frames = reverse (drop p.base p.frames.items) };
      below = reverse (take p.base p.frames.items);
    } };

    ghost invariant = { λ p. AreCounted p.counts.items p.frames.items
        × IfSome p.held (λ step. IfOk step (λ read. HoldsOrdinary read.token.value))
        × (p.base ≤ length p.frames.items) };
}

// Makes room for the count of this number. Counts past the end are 0.
#[inline(always)]
fn make_room(counts: &mut Vec<usize>, number: usize) -> Result<(), AllocError>
    ensures same { (k : ℕ) → slice_index_or counts.new.items k 0 ≡ slice_index_or counts.old.items k 0 }
    ensures room { OnOk result (number < length counts.new.items) }
{
    if number < counts.len() {
        return Ok(());
    }
    grow(counts, number)
}

// Does the same if there is no room yet. It is a function of its own, since most numbers have room.
#[inline(never)]
fn grow(counts: &mut Vec<usize>, number: usize) -> Result<(), AllocError>
    ensures same { (k : ℕ) → slice_index_or counts.new.items k 0 ≡ slice_index_or counts.old.items k 0 }
    ensures room { OnOk result (number < length counts.new.items) }
{
    'places: while counts.len() <= number {
        counts.push(0)?;
    }
    Ok(())
}

// Takes back the lists in which the arguments of a frame that closes are, if it has some.
#[inline(always)]
fn keep_lists(spares: &mut Spares, frame: Frame) {
    let (tokens, parts) = frame.into_lists();
    if parts.is_empty() {
        return;
    }
    spares.keep_tokens(tokens);
    spares.keep_parts(parts);
}

/// The number of a line as a token at this place, or `LineOverflow` there if it is out of range.
pub fn line_number(place: Place, number: Option<Integer>) -> PlacedStep<Read>
    ensures shows { result ≡ step_of_outcome (line_number place number) }
    ensures holds { IfOk result (λ read. HoldsOrdinary read.token.value) }
{
    match number {
        Some(number) => {
            let token = Token {
                value: TokenValue::Integer(number),
                location: place.location,
            };
            Ok(Read::of_text(token, place.text))
        }
        None => Err(PlacedExit::Error((PreprocessorError::LineOverflow, place))),
    }
}

impl MacroProcessor {
    /// No macro is open, and nothing is held. It allocates nothing.
    pub fn new(alloc: Global) -> MacroProcessor
        ensures { result ≡ record { here = nothing_open; below = [] } }
    {
        MacroProcessor::with_counts(alloc, SpareCounts::none(alloc, Budget::unbounded()))
    }

    /// The same with what another processor left.
    pub fn with_counts(alloc: Global, spare: SpareCounts) -> MacroProcessor
        ensures { result ≡ record { here = nothing_open; below = [] } }
    {
        MacroProcessor {
            alloc,
            frames: Vec::new(alloc),
            base: 0,
            held: None,
            counts: spare.counts,
            spares: Spares::none(alloc),
            budget: spare.budget,
        }
    }

    /// Takes its steps from this budget from now on.
    pub fn set_budget(&mut self, budget: Budget)
        ensures { self.new ≡ self.old }
    {
        self.budget = budget;
    }

    /// Whether more steps were needed than there were.
    pub fn is_over_budget(&self) -> bool {
        self.budget.is_over()
    }

    /// Pays for this many steps. It fails if fewer are left.
    #[inline(always)]
    pub fn pay(&self, steps: usize) -> Result<(), AllocError> {
        self.budget.pay(steps)
    }

    // Pays for the opening of a macro: a step, and one for each token and parameter of its body.
    #[inline(always)]
    fn pay_for_body(&self, opened: &Macro) -> Result<(), AllocError> {
        self.pay(opened.len().saturating_add(1))
    }

    /// Closes all macros, and gives back the counts and the budget.
    pub fn take_counts(&mut self) -> SpareCounts {
        self.base = 0;
        self.close_all();
        SpareCounts {
            counts: mem::replace(&mut self.counts, Vec::new(self.alloc)),
            budget: mem::replace(&mut self.budget, Budget::unbounded()),
        }
    }

    /// Begins to expand an argument: no macro is open in it, and those that are open here are around it. `unnest` takes
    /// what this returns.
    pub fn nest(&mut self) -> usize
        requires { self.old.here.held ≡ None }
        ensures is { self.new ≡ record {
          here = nothing_open;
          below = self.old.here.frames ++ self.old.below;
        } }
        ensures around { result ≡ length self.old.below }
    {
        mem::replace(&mut self.base, self.frames.len())
    }

    /// Ends the expansion of an argument, also after a fault: closes what is open in it, and drops what is held.
    // It is a function of its own, so that calls inside each other keep no room for it on the stack.
    #[inline(never)]
    pub fn unnest(&mut self, around: usize)
        requires { around ≤ length self.old.below }
        ensures { (frames : List spec.Frame) (outer : List spec.Frame) → self.old.below ≡ frames ++ outer
            → around ≡ length outer
            → self.new ≡ record { here = record { held = None; frames = frames }; below = outer } }
    {
        self.close_all();
        drop(self.held.take());
        self.base = around;
    }

    /// An empty list of tokens. A new one has this room.
    pub fn take_tokens(&mut self, room: usize) -> Result<Vec<Read>, AllocError>
        ensures same { self.new ≡ self.old }
        ensures empty { IfOk result (λ tokens. tokens.items ≡ []) }
    {
        self.spares.take_tokens(self.alloc, room)
    }

    /// An empty list of parts. A new one has this room.
    pub fn take_parts(&mut self, room: usize) -> Result<Vec<Part>, AllocError>
        ensures same { self.new ≡ self.old }
        ensures empty { IfOk result (λ parts. parts.items ≡ []) }
    {
        self.spares.take_parts(self.alloc, room)
    }

    /// Takes back a list of tokens and one of parts, and drops what is in them.
    pub fn keep_lists(&mut self, tokens: Vec<Read>, parts: Vec<Part>)
        ensures { self.new ≡ self.old }
    {
        self.spares.keep_tokens(tokens);
        self.spares.keep_parts(parts);
    }

    /// Whether a macro is open here.
    #[inline(always)]
    pub fn has_frames(&self) -> bool
        ensures { result ≡ is_some (outermost_frame_call self.now.here.frames) }
    {
        self.outermost_call().is_some()
    }

    /// Whether nothing is open or held. The next token then comes from the reader.
    #[inline(always)]
    pub fn is_idle(&self) -> bool
        ensures { result ≡ is_idle self.now.here }
    {
        self.held.is_none() && !self.has_frames()
    }

    /// Whether a step is held, which was taken in the search for a `(`.
    #[inline(always)]
    pub fn is_holding(&self) -> bool
        ensures { result ≡ is_some self.now.here.held }
    {
        self.held.is_some()
    }

    /// Holds a step that was taken. It is the next one.
    #[inline(always)]
    pub fn put_back(&mut self, step: PlacedStep<Read>)
        requires { IfOk step (λ read. HoldsOrdinary read.token.value) }
        ensures { self.new ≡ record self.old { here = record self.old.here { held = Some step } } }
    {
        drop(self.held.replace(step));
    }

    /// Forgets an end that is held, since another text is read next.
    pub fn forget_end(&mut self)
        ensures { self.new ≡ record self.old { here = record self.old.here { held = without_end self.old.here.held } } }
    {
        if matches!(self.held, Some(Err(PlacedExit::Finished))) {
            drop(self.held.take());
        }
    }

    /// Takes the step that is held. It is a function of its own, so that other tokens are moved less.
    #[inline(never)]
    pub fn take_held(&mut self) -> PlacedStep<Read>
        requires { IsSome self.old.here.held }
        ensures held { self.old.here.held ≡ Some result }
        ensures left { self.new ≡ record self.old { here = record self.old.here { held = None } } }
        ensures holds { IfOk result (λ read. HoldsOrdinary read.token.value) }
    {
        match self.held.take() {
            Some(step) => step,
            None => unreachable!(),
        }
    }

    /// Whether the macro with this number is open, here or around.
    #[inline(always)]
    pub fn is_open(&self, id: NameId) -> bool
        ensures { result ≡ list_any (λ frame. frame.number == id) (self.now.here.frames ++ self.now.below) }
    {
        match self.counts.get(id.number()) {
            Some(count) => *count > 0,
            None => false,
        }
    }

    /// Whether the macro of a name is open, here or around, by the number that the name has. A name without one was
    /// never defined.
    #[inline(always)]
    pub fn is_open_name(&self, number: &Option<NameId>) -> bool
        ensures { (names : List Name) (value : TokenValue) → AreKnown names self.now
            → number.now ≡ number_in names value → result ≡ is_one_of (open_names self.now) value }
    {
        match number {
            Some(id) => self.is_open(*id),
            None => false,
        }
    }

    /// Whether no macro is open, here or around.
    #[inline(always)]
    pub fn is_alone(&self) -> bool
        ensures { result ≡ true → open_names self.now ≡ [] }
    {
        self.frames.is_empty()
    }

    /// Where the outermost macro that is open here was called.
    #[inline(always)]
    pub fn outermost_call(&self) -> Option<CallPlace>
        ensures { result ≡ outermost_frame_call self.now.here.frames }
    {
        match self.frames.get(self.base) {
            Some(frame) => Some(frame.call()),
            None => None,
        }
    }

    /// Where the item that the last turn gave was called from. Before that turn the outermost macro was called there.
    #[inline(always)]
    pub fn item_call(&self, before: Option<CallPlace>) -> Option<CallPlace>
        ensures { result ≡ kept_call self.now.here.held before self.now.here.frames }
    {
        if self.is_holding() {
            return before;
        }
        self.outermost_call()
    }

    // Closes the innermost frame: its macro is open once less, and its lists are kept to be used again.
    #[inline(always)]
    fn close(&mut self)
        requires { is_some (outermost_frame_call self.old.here.frames) ≡ true }
        ensures { self.new ≡ with_frames self.old (drop 1 self.old.here.frames) }
    {
        let Some(frame) = self.frames.pop() else {
            return;
        };
        self.counts[frame.number()] -= 1;
        keep_lists(&mut self.spares, frame);
    }

    // Closes each frame that is open here.
    fn close_all(&mut self)
        ensures { self.new ≡ with_frames self.old [] }
    {
        'frames: while self.has_frames() {
            self.close();
        }
    }

    /// What the innermost frame gives next, or `None` if its next step is a pause.
    pub fn ahead(&self) -> Option<Ahead<'_>>
        ensures ahead { option_map read_of result ≡ given_next self.now.here.frames }
        ensures number { IfSome result (λ ahead. (names : List Name) → HaveNumbers names self.now.here.frames
            → AreNumbered names (noted_by ahead.number ahead.token.now.value)) }
        ensures holds { IfSome result (λ ahead. HoldsOrdinary ahead.token.now.value) }
    {
        if !self.has_frames() {
            return None;
        }
        match self.frames.last() {
            Some(frame) => frame.token(),
            None => None,
        }
    }

    /// Passes the pause that the innermost frame has next. A frame at its end is closed.
    #[inline(always)]
    pub fn pass_pause(&mut self)
        requires open { is_some (outermost_frame_call self.old.here.frames) ≡ true }
        requires pauses { given_next self.old.here.frames ≡ None }
        ensures { self.new ≡ stepped self.old }
    {
        let Some(frame) = self.frames.last_mut() else {
            unreachable!();
        };
        if !frame.pass_pause() {
            self.close();
        }
    }

    /// Makes the token that the innermost frame gives next, painted so, and passes it.
    #[inline(always)]
    pub fn make_read(&mut self, painted: bool) -> Result<Read, AllocError>
        requires { IsSome (given_next self.old.here.frames) }
        ensures makes { MatchResult result
            (λ read. (read_ahead painted self.old.here ≡ Some read) × (self.new ≡ stepped self.old))
            (λ _. self.new ≡ self.old) }
        ensures holds { IfOk result (λ read. HoldsOrdinary read.token.value) }
    {
        self.pay(1)?;
        match self.frames.last_mut() {
            Some(frame) => frame.make_read(self.alloc, painted),
            None => unreachable!(),
        }
    }

    /// Passes the token that the innermost frame gives next.
    #[inline(always)]
    pub fn pass_token(&mut self)
        requires { IsSome (given_next self.old.here.frames) }
        ensures { self.new ≡ stepped self.old }
    {
        match self.frames.last_mut() {
            Some(frame) => frame.pass_token(),
            None => unreachable!(),
        }
    }

    /// One step of the innermost frame, or of the reader if no macro is open. A frame at its end is
    /// closed.
    pub fn step_frames(&mut self, lexer: &mut dyn MeLexer) -> PlacedStep<Read>
        ensures moves { Moves self.old.here.frames (reader lexer.old) result self.new.here.frames (reader lexer.new) }
        ensures others { self.new ≡ with_frames self.old self.new.here.frames }
        ensures holds { IfOk result (λ read. HoldsOrdinary read.token.value) }
    {
        if !self.has_frames() {
            return lexer.step();
        }
        let Some(ahead) = self.ahead() else {
            self.pass_pause();
            return Err(PlacedExit::Continue);
        };
        let painted = ahead.painted;
        Ok(self.make_read(painted)?)
    }

    /// Takes a token: `__LINE__` becomes a number at once.
    #[inline(always)]
    pub fn take_in(&self, lexer: &dyn MeLexer, read: Read) -> PlacedStep<Read>
        requires { HoldsOrdinary read.token.value }
        ensures taken { result ≡ taken_as (Ok read) self.now.here.frames (reader lexer.now) }
        ensures holds { IfOk result (λ read. HoldsOrdinary read.token.value) }
    {
        if !is_line_name(&read.token.value) {
            return Ok(read);
        }
        let place = read.place();
        drop(read);
        self.show_line(lexer, place)
    }

    // The number that `__LINE__` at this place becomes. It is a function of its own, so that other tokens are moved
    // without it.
    #[inline(never)]
    fn show_line(&self, lexer: &dyn MeLexer, place: Place) -> PlacedStep<Read>
        ensures shows { result ≡ step_of_outcome (line_number place (shown_line (reader lexer.now)
            (unwrap_or (outermost_frame_line self.now.here.frames) place.location.line))) }
        ensures holds { IfOk result (λ read. HoldsOrdinary read.token.value) }
    {
        let line = match self.outermost_call() {
            Some(call) => call.line,
            None => place.location.line,
        };
        line_number(place, lexer.shown_line(line))
    }

    /// Paints a token that is taken, if it is the name of a macro that is open, here or around.
    #[inline(always)]
    pub fn paint(&self, lexer: &dyn MeLexer, read: &mut Read)
        requires known { AreKnown (names_in (definitions_of (reader lexer.now))) self.now }
        ensures { read.new ≡ painted_among (open_names self.now) read.old }
    {
        if !self.is_alone() && !read.painted {
            read.painted = self.is_open_name(&number_of(lexer, &read.token.value));
        }
    }

    /// Paints so each of the tokens from this position on.
    pub fn paint_from(&self, lexer: &dyn MeLexer, tokens: &mut [Read], start: usize)
        requires known { AreKnown (names_in (definitions_of (reader lexer.now))) self.now }
        ensures { tokens.new ≡ painted_from (open_names self.now) start tokens.old }
    {
        for at in start..tokens.len() {
            self.paint(lexer, &mut tokens[at]);
        }
    }

    // Puts the frame of a macro that opens inside the others.
    #[inline(always)]
    fn push(&mut self, frame: Frame) -> Result<(), AllocError>
        ensures ok { OnOk result (self.new ≡ with_frames self.old (frame ∷ self.old.here.frames)) }
        ensures err { OnErr result (self.new ≡ self.old) }
    {
        let number = frame.number();
        self.frames.reserve(1)?;
        make_room(&mut self.counts, number)?;
        self.frames.push_reserved(frame);
        self.counts[number] += 1;
        Ok(())
    }

    /// Opens the frame of a call with these arguments.
    pub fn open_call(&mut self, call: MacroCall, arguments: ArgumentLists) -> Result<(), AllocError>
        ensures ok { OnOk result (self.new ≡ with_frames self.old
            (new_frame call.opened call.call arguments ∷ self.old.here.frames)) }
        ensures err { OnErr result (self.new ≡ self.old) }
    {
        let (opened, call) = call.into_macro();
        self.pay_for_body(&opened)?;
        self.push(Frame::new(opened, call, arguments))
    }

    /// Opens the frame of a macro without parentheses, whose name is at this place of this text.
    #[inline(always)]
    pub fn open_bare(
        &mut self,
        opened: Rc<Macro>,
        text: u32,
        name: Location,
    ) -> Result<(), AllocError>
        ensures ok { OnOk result (self.new ≡ with_frames self.old
            (new_frame opened.value (bare_call text name) [] ∷ self.old.here.frames)) }
        ensures err { OnErr result (self.new ≡ self.old) }
    {
        self.pay_for_body(&opened)?;
        let number = opened.number().number();
        make_room(&mut self.counts, number)?;
        self.frames.reserve(1)?;
        let call = CallPlace {
            name,
            text,
            line: name.line,
        };
        self.frames
            .push_reserved(Frame::bare(self.alloc, opened, call));
        self.counts[number] += 1;
        Ok(())
    }
}
