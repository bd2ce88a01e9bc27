//! What the open macros of an expander give, without a step of its reader.

ghost use Rattle.std.specs.Prelude.{◌≡◌, ◌∷◌, ◌++◌, [], OnOk, OnErr, IfOk, IfSome, None, Some, IsSome, option_map};
ghost use Rattle.pp_macros.specs.Held.{HoldsOrdinary};
ghost use Rattle.pp_macros.specs.inner.Ahead.{frames_after, given_next, read_of};
ghost use Rattle.pp_macros.specs.inner.Reading.{AllReadOrdinary};
ghost use Rattle.pp_macros.specs.inner.Frames.{bare_call, new_frame};
ghost use Rattle.pp_macros.specs.inner.Giving.{AdvancesTo, GivesEach, GivesIf, GivesNext, IsNext, RefusesWithin};
ghost use Rattle.pp_macros.specs.inner.Giving.{TurnsFrames, read_ahead, token_ahead};
ghost use Rattle.pp_macros.specs.inner.CallTurns.{TakesSomething};
ghost use Rattle.pp_macros.specs.inner.Left.{IsSound};
ghost use Rattle.pp_macros.specs.inner.Bodies.{noted_by};
ghost use Rattle.pp_macros.specs.inner.Defined.{AreNumbered, names_in, number_in};
ghost use Rattle.pp_macros.specs.inner.Nesting.{AreKnown, MayWait, open_names, seen_by, stepped, with_frames};
ghost use Rattle.pp_macros.specs.inner.Reader.{of_list, definitions_of};

use crate::define::Macro;
use crate::frames::Ahead;
use crate::list_lexer::ListLexer;
use crate::macro_processor::MacroProcessor;
use crate::names::NameId;
use crate::reader::MeLexer;
use pp_lexer::token::{Location, Token, TokenValue};
use pp_model::names::is_line_name;
use pp_model::read::Read;
use std::alloc::AllocError;
use std::rc::Rc;

// The number of the name that the token of the innermost frame is, if it has one. A number that is noted in a body is
// the name's.
#[inline(always)]
fn number_of<L: MeLexer>(lexer: &L, ahead: &Ahead<'_>) -> Option<NameId>
    requires { AreNumbered (names_in (definitions_of (L.reader lexer.now)))
        (noted_by ahead.now.number ahead.now.token.now.value) }
    ensures { result ≡ number_in (names_in (definitions_of (L.reader lexer.now))) ahead.now.token.now.value }
{
    match &ahead.token.value {
        TokenValue::Ident(name) => match ahead.number {
            Some(id) => Some(id),
            None => lexer.find(name.as_str()),
        },
        _ => None,
    }
}

// The token ahead, if it is a punctuator.
#[inline(always)]
fn punctuator(ahead: &Ahead<'_>) -> Option<Read>
    ensures { IfSome result (λ read. read ≡ read_of ahead.now) }
{
    let TokenValue::Punct(punct) = &ahead.token.value else {
        return None;
    };
    Some(Read {
        token: Token {
            value: TokenValue::Punct(*punct),
            location: ahead.token.location,
        },
        text: ahead.text,
        painted: ahead.painted,
    })
}

// What the open macros do next.
enum Next<'a, 'l> {
    // A pause.
    Pause,
    // The name of a macro without parentheses, which opens.
    Opens(&'l Rc<Macro>, Ahead<'a>),
    // A token that is given as it is in its list, painted so.
    Token(Ahead<'a>),
    // Anything else.
    Other,
}

// What one step of the open macros does.
#[derive(Clone, Copy)]
enum Turn {
    // It is a pause, or opens a macro without parentheses.
    Passed,
    // It gives a token as it is in its list, painted or not. It isn't made yet.
    Token(bool),
    // Anything else. It isn't made.
    Other,
}

impl MacroProcessor {
    // What the open macros do next, where nothing is held.
    #[inline(always)]
    fn next<'a, 'l, L: MeLexer>(&'a self, lexer: &'l L) -> Next<'a, 'l>
        requires free { self.now.here.held ≡ None }
        requires waits { MayWait self.now.below (L.reader lexer.now) }
        requires known { AreKnown (names_in (definitions_of (L.reader lexer.now))) self.now }
        ensures { IsNext (seen_by self.now.below (L.reader lexer.now)) self.now.here result }
    {
        if !self.has_frames() {
            return Next::Other;
        }
        let Some(ahead) = self.ahead() else {
            return Next::Pause;
        };
        if is_line_name(&ahead.token.value) {
            return Next::Other;
        }
        let Some(id) = number_of(lexer, &ahead) else {
            return Next::Token(ahead);
        };
        if ahead.painted || self.is_open(id) {
            return Next::Token(Ahead {
                painted: true,
                ..ahead
            });
        }
        let Some(found) = lexer.get_define(id) else {
            return Next::Token(ahead);
        };
        if found.is_function_like() {
            return Next::Other;
        }
        Next::Opens(found, ahead)
    }

    // Passes the name of a macro without parentheses, which is at this place of this text, and opens the macro.
    #[inline(always)]
    fn open_name(&mut self, found: &Rc<Macro>, text: u32, name: Location) -> Result<(), AllocError>
        requires { IsSome (given_next self.old.here.frames) }
        ensures opens { OnOk result (self.new ≡ with_frames self.old
            (new_frame found.now.value (bare_call text name) [] ∷ frames_after self.old.here.frames)) }
        ensures below { self.new.below ≡ self.old.below }
    {
        let opened = found.clone()?;
        self.pass_token();
        self.open_bare(opened, text, name)
    }

    // One step of the open macros, where nothing is held, if it is a pause or opens a macro without parentheses;
    // otherwise nothing changes.
    #[inline(always)]
    fn turn<L: MeLexer>(&mut self, lexer: &L) -> Result<Turn, AllocError>
        requires free { self.old.here.held ≡ None }
        requires waits { MayWait self.old.below (L.reader lexer.now) }
        requires known { AreKnown (names_in (definitions_of (L.reader lexer.now))) self.old }
        ensures turns { IfOk result (λ turn. TurnsFrames (seen_by self.old.below (L.reader lexer.now))
            self.old.here turn self.new.here) }
        ensures free { OnOk result (self.new.here.held ≡ None) }
        ensures below { self.new.below ≡ self.old.below }
        ensures refused { OnErr result (TakesSomething self.old.here (seen_by self.old.below (L.reader lexer.now))) }
    {
        match self.next(lexer) {
            Next::Pause => {
                self.pass_pause();
                Ok(Turn::Passed)
            }
            Next::Opens(opened, ahead) => {
                let (text, name) = (ahead.text, ahead.token.location);
                self.open_name(opened, text, name)?;
                Ok(Turn::Passed)
            }
            Next::Token(ahead) => Ok(Turn::Token(ahead.painted)),
            Next::Other => Ok(Turn::Other),
        }
    }

    /// Goes on in the open macros up to a token that is given as it is in its list: over parameters and ends, and names
    /// of macros without parentheses, which open. Returns whether the token is painted, if there is one; `token` gives
    /// it, and `pass_token` passes it. Stops at `__LINE__` and at the name of a macro with parentheses.
    #[inline(always)]
    pub fn advance<L: MeLexer>(&mut self, lexer: &L) -> Result<Option<bool>, AllocError>
        requires sound { IsSound self.old.here (seen_by self.old.below (L.reader lexer.now)) }
        requires waits { MayWait self.old.below (L.reader lexer.now) }
        requires known { AreKnown (names_in (definitions_of (L.reader lexer.now))) self.old }
        ensures advances { IfOk result (λ found. AdvancesTo (seen_by self.old.below (L.reader lexer.now))
            self.old.here found self.new.here) }
        ensures below { self.new.below ≡ self.old.below }
        ensures refused { OnErr result (RefusesWithin (seen_by self.old.below (L.reader lexer.now)) self.old.here) }
    {
        if self.is_holding() {
            return Ok(None);
        }
        'turns: loop {
            match self.turn(lexer)? {
                Turn::Passed => {}
                Turn::Token(painted) => return Ok(Some(painted)),
                Turn::Other => return Ok(None),
            }
        }
    }

    /// The token that the innermost open macro has next in its list. There is none if its next step is a pause.
    #[inline(always)]
    pub fn token(&self) -> Option<&Token>
        ensures token { option_map (λ token. token.now) result ≡ token_ahead self.now.here }
    {
        match self.ahead() {
            Some(ahead) => Some(ahead.token),
            None => None,
        }
    }

    /// Goes on as `advance` does, and gives a copy of the token that it finds, and passes it.
    #[inline(always)]
    pub fn give_next<L: MeLexer>(&mut self, lexer: &L) -> Result<Option<Read>, AllocError>
        requires sound { IsSound self.old.here (seen_by self.old.below (L.reader lexer.now)) }
        requires waits { MayWait self.old.below (L.reader lexer.now) }
        requires known { AreKnown (names_in (definitions_of (L.reader lexer.now))) self.old }
        ensures gives { IfOk result (λ given. GivesNext (seen_by self.old.below (L.reader lexer.now))
            self.old.here given self.new.here) }
        ensures below { self.new.below ≡ self.old.below }
        ensures holds { IfOk result (λ given. IfSome given (λ read. HoldsOrdinary read.token.value)) }
        ensures refused { OnErr result (RefusesWithin (seen_by self.old.below (L.reader lexer.now)) self.old.here) }
    {
        match self.advance(lexer)? {
            Some(painted) => self.make_read(painted).map(Some),
            None => Ok(None),
        }
    }

    // Puts the token that `token` gives after the items, painted or not, and passes it. It is a function of its own, so
    // that a punctuator is put without it.
    #[inline(never)]
    fn put_other(&mut self, painted: bool, items: &mut Vec<Read>) -> Result<(), AllocError>
        requires { IsSome (given_next self.old.here.frames) }
        ensures passes { OnOk result (self.new ≡ stepped self.old) }
        ensures below { self.new.below ≡ self.old.below }
        ensures puts { OnOk result ((read : Read) → read_ahead painted self.old.here ≡ Some read
            → items.new.items ≡ items.old.items ++ read ∷ []) }
    {
        self.pay(1)?;
        let read = self.make_read(painted)?;
        items.push(read)?;
        Ok(())
    }

    // One step of the open macros over a list, where nothing is held. A token that it gives is put after the items; a
    // punctuator is made where it is put. Returns whether there was such a step; otherwise nothing changes.
    #[inline(always)]
    fn give_one(&mut self, list: &ListLexer<'_>, items: &mut Vec<Read>) -> Result<bool, AllocError>
        requires free { self.old.here.held ≡ None }
        requires ordinary { AllReadOrdinary items.old.items }
        requires known { AreKnown (names_in list.now.definitions) self.old }
        ensures gives { IfOk result (λ given. GivesIf given (seen_by self.old.below (of_list list.now))
            self.old.here items.old.items self.new.here items.new.items) }
        ensures free { OnOk result (self.new.here.held ≡ None) }
        ensures below { self.new.below ≡ self.old.below }
        ensures holds { OnOk result (AllReadOrdinary items.new.items) }
    {
        match self.next(list) {
            Next::Pause => self.pass_pause(),
            Next::Opens(opened, ahead) => {
                let (text, name) = (ahead.text, ahead.token.location);
                self.open_name(opened, text, name)?;
            }
            Next::Token(ahead) => match punctuator(&ahead) {
                Some(read) => {
                    self.pay(2)?;
                    items.push(read)?;
                    self.pass_token();
                }
                None => {
                    let painted = ahead.painted;
                    self.put_other(painted, items)?;
                }
            },
            Next::Other => return Ok(false),
        }
        Ok(true)
    }

    /// Appends to the items what the open macros give, over a list: up to `__LINE__`, to the name of a macro with
    /// parentheses, or to the end of all open macros.
    ///
    /// It is a function of its own, so that calls inside each other keep no room for it on the stack.
    #[inline(never)]
    pub fn give_frames(
        &mut self,
        list: &ListLexer<'_>,
        items: &mut Vec<Read>,
    ) -> Result<(), AllocError>
        requires ordinary { AllReadOrdinary items.old.items }
        requires sound { IsSound self.old.here (seen_by self.old.below (of_list list.now)) }
        requires known { AreKnown (names_in list.now.definitions) self.old }
        ensures gives { OnOk result (GivesEach (seen_by self.old.below (of_list list.now))
            self.old.here items.old.items self.new.here items.new.items) }
        ensures below { self.new.below ≡ self.old.below }
        ensures holds { OnOk result (AllReadOrdinary items.new.items) }
    {
        if self.is_holding() {
            return Ok(());
        }
        'turns: while self.give_one(list, items)? {}
        Ok(())
    }
}
