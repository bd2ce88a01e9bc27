//! A list of tokens as a reader: an argument of a call, or the line of a directive.

ghost use Rattle.std.specs.Prelude.{◌≡◌, ◌∷◌, ◌<◌, [], drop, false, true, length, MatchOption};
ghost use Rattle.pp_macros.specs.Held.{HoldsOrdinary};
ghost use Rattle.pp_macros.specs.inner.Reading.{AllReadOrdinary};
ghost use Rattle.pp_macros.specs.inner.Reader.{of_list};

use crate::define::Macro;
use crate::names::{Definitions, NameId};
use crate::reader::{MeLexer, ends_at_parenthesis};
use crate::step::{PlacedExit, PlacedStep};
use pp_lexer::token::{Integer, NOWHERE, Punct, Token, TokenValue};
use pp_model::names::{is_defined_name, is_line_name};
use pp_model::numbering::Numbering;
use pp_model::place::SOURCE_TEXT;
use pp_model::read::Read;
use std::alloc::AllocError;
use std::marker::Model;
use std::mem;
use std::rc::Rc;

/// Moves a token out of its list. A comma with the place `NOWHERE` replaces it.
pub fn take_out(place: &mut Read) -> Read
    ensures is { result ≡ place.old }
    ensures left { HoldsOrdinary place.new.token.value }
{
    let nothing = Token {
        value: TokenValue::Punct(Punct::Comma),
        location: NOWHERE,
    };
    mem::replace(place, Read::of_text(nothing, SOURCE_TEXT))
}

/// What holds for the tokens of a list.
#[derive(Clone, Copy)]
pub struct Scope<'a> {
    /// How their lines are numbered.
    pub numbering: Numbering,
    /// The definitions there.
    pub definitions: &'a Definitions,
}

/// A list of tokens, and what holds for them. Tokens that it has read are moved out of the list.
#[derive(Drop)]
pub struct ListLexer<'a> {
    tokens: &'a mut [Read],
    position: usize,
    scope: Scope<'a>,
    is_line: bool,
}

impl<'a> Model for ListLexer<'a> {
    ghost use Rattle.std.specs.Prelude.{[], drop};
    ghost use Rattle.pp_macros.specs.inner.Reading.{AllReadOrdinary};
    ghost use Rattle.pp_macros.specs.inner.Reader.{Listing};

    ghost Value = { Listing };

    ghost view = { λ l. record {
      tokens = drop l.position l.tokens.now;
      numbering = l.scope.numbering;
      definitions = l.scope.definitions.now;
      hidden = [];
      is_line = l.is_line;
    } };

    ghost invariant = { λ l. AllReadOrdinary (drop l.position l.tokens.now) };
}

impl<'a> ListLexer<'a> {
    /// An argument of a call.
    pub fn argument(tokens: &'a mut [Read], scope: Scope<'a>) -> Self
        requires { AllReadOrdinary tokens.old }
        ensures { result ≡ record {
          tokens = tokens.old;
          numbering = scope.entry.numbering;
          definitions = scope.entry.definitions.now;
          hidden = [];
          is_line = false;
        } }
    {
        ListLexer {
            tokens,
            position: 0,
            scope,
            is_line: false,
        }
    }

    /// The line of an `#if`, `#elif` or `#line`, in which `defined` is reserved.
    pub fn line(tokens: &'a mut [Read], scope: Scope<'a>) -> Self
        requires { AllReadOrdinary tokens.old }
        ensures { result ≡ record {
          tokens = tokens.old;
          numbering = scope.entry.numbering;
          definitions = scope.entry.definitions.now;
          hidden = [];
          is_line = true;
        } }
    {
        ListLexer {
            tokens,
            position: 0,
            scope,
            is_line: true,
        }
    }

    /// The definitions there.
    #[inline(always)]
    pub fn definitions(&self) -> &Definitions
        ensures { result.now ≡ self.now.definitions }
    {
        self.scope.definitions
    }

    /// The next token.
    #[inline(always)]
    pub fn peek(&self) -> Option<&Read>
        ensures { MatchOption result (self.now.tokens ≡ []) (λ read.
            self.now.tokens ≡ read.now ∷ drop 1 self.now.tokens) }
    {
        self.tokens.get(self.position)
    }

    /// Takes that token out.
    #[inline(always)]
    pub fn take(&mut self) -> Read
        requires { 0 < length self.old.tokens }
        ensures tokens { self.old.tokens ≡ result ∷ self.new.tokens }
        ensures others { self.new ≡ record self.old { tokens = self.new.tokens } }
        ensures holds { HoldsOrdinary result.token.value }
    {
        let read = take_out(&mut self.tokens[self.position]);
        self.position += 1;
        read
    }
}

impl<'a> MeLexer for ListLexer<'a> {
    ghost reader = { λ list. of_list list };

    fn step(&mut self) -> PlacedStep<Read> {
        if self.peek().is_none() {
            return Err(PlacedExit::Finished);
        }
        Ok(self.take())
    }

    fn push_flat(&mut self, tokens: &mut Vec<Read>) -> Result<bool, AllocError> {
        'tokens: while let Some(read) = self.peek() {
            if is_line_name(&read.token.value) {
                return Ok(false);
            }
            tokens.push(self.take())?;
            if ends_at_parenthesis(tokens) {
                return Ok(true);
            }
        }
        Ok(false)
    }

    fn find(&self, name: &str) -> Option<NameId> {
        self.scope.definitions.find(name)
    }

    fn get_define(&self, id: NameId) -> Option<&Rc<Macro>> {
        let found = self.scope.definitions.get_define(id)?;
        if self.is_line && is_defined_name(found.name()) {
            return None;
        }
        Some(found)
    }

    fn shown_line(&self, line: u32) -> Option<Integer> {
        Some(self.scope.numbering.number_of(line))
    }
}
