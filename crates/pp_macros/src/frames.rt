//! Frames: macros that are open, each with the positions up to which its body and its arguments
//! were read.

ghost use Rattle.std.specs.Prelude.{◌≡◌, [], IfOk, IfSome, MatchResult};
ghost use Rattle.std.specs.Prelude.{List, Some, None, IsSome, is_some, option_map};
ghost use Rattle.pp_model.specs.Names.{Name};
ghost use Rattle.pp_macros.specs.inner.Bodies.{noted_by};
ghost use Rattle.pp_macros.specs.inner.Defined.{AreNumbered};
ghost use Rattle.pp_macros.specs.inner.Frames.{new_frame, advance};
ghost use Rattle.pp_macros.specs.inner.Parts.{lists_of};
ghost use Rattle.pp_macros.specs.Held.{HoldsOrdinary};
ghost use Rattle.pp_macros.specs.inner.Ahead.{read_of, painted_as, given_by, frame_after};

use crate::argument_lists::{ArgumentLists, OpenArguments, Part};
use crate::define::{BodyEntry, Macro};
use crate::names::NameId;
use pp_lexer::token::{Token, TokenValue};
use pp_model::read::Read;
use pp_model::splice::CallPlace;
use std::alloc::{AllocError, Global};
use std::marker::Model;
use std::rc::Rc;

/// The token that a frame has next in its list, its text, and whether it is painted there.
#[derive(Drop)]
pub struct Ahead<'a> {
    /// The token.
    pub token: &'a Token,
    /// The number of the text in which its place is.
    pub text: u32,
    /// Whether it is painted.
    pub painted: bool,
    /// The number that was noted for it, if it is of a body.
    pub(crate) number: Option<NameId>,
}

/// A macro that is open.
#[derive(Drop)]
pub struct Frame {
    opened: Rc<Macro>,
    call: CallPlace,
    position: usize,
    arguments: OpenArguments,
}

impl Model for Frame {
    ghost use Rattle.std.specs.Prelude.{drop};
    ghost use Rattle.pp_macros.specs.inner.Frames as spec;

    ghost Value = { spec.Frame };

    ghost view = { λ f. record {
      name = f.opened.value.name;
      number = f.opened.value.number;
      noted = f.opened.value.noted;
      call = f.call;
      parameters = f.opened.value.definition.parameters;
      body = drop f.position f.opened.value.definition.body;
      text = f.opened.value.definition.text;
      arguments = f.arguments.lists;
      reading = f.arguments.reading;
    } };
}

// A copy of a token. A punctuator is copied without a call.
#[inline(always)]
fn copy_of(alloc: Global, token: &Token) -> Result<Token, AllocError>
    ensures { IfOk result (λ copy. copy ≡ token.now) }
{
    if let TokenValue::Punct(punct) = &token.value {
        return Ok(Token {
            value: TokenValue::Punct(*punct),
            location: token.location,
        });
    }
    copy_of_other(alloc, token)
}

// Does the same with any token. It is a function of its own, so that a punctuator is copied without it.
#[inline(never)]
fn copy_of_other(alloc: Global, token: &Token) -> Result<Token, AllocError>
    ensures { IfOk result (λ copy. copy ≡ token.now) }
{
    let value = match &token.value {
        TokenValue::Integer(integer) => TokenValue::Integer(*integer),
        TokenValue::Ident(name) => TokenValue::Ident(name.try_clone(alloc)?),
        other => other.clone(alloc).map_err(|_| AllocError)?,
    };
    Ok(Token {
        value,
        location: token.location,
    })
}

impl Frame {
    /// The frame of a macro that opens.
    #[inline(always)]
    pub fn new(opened: Rc<Macro>, call: CallPlace, arguments: ArgumentLists) -> Frame
        ensures { result ≡ new_frame opened.value call arguments }
    {
        Frame {
            opened,
            call,
            position: 0,
            arguments: OpenArguments::new(arguments),
        }
    }

    /// The frame of a macro without arguments that opens.
    #[inline(always)]
    pub fn bare(alloc: Global, opened: Rc<Macro>, call: CallPlace) -> Frame
        ensures { result ≡ new_frame opened.value call [] }
    {
        Frame {
            opened,
            call,
            position: 0,
            arguments: OpenArguments::nothing(alloc),
        }
    }

    /// The tokens of its arguments, and the parts of them that are the arguments.
    #[inline(always)]
    pub fn into_lists(self) -> (Vec<Read>, Vec<Part>)
        ensures { lists_of result.0.items result.1.items ≡ self.arguments }
    {
        self.arguments.into_lists()
    }

    /// The macro's number.
    #[inline(always)]
    pub fn number(&self) -> usize
        ensures { result ≡ self.now.number }
    {
        self.opened.number().number()
    }

    /// Where its macro was called.
    pub fn call(&self) -> CallPlace
        ensures { result ≡ self.now.call }
    {
        self.call
    }

    /// The token that its next step gives. The step is a pause at a parameter, at the end of an
    /// argument and at the end of the body.
    #[inline(always)]
    pub fn token(&self) -> Option<Ahead<'_>>
        ensures token { option_map read_of result ≡ given_by (advance self.now) }
        ensures number { IfSome result (λ ahead. (names : List Name) → AreNumbered names self.now.noted
            → AreNumbered names (noted_by ahead.number ahead.token.now.value)) }
        ensures holds { IfSome result (λ ahead. HoldsOrdinary ahead.token.now.value) }
    {
        if self.arguments.is_reading() {
            let read = self.arguments.token()?;
            return Some(Ahead {
                token: &read.token,
                text: read.text,
                painted: read.painted,
                number: None,
            });
        }
        match self.opened.entry_at(self.position) {
            Some(BodyEntry::Token(token, number)) => Some(Ahead {
                token,
                text: self.opened.text(),
                painted: false,
                number: *number,
            }),
            _ => None,
        }
    }

    /// Makes the token that its next step gives, painted so, and advances by that step. The token is moved out if its
    /// list gives it for the last time, and copied otherwise.
    #[inline(always)]
    pub fn make_read(&mut self, alloc: Global, painted: bool) -> Result<Read, AllocError>
        requires { IsSome (given_by (advance self.old)) }
        ensures makes { MatchResult result
            (λ read. (painted_as painted (given_by (advance self.old)) ≡ Some read)
            × (self.new ≡ frame_after self.old (advance self.old)))
            (λ _. self.new ≡ self.old) }
        ensures name { self.new.name ≡ self.old.name }
        ensures number { self.new.number ≡ self.old.number }
        ensures holds { IfOk result (λ read. HoldsOrdinary read.token.value) }
    {
        if self.arguments.is_last() {
            if let Some(mut read) = self.arguments.take() {
                read.painted = painted;
                return Ok(read);
            }
        }
        let Some(ahead) = self.token() else {
            unreachable!();
        };
        let text = ahead.text;
        let token = copy_of(alloc, ahead.token)?;
        self.pass_token();
        Ok(Read {
            token,
            text,
            painted,
        })
    }

    /// Advances by a step that gives a token.
    #[inline(always)]
    pub fn pass_token(&mut self)
        requires { IsSome (given_by (advance self.old)) }
        ensures step { self.new ≡ frame_after self.old (advance self.old) }
        ensures name { self.new.name ≡ self.old.name }
        ensures number { self.new.number ≡ self.old.number }
    {
        if self.arguments.is_reading() {
            self.arguments.pass();
            return;
        }
        prove!(self.position < self.opened.len());
        self.position += 1;
    }

    /// Advances by a step that is a pause, and returns whether there was one. A frame at its end stays as it is.
    #[inline(always)]
    pub fn pass_pause(&mut self) -> bool
        requires { given_by (advance self.old) ≡ None }
        ensures some { result ≡ is_some (advance self.old) }
        ensures step { self.new ≡ frame_after self.old (advance self.old) }
        ensures name { self.new.name ≡ self.old.name }
        ensures number { self.new.number ≡ self.old.number }
    {
        if self.arguments.is_reading() {
            self.arguments.end();
            return true;
        }
        let Some(
            BodyEntry::Parameter {
                position,
                is_last,
                ..
            },
        ) = self.opened.entry_at(self.position)
        else {
            return false;
        };
        let (parameter, is_last) = (*position, *is_last);
        self.position += 1;
        if is_last {
            self.arguments.begin_last(parameter);
        } else {
            self.arguments.begin(parameter);
        }
        true
    }
}
