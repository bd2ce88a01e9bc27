//! The handle by which C holds a stream.

ghost use Rattle.std.specs.Prelude.{◌≡◌, Option, None, Some};
ghost use Rattle.pp_c.specs.Handles.{kept_at, kept_in, loose_in};
ghost use Rattle.pp_c.specs.Streams.{Streaming};

use super::loose::Loose;
use super::state::State;
use std::alloc::Global;
use std::marker::Model;
use std::mem;
use std::ptr::null_mut;

/// A stream of the items of a source. A null pointer is a closed one, which keeps nothing.
#[repr(C)]
pub struct Stream {
    state: *mut u8,
    pub(crate) ghost kept: { Option Streaming },
}

impl Model for Stream {
    ghost also_owns = { λ stream. kept_at stream.state stream.kept };
}

impl Stream {
    // A closed stream.
    fn closed() -> Stream
        ensures { result.kept ≡ None }
    {
        Stream { state: null_mut() }
    }

    // A stream that keeps this.
    fn of(state: Box<State>) -> Stream
        ensures { result.kept ≡ Some state.value }
    {
        Stream::over(Loose::of(state))
    }

    /// Takes out what it keeps. It is closed then.
    pub(crate) fn take(&mut self, alloc: Global) -> Option<Box<State>>
        ensures taken { kept_in result ≡ self.old.kept }
        ensures closed { self.new.kept ≡ None }
    {
        mem::replace(self, Stream::closed()).into_state(alloc)
    }

    /// Keeps this, and drops what it kept.
    pub(crate) fn keep(&mut self, alloc: Global, state: Box<State>)
        ensures { self.new.kept ≡ Some state.value }
    {
        drop(mem::replace(self, Stream::of(state)).into_state(alloc));
    }

    /// Closes it, and drops what it kept.
    pub(crate) fn close(&mut self, alloc: Global)
        ensures { self.new.kept ≡ None }
    {
        drop(self.take(alloc));
    }

    // What it keeps.
    fn into_state(self, alloc: Global) -> Option<Box<State>>
        ensures { kept_in result ≡ self.kept }
    {
        match self.into_loose(alloc) {
            Some(state) => Some(state.into_box()),
            None => None,
        }
    }

    // A stream that keeps what lies there.
    fn over(state: Loose<State, Global>) -> Stream
        ensures { result.kept ≡ Some state.value }
    {
        let Loose { at, alloc: _ } = state;
        Stream {
            state: at as *mut u8,
        }
    }

    // What it keeps, where it lies.
    fn into_loose(self, alloc: Global) -> Option<Loose<State, Global>>
        ensures { loose_in result ≡ self.kept }
    {
        let Stream { state } = self;
        if state.is_null() {
            return None;
        }
        Some(Loose {
            at: state as *mut State,
            alloc,
        })
    }
}
