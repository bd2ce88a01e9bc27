//! The next items of a stream, in the caller's memory.

ghost use Rattle.std.specs.Prelude.{◌≡◌, ◌<◌, ◌≤◌, false, IfOk, OnErr, IfSome, option_map};
ghost use Rattle.pp_rs.specs.Kept.{is_spent};
ghost use Rattle.pp_c.specs.Entries.{room_of};
ghost use Rattle.pp_c.specs.Preprocessed.{asks, given_entries};
ghost use Rattle.pp_c.specs.inner.Batches.{is_full, item_in, waiting_in, BeginsBatch, EndsReading, GivesBatch};
ghost use Rattle.pp_c.specs.inner.Batches.{GivesWaiting, RunsOut, RunsOutFrom};
ghost use Rattle.pp_c.specs.inner.Taking.{Takes};

use crate::items::{Item, Sizes};
use crate::output::Output;
use crate::preprocessing::{give_if_room, give_item, number, unless_refused};
use crate::status::End;
use pp_rs::pp::{Preprocessor, PreprocessorItem, TokenRef, TokenSink};
use pp_rs::token::Location;
use std::alloc::{AllocError, Global};
use std::mem;

/// The next items of a stream, in the caller's memory.
#[derive(Drop)]
pub(crate) struct Batch<'o, 'n> {
    pub(super) alloc: Global,
    pub(super) output: Output<'o>,
    pub(super) numbers: &'n mut [u32],
    /// How many items may be given.
    pub(super) most: u64,
    /// How many were given.
    pub(super) given: u64,
    /// The item that was read and isn't given.
    pub(super) waiting: Option<Waiting>,
}

/// An item that was read and isn't given yet.
#[derive(Drop)]
pub(crate) struct Waiting {
    item: PreprocessorItem,
    // If it is an error, its true place.
    place: Location,
    // The rest of its line, if it asks for a text.
    asked: Option<Location>,
    // The number of the text in which it is.
    text: u32,
}

impl Batch<'_, '_> {
    /// Gives the next items: as many as may be given and fit, up to the end or a line that asks for its text. Returns
    /// where they end. If there is no room for the first, it is only counted. The error is that memory ran out.
    pub(crate) fn fill(&mut self, pp: &mut Preprocessor<'static>) -> Result<End, AllocError>
        requires unspent { is_spent pp.old ≡ false }
        requires begins { BeginsBatch self.old }
        ensures given { IfOk result (λ end. GivesBatch self.old.most end pp.old (waiting_in self.old) self.old.output
            pp.new (waiting_in self.new) self.new.output) }
        ensures short { OnErr result (RunsOut self.old.most self.new.given pp.old (waiting_in self.old) self.old.output
            (waiting_in self.new) self.new.output) }
    {
        'items: loop {
            if let Some(end) = self.read(pp)? {
                return Ok(end);
            }
            if let Some(end) = self.give_waiting() {
                return Ok(end);
            }
        }
    }

    // Gives the tokens that come, and reads the item after them, which then waits, unless one waits already. Returns
    // where the items end, if they end before such an item. The error is that memory ran out.
    fn read(&mut self, pp: &mut Preprocessor<'static>) -> Result<Option<End>, AllocError>
        requires { is_spent pp.old ≡ false }
        ensures reads { IfOk result (λ end. EndsReading end pp.old self.old pp.new self.new) }
        ensures short { OnErr result (RunsOutFrom pp.old self.old self.new) }
        ensures most { self.new.most ≡ self.old.most }
        ensures more { self.old.given ≤ self.new.given }
    {
        if self.waiting.is_some() {
            return Ok(None);
        }
        let Some(item) = pp.give_tokens(self) else {
            if self.waiting.is_some() {
                return Ok(None);
            }
            return Ok(Some(if self.is_full() { End::Front } else { End::All }));
        };
        unless_refused(&item)?;
        let next = Waiting {
            item,
            place: pp.place(),
            asked: pp.include_line(),
            text: pp.origin().text,
        };
        drop(mem::replace(&mut self.waiting, Some(next)));
        Ok(None)
    }

    // Gives the item that waits, if there is room for it. Returns where the items end, if they end now. If it is the
    // first and doesn't fit, it is only counted.
    fn give_waiting(&mut self) -> Option<End>
        requires { IfSome (waiting_in self.old) (λ item. self.old.given < self.old.most) }
        ensures { IfSome (waiting_in self.old) (λ item. GivesWaiting item self.old result self.new) }
    {
        let Some(next) = &self.waiting else {
            return None;
        };
        if !self.output.has_room(next.room()) {
            if self.given == 0 {
                next.give(&mut self.output);
            }
            return Some(End::Front);
        }
        let first = self.output.sizes().items;
        next.give(&mut self.output);
        number(self.numbers, first, self.output.sizes().items, next.text);
        self.given += 1;
        let asks = next.asks();
        drop(self.waiting.take());
        if asks { Some(End::Include) } else { None }
    }
}

impl TokenSink for Batch<'_, '_> {
    ghost use Rattle.std.specs.Prelude.{◌≡◌};
    ghost use Rattle.pp_c.specs.inner.Batches.{TakesNext};

    ghost takes = { TakesNext };

    ghost refuses = { λ old new. new ≡ old };

    ghost is_full = { is_full };

    #[inline(always)]
    fn take(&mut self, token: TokenRef<'_>) -> Result<(), AllocError> {
        let at = self.output.sizes().items as usize;
        if !give_if_room(token.location, token.value, &mut self.output) {
            let next = Waiting {
                item: Ok(token.to_token(self.alloc)?),
                place: token.location,
                asked: None,
                text: token.origin.text,
            };
            drop(mem::replace(&mut self.waiting, Some(next)));
            return Ok(());
        }
        self.given += 1;
        if at < self.numbers.len() {
            self.numbers[at] = token.origin.text;
        }
        Ok(())
    }

    #[inline(always)]
    fn is_full(&self) -> bool {
        self.waiting.is_some()
            || self.given >= self.most
            || (self.given > 0 && self.output.is_full())
    }
}

impl Waiting {
    // Gives the item.
    fn give(&self, output: &mut Output<'_>)
        ensures { Takes output.old (given_entries (item_in self.now)) output.new }
    {
        give_item(&self.item, self.place, self.asked, output);
    }

    // How much room it takes.
    fn room(&self) -> Sizes
        ensures { result ≡ room_of (given_entries (item_in self.now)) }
    {
        let mut counted = Output::new(&mut [], &mut []);
        self.give(&mut counted);
        counted.sizes()
    }

    // Whether it is a line that asks for its text.
    fn asks(&self) -> bool
        ensures { result ≡ asks (item_in self.now) }
    {
        self.item.is_err() && self.asked.is_some()
    }
}
