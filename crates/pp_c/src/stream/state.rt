//! What a stream keeps: the preprocessor of its source, and the item that is given next.

ghost use Rattle.std.specs.Prelude.{◌≡◌, ◌⊎◌, ◌<◌, ◌≤◌, ◌-◌, ◌^◌, true, false, length, is_some};
ghost use Rattle.std.specs.Prelude.{[], None, Err, IsOk, IfOk, IfErr, IfSome, OnOk, OnErr, IsUtf8};
ghost use Rattle.pp_model.specs.Run.{include};
ghost use Rattle.pp_c.specs.Ends.{HasRoom};
ghost use Rattle.pp_c.specs.Preprocessed.{HasAskedItems};
ghost use Rattle.pp_c.specs.Streams.{shortage_number, Defines, GivesItems, GivesNothing, IsOpened, MakesCall};
ghost use Rattle.pp_c.specs.inner.Batches.{EndsBatch, IsShort};
ghost use Rattle.pp_c.specs.inner.Refusing.{refusal_for, IsCallRefusal, IsNoText};
ghost use Rattle.pp_c.specs.inner.Taking.{HaveRoom};

use super::batch::{Batch, Waiting};
use crate::definitions::LIMIT;
use crate::items::{Item, Sizes};
use crate::options::Setting;
use crate::output::Output;
use crate::preprocessing::set_budget;
use crate::room_of;
use crate::status::{End, Refusal, Shortage, status_after};
use pp_macros::step::is_out_of_memory;
use pp_rs::pp::{IncludeError, Preprocessor};
use pp_rs::token::{Location, PreprocessorError};
use std::alloc::Global;
use std::marker::Model;
use std::{mem, str};

/// A source, read as far as its items were asked for.
#[derive(Drop)]
pub struct State {
    pp: Preprocessor<'static>,
    // The item that was read and not given for want of room.
    waiting: Option<Waiting>,
    // What ran out, so that no item comes any more.
    ran_out: Option<Shortage>,
    is_bounded: bool,
}

impl Model for State {
    ghost use Rattle.std.specs.Prelude.{◌≡◌, None, option_map, false};
    ghost use Rattle.pp_rs.specs.Kept.{is_spent};
    ghost use Rattle.pp_c.specs.Streams.{Streaming};
    ghost use Rattle.pp_c.specs.inner.Batches.{item_in};

    ghost Value = { Streaming };

    ghost view = { λ s. record {
      preprocessing = s.pp;
      waiting = option_map item_in s.waiting;
      ran_out = s.ran_out;
      is_bounded = s.is_bounded;
    } };

    ghost invariant = { λ s. s.ran_out ≡ None → is_spent s.pp ≡ false };
}

impl State {
    /// Opens a stream of the items of a source, by the rules of the setting and within its budget. If `is_text`, the
    /// source is taken for UTF-8 without a look.
    pub(crate) fn open(
        alloc: Global,
        setting: Setting,
        is_text: bool,
        source: &'static [u8],
    ) -> Result<State, Refusal>
        requires { is_text ≡ true → IsUtf8 source.now }
        ensures opened { IfOk result (λ state. IsOpened setting.rules (is_some setting.budget) source.now state) }
        ensures text { IsOk result → (length source.now < 2 ^ 32 - 1) × IsUtf8 source.now }
        ensures refused { IfErr result (λ refusal. IsNoText source.now refusal
            ⊎ ((refusal ≡ Refusal.OutOfMemory) × (length source.now < 2 ^ 32 - 1) × IsUtf8 source.now)) }
    {
        let source = text_of(source, is_text)?;
        let mut pp = Preprocessor::with_rules(alloc, source, setting.rules);
        set_budget(&mut pp, setting.budget)?;
        Ok(State {
            pp,
            waiting: None,
            ran_out: None,
            is_bounded: setting.budget.is_some(),
        })
    }

    /// Gives the next items in the caller's memory: at most `most`, up to the end or a line that asks for its text, and
    /// as many as there is room for. If there is no room for the first, it stays the next, and `sizes` says how much
    /// it takes. Returns the number of a `Status`. Once memory or the budget has run out, no item comes any more.
    pub(crate) fn next(
        &mut self,
        alloc: Global,
        most: u64,
        items: &mut [Item],
        texts: &mut [u8],
        numbers: &mut [u32],
        sizes: &mut Sizes,
    ) -> u32
        requires { 0 < most }
        ensures answer { HasAskedItems result ⊎ (result ≡ 5) ⊎ (result ≡ 6) }
        ensures given { HasAskedItems result → GivesItems most result self.old self.new
            items.old items.new texts.old texts.new sizes.new }
        ensures room { (result ≡ 0) ⊎ (result ≡ 7) ⊎ (result ≡ 9)
            → HasRoom (length items.old) (length texts.old) sizes.new }
        ensures too_small { result ≡ 1 → ¬ (HasRoom (length items.old) (length texts.old) sizes.new) }
        ensures short { (result ≡ 5) ⊎ (result ≡ 6) → GivesNothing result self.old self.new }
        ensures ran_out { IfSome self.old.ran_out (λ shortage.
            (result ≡ shortage_number shortage) × (self.new ≡ self.old)) }
        ensures over_budget { result ≡ 6 → self.old.ran_out ≡ None → self.old.is_bounded ≡ true }
    {
        let room = room_of(items, texts);
        let mut output = Output::new(items, texts);
        let end = self.give(alloc, most, numbers, &mut output);
        let wanted = output.sizes();
        *sizes = wanted;
        status_after(end, wanted, room) as u32
    }

    // Gives the next items, as `next` does. Returns where they end.
    fn give(
        &mut self,
        alloc: Global,
        most: u64,
        numbers: &mut [u32],
        output: &mut Output<'_>,
    ) -> Result<End, Refusal>
        requires some { 0 < most }
        requires room { HaveRoom output.old [] }
        ensures given { IfOk result (λ end. EndsBatch most end self.old output.old self.new output.new) }
        ensures short { IfErr result (λ refusal. IsShort refusal self.old self.new) }
    {
        if let Some(shortage) = self.ran_out {
            return Err(Refusal::from(shortage));
        }
        let mut batch = Batch {
            alloc,
            output: mem::replace(output, Output::new(&mut [], &mut [])),
            numbers,
            most,
            given: 0,
            waiting: self.waiting.take(),
        };
        let end = batch.fill(&mut self.pp);
        let Batch {
            output: filled,
            given,
            waiting,
            ..
        } = batch;
        drop(mem::replace(output, filled));
        drop(mem::replace(&mut self.waiting, waiting));
        if let Ok(end) = end {
            return Ok(end);
        }
        let shortage = if self.is_bounded && self.pp.is_over_budget() {
            Shortage::Budget
        } else {
            Shortage::Memory
        };
        self.ran_out = Some(shortage);
        if given > 0 {
            return Ok(End::Front);
        }
        Err(Refusal::from(shortage))
    }

    /// Adds a definition behind the items that were read. Returns the first error in its content, if there is one: then
    /// it isn't added.
    pub(crate) fn define(
        &mut self,
        name: &[u8],
        content: &[u8],
    ) -> Result<Option<(PreprocessorError, Location)>, Refusal>
        ensures defines { IfOk result (λ fault. Defines name.now content.now fault self.old self.new) }
        ensures nothing { OnErr result (self.new ≡ self.old) }
        ensures ran_out { IfSome self.old.ran_out (λ shortage. result ≡ Err (refusal_for shortage)) }
        ensures text { IsOk result
            → (length content.now < 2 ^ 32 - 1) × IsUtf8 name.now × IsUtf8 content.now }
        ensures refused { IfErr result (IsCallRefusal self.old.ran_out
            ((length content.now < 2 ^ 32 - 1) × ¬ (IsUtf8 name.now × IsUtf8 content.now))
            (2 ^ 32 - 1 ≤ length content.now) ⊥
            ((length content.now < 2 ^ 32 - 1) × IsUtf8 name.now × IsUtf8 content.now)) }
    {
        if let Some(shortage) = self.ran_out {
            return Err(Refusal::from(shortage));
        }
        let content = text_of(content, false)?;
        let Ok(name) = str::from_utf8(name) else {
            return Err(Refusal::NotUtf8);
        };
        match self.pp.add_define(name, content) {
            Ok(()) => Ok(None),
            Err((error, place)) => {
                if is_out_of_memory(&error) {
                    return Err(Refusal::OutOfMemory);
                }
                Ok(Some((error, place)))
            }
        }
    }

    /// Includes a text behind the items that were read. If `is_text`, it is taken for UTF-8 without a look.
    pub(crate) fn include(&mut self, is_text: bool, text: &'static [u8]) -> Result<(), Refusal>
        requires { is_text ≡ true → IsUtf8 text.now }
        ensures includes { OnOk result (MakesCall (include text.now) self.old self.new) }
        ensures nothing { OnErr result (self.new ≡ self.old) }
        ensures ran_out { IfSome self.old.ran_out (λ shortage. result ≡ Err (refusal_for shortage)) }
        ensures text { IsOk result → (length text.now < 2 ^ 32 - 1) × IsUtf8 text.now }
        ensures refused { IfErr result (IsCallRefusal self.old.ran_out
            ((length text.now < 2 ^ 32 - 1) × ¬ (IsUtf8 text.now)) (2 ^ 32 - 1 ≤ length text.now)
            ((length text.now < 2 ^ 32 - 1) × IsUtf8 text.now)
            ((length text.now < 2 ^ 32 - 1) × IsUtf8 text.now)) }
    {
        if let Some(shortage) = self.ran_out {
            return Err(Refusal::from(shortage));
        }
        let text = text_of(text, is_text)?;
        match self.pp.include(text) {
            Ok(()) => Ok(()),
            Err(IncludeError::TooDeep) => Err(Refusal::TooDeep),
            Err(IncludeError::TooLong | IncludeError::OutOfMemory) => Err(Refusal::OutOfMemory),
        }
    }
}

// These bytes as a text that the preprocessor reads. If `is_text`, they are taken for UTF-8 without a look.
fn text_of(bytes: &[u8], is_text: bool) -> Result<&str, Refusal>
    requires { is_text ≡ true → IsUtf8 bytes.now }
    ensures same { IfOk result (λ text. text.now ≡ bytes.now) }
    ensures text { OnOk result ((length bytes.now < 2 ^ 32 - 1) × IsUtf8 bytes.now) }
    ensures refused { IfErr result (IsNoText bytes.now) }
{
    if bytes.len() >= LIMIT {
        return Err(Refusal::TooLong);
    }
    if is_text {
        return Ok(unsafe { str::from_utf8_unchecked(bytes) });
    }
    match str::from_utf8(bytes) {
        Ok(text) => Ok(text),
        Err(_) => Err(Refusal::NotUtf8),
    }
}
