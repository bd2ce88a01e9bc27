//! Included texts: how each is asked for, begins and ends.

ghost use Rattle.std.specs.Prelude.{◌≡◌, ◌≤◌, ◌+◌, [], pos, length, IfOk, OnOk};
ghost use Rattle.pp_reference.specs.inner.Acting.{ActsAs, HasLineIfOk};
ghost use Rattle.pp_model.specs.Acts as spec;
ghost use Rattle.pp_model.specs.inner.Acts as parts;
ghost use Rattle.pp_model.specs.Moves as moves;
ghost use Rattle.pp_reference.specs.inner.ReaderState.{reader_of};
ghost use Rattle.pp_model.specs.SourceReader as readers;

use crate::block::blocks_at;
use crate::item::SourceItem;
use crate::line::{include_line, line_fault};
use crate::list::take_first;
use crate::source_reader::{SourceReader, refuse};
use crate::stop::{Halt, Stop};
use pp_lexer::token::{Location, PreprocessorError};
use pp_model::outcome::Outcome;
use pp_model::step::Step;
use pp_model::truth::Truth;
use std::alloc::Global;
use std::marker::Model;
use std::mem;

/// How many texts may be included inside each other.
const INCLUDE_LIMIT: usize = 200;

/// A text in which reading goes on once the text that it includes ends.
#[derive(Drop)]
pub struct Suspended {
    /// The number of the text.
    pub text: u32,
    /// The items of the text.
    pub items: Vec<SourceItem>,
    /// The position of the item that comes next.
    pub position: usize,
    /// The number that is added to a line for `__LINE__`.
    pub line_offset: i64,
    /// The conditions that were read, the latest first.
    pub truths: Vec<Truth>,
    /// How many blocks that stay open at the end are not reported yet.
    pub unfinished: usize,
}

impl Model for Suspended {
    ghost use Rattle.std.specs.Prelude.{◌≤◌, length};
    ghost use Rattle.pp_model.specs.SourceReader as spec;

    ghost Value = { spec.Suspended };

    ghost view = { λ s. record {
      text = s.text;
      items = s.items.items;
      position = s.position;
      line_offset = s.line_offset;
      truths = s.truths.items;
      unfinished = s.unfinished;
    } };

    ghost invariant = { λ s. s.position ≤ length s.items.items };
}

/// What was read in other texts before.
#[derive(Clone, Copy)]
pub struct Earlier {
    /// Whether live text was read.
    pub text: bool,
    /// Whether a directive was read.
    pub directive: bool,
}

impl SourceReader {
    // What was read before, for another text.
    fn read_so_far(&self, alloc: Global) -> Result<Earlier, Stop>
        ensures { IfOk result (λ earlier. record { text = earlier.text; directive = earlier.directive }
            ≡ readers.earlier_of (reader_of self.now)) }
    {
        let text = self.had_text(alloc)?;
        let directive = self.had_directive(alloc)?;
        Ok(Earlier { text, directive })
    }

    /// Whether no text may be included inside the text that is read.
    pub fn is_full(&self) -> bool
        ensures { result ≡ readers.is_full (reader_of self.now) }
    {
        INCLUDE_LIMIT <= self.around.len()
    }

    // Begins the text with this number and these items, and returns the one that was read.
    fn begin(
        &mut self,
        alloc: Global,
        text: u32,
        items: Vec<SourceItem>,
        unfinished: usize,
    ) -> Suspended
        ensures outer { result ≡ readers.suspended_of (reader_of self.old) }
        ensures inner { reader_of self.new ≡ record (reader_of self.old) {
          text = text;
          items = items.items;
          position = 0;
          line_offset = pos 0;
          truths = [];
          unfinished = unfinished;
        } }
    {
        let position = mem::replace(&mut self.position, 0);
        Suspended {
            text: mem::replace(&mut self.text, text),
            items: mem::replace(&mut self.items, items),
            position,
            line_offset: mem::replace(&mut self.line_offset, 0),
            truths: mem::replace(&mut self.truths, Vec::new(alloc)),
            unfinished: mem::replace(&mut self.unfinished, unfinished),
        }
    }

    /// Reads an included text with these items next. Stops if it can have no number.
    pub fn include(&mut self, alloc: Global, items: Vec<SourceItem>) -> Result<(), Stop>
        ensures { OnOk result (reader_of self.new ≡ readers.with_text items.items (reader_of self.old)) }
    {
        let unfinished = blocks_at(alloc, &items, items.len())?.len();
        let earlier = self.read_so_far(alloc)?;
        let text = self.next_number()?;
        let outer = self.begin(alloc, text, items, unfinished);
        self.around.insert(0, outer)?;
        self.earlier = earlier;
        self.contents = text;
        Ok(())
    }

    // Goes on in this text.
    fn resume(&mut self, outer: Suspended)
        ensures { reader_of self.new ≡ record (reader_of self.old) {
          text = outer.text;
          items = outer.items;
          position = outer.position;
          line_offset = outer.line_offset;
          truths = outer.truths;
          unfinished = outer.unfinished;
        } }
    {
        self.text = outer.text;
        self.position = 0;
        self.items = outer.items;
        self.position = outer.position;
        self.line_offset = outer.line_offset;
        self.truths = outer.truths;
        self.unfinished = outer.unfinished;
    }

    // Goes on in the text around, if there is one. The end of the source is the end.
    pub(crate) fn leave(&mut self, alloc: Global) -> Result<Step, Halt>
        ensures acts { ActsAs result (spec.leave (reader_of self.old).around (reader_of self.old))
            (reader_of self.new) }
        ensures line { HasLineIfOk result self.old self.new }
    {
        let earlier = self.read_so_far(alloc)?;
        let Some(outer) = take_first(&mut self.around) else {
            return Ok(Step::Given(Outcome::End));
        };
        self.resume(outer);
        self.earlier = earlier;
        Ok(Step::Passed)
    }

    // Asks for the text of an `#include` line, if the rules say so.
    pub(crate) fn ask(&mut self, alloc: Global, word: Location) -> Result<Step, Halt>
        requires { self.old.position + 2 ≤ length self.old.items }
        ensures acts { ActsAs result (parts.perform_line
            (moves.include_move self.old.rules word (parts.after_word (reader_of self.old)))
            (reader_of self.old)) (reader_of self.new) }
        ensures line { HasLineIfOk result self.old self.new }
    {
        if !self.rules.asks_includes {
            return Err(refuse(PreprocessorError::UnknownDirective, word));
        }
        let line = include_line(word, self.after_word());
        if self.rules.passes_dead_errors {
            self.pass_line();
            return Ok(Step::Given(Outcome::Include(line)));
        }
        match line_fault(alloc, self.after_word())? {
            Some(fault) => Err(Halt::Fault(fault)),
            None => {
                self.pass_line();
                Ok(Step::Given(Outcome::Include(line)))
            }
        }
    }

    // Skips an `#include` line in dead text, if the rules know it, or else passes its word, like any unknown one.
    pub(crate) fn skip_include(&mut self, alloc: Global) -> Result<Step, Halt>
        requires { self.old.position + 2 ≤ length self.old.items }
        ensures acts { ActsAs result (parts.perform_line
            (moves.dead_include_move self.old.rules (parts.after_word (reader_of self.old)))
            (reader_of self.old)) (reader_of self.new) }
        ensures line { HasLineIfOk result self.old self.new }
    {
        if self.rules.asks_includes {
            return self.skip_line(alloc);
        }
        self.position += 2;
        Ok(Step::Passed)
    }
}
