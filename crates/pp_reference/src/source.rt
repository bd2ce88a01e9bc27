//! A source as a reader after an expander, which goes on after faults.

ghost use Rattle.std.specs.Prelude.{◌≡◌, ◌≤◌, length, IfOk, OnOk};
ghost use Rattle.pp_reference.specs.inner.Faulting.{is_fault_among, went_on};
ghost use Rattle.pp_model.specs.Emitting.{answers_at, expansion_limit};
ghost use Rattle.pp_reference.specs.inner.ReaderState.{reader_of};
ghost use Rattle.pp_reference.specs.inner.SeenSource.{source_state};
ghost use Rattle.pp_model.specs.Onward.{StepsOn};
ghost use Rattle.pp_model.specs.Onward as spec;

use crate::definitions::Definitions;
use crate::reader::Reader;
use crate::source_reader::SourceReader;
use crate::source_reader::stepping::Stepped;
use crate::stop::{Budget, Stop};
use pp_lexer::token::{Integer, Location, Text};
use pp_model::numbering::Numbering;
use pp_model::read::Taken;
use std::alloc::Global;

/// A source, read from its start.
#[derive(Drop)]
pub struct Source {
    /// The allocator.
    pub alloc: Global,
    /// The position up to which it was read, and the state there.
    pub reader: SourceReader,
    /// The texts of which an `#elif` outside of all blocks made the rest dead, the latest first.
    pub dead: Vec<u32>,
}

// Whether it is a fault that asks for nothing, if items are left.
fn is_fault_among(left: bool, taken: &Option<Taken>) -> bool
    ensures { result ≡ is_fault_among left taken.now }
{
    match taken {
        Some(Taken::Fault(fault)) => left && fault.1.asks.is_none(),
        _ => false,
    }
}

impl Source {
    // How many of the outermost blocks of the text part no more and are not reported.
    fn dead_blocks(&self) -> usize
        ensures { result ≡ spec.dead_blocks (source_state self.now) }
    {
        let text = self.reader.text();
        if self.dead.contains(&text) { 1 } else { 0 }
    }

    // Notes the text if a fault at the position makes the rest of it dead.
    fn note_dead(&mut self, outside: usize) -> Result<(), Stop>
        ensures { OnOk result (source_state self.new ≡ record (source_state self.old) {
          dead = spec.dead_after outside (reader_of self.old.reader) self.old.dead.items;
        }) }
    {
        if self.reader.makes_dead(self.alloc, outside)? {
            let text = self.reader.text();
            self.dead.insert(0, text)?;
        }
        Ok(())
    }

    // Goes on after a fault of the items at an earlier position, if this many outermost blocks don't count. A `#line`
    // counts from the number that is given.
    fn go_on(
        &mut self,
        position: usize,
        outside: usize,
        counted: Option<(Location, u32)>,
    ) -> Result<(), Stop>
        requires { position ≤ length self.old.reader.items }
        ensures { OnOk result (source_state self.new
            ≡ went_on position outside counted (source_state self.old)) }
    {
        self.reader.go_back(position);
        self.note_dead(outside)?;
        self.reader.pass_fault(self.alloc, outside)?;
        self.reader.count_from(counted);
        Ok(())
    }

    // One token or line of the source. A fault of it is passed.
    fn step(&mut self, budget: &mut Budget) -> Result<Option<Taken>, Stop>
        ensures steps { IfOk result (λ taken. StepsOn (answers_at expansion_limit)
            (source_state self.old) taken (source_state self.new)) }
        ensures budget { budget.new.steps ≤ budget.old.steps }
    {
        let outside = self.dead_blocks();
        let position = self.reader.position();
        let left = self.reader.has_items();
        let Stepped { taken, counted } = self.reader.step(self.alloc, outside, budget)?;
        if !is_fault_among(left, &taken) {
            return Ok(taken);
        }
        match self.go_on(position, outside, counted) {
            Ok(()) => Ok(taken),
            Err(stop) => {
                drop(taken);
                Err(stop)
            }
        }
    }
}

impl Reader for Source {
    ghost use Rattle.pp_model.specs.Emitting.{answers_at, expansion_limit};
    ghost use Rattle.pp_reference.specs.inner.ReaderState.{reader_of};
    ghost use Rattle.pp_model.specs.Onward.{onward_reading};
    ghost use Rattle.pp_model.specs.Onward as spec;

    ghost State = { spec.Onward };

    ghost state = { λ source. record { reader = reader_of source.reader; dead = source.dead.items } };

    ghost reading = { onward_reading (answers_at expansion_limit) };

    fn read(&mut self, budget: &mut Budget) -> Result<Taken, Stop> {
        'lines: loop {
            budget.spend()?;
            if let Some(taken) = self.step(budget)? {
                return Ok(taken);
            }
        }
    }

    fn visible(&self) -> &Definitions {
        &self.reader.definitions
    }

    fn shown_line(&self, line: u32) -> Option<Integer> {
        self.reader.shown_line(line)
    }

    fn numbering(&self) -> Numbering {
        self.reader.list_numbering()
    }

    fn is_reserved(&self, _name: &Text) -> bool {
        false
    }
}
