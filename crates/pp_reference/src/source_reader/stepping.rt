//! What a token or line of a source gives.

ghost use Rattle.std.specs.Prelude.{◌≡◌, ◌≤◌, ◌+◌, Some, None, length, option_map, IfOk};
ghost use Rattle.pp_reference.specs.inner.Acting.{Deciding, Renumbering};
ghost use Rattle.pp_reference.specs.inner.Changes.{meaning_of};
ghost use Rattle.pp_reference.specs.inner.Faulting.{Counts, Gives, numbered_by};
ghost use Rattle.pp_model.specs.Emitting.{answers_at, expansion_limit};
ghost use Rattle.pp_reference.specs.inner.ReaderState.{reader_of};
ghost use Rattle.pp_model.specs.Reads.{Defines};
ghost use Rattle.pp_model.specs.declared.read.Taken.TheVariants as taken;
ghost use Rattle.pp_model.specs.declared.step.Step.TheVariants as steps;

use crate::condition::{LineNumber, condition, line_number};
use crate::expand::expansion_limit;
use crate::redefinition::is_same_definition;
use crate::source_reader::SourceReader;
use crate::stop::{Budget, Stop};
use pp_lexer::token::{Location, PreprocessorError};
use pp_model::definition::{Named, TokenList};
use pp_model::place::{Place, PlacedFault, placed, unasked};
use pp_model::read::Taken;
use pp_model::step::Step;
use std::alloc::Global;

/// What a token or line of a source gives.
#[derive(Drop)]
pub struct Stepped {
    /// An item or a fault, if it gives one.
    pub taken: Option<Taken>,
    /// The place of the word of a `#line`, and the number of its first expression, if it has one.
    pub counted: Option<(Location, u32)>,
}

// A fault as what a step gives.
fn given_fault(fault: PlacedFault) -> Option<Taken>
    ensures { result ≡ Some (taken.Fault fault) }
{
    Some(Taken::Fault(fault))
}

// What a line gives that is no `#line`.
fn uncounted(taken: Option<Taken>) -> Stepped
    ensures { result ≡ record { taken = taken; counted = None } }
{
    Stepped {
        taken,
        counted: None,
    }
}

// The number with the place of the word of its `#line`.
fn counted_at(word: Location, first: Option<u32>) -> Option<(Location, u32)>
    ensures { result ≡ option_map (λ n. (word, n)) first }
{
    match first {
        Some(number) => Some((word, number)),
        None => None,
    }
}

impl SourceReader {
    // Defines the name as a line of this text says, unless it has another definition already.
    fn define_named(&mut self, text: u32, named: Named) -> Result<Option<Taken>, Stop>
        ensures { IfOk result (λ o. Defines text named
            (meaning_of self.old.changes named.name) (reader_of self.old) o
            (reader_of self.new)) }
    {
        match self.definitions.find(&named.name) {
            None => {
                self.definitions.change(named.name, Some(named.definition))?;
                Ok(None)
            }
            Some(old) if is_same_definition(old, &named.definition) => Ok(None),
            Some(_) => Ok(given_fault(placed(
                text,
                (PreprocessorError::DefineRedefined, named.location),
            ))),
        }
    }

    // Reads the condition of a line, and moves past the line.
    fn read_condition(
        &mut self,
        alloc: Global,
        word: Location,
        tokens: TokenList,
        budget: &mut Budget,
    ) -> Result<Option<Taken>, Stop>
        requires { self.old.position + 2 ≤ length self.old.items }
        ensures decides { IfOk result (λ o. Deciding (answers_at expansion_limit) word tokens
            (reader_of self.old) o (reader_of self.new)) }
        ensures budget { budget.new.steps ≤ budget.old.steps }
    {
        let place = Place::in_text(self.text(), word);
        let numbering = self.list_numbering();
        match condition(
            alloc,
            place,
            tokens,
            numbering,
            &self.definitions,
            expansion_limit(),
            budget,
        )? {
            Ok(holds) => {
                self.decide(holds)?;
                Ok(None)
            }
            Err(fault) => Ok(given_fault(unasked(fault))),
        }
    }

    // Reads a line number, and moves past the line.
    fn read_number(
        &mut self,
        alloc: Global,
        word: Location,
        tokens: TokenList,
        budget: &mut Budget,
    ) -> Result<Stepped, Stop>
        requires { self.old.position + 2 ≤ length self.old.items }
        ensures renumbers { IfOk result
            (λ stepped. Renumbering (answers_at expansion_limit) word tokens
            (reader_of self.old) stepped.taken (reader_of self.new)) }
        ensures counts { IfOk result (λ stepped. Counts (answers_at expansion_limit)
            (reader_of self.old) (steps.LineNumber word tokens) stepped.counted) }
        ensures budget { budget.new.steps ≤ budget.old.steps }
    {
        let place = Place::in_text(self.text(), word);
        let numbering = self.list_numbering();
        let LineNumber { first, number } = line_number(
            alloc,
            place,
            tokens,
            numbering,
            &self.definitions,
            expansion_limit(),
            budget,
        )?;
        let counted = counted_at(word, first);
        match number {
            Ok(number) => {
                self.renumber(word, number);
                Ok(Stepped {
                    taken: None,
                    counted,
                })
            }
            Err(fault) => Ok(Stepped {
                taken: given_fault(unasked(fault)),
                counted,
            }),
        }
    }

    /// One token or line of the text, if this many outermost blocks don't count. A fault of it is not passed.
    pub fn step(
        &mut self,
        alloc: Global,
        outside: usize,
        budget: &mut Budget,
    ) -> Result<Stepped, Stop>
        ensures gives { IfOk result
            (Gives (answers_at expansion_limit) outside (reader_of self.old) (reader_of self.new)) }
        ensures budget { budget.new.steps ≤ budget.old.steps }
    {
        let text = self.text();
        match self.act(alloc, outside)? {
            Step::Passed => Ok(uncounted(None)),
            Step::Given(outcome) => Ok(uncounted(Some(Taken::of_text(text, outcome)))),
            Step::Defines(named) => Ok(uncounted(self.define_named(text, named)?)),
            Step::Condition(word, tokens) => Ok(uncounted(self.read_condition(
                alloc, word, tokens, budget,
            )?)),
            Step::LineNumber(word, tokens) => self.read_number(alloc, word, tokens, budget),
        }
    }

    /// Counts the lines after a `#line` with a fault from its first number, if it has one.
    pub fn count_from(&mut self, counted: Option<(Location, u32)>)
        ensures { reader_of self.new ≡ numbered_by (reader_of self.old) counted }
    {
        if let Some((word, number)) = counted {
            self.number_from(word, number);
        }
    }
}
