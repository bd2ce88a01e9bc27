//! A reader of a source: what each token or line does.

ghost use Rattle.std.specs.Prelude.{◌≡◌, ◌≤◌, ◌+◌, [], length, nat_lt, true, false, IfOk, OnOk};
ghost use Rattle.pp_reference.specs.inner.Acting.{ActsAs, HasLine, HasLineIfOk, arrived};
ghost use Rattle.pp_model.specs.Acts as spec;
ghost use Rattle.pp_model.specs.Faults.{facts_past};
ghost use Rattle.pp_model.specs.Onward.{act_on};
ghost use Rattle.pp_model.specs.inner.Acts as parts;
ghost use Rattle.pp_model.specs.Moves as moves;
ghost use Rattle.pp_reference.specs.inner.ReaderState.{reader_of};
ghost use Rattle.pp_model.specs.Numbering.{list_numbering, text_number};
ghost use Rattle.pp_model.specs.inner.Run.{after_addition};
ghost use Rattle.pp_model.specs.Blocks.{is_live};
ghost use Rattle.pp_model.specs.Sights.{least_items};
ghost use Rattle.pp_model.specs.SourceReader as readers;
ghost use Rattle.pp_reference.specs.declared.stop.Halt.TheVariants as halt;

mod acting;
mod blocks;
pub mod faults;
pub mod including;
pub mod stepping;

use crate::block::{blocks_at, innermost_past, is_live};
use crate::definitions::Definitions;
use crate::item::SourceItem;
use crate::line::{line_fault, line_length};
use crate::sight::sight_of;
use crate::source_reader::including::{Earlier, Suspended};
use crate::source_text::{error_length, has_directive, has_live_text_before};
use crate::stop::{Halt, Stop};
use pp_lexer::rules::Rules;
use pp_lexer::token::{Integer, Location, PreprocessorError, Text, Token};
use pp_model::definition::{Definition, TokenList};
use pp_model::directive::Directive;
use pp_model::numbering::{Numbering, text_number};
use pp_model::outcome::Outcome;
use pp_model::sight::Sight;
use pp_model::step::Step;
use pp_model::truth::Truth;
use std::alloc::Global;
use std::marker::Model;

/// A reader of a source.
#[derive(Drop)]
pub struct SourceReader {
    /// The rules by which it reads.
    pub rules: Rules,
    /// The number of the text.
    pub text: u32,
    /// The items of the text.
    pub items: Vec<SourceItem>,
    /// The position of the item that comes next.
    pub position: usize,
    /// The definitions that hold now.
    pub definitions: Definitions,
    /// How many contents were added and texts were included.
    pub contents: u32,
    /// The number that is added to a line for `__LINE__`.
    pub line_offset: i64,
    /// The conditions that were read, the latest first.
    pub truths: Vec<Truth>,
    /// How many blocks that stay open at the end are not reported yet.
    pub unfinished: usize,
    /// The texts around, the innermost first.
    pub around: Vec<Suspended>,
    /// What was read in other texts before.
    pub earlier: Earlier,
}

impl Model for SourceReader {
    ghost use Rattle.std.specs.Prelude.{◌≤◌, length};
    ghost use Rattle.pp_reference.specs.inner.ReaderState as spec;

    ghost Value = { spec.ReaderState };

    ghost view = { λ r. record {
      rules = r.rules;
      text = r.text;
      items = r.items.items;
      position = r.position;
      changes = r.definitions;
      contents = r.contents;
      line_offset = r.line_offset;
      truths = r.truths.items;
      unfinished = r.unfinished;
      around = r.around.items;
      earlier = record { text = r.earlier.text; directive = r.earlier.directive };
    } };

    ghost invariant = { λ r. r.position ≤ length r.items.items };
}

fn refuse(error: PreprocessorError, location: Location) -> Halt
    ensures { result ≡ halt.Fault (error, location) }
{
    Halt::Fault((error, location))
}

impl SourceReader {
    // The items that are left.
    fn items_left(&self) -> &[SourceItem]
        ensures { result.now ≡ parts.items_left (reader_of self.now) }
    {
        &self.items[self.position..]
    }

    // The items after the directive's word.
    fn after_word(&self) -> &[SourceItem]
        requires { self.now.position + 2 ≤ length self.now.items }
        ensures { result.now ≡ parts.after_word (reader_of self.now) }
    {
        &self.items_left()[2..]
    }

    // Moves past the directive's line.
    fn pass_line(&mut self)
        requires { self.old.position + 2 ≤ length self.old.items }
        ensures { (reader_of self.new) ≡ parts.after_line (reader_of self.old) }
    {
        let length = line_length(self.after_word());
        self.position += 2 + length;
    }

    // Skips the directive's line. An error of the lexer on it is returned, unless the rules pass it.
    fn skip_line(&mut self, alloc: Global) -> Result<Step, Halt>
        requires { self.old.position + 2 ≤ length self.old.items }
        ensures acts { ActsAs result (parts.perform_line
            (moves.skip_move self.old.rules (parts.after_word (reader_of self.old)))
            (reader_of self.old)) (reader_of self.new) }
        ensures line { HasLineIfOk result self.old self.new }
    {
        if self.rules.passes_dead_errors {
            self.pass_line();
            return Ok(Step::Passed);
        }
        match line_fault(alloc, self.after_word())? {
            Some(fault) => Err(Halt::Fault(fault)),
            None => {
                self.pass_line();
                Ok(Step::Passed)
            }
        }
    }

    /// The number of the text that is read.
    pub fn text(&self) -> u32
        ensures { result ≡ self.now.text }
    {
        self.text
    }

    /// The position of the item that comes next.
    pub fn position(&self) -> usize
        ensures { result ≡ self.now.position }
    {
        self.position
    }

    /// Whether items are left.
    pub fn has_items(&self) -> bool
        ensures { result ≡ nat_lt self.now.position (length self.now.items) }
    {
        self.position < self.items.len()
    }

    // Whether the text at the position is live.
    fn is_live_here(&self, alloc: Global) -> Result<bool, Stop>
        ensures { IfOk result (λ live. live ≡ is_live self.now.items self.now.truths self.now.position) }
    {
        is_live(alloc, &self.items, &self.truths, self.position)
    }

    /// The number that `__LINE__` shows for a line.
    pub fn shown_line(&self, line: u32) -> Option<Integer>
        ensures { result ≡ text_number self.now.rules self.now.line_offset line }
    {
        text_number(self.rules, self.line_offset, line)
    }

    /// How the lines of an argument or of a directive's line are numbered here.
    pub fn list_numbering(&self) -> Numbering
        ensures { result ≡ list_numbering self.now.rules self.now.line_offset }
    {
        Numbering::of_list(self.rules, self.line_offset)
    }

    /// Defines the name as these tokens of one more content, replacing any definition of it. Stops if that content can
    /// have no number.
    pub fn add(&mut self, alloc: Global, name: Text, body: TokenList) -> Result<(), Stop>
        ensures { OnOk result (reader_of self.new ≡ after_addition name body (reader_of self.old)) }
    {
        let text = self.next_number()?;
        let definition = Definition {
            function_like: false,
            parameters: Vec::new(alloc),
            body: body.items,
            text,
        };
        self.definitions.change(name, Some(definition))?;
        self.contents = text;
        Ok(())
    }

    // Whether live text comes before the position, or came in another text.
    fn had_text(&self, alloc: Global) -> Result<bool, Stop>
        ensures { IfOk result (λ had. had ≡ readers.had_text (reader_of self.now)) }
    {
        if self.earlier.text {
            return Ok(true);
        }
        has_live_text_before(alloc, &self.items, &self.truths, self.position)
    }

    // Whether a directive comes before the position, or came in another text.
    fn had_directive(&self, alloc: Global) -> Result<bool, Stop>
        ensures { IfOk result (λ had. had ≡ readers.had_directive (reader_of self.now)) }
    {
        if self.earlier.directive {
            return Ok(true);
        }
        has_directive(alloc, &self.items[..self.position])
    }

    // Whether neither a directive nor live text comes before the position, or came in another text.
    fn is_first_directive(&self, alloc: Global) -> Result<bool, Stop>
        ensures { IfOk result (λ first. first ≡ readers.is_first_directive (reader_of self.now)) }
    {
        if self.had_directive(alloc)? {
            return Ok(false);
        }
        Ok(!self.had_text(alloc)?)
    }

    // The number of the next content or text. Stops if it can have none.
    fn next_number(&self) -> Result<u32, Stop>
        ensures { IfOk result (λ number. number ≡ self.now.contents + 1) }
    {
        if self.contents == u32::MAX {
            return Err(Stop::OutOfMemory);
        }
        Ok(self.contents + 1)
    }

    // Reports the next of the blocks that stay open at the end of the text, but for this many outermost ones, or leaves
    // the text.
    fn tell_end(&mut self, alloc: Global, outside: usize) -> Result<Step, Halt>
        ensures acts { ActsAs result (act_on outside [] (reader_of self.old)) (reader_of self.new) }
        ensures line { HasLineIfOk result self.old self.new }
    {
        let mut blocks = blocks_at(alloc, &self.items, self.items.len())?;
        blocks.truncate(self.unfinished);
        let Some(block) = innermost_past(&blocks, outside) else {
            return self.leave(alloc);
        };
        let word = block.first.word;
        self.unfinished = self.unfinished.saturating_sub(1);
        Ok(Step::Given(Outcome::Fault((PreprocessorError::UnfinishedBlock, word))))
    }

    // Moves on by `count` items, which give nothing.
    fn pass(&mut self, count: usize) -> Step
        requires { self.old.position + count ≤ length self.old.items }
        ensures acts { spec.pause_at (spec.advanced_by count (reader_of self.old)) ≡ record {
          step = result;
          after = reader_of self.new;
        } }
        ensures line { HasLine result self.old self.new }
    {
        self.position += count;
        Step::Passed
    }

    // Acts on a sight at the position, in live text, if this many outermost blocks don't count.
    fn act_live(&mut self, alloc: Global, outside: usize, sight: Sight) -> Result<Step, Halt>
        requires { self.old.position + least_items sight ≤ length self.old.items }
        ensures acts { ActsAs result (spec.perform
            (moves.move_at self.old.rules true (facts_past outside (reader_of self.old)) sight
            (parts.items_left (reader_of self.old))) (reader_of self.old))
            (reader_of self.new) }
        ensures line { HasLineIfOk result self.old self.new }
    {
        match sight {
            Sight::End => self.tell_end(alloc, 0),
            Sight::NewLine => Ok(self.pass(1)),
            Sight::Lone => Ok(self.pass(2)),
            Sight::Fault(fault) | Sight::NoWord(fault) => Err(Halt::Fault(fault)),
            Sight::Token(token) => {
                self.position += 1;
                Ok(Step::Given(Outcome::Token(token)))
            }
            Sight::Hash(location) => Err(refuse(PreprocessorError::UnexpectedHash, location)),
            Sight::Directive(directive, word) => self.act_live_directive(
                alloc, outside, directive, word,
            ),
        }
    }

    // Acts on a sight at the position, in dead text, if this many outermost blocks don't count.
    fn act_dead(&mut self, alloc: Global, outside: usize, sight: Sight) -> Result<Step, Halt>
        requires { self.old.position + least_items sight ≤ length self.old.items }
        ensures acts { ActsAs result (spec.perform
            (moves.move_at self.old.rules false (facts_past outside (reader_of self.old)) sight
            (parts.items_left (reader_of self.old))) (reader_of self.old))
            (reader_of self.new) }
        ensures line { HasLineIfOk result self.old self.new }
    {
        match sight {
            Sight::End => self.tell_end(alloc, 0),
            Sight::Fault(_) if self.rules.passes_dead_errors => {
                Ok(self.pass(error_length(self.items_left())))
            }
            Sight::Fault(fault) => Err(Halt::Fault(fault)),
            Sight::NewLine | Sight::Token(_) | Sight::Hash(_) => Ok(self.pass(1)),
            Sight::Lone | Sight::NoWord(_) => Ok(self.pass(2)),
            Sight::Directive(directive, word) => self.act_dead_directive(
                alloc, outside, directive, word,
            ),
        }
    }

    // Acts on the sight at the position, if this many outermost blocks don't count.
    fn act_here(&mut self, alloc: Global, outside: usize) -> Result<Step, Halt>
        ensures acts { ActsAs result
            (act_on outside (parts.items_left (reader_of self.old)) (reader_of self.old))
            (reader_of self.new) }
        ensures line { HasLineIfOk result self.old self.new }
    {
        if self.position == self.items.len() {
            return self.tell_end(alloc, outside);
        }
        let live = is_live(alloc, &self.items, &self.truths, self.position)?;
        let sight = sight_of(alloc, self.items_left())?;
        if live {
            self.act_live(alloc, outside, sight)
        } else {
            self.act_dead(alloc, outside, sight)
        }
    }

    /// Acts on the sight at the position, if this many outermost blocks don't count, and returns its step. After a
    /// fault the reader stays where it is.
    pub fn act(&mut self, alloc: Global, outside: usize) -> Result<Step, Stop>
        ensures acts { IfOk result (λ step. act_on outside
            (parts.items_left (reader_of self.old)) (reader_of self.old) ≡ record {
              step = step;
              after = arrived step (reader_of self.new);
            }) }
        ensures line { IfOk result (λ step. HasLine step self.old self.new) }
    {
        match self.act_here(alloc, outside) {
            Ok(step) => Ok(step),
            Err(Halt::Fault(fault)) => Ok(Step::Given(Outcome::Fault(fault))),
            Err(Halt::Stop(stop)) => Err(stop),
        }
    }
}
