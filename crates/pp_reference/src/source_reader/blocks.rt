//! The lines that open, part and close blocks.

ghost use Rattle.std.specs.Prelude.{◌≡◌, ◌≤◌, ◌+◌, not, length, IfOk, OnOk, option_map};
ghost use Rattle.pp_model.specs.Lines.{only_name, line_tokens};
ghost use Rattle.std.specs.Option.{option_copied};
ghost use Rattle.pp_reference.specs.inner.Acting.{ActsAs, HasLineIfOk};
ghost use Rattle.pp_model.specs.Acts as spec;
ghost use Rattle.pp_model.specs.inner.Acts as parts;
ghost use Rattle.pp_model.specs.Moves as moves;
ghost use Rattle.pp_model.specs.Blocks.{are_surroundings_live};
ghost use Rattle.pp_model.specs.Faults.{facts_past};
ghost use Rattle.pp_reference.specs.inner.ReaderState.{reader_of};

use crate::block::{Block, blocks_at, has_else, has_taken_branch, innermost_past, is_live};
use crate::line::{ended_line, line_tokens, only_name};
use crate::source_reader::{SourceReader, refuse};
use crate::stop::{Halt, Stop};
use pp_lexer::token::{Location, PreprocessorError};
use pp_model::step::Step;
use pp_model::truth::Truth;
use std::alloc::Global;

impl SourceReader {
    /// Notes whether the condition of a line holds, and moves past the line.
    pub fn decide(&mut self, holds: bool) -> Result<(), Stop>
        requires { self.old.position + 2 ≤ length self.old.items }
        ensures { OnOk result (reader_of self.new ≡ parts.after_condition (reader_of self.old) holds) }
    {
        let position = self.position;
        self.truths.insert(0, Truth { position, holds })?;
        self.pass_line();
        Ok(())
    }

    // Gathers the line of a condition.
    pub(crate) fn condition(&mut self, alloc: Global, word: Location) -> Result<Step, Halt>
        requires { self.old.position + 2 ≤ length self.old.items }
        ensures acts { ActsAs result (parts.perform_line
            (moves.line_move (line_tokens (parts.after_word (reader_of self.old)))
            (moves.decides word) (parts.after_word (reader_of self.old)))
            (reader_of self.old)) (reader_of self.new) }
        ensures line { HasLineIfOk result self.old self.new }
    {
        let tokens = line_tokens(alloc, self.after_word())?;
        Ok(Step::Condition(word, tokens))
    }

    // Acts on an `#ifdef`, or an `#ifndef`, whose block is live if the name is not defined.
    pub(crate) fn ifdef(&mut self, alloc: Global, word: Location) -> Result<Step, Halt>
        requires { self.old.position + 2 ≤ length self.old.items }
        ensures acts { ActsAs result (parts.perform_line
            (moves.line_move (only_name word (parts.after_word (reader_of self.old)))
            (moves.tests (λ is. is)) (parts.after_word (reader_of self.old)))
            (reader_of self.old)) (reader_of self.new) }
        ensures line { HasLineIfOk result self.old self.new }
    {
        let name = only_name(alloc, word, self.after_word())?;
        let holds = self.definitions.find(&name).is_some();
        self.decide(holds)?;
        Ok(Step::Passed)
    }

    pub(crate) fn ifndef(&mut self, alloc: Global, word: Location) -> Result<Step, Halt>
        requires { self.old.position + 2 ≤ length self.old.items }
        ensures acts { ActsAs result (parts.perform_line
            (moves.line_move (only_name word (parts.after_word (reader_of self.old)))
            (moves.tests not) (parts.after_word (reader_of self.old)))
            (reader_of self.old)) (reader_of self.new) }
        ensures line { HasLineIfOk result self.old self.new }
    {
        let name = only_name(alloc, word, self.after_word())?;
        let holds = self.definitions.find(&name).is_none();
        self.decide(holds)?;
        Ok(Step::Passed)
    }

    // Whether the line on which the block begins is live.
    pub(crate) fn are_surroundings_live(&self, alloc: Global, block: &Block) -> Result<bool, Stop>
        ensures { IfOk result (λ live. live
            ≡ are_surroundings_live self.now.items self.now.truths block.now) }
    {
        is_live(alloc, &self.items, &self.truths, block.first.position)
    }

    // Reads an `#elif` of this block.
    fn elif_in(
        &mut self,
        alloc: Global,
        block: Option<&Block>,
        word: Location,
    ) -> Result<Step, Halt>
        requires { self.old.position + 2 ≤ length self.old.items }
        ensures acts { ActsAs result (parts.perform_line
            (moves.elif_move self.old.rules
            (option_map (spec.facts_of (reader_of self.old)) (option_copied block.entry))
            word (parts.after_word (reader_of self.old))) (reader_of self.old))
            (reader_of self.new) }
        ensures line { HasLineIfOk result self.old self.new }
    {
        let Some(block) = block else {
            return Err(refuse(PreprocessorError::ElifOutsideOfBlock, word));
        };
        if has_else(block) {
            return Err(refuse(PreprocessorError::ElifAfterElse, word));
        }
        if !self.are_surroundings_live(alloc, block)? || has_taken_branch(&self.truths, block) {
            return self.skip_line(alloc);
        }
        self.condition(alloc, word)
    }

    // Reads an `#else` of this block.
    fn else_in(
        &mut self,
        alloc: Global,
        block: Option<&Block>,
        word: Location,
    ) -> Result<Step, Halt>
        requires { self.old.position + 2 ≤ length self.old.items }
        ensures acts { ActsAs result (parts.perform_line
            (moves.else_move
            (option_map (spec.facts_of (reader_of self.old)) (option_copied block.entry))
            word (parts.after_word (reader_of self.old))) (reader_of self.old))
            (reader_of self.new) }
        ensures line { HasLineIfOk result self.old self.new }
    {
        ended_line(alloc, word, self.after_word())?;
        let Some(block) = block else {
            return Err(refuse(PreprocessorError::ElseOutsideOfBlock, word));
        };
        if has_else(block) {
            return Err(refuse(PreprocessorError::MoreThanOneElse, word));
        }
        self.pass_line();
        Ok(Step::Passed)
    }

    // Reads the `#endif` of this block.
    fn endif_in(
        &mut self,
        alloc: Global,
        block: Option<&Block>,
        word: Location,
    ) -> Result<Step, Halt>
        requires { self.old.position + 2 ≤ length self.old.items }
        ensures acts { ActsAs result (parts.perform_line
            (moves.endif_move self.old.rules
            (option_map (spec.facts_of (reader_of self.old)) (option_copied block.entry))
            word (parts.after_word (reader_of self.old))) (reader_of self.old))
            (reader_of self.new) }
        ensures line { HasLineIfOk result self.old self.new }
    {
        let Some(block) = block else {
            return Err(refuse(PreprocessorError::EndifOutsideOfBlock, word));
        };
        if !self.are_surroundings_live(alloc, block)? {
            return self.skip_line(alloc);
        }
        ended_line(alloc, word, self.after_word())?;
        self.pass_line();
        Ok(Step::Passed)
    }

    // Reads a line that parts or closes the innermost block, if it isn't among this many outermost ones.
    pub(crate) fn elif_line(
        &mut self,
        alloc: Global,
        outside: usize,
        word: Location,
    ) -> Result<Step, Halt>
        requires { self.old.position + 2 ≤ length self.old.items }
        ensures acts { ActsAs result (parts.perform_line
            (moves.elif_move self.old.rules (facts_past outside (reader_of self.old)) word
            (parts.after_word (reader_of self.old))) (reader_of self.old))
            (reader_of self.new) }
        ensures line { HasLineIfOk result self.old self.new }
    {
        let blocks = blocks_at(alloc, &self.items, self.position)?;
        self.elif_in(alloc, innermost_past(&blocks, outside), word)
    }

    pub(crate) fn else_line(
        &mut self,
        alloc: Global,
        outside: usize,
        word: Location,
    ) -> Result<Step, Halt>
        requires { self.old.position + 2 ≤ length self.old.items }
        ensures acts { ActsAs result (parts.perform_line
            (moves.else_move (facts_past outside (reader_of self.old)) word
            (parts.after_word (reader_of self.old))) (reader_of self.old))
            (reader_of self.new) }
        ensures line { HasLineIfOk result self.old self.new }
    {
        let blocks = blocks_at(alloc, &self.items, self.position)?;
        self.else_in(alloc, innermost_past(&blocks, outside), word)
    }

    pub(crate) fn endif_line(
        &mut self,
        alloc: Global,
        outside: usize,
        word: Location,
    ) -> Result<Step, Halt>
        requires { self.old.position + 2 ≤ length self.old.items }
        ensures acts { ActsAs result (parts.perform_line
            (moves.endif_move self.old.rules (facts_past outside (reader_of self.old)) word
            (parts.after_word (reader_of self.old))) (reader_of self.old))
            (reader_of self.new) }
        ensures line { HasLineIfOk result self.old self.new }
    {
        let blocks = blocks_at(alloc, &self.items, self.position)?;
        self.endif_in(alloc, innermost_past(&blocks, outside), word)
    }
}
