//! The lines that open, part and close blocks.

ghost use Rattle.std.specs.Prelude.{◌≡◌, true, false, Some};
ghost use Rattle.pp_model.specs.Lines.{only_name, line_tokens};
ghost use Rattle.pp_model.specs.declared.block.Part.TheVariants as part;
ghost use Rattle.pp_model.specs.declared.directive.Directive.TheVariants as d;
ghost use Rattle.pp_macros.specs.inner.Faults.{nothing_left, change_left, elif_left, endif_left};
ghost use Rattle.pp_macros.specs.inner.OpenBlocks.{last_block, facts_among, elif_change, block_change};
ghost use Rattle.pp_directives.specs.inner.SourceActs.{Acts, is_as, line_act, directive_act};
ghost use Rattle.pp_model.specs.Moves as moves;

use crate::directive_halt::DirectiveHalt;
use crate::directives::DirectiveProcessor;
use crate::line_value::condition;
use crate::lines::{ended_line, endif_end, line_reads, line_tokens, only_name, skip_line};
use pp_lexer::token::{Location, PreprocessorError};
use pp_macros::blocks::OpenBlock;
use pp_macros::list_lexer::Scope;
use pp_model::place::Place;

impl<'a> DirectiveProcessor<'a> {
    // Opens a block whose condition is that the name on the line is defined, or (if not `wanted`) that it isn't.
    pub(crate) fn open_where(&mut self, wanted: bool, word: Location) -> Result<(), DirectiveHalt>
        requires { self.old.spent ≡ false }
        ensures { Acts (line_act (block_change (Some part.Opens) word) nothing_left
            (λ rest. moves.line_move (only_name word rest) (moves.tests (is_as wanted)) rest) self.old.rest)
            self.old result self.new }
    {
        let name = only_name(word, &mut self.lexer)?;
        let is_defined = self.definitions.get(name.as_str()).is_some();
        drop(name);
        self.blocks
            .push(OpenBlock::opened(word, is_defined == wanted))?;
        Ok(())
    }

    // Opens a block with the condition on the line.
    pub(crate) fn open_if(&mut self, word: Location) -> Result<(), DirectiveHalt>
        requires { self.old.spent ≡ false }
        ensures { Acts (directive_act self.old.rules true (facts_among self.old.blocks) d.If word self.old.rest)
            self.old result self.new }
    {
        let place = Place::in_text(self.text, word);
        let tokens = line_reads(self.alloc, place, &mut self.lexer)?;
        let scope = Scope {
            numbering: self.list_numbering(),
            definitions: &self.definitions,
        };
        let holds = condition(self.alloc, tokens, &scope, &mut self.counts)?;
        self.blocks.push(OpenBlock::opened(word, holds))?;
        Ok(())
    }

    // Opens a block in dead text, without reading its line.
    pub(crate) fn open_unread(&mut self, word: Location) -> Result<(), DirectiveHalt>
        requires { self.old.spent ≡ false }
        ensures { Acts (directive_act self.old.rules false (facts_among self.old.blocks) d.If word self.old.rest)
            self.old result self.new }
    {
        self.blocks.push(OpenBlock::unread(word))?;
        skip_line(self.rules.passes_dead_errors, &mut self.lexer)?;
        Ok(())
    }

    // Skips the branch after an `#elif` of the innermost block, also if its line has a fault.
    fn skip_branch(&mut self, block: OpenBlock) -> Result<(), DirectiveHalt>
        requires unspent { self.old.spent ≡ false }
        requires innermost { last_block self.old.blocks ≡ Some block }
        ensures { Acts (line_act elif_change (change_left elif_change) (moves.skip_move self.old.rules) self.old.rest)
            self.old result self.new }
    {
        self.blocks.replace_last(block.skipped());
        skip_line(self.rules.passes_dead_errors, &mut self.lexer)?;
        Ok(())
    }

    // Begins a new branch of the innermost block by the condition on the line. After a fault the branch is dead.
    fn part_if(&mut self, block: OpenBlock, word: Location) -> Result<(), DirectiveHalt>
        requires unspent { self.old.spent ≡ false }
        requires innermost { last_block self.old.blocks ≡ Some block }
        ensures { Acts (line_act elif_change (change_left elif_change)
            (λ rest. moves.line_move (line_tokens rest) (moves.decides word) rest) self.old.rest)
            self.old result self.new }
    {
        self.blocks.replace_last(block.skipped());
        let place = Place::in_text(self.text, word);
        let tokens = line_reads(self.alloc, place, &mut self.lexer)?;
        let scope = Scope {
            numbering: self.list_numbering(),
            definitions: &self.definitions,
        };
        let holds = condition(self.alloc, tokens, &scope, &mut self.counts)?;
        self.blocks.replace_last(block.decided(holds));
        Ok(())
    }

    // Acts on an `#elif` line, after its word. After a fault the text that follows is dead.
    pub(crate) fn elif_line(&mut self, word: Location) -> Result<(), DirectiveHalt>
        requires { self.old.spent ≡ false }
        ensures { Acts (line_act elif_change (elif_left (facts_among self.old.blocks))
            (moves.elif_move self.old.rules (facts_among self.old.blocks) word) self.old.rest)
            self.old result self.new }
    {
        let Some(block) = self.blocks.last() else {
            self.has_directive = true;
            self.dead_for_good = true;
            return Err(DirectiveHalt::Fault((PreprocessorError::ElifOutsideOfBlock, word)));
        };
        if block.with_else {
            self.blocks.replace_last(block.skipped());
            return Err(DirectiveHalt::Fault((PreprocessorError::ElifAfterElse, word)));
        }
        if block.skips_branches() {
            return self.skip_branch(block);
        }
        self.part_if(block, word)
    }

    // Acts on an `#else` line, after its word.
    pub(crate) fn else_line(&mut self, word: Location) -> Result<(), DirectiveHalt>
        requires { self.old.spent ≡ false }
        ensures { Acts (line_act (block_change (Some part.Else) word) nothing_left
            (moves.else_move (facts_among self.old.blocks) word) self.old.rest) self.old result self.new }
    {
        ended_line(word, &mut self.lexer)?;
        let Some(block) = self.blocks.last() else {
            return Err(DirectiveHalt::Fault((PreprocessorError::ElseOutsideOfBlock, word)));
        };
        if block.with_else {
            return Err(DirectiveHalt::Fault((PreprocessorError::MoreThanOneElse, word)));
        }
        self.blocks.replace_last(block.parted());
        Ok(())
    }

    // Acts on an `#endif` line, after its word: the block closes, also if more tokens follow on the line.
    pub(crate) fn endif_line(&mut self, word: Location) -> Result<(), DirectiveHalt>
        requires { self.old.spent ≡ false }
        ensures { Acts (line_act (block_change (Some part.Closes) word)
            (endif_left (facts_among self.old.blocks) word)
            (moves.endif_move self.old.rules (facts_among self.old.blocks) word) self.old.rest)
            self.old result self.new }
    {
        let Some(block) = self.blocks.pop() else {
            return Err(DirectiveHalt::Fault((PreprocessorError::EndifOutsideOfBlock, word)));
        };
        endif_end(
            block.live_around,
            self.rules.passes_dead_errors,
            word,
            &mut self.lexer,
        )?;
        Ok(())
    }
}
