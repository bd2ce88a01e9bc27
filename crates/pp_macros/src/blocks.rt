//! Blocks of conditional text that are open.

ghost use Rattle.std.specs.Prelude.{◌≡◌, ◌<◌, ◌++◌, ◌∷◌, [], length, OnOk};
ghost use Rattle.pp_macros.specs.inner.OpenBlocks as spec;

use pp_lexer::token::Location;
use std::alloc::{AllocError, Global};
use std::marker::Model;

/// A block that is open.
#[derive(Clone, Copy)]
pub struct OpenBlock {
    /// The place of its first line's word.
    pub word: Location,
    /// Whether its surroundings are live.
    pub live_around: bool,
    /// Whether a branch of it was taken.
    pub taken: bool,
    /// Whether it has an `#else`.
    pub with_else: bool,
    /// Whether the branch that is read now is chosen.
    pub chosen: bool,
}

impl OpenBlock {
    /// The block that a line in live text opens. `holds` is its condition.
    pub fn opened(word: Location, holds: bool) -> OpenBlock
        ensures { result ≡ spec.block_opened word holds }
    {
        OpenBlock {
            word,
            live_around: true,
            taken: holds,
            with_else: false,
            chosen: holds,
        }
    }

    /// The block that a line in dead text opens. Its condition is not read.
    pub fn unread(word: Location) -> OpenBlock
        ensures { result ≡ spec.block_unread word }
    {
        OpenBlock {
            word,
            live_around: false,
            taken: false,
            with_else: false,
            chosen: false,
        }
    }

    /// The block after its `#else`, whose branch is chosen if no other was taken.
    pub fn parted(self) -> OpenBlock
        ensures { result ≡ spec.block_parted self }
    {
        OpenBlock {
            with_else: true,
            chosen: self.live_around && !self.taken,
            ..self
        }
    }

    /// Whether an `#elif` of the block is skipped: its surroundings are dead, or a branch was taken.
    pub fn skips_branches(&self) -> bool
        ensures { result ≡ spec.skips_branches self.now }
    {
        !self.live_around || self.taken
    }

    /// The block after an `#elif` that is skipped.
    pub fn skipped(self) -> OpenBlock
        ensures { result ≡ spec.block_skipped self }
    {
        OpenBlock {
            chosen: false,
            ..self
        }
    }

    /// The block after an `#elif` with this condition, if no branch was taken before.
    pub fn decided(self, holds: bool) -> OpenBlock
        ensures { result ≡ spec.block_decided self holds }
    {
        OpenBlock {
            taken: holds,
            chosen: holds,
            ..self
        }
    }
}

// Whether the text is live in the innermost of these blocks.
fn is_live(blocks: &Vec<OpenBlock>) -> bool
    ensures { result ≡ spec.is_live_in (spec.last_block blocks.now.items) }
{
    match blocks.last() {
        Some(block) => block.live_around && block.chosen,
        None => true,
    }
}

/// The blocks that are open, the innermost last.
#[derive(Drop)]
pub struct Blocks {
    open: Vec<OpenBlock>,
    // Whether the text is live in the innermost one.
    live: bool,
}

impl Model for Blocks {
    ghost use Rattle.std.specs.Prelude.{List};
    ghost use Rattle.std.specs.Prelude.{◌≡◌};
    ghost use Rattle.pp_macros.specs.declared.blocks.OpenBlock.{OpenBlock};
    ghost use Rattle.pp_macros.specs.inner.OpenBlocks.{is_live_in, last_block};

    ghost Value = { List OpenBlock };

    ghost view = { λ b. b.open.items };

    ghost invariant = { λ b. b.live ≡ is_live_in (last_block b.open.items) };
}

impl Blocks {
    /// No open block. It allocates nothing.
    pub fn new(alloc: Global) -> Self
        ensures { result ≡ [] }
    {
        Blocks {
            open: Vec::new(alloc),
            live: true,
        }
    }

    /// The innermost block.
    pub fn last(&self) -> Option<OpenBlock>
        ensures { result ≡ spec.last_block self.now }
    {
        self.open.last().copied()
    }

    /// Whether the text is live in the innermost block.
    #[inline(always)]
    pub fn are_live(&self) -> bool
        ensures { result ≡ spec.is_live_in (spec.last_block self.now) }
    {
        self.live
    }

    /// Opens a block in the innermost one.
    pub fn push(&mut self, block: OpenBlock) -> Result<(), AllocError>
        ensures { OnOk result (self.new ≡ self.old ++ block ∷ []) }
    {
        self.open.push(block)?;
        self.live = is_live(&self.open);
        Ok(())
    }

    /// Closes the innermost block.
    pub fn pop(&mut self) -> Option<OpenBlock>
        ensures is { result ≡ spec.last_block self.old }
        ensures outer { self.new ≡ spec.outer_blocks self.old }
    {
        let closed = self.open.pop();
        self.live = is_live(&self.open);
        closed
    }

    /// Replaces the innermost block.
    pub fn replace_last(&mut self, block: OpenBlock)
        requires { 0 < length self.old }
        ensures is { self.new ≡ spec.outer_blocks self.old ++ block ∷ [] }
        ensures count { length self.new ≡ length self.old }
    {
        if let Some(last) = self.open.last_mut() {
            *last = block;
        }
        self.live = is_live(&self.open);
    }
}
