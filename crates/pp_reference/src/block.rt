//! The blocks that are open at a position of a source, and which of their branches are live.

ghost use Rattle.std.specs.Prelude.{◌≡◌, ◌+◌, ◌^◌, ◌<◌, ◌∷◌, length, take, drop, option_map, vec_items, IfOk};
ghost use Rattle.std.specs.Option.{option_copied};
ghost use Rattle.std.specs.List.{list_all, list_any};
ghost use Rattle.pp_model.specs.Blocks as spec;
ghost use Rattle.pp_model.specs.inner.Blocks as parts;
ghost use Rattle.pp_model.specs.Sights as sights;

use crate::item::SourceItem;
use crate::sight::sight_of;
use crate::stop::Stop;
use pp_model::block::{BlockLine, Part};
use pp_model::directive::Directive;
use pp_model::sight::Sight;
use pp_model::truth::Truth;
use std::alloc::Global;
use std::marker::Model;

/// An open block: its first line, and the lines so far that begin its other branches.
#[derive(Drop)]
pub struct Block {
    /// The `#if`, `#ifdef` or `#ifndef`.
    pub first: BlockLine,
    /// The `#elif` and `#else` lines of the block itself.
    pub partings: Vec<BlockLine>,
}

impl Model for Block {
    ghost use Rattle.pp_model.specs.Blocks as spec;

    ghost Value = { spec.Block };

    ghost view = { λ block. record { first = block.first; partings = block.partings.items } };
}

/// What a directive does to a block, or `None` if it does nothing to one.
pub fn part_of(directive: Directive) -> Option<Part>
    ensures { result ≡ spec.part_of directive }
{
    match directive {
        Directive::If | Directive::Ifdef | Directive::Ifndef => Some(Part::Opens),
        Directive::Elif => Some(Part::Elif),
        Directive::Else => Some(Part::Else),
        Directive::Endif => Some(Part::Closes),
        _ => None,
    }
}

// The block line of this sight, if it is one.
fn line_at(position: usize, sight: &Sight) -> Option<BlockLine>
    ensures { result ≡ spec.line_at position sight.now }
{
    match sight {
        Sight::Directive(directive, word) => part_of(*directive).map(|part| BlockLine {
            position,
            word: *word,
            part,
        }),
        _ => None,
    }
}

// The block line at the front of these items, if there is one. `position` is the position of the first item.
fn first_line(
    alloc: Global,
    position: usize,
    items: &[SourceItem],
) -> Result<Option<BlockLine>, Stop>
    ensures { IfOk result (λ line. line ≡ spec.line_at position (sights.sight_of items.now)) }
{
    let sight = sight_of(alloc, items)?;
    Ok(line_at(position, &sight))
}

/// The lines among these items that open, part or close blocks. `position` is the position of the first item.
pub fn block_lines(
    alloc: Global,
    position: usize,
    items: &[SourceItem],
) -> Result<Vec<BlockLine>, Stop>
    requires { position + length items.now < 2 ^ 64 }
    ensures { IfOk result (λ lines. lines.items ≡ spec.block_lines position items.now) }
{
    let Some((_, rest)) = items.split_first() else {
        return Ok(Vec::new(alloc));
    };
    let first = first_line(alloc, position, items)?;
    let mut lines = block_lines(alloc, position + 1, rest)?;
    if let Some(line) = first {
        lines.insert(0, line)?;
    }
    Ok(lines)
}

// The lines with this one before them.
fn with_line(
    line: BlockLine,
    partings: Option<Vec<BlockLine>>,
) -> Result<Option<Vec<BlockLine>>, Stop>
    ensures { IfOk result (λ found. option_map vec_items found
        ≡ option_map (λ lines. line ∷ lines) (option_map vec_items partings)) }
{
    let Some(mut partings) = partings else {
        return Ok(None);
    };
    partings.insert(0, line)?;
    Ok(Some(partings))
}

// The lines that part a block with `inner` open inner blocks, or `None` if one of these lines closes it.
fn partings_of(
    alloc: Global,
    inner: usize,
    lines: &[BlockLine],
) -> Result<Option<Vec<BlockLine>>, Stop>
    requires { inner + length lines.now < 2 ^ 64 }
    ensures { IfOk result (λ found. option_map vec_items found ≡ spec.partings_of inner lines.now) }
{
    let Some((line, later)) = lines.split_first() else {
        return Ok(Some(Vec::new(alloc)));
    };
    match line.part {
        Part::Opens => partings_of(alloc, inner + 1, later),
        Part::Closes if inner == 0 => Ok(None),
        Part::Closes => partings_of(alloc, inner - 1, later),
        Part::Elif | Part::Else if inner == 0 => {
            with_line(*line, partings_of(alloc, inner, later)?)
        }
        Part::Elif | Part::Else => partings_of(alloc, inner, later),
    }
}

// The block that the line opens, if it opens one that is still open after the later lines.
fn opened_by(alloc: Global, line: BlockLine, later: &[BlockLine]) -> Result<Option<Block>, Stop>
    ensures { IfOk result (λ block. block ≡ spec.opened_by line later.now) }
{
    if line.part != Part::Opens {
        return Ok(None);
    }
    Ok(partings_of(alloc, 0, later)?.map(|partings| Block {
        first: line,
        partings,
    }))
}

/// The blocks that are open after these lines, the outermost first.
pub fn open_blocks(alloc: Global, lines: &[BlockLine]) -> Result<Vec<Block>, Stop>
    ensures { IfOk result (λ blocks. blocks.items ≡ spec.open_blocks lines.now) }
{
    let Some((line, later)) = lines.split_first() else {
        return Ok(Vec::new(alloc));
    };
    let mut blocks = open_blocks(alloc, later)?;
    if let Some(block) = opened_by(alloc, *line, later)? {
        blocks.insert(0, block)?;
    }
    Ok(blocks)
}

// The first `count` items, or all if there are fewer.
fn front_of(source: &[SourceItem], count: usize) -> &[SourceItem]
    ensures { result.now ≡ take count source.now }
{
    if count < source.len() {
        &source[..count]
    } else {
        source
    }
}

/// The blocks that are open at a position of a source.
pub fn blocks_at(alloc: Global, source: &[SourceItem], position: usize) -> Result<Vec<Block>, Stop>
    ensures { IfOk result (λ blocks. blocks.items ≡ spec.blocks_at source.now position) }
{
    let lines = block_lines(alloc, 0, front_of(source, position))?;
    open_blocks(alloc, &lines)
}

/// The innermost of these blocks that isn't among this many outermost ones.
pub fn innermost_past(blocks: &[Block], outside: usize) -> Option<&Block>
    ensures { option_copied result ≡ spec.innermost (drop outside blocks.now) }
{
    if blocks.len() <= outside {
        return None;
    }
    blocks[outside..].last()
}

// Whether the condition at a position holds, if it was read.
fn truth_at(truths: &[Truth], position: usize) -> Option<bool>
    ensures { result ≡ spec.truth_at truths.now position }
{
    match truths.split_first() {
        None => None,
        Some((truth, _)) if truth.position == position => Some(truth.holds),
        Some((_, others)) => truth_at(others, position),
    }
}

// Whether the mark's own condition holds. An `#else` has no condition.
fn holds_at(truths: &[Truth], mark: BlockLine) -> bool
    ensures { result ≡ spec.holds_at truths.now mark }
{
    mark.part == Part::Else || truth_at(truths, mark.position) == Some(true)
}

// Whether the mark's own condition was read and is false. An `#else` has no condition.
fn fails_at(truths: &[Truth], mark: BlockLine) -> bool
    ensures { result ≡ spec.fails_at truths.now mark }
{
    mark.part == Part::Else || truth_at(truths, mark.position) == Some(false)
}

// Whether the last of these marks is chosen.
fn is_last_chosen(truths: &[Truth], mark: BlockLine, marks: &[BlockLine]) -> bool
    ensures { result ≡ spec.is_last_chosen truths.now mark marks.now }
{
    match marks.split_first() {
        None => holds_at(truths, mark),
        Some((next, later)) => fails_at(truths, mark) && is_last_chosen(truths, *next, later),
    }
}

// Whether the latest mark of each block is chosen.
fn are_branches_live(truths: &[Truth], blocks: &[Block]) -> bool
    ensures { result ≡ list_all (parts.is_branch_live truths.now) blocks.now }
{
    match blocks.split_first() {
        None => true,
        Some((block, others)) => {
            is_last_chosen(truths, block.first, &block.partings)
                && are_branches_live(truths, others)
        }
    }
}

/// Whether a position of a source is live.
pub fn is_live(
    alloc: Global,
    source: &[SourceItem],
    truths: &[Truth],
    position: usize,
) -> Result<bool, Stop>
    ensures { IfOk result (λ live. live ≡ spec.is_live source.now truths.now position) }
{
    let blocks = blocks_at(alloc, source, position)?;
    Ok(are_branches_live(truths, &blocks))
}

// Whether the condition of one of these marks holds.
fn has_true_mark(truths: &[Truth], marks: &[BlockLine]) -> bool
    ensures { result
        ≡ list_any (λ mark. parts.is_known_true (spec.truth_at truths.now mark.position))
        marks.now }
{
    match marks.split_first() {
        None => false,
        Some((mark, others)) => {
            truth_at(truths, mark.position) == Some(true) || has_true_mark(truths, others)
        }
    }
}

/// Whether a branch of the block was taken.
pub fn has_taken_branch(truths: &[Truth], block: &Block) -> bool
    ensures { result ≡ spec.has_taken_branch truths.now block.now }
{
    truth_at(truths, block.first.position) == Some(true) || has_true_mark(truths, &block.partings)
}

// Whether one of these marks is an `#else`.
fn has_else_mark(marks: &[BlockLine]) -> bool
    ensures { result ≡ list_any (λ mark. spec.is_else mark.part) marks.now }
{
    match marks.split_first() {
        None => false,
        Some((mark, others)) => mark.part == Part::Else || has_else_mark(others),
    }
}

/// Whether the block has an `#else`.
pub fn has_else(block: &Block) -> bool
    ensures { result ≡ spec.has_else block.now }
{
    has_else_mark(&block.partings)
}
