//! What the conditions of a source became, and which of its definitions were read.

use pp_rs::token::{Location, Punct, TokenValue};
use std::alloc::{AllocError, Global};

/// The word of a directive that begins or ends a part of a block.
#[derive(Clone, Copy, PartialEq, Eq)]
pub enum BranchWord {
    /// `#if`
    If,
    /// `#ifdef`
    Ifdef,
    /// `#ifndef`
    Ifndef,
    /// `#elif`
    Elif,
    /// `#else`
    Else,
    /// `#endif`
    Endif,
}

/// A name that a condition tests or has for a number.
#[derive(Drop)]
pub struct Tested {
    /// The name.
    pub name: String,
    /// Its place in the source.
    pub location: Location,
    /// Whether it is defined.
    pub is_defined: bool,
    // The number of the line of the text that asks, which is given only then.
    pub(crate) line: u32,
    // The byte offset of what stands there for a `defined` of it.
    pub(crate) stand_in: Option<u32>,
}

/// A directive that begins or ends a part of a block.
#[derive(Drop)]
pub struct Branch {
    /// Its word.
    pub word: BranchWord,
    /// The byte offset in the source of its word.
    pub start: u32,
    /// The byte offset of the end of its line.
    pub end: u32,
    /// The number of the last directive before its block that is a branch, from 0, if there is one.
    pub around: Option<usize>,
    /// The number of the branch that begins its block.
    pub first: usize,
    /// Whether its condition is computed.
    pub is_reached: bool,
    /// Whether what follows it is read.
    pub is_read: bool,
    /// Whether this is known: no condition before it has an error.
    pub is_known: bool,
    /// The number of the branch of the same block that is read, if one is.
    pub taken: Option<usize>,
    /// The names that its condition tests or has for numbers, in their order.
    pub tested: Vec<Tested>,
    /// What an `#if` or `#elif` became that is computed: its tokens once macros are replaced, 1 or 0 for each
    /// `defined`, and 0 for a name that isn't a macro.
    pub value: String,
    // The numbers of the lines of the text that asks which are given only if its condition is computed, which give what
    // it became, and which are given only if what follows it is read.
    pub(crate) reached_line: u32,
    pub(crate) value_line: u32,
    pub(crate) line: u32,
}

impl Branch {
    // Notes that a line of the text that asks is given.
    pub(crate) fn note_line(&mut self, line: u32) {
        if self.line == line {
            self.is_read = true;
        }
        if self.reached_line == line {
            self.is_reached = true;
        }
        let tested = self.tested.as_mut_slice();
        let before = tested.partition_point(|tested| tested.line < line);
        if let Some(tested) = tested.get_mut(before)
            && tested.line == line
        {
            tested.is_defined = true;
        }
    }

    // Takes a token of what the condition became, at this byte offset in the text that asks if it is from there.
    pub(crate) fn push_value(
        &mut self,
        value: &TokenValue,
        start: Option<u32>,
    ) -> Result<(), AllocError> {
        if needs_space(self.value.as_str(), value) {
            self.value.push(' ')?;
        }
        match (self.stand_in(start), value) {
            (Some(true), _) => self.value.push('1'),
            (Some(false), _) => self.value.push('0'),
            (None, TokenValue::Ident(name)) if name.as_str() != "defined" => self.value.push('0'),
            _ => write!(self.value, "{value}"),
        }
    }

    /// Whether a name of the condition stands for a number there.
    pub fn counts(&self, tested: &Tested) -> bool {
        matches!(self.word, BranchWord::If | BranchWord::Elif) && tested.stand_in.is_none()
    }

    // Whether the name is defined whose `defined` stands as a number at this byte offset.
    fn stand_in(&self, start: Option<u32>) -> Option<bool> {
        let start = start?;
        for tested in self.tested.as_slice() {
            if tested.stand_in == Some(start) {
                return Some(tested.is_defined);
            }
        }
        None
    }
}

/// Notes of branches in the order of the source which of their block is read.
pub(crate) fn note_taken(alloc: Global, branches: &mut [Branch]) -> Result<(), AllocError> {
    let mut taken = Vec::new(alloc);
    for (index, branch) in branches.iter().enumerate() {
        taken.push(None)?;
        if branch.is_read
            && branch.word != BranchWord::Endif
            && let Some(of_block) = taken.get_mut(branch.first)
        {
            *of_block = Some(index);
        }
    }
    for branch in branches.iter_mut() {
        if let Some(of_block) = taken.get(branch.first) {
            branch.taken = *of_block;
        }
    }
    Ok(())
}

/// A `#define`, `#undef` or `#extension` line.
#[derive(Drop)]
pub struct DefinitionLine {
    /// The macro's name.
    pub name: String,
    /// Whether the line defines it, or undefines it.
    pub is_definition: bool,
    /// The byte offset in the source of its word.
    pub start: u32,
    /// The byte offset of the end of its line.
    pub end: u32,
    // The number of its line of the text that asks, and of the line that is given if it is read.
    pub(crate) first_line: u32,
    pub(crate) line: u32,
    // Whether it has an error.
    pub(crate) is_refused: bool,
}

// Whether a space is before a token behind this text.
fn needs_space(text: &str, value: &TokenValue) -> bool {
    match text.chars().next_back() {
        None | Some('(' | '!' | '~') => false,
        Some(_) => !matches!(value, TokenValue::Punct(Punct::RightParen | Punct::Comma)),
    }
}
