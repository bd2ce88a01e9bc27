//! The readers that come after an expander's list.

ghost use Rattle.std.specs.Prelude.{◌≡◌, ◌≤◌, IfOk};
ghost use Rattle.pp_reference.specs.inner.Changes.{meaning_of};
ghost use Rattle.pp_model.specs.inner.Reading.{first_listed, after_listed};

use crate::definitions::Definitions;
use crate::list::take_first;
use crate::stop::{Budget, Stop};
use pp_lexer::token::{Integer, Text};
use pp_model::names::is_defined_name;
use pp_model::numbering::Numbering;
use pp_model::read::{Read, Taken};

/// A reader of tokens. `State` is what contracts see of it, and `reading` is its kind.
pub trait Reader {
    ghost use Rattle.pp_model.specs.Reading.{Reading};

    ghost State: { Type 0 };

    ghost state: { Self → State };

    ghost reading: { Reading State };

    /// Takes the next item.
    fn read(&mut self, budget: &mut Budget) -> Result<Taken, Stop>
        ensures reads { IfOk result (λ taken. reading.Reads (state self.old) taken
            (state self.new)) }
        ensures budget { budget.new.steps ≤ budget.old.steps };

    /// The definitions that it sees.
    fn visible(&self) -> &Definitions
        ensures { meaning_of result.now ≡ reading.visible (state self.now) };

    /// The number that `__LINE__` shows for a line, or `None` if it is out of range.
    fn shown_line(&self, line: u32) -> Option<Integer>
        ensures { result ≡ reading.shown_line (state self.now) line };

    /// How the lines of an argument are numbered there.
    fn numbering(&self) -> Numbering
        ensures { result ≡ reading.numbering (state self.now) };

    /// Whether the name opens no macro in this reader.
    fn is_reserved(&self, name: &Text) -> bool
        ensures { result ≡ reading.is_reserved name.now };
}

/// Takes the next token of a list, or the end.
fn next_listed(tokens: &mut Vec<Read>) -> Taken
    ensures given { result ≡ first_listed tokens.old.items }
    ensures rest { tokens.new.items ≡ after_listed tokens.old.items }
{
    match take_first(tokens) {
        Some(read) => Taken::Token(read),
        None => Taken::End,
    }
}

/// An argument of a call, read alone.
#[derive(Drop)]
pub struct ArgumentReader<'a> {
    /// The tokens that are left.
    pub tokens: Vec<Read>,
    /// How their lines are numbered.
    pub numbering: Numbering,
    /// The definitions that it sees.
    pub definitions: &'a Definitions,
}

impl Reader for ArgumentReader<'_> {
    ghost use Rattle.pp_model.specs.Reading.{Listed, argument_reading};

    ghost State = { Listed };

    ghost state = { λ reader. record {
      tokens = reader.tokens.items;
      numbering = reader.numbering;
      visible = meaning_of reader.definitions.now;
    } };

    ghost reading = { argument_reading };

    fn read(&mut self, _budget: &mut Budget) -> Result<Taken, Stop> {
        Ok(next_listed(&mut self.tokens))
    }

    fn visible(&self) -> &Definitions {
        self.definitions
    }

    fn shown_line(&self, line: u32) -> Option<Integer> {
        Some(self.numbering.number_of(line))
    }

    fn numbering(&self) -> Numbering {
        self.numbering
    }

    fn is_reserved(&self, _name: &Text) -> bool {
        false
    }
}

/// The line of an `#if`, `#elif` or `#line`, where `defined` is an operator.
#[derive(Drop)]
pub struct LineReader<'a> {
    /// The tokens that are left.
    pub tokens: Vec<Read>,
    /// How their lines are numbered.
    pub numbering: Numbering,
    /// The definitions that it sees.
    pub definitions: &'a Definitions,
}

impl Reader for LineReader<'_> {
    ghost use Rattle.pp_model.specs.Reading.{Listed, line_reading};

    ghost State = { Listed };

    ghost state = { λ reader. record {
      tokens = reader.tokens.items;
      numbering = reader.numbering;
      visible = meaning_of reader.definitions.now;
    } };

    ghost reading = { line_reading };

    fn read(&mut self, _budget: &mut Budget) -> Result<Taken, Stop> {
        Ok(next_listed(&mut self.tokens))
    }

    fn visible(&self) -> &Definitions {
        self.definitions
    }

    fn shown_line(&self, line: u32) -> Option<Integer> {
        Some(self.numbering.number_of(line))
    }

    fn numbering(&self) -> Numbering {
        self.numbering
    }

    fn is_reserved(&self, name: &Text) -> bool {
        is_defined_name(name)
    }
}
