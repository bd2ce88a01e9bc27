//! The expressions of an `#if`, `#elif` or `#line` line.

ghost use Rattle.std.specs.Prelude.{◌≡◌, slice_get, IfOk, OnErr};
ghost use Rattle.std.specs.Option.{option_copied};
ghost use Rattle.pp_model.specs.Emitting.{expansion_limit};
ghost use Rattle.pp_model.specs.LineValues.{IsAlone};
ghost use Rattle.pp_macros.specs.Held.{AllHoldOrdinary};
ghost use Rattle.pp_macros.specs.inner.Expander.{Satisfies};
ghost use Rattle.pp_directives.specs.inner.IfParsing.{IsAtFront, TakesExpression};

use crate::limit::expansion_limit;
use crate::line_words::line_words;
use crate::token_list::LineReads;
use pp_macros::halt::PlacedHalt;
use pp_macros::list_lexer::Scope;
use pp_macros::macro_processor::SpareCounts;
use pp_model::line_value::unwanted_word;
use pp_model::place::Place;
use pp_model::word::{LineKind, Word, Words};
use std::alloc::{AllocError, Global};
use std::marker::Model;

/// The words of an `#if`, `#elif` or `#line` line that no expression has taken yet.
#[derive(Drop)]
pub struct IfParser {
    alloc: Global,
    directive: Place,
    words: Words,
}

impl Model for IfParser {
    ghost use Rattle.pp_directives.specs.inner.IfParsing as spec;

    ghost Value = { spec.IfParser };

    ghost view = { λ p. record { directive = p.directive; words = p.words } };
}

impl IfParser {
    /// Reads the words of a line of this kind.
    ///
    /// `tokens` are those after the directive's word, with its place. The only error is that an allocation failed.
    pub fn new(
        alloc: Global,
        kind: LineKind,
        tokens: &LineReads<'_>,
        scope: &Scope<'_>,
        counts: &mut SpareCounts,
    ) -> Result<IfParser, AllocError>
        requires { AllHoldOrdinary tokens.now.tokens }
        ensures { IfOk result (IsAtFront kind tokens.now.directive tokens.now.tokens scope.now.numbering
            scope.now.definitions.now) }
    {
        let levels = expansion_limit();
        Ok(IfParser {
            alloc,
            directive: tokens.directive(),
            words: line_words(alloc, kind, tokens, scope, levels, counts)?,
        })
    }

    /// The next word, or `None` if no word is left.
    pub fn peek(&self) -> Option<&Word>
        ensures { option_copied result ≡ slice_get self.now.words.words 0 }
    {
        self.words.peek()
    }

    /// Takes the longest expression at the front of the words, and gives its value.
    ///
    /// The error is its first fault, and then nothing is taken, or `OutOfMemory` if an allocation failed.
    pub fn evaluate_expression(&mut self) -> Result<i64, PlacedHalt>
        ensures takes { Satisfies result (λ taken. TakesExpression self.old taken self.new) }
        ensures keeps { Satisfies result (λ taken. OnErr taken (self.new ≡ self.old)) }
    {
        Ok(self.words.take_expression(self.alloc, self.directive)??)
    }

    /// Takes the expression that all words are together, and gives its value.
    ///
    /// The error is the first fault, a word after the expression among them, or `OutOfMemory` if an allocation failed.
    pub fn evaluate_line(&mut self) -> Result<i64, PlacedHalt>
        ensures { Satisfies result (IsAlone self.old.directive self.old.words (λ value. value)) }
    {
        let value = self.evaluate_expression()?;
        match self.peek() {
            Some(word) => Err(PlacedHalt::Fault(unwanted_word(self.alloc, word)?)),
            None => Ok(value),
        }
    }
}
