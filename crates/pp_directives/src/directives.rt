//! The source's reader: directives act, and the tokens between them are given.

ghost use Rattle.std.specs.Prelude.{◌≡◌, ◌-◌, ◌^◌, ◌<◌, ◌&&◌, not, [], length, false, Ok, Err, IsTrue, None};
ghost use Rattle.std.specs.Prelude.{IfOk, OnOk, OnErr};
ghost use Rattle.std.specs.Str.{chars};
ghost use Rattle.pp_model.specs.Numbering.{list_numbering, text_number};
ghost use Rattle.pp_model.specs.Run.{items_by, content_tokens};
ghost use Rattle.pp_macros.specs.Held.{HoldsOrdinary};
ghost use Rattle.pp_directives.specs.inner.PlainText.{IsInText};
ghost use Rattle.pp_macros.specs.inner.OpenBlocks.{is_live_among};
ghost use Rattle.pp_directives.specs.inner.SettingContent.{SetsContent};
ghost use Rattle.pp_directives.specs.inner.Skipping.{SkipsRest};
ghost use Rattle.pp_macros.specs.inner.LineReading.{Meets};
ghost use Rattle.pp_macros.specs.inner.Source.{StepsSource, unreported_of};
ghost use Rattle.pp_directives.specs.inner.SourceActs.{StepsDirective};
ghost use Rattle.pp_directives.specs.inner.Starting.{source_start};
ghost use Rattle.pp_directives.specs.inner.Suspending.{LeavesText, including};
ghost use Rattle.pp_macros.specs.inner.Reader.{ReadsSource};
ghost use Rattle.pp_macros.specs.inner.Reading.{unpainted_step};
ghost use Rattle.pp_macros.specs.inner.Unreported.{ExitReports, StepReports};

mod acting;
mod blocks;
mod plain_text;

use crate::content::content_body;
use crate::convert::placed_token;
use crate::given::Given;
use crate::lines::pass_rest;
use crate::source_lexer::SourceLexer;
use crate::suspended::Suspended;
use pp_lexer::lexer::{self, Form, Lexer};
use pp_lexer::rules::Rules;
use pp_lexer::token::{Integer, Location, PreprocessorError, Text, Token};
use pp_macros::blocks::Blocks;
use pp_macros::budget::Budget;
use pp_macros::define::Define;
use pp_macros::halt::{Halt, PlacedHalt};
use pp_macros::macro_processor::SpareCounts;
use pp_macros::names::Definitions;
use pp_macros::step::{PlacedExit, PlacedStep, no_memory};
use pp_model::numbering::{Numbering, text_number};
use pp_model::place::{Place, SOURCE_TEXT, placed};
use std::alloc::{AllocError, Global};
use std::marker::Model;
use std::mem;

/// A reader of the source after the lexer, with its directives.
#[derive(Drop)]
pub struct DirectiveProcessor<'a> {
    alloc: Global,
    rules: Rules,
    // the number of the text
    text: u32,
    // Whether a live token of other texts was read before, and whether a directive was.
    earlier_text: bool,
    earlier_directive: bool,
    // The texts around, the innermost last.
    around: Vec<Suspended<'a>>,
    lexer: SourceLexer<'a>,
    definitions: Definitions,
    blocks: Blocks,
    line_offset: i64,
    has_text: bool,
    has_directive: bool,
    // Whether an `#elif` outside of all blocks made the rest of the source dead.
    dead_for_good: bool,
    // How many contents were added.
    contents: u32,
    // those of the last line that was expanded alone
    counts: SpareCounts,
}

impl<'a> Model for DirectiveProcessor<'a> {
    ghost use Rattle.std.specs.Prelude.{reverse};
    ghost use Rattle.pp_macros.specs.inner.Source.{Source};

    ghost Value = { Source };

    ghost view = { λ p. record {
      rules = p.rules;
      text = p.text;
      earlier = record { text = p.earlier_text; directive = p.earlier_directive };
      around = reverse p.around.items;
      rest = p.lexer.rest;
      places = p.lexer.places;
      over = p.lexer.over;
      error_place = p.lexer.error_place;
      definitions = p.definitions;
      blocks = p.blocks;
      line_offset = p.line_offset;
      spent = p.lexer.spent;
      has_text = p.has_text;
      has_directive = p.has_directive;
      dead_for_good = p.dead_for_good;
      contents = p.contents;
    } };
}

impl<'a> DirectiveProcessor<'a> {
    /// A reader at the start of a source of fewer than 2^32 - 1 bytes, by these rules.
    ///
    /// It allocates nothing and reads nothing yet.
    pub fn new(alloc: Global, input: &'a str, rules: Rules) -> DirectiveProcessor<'a>
        requires { length input.now < 2 ^ 32 - 1 }
        ensures { result ≡ source_start rules input.now }
    {
        DirectiveProcessor {
            alloc,
            rules,
            text: SOURCE_TEXT,
            earlier_text: false,
            earlier_directive: false,
            around: Vec::new(alloc),
            lexer: SourceLexer::new(alloc, input, rules),
            definitions: Definitions::new(alloc),
            blocks: Blocks::new(alloc),
            line_offset: 0,
            has_text: false,
            has_directive: false,
            dead_for_good: false,
            contents: 0,
            counts: SpareCounts::none(alloc, Budget::unbounded()),
        }
    }

    /// Takes its steps from this budget from now on. The only error is that an allocation failed.
    pub fn set_budget(&mut self, budget: &Budget) -> Result<(), AllocError>
        ensures { self.new ≡ self.old }
    {
        let of_lines = budget.share()?;
        let of_words = budget.share()?;
        self.counts = SpareCounts::none(self.alloc, of_lines);
        self.lexer.set_budget(of_words);
        Ok(())
    }

    /// The place of the item of the source that was read last, on the line of a directive and in dead text too.
    pub fn reached(&self) -> Location {
        self.lexer.reached()
    }

    /// The number of the text that is read.
    #[inline(always)]
    pub fn text(&self) -> u32
        ensures { result ≡ self.now.text }
    {
        self.text
    }

    /// The definitions that hold now.
    pub fn definitions(&self) -> &Definitions
        ensures { result.now ≡ self.now.definitions }
    {
        &self.definitions
    }

    /// The number that `__LINE__` shows for a line of the source, or `None` if it is out of range.
    pub fn shown_line(&self, line: u32) -> Option<Integer>
        ensures { result ≡ text_number self.now.rules self.now.line_offset line }
    {
        text_number(self.rules, self.line_offset, line)
    }

    /// How the lines of an argument or of a directive's line are numbered here.
    pub fn list_numbering(&self) -> Numbering
        ensures { result ≡ list_numbering self.now.rules self.now.line_offset }
    {
        Numbering::of_list(self.rules, self.line_offset)
    }

    /// Takes the place of the lexer's error that was read and not reported yet. The caller reports it now.
    pub fn take_error_place(&mut self) -> Option<Location>
        ensures place { result ≡ self.old.error_place }
        ensures others { self.new ≡ record self.old { error_place = None } }
    {
        self.lexer.take_error_place()
    }

    /// Defines the name as the tokens of a content of fewer than 2^32 - 1 bytes, read by these rules, replacing any
    /// definition of it. The content is the next text. After an error nothing is changed. With 2^32 - 1 contents before
    /// it the error is that of an allocation that failed.
    pub fn set_content(&mut self, name: &str, content: &str, rules: Rules) -> Result<(), Halt>
        requires { length content.now < 2 ^ 32 - 1 }
        ensures { SetsContent (chars name.now)
            (content_tokens (items_by rules content.now)) self.old result self.new }
    {
        let body = content_body(self.alloc, content, rules)?;
        let Some(text) = self.contents.checked_add(1) else {
            return Err(Halt::OutOfMemory);
        };
        let define = Define::object_like(self.alloc, text, body)?;
        let name = Text::from(String::from_str(self.alloc, name)?);
        self.definitions.set(name, define)?;
        self.contents = text;
        Ok(())
    }

    /// Whether the text is live, and no allocation failed.
    #[inline(always)]
    pub fn is_in_text(&self) -> bool
        ensures { IsTrue result → IsInText self.now }
    {
        self.is_live() && !self.lexer.is_spent()
    }

    // Whether the text is live.
    #[inline(always)]
    fn is_live(&self) -> bool
        ensures { result ≡ is_live_among self.now.dead_for_good self.now.blocks }
    {
        !self.dead_for_good && self.blocks.are_live()
    }

    // Whether an error of the lexer is passed here.
    fn passes_errors(&self) -> bool
        ensures { result ≡ (not (is_live_among self.now.dead_for_good self.now.blocks)
            && self.now.rules.passes_dead_errors) }
    {
        !self.is_live() && self.rules.passes_dead_errors
    }

    // Reports the innermost block that is open at the end of the source or, without one, the end.
    fn end(&mut self) -> PlacedExit
        requires unspent { self.old.spent ≡ false }
        requires end { self.old.rest ≡ [] }
        ensures reads { StepsSource self.old (Err result) self.new }
        ensures errors { ExitReports self.old.rules.passes_dead_errors result (unreported_of self.old)
            (unreported_of self.new) }
    {
        match self.blocks.pop() {
            Some(block) => PlacedExit::Error(placed(
                self.text,
                (PreprocessorError::UnfinishedBlock, block.word),
            )),
            None => PlacedExit::Finished,
        }
    }

    // Skips what is left of the line of a directive with a fault, if the rules say so. The only error is that an
    // allocation failed.
    fn skip_faulty_line(&mut self) -> Result<(), Halt>
        requires { self.old.spent ≡ false }
        ensures only { Meets (λ t. t) result (Ok tt) }
        ensures skips { IfOk result (λ done. SkipsRest self.old self.new) }
    {
        if self.rules.passes_dead_errors {
            pass_rest(&mut self.lexer)?;
        }
        Ok(())
    }

    // A step at a directive, after its number sign. After a fault what is left of its line may be skipped.
    fn step_directive(&mut self, hash: Location) -> PlacedStep<Token>
        requires { self.old.spent ≡ false }
        ensures reads { StepsDirective hash self.old result self.new }
        ensures holds { IfOk result (λ token. HoldsOrdinary token.value) }
        ensures errors { StepReports self.old.rules.passes_dead_errors result
            (unreported_of self.old) (unreported_of self.new) }
    {
        let text = self.text();
        match self.read_directive(hash) {
            Ok(Given::Item(item)) => Ok(item),
            Ok(Given::Nothing) => Err(PlacedExit::Continue),
            Ok(Given::Include(line)) => Err(PlacedExit::Error((
                PreprocessorError::UnknownDirective,
                Place::asking(text, line),
            ))),
            Err(halt) => match halt.placed_at(text) {
                PlacedHalt::OutOfMemory => Err(PlacedExit::from(PlacedHalt::OutOfMemory)),
                PlacedHalt::Fault(fault) => {
                    if let Err(refused) = self.skip_faulty_line() {
                        return Err(PlacedExit::from(refused.in_text(text)));
                    }
                    Err(PlacedExit::Error(fault))
                }
            },
        }
    }

    // A step at any item, or at the end.
    fn step_any(&mut self) -> PlacedStep<Token>
        requires { self.old.spent ≡ false }
        ensures reads { StepsSource self.old result self.new }
        ensures holds { IfOk result (λ token. HoldsOrdinary token.value) }
        ensures errors { StepReports self.old.rules.passes_dead_errors result
            (unreported_of self.old) (unreported_of self.new) }
    {
        if self.lexer.pass_newline() {
            return Err(PlacedExit::Continue);
        }
        let token = match self.lexer.next_token() {
            Ok(Some(token)) => token,
            Ok(None) => return Err(self.end()),
            Err(Halt::Fault(fault)) if self.passes_errors() => {
                drop(fault);
                self.lexer.take_error_place();
                return Err(PlacedExit::Continue);
            }
            Err(halt) => return Err(PlacedExit::from(halt.in_text(self.text))),
        };
        if self.lexer.is_over_budget() {
            drop(token);
            return Err(PlacedExit::Error(no_memory()));
        }
        match token.value {
            lexer::TokenValue::NewLine => {
                drop(token);
                Err(PlacedExit::Continue)
            }
            lexer::TokenValue::Hash if token.start_of_line => {
                let hash = token.location;
                drop(token);
                self.step_directive(hash)
            }
            _ if self.is_live() => {
                let token = placed_token(self.text, token)?;
                self.has_text = true;
                Ok(token)
            }
            _ => {
                drop(token);
                Err(PlacedExit::Continue)
            }
        }
    }

    // Goes on in the text around after the end of an included one, which is a pause. In the outermost text, or if an
    // allocation failed, it is the end.
    #[inline(never)]
    fn leave(&mut self) -> PlacedExit
        ensures { LeavesText self.old result self.new }
    {
        if self.lexer.is_spent() {
            return PlacedExit::Finished;
        }
        let Some(outer) = self.around.pop() else {
            return PlacedExit::Finished;
        };
        let Suspended {
            text,
            lexer,
            blocks,
            line_offset,
            has_text,
            has_directive,
            dead_for_good,
        } = outer;
        drop(self.lexer.replace(lexer));
        self.text = text;
        self.earlier_text |= self.has_text;
        self.earlier_directive |= self.has_directive;
        self.blocks = blocks;
        self.line_offset = line_offset;
        self.has_text = has_text;
        self.has_directive = has_directive;
        self.dead_for_good = dead_for_good;
        PlacedExit::Continue
    }

    /// Suspends the text that is read, and reads this text of fewer than 2^32 - 1 bytes, which is the next content, up
    /// to its end. With 2^32 - 1 contents before it the error is that of an allocation that failed. After an error
    /// nothing is changed. No allocation may have failed before.
    pub fn include(&mut self, text: &'a str) -> Result<(), AllocError>
        requires size { length text.now < 2 ^ 32 - 1 }
        requires unspent { self.old.spent ≡ false }
        ensures ok { OnOk result (self.new ≡ including text.now self.old) }
        ensures err { OnErr result (self.new ≡ self.old) }
    {
        let Some(number) = self.contents.checked_add(1) else {
            return Err(AllocError);
        };
        self.around.reserve(1)?;
        let lexer = self
            .lexer
            .replace(Lexer::with_rules(self.alloc, text, self.rules));
        let outer = Suspended {
            text: self.text,
            lexer,
            blocks: mem::replace(&mut self.blocks, Blocks::new(self.alloc)),
            line_offset: self.line_offset,
            has_text: self.has_text,
            has_directive: self.has_directive,
            dead_for_good: self.dead_for_good,
        };
        let Ok(()) = self.around.push(outer) else {
            unreachable!();
        };
        self.text = number;
        self.contents = number;
        self.earlier_text |= self.has_text;
        self.earlier_directive |= self.has_directive;
        self.line_offset = 0;
        self.has_text = false;
        self.has_directive = false;
        self.dead_for_good = false;
        Ok(())
    }

    /// How many texts are around the one that is read: each of them includes the next.
    pub fn depth(&self) -> usize
        ensures { result ≡ length self.now.around }
    {
        self.around.len()
    }

    // Reads one token, or one line of a directive, of the text that is read.
    #[inline(always)]
    fn step_in_text(&mut self) -> PlacedStep<Token>
        ensures reads { StepsSource self.old result self.new }
        ensures holds { IfOk result (λ token. HoldsOrdinary token.value) }
        ensures errors { StepReports self.old.rules.passes_dead_errors result
            (unreported_of self.old) (unreported_of self.new) }
    {
        if self.lexer.is_spent() {
            return Err(PlacedExit::Finished);
        }
        let Some(word) = self.lexer.peek_word() else {
            return self.step_any();
        };
        let Ok(()) = self.lexer.pay() else {
            return Err(PlacedExit::Error(no_memory()));
        };
        if matches!(word.form, Form::Hash) {
            if !word.start_of_line {
                return self.step_any();
            }
            self.lexer.pass_word(&word);
            return self.step_directive(word.location);
        }
        if !self.is_live() {
            self.lexer.pass_word(&word);
            return Err(PlacedExit::Continue);
        }
        let Ok(token) = self.lexer.take_word(self.alloc, word) else {
            return Err(PlacedExit::Error(no_memory()));
        };
        self.has_text = true;
        Ok(token)
    }

    /// Reads one token, or one line of a directive.
    ///
    /// A newline, a directive that acts, and each token of dead text is a pause. These directives act: `#define`,
    /// `#undef`, `#if`, `#ifdef`, `#ifndef`, `#elif`, `#else`, `#endif` and `#line`. In live text `#version`,
    /// `#extension` and `#pragma` are tokens at their word, which hold the tokens of their line; `#error` is
    /// `ErrorDirective` at its word, and a number sign that begins no line is `UnexpectedHash` at its place. The
    /// lexer's errors are given as they are, and in dead text passed if the rules say so. After an error of a directive
    /// what is left of its line is skipped if the rules say so. At the end `UnfinishedBlock` is reported for each block
    /// that is open, the innermost first.
    ///
    /// If the rules ask for texts, an `#include` line in live text is the error `UnknownDirective` at its word, which
    /// asks for its text. At the end of an included text reading goes on in the text around it, which is a pause.
    #[inline(always)]
    pub fn step(&mut self) -> PlacedStep<Token>
        ensures reads { ReadsSource self.old (unpainted_step self.old.text result) self.new }
        ensures holds { IfOk result (λ token. HoldsOrdinary token.value) }
    {
        match self.step_in_text() {
            Ok(token) => Ok(token),
            Err(PlacedExit::Finished) => Err(self.leave()),
            Err(PlacedExit::Continue) => Err(PlacedExit::Continue),
            Err(PlacedExit::Error(fault)) => Err(PlacedExit::Error(fault)),
        }
    }
}
