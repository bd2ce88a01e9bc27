//! What a fault at the reader's position takes, and reading on after it.

ghost use Rattle.std.specs.Prelude.{◌≡◌, ◌≤◌, ◌+◌, ◌++◌, take, drop, length, true, false, ◌&&◌, Ok, IfOk, OnOk};
ghost use Rattle.std.specs.List.{list_any};
ghost use Rattle.std.specs.Str.{chars};
ghost use Rattle.pp_model.specs.Sights.{is_directive_hash, least_items};
ghost use Rattle.pp_model.specs.Faults as spec;
ghost use Rattle.pp_model.specs.Faults.{is_shown};
ghost use Rattle.pp_model.specs.Moves as moves;
ghost use Rattle.pp_model.specs.Moves.{fails};
ghost use Rattle.pp_model.specs.Sights.{sight_of};
ghost use Rattle.pp_model.specs.inner.Acts as parts;
ghost use Rattle.pp_model.specs.declared.directive.Directive.TheVariants.{Undef};
ghost use Rattle.pp_model.specs.declared.sight.Sight.TheVariants as sights;
ghost use Rattle.pp_reference.specs.inner.Faulting.{IsShownBy};
ghost use Rattle.pp_reference.specs.inner.ReaderState.{reader_of};

use crate::block::{blocks_at, has_else, has_taken_branch, innermost_past, is_live};
use crate::define_line::{changed_name, defined_on, undefined_on};
use crate::item::SourceItem;
use crate::line::{ended_line, line_fault, line_length, line_tokens, only_name};
use crate::sight::sight_of;
use crate::source_reader::SourceReader;
use crate::source_text::is_directive_hash;
use crate::stop::{Halt, Stop};
use pp_lexer::lexer;
use pp_lexer::rules::Rules;
use pp_lexer::token::{Location, PreprocessorError, Text};
use pp_model::directive::Directive;
use pp_model::outcome::Fault;
use pp_model::sight::Sight;
use pp_model::truth::Truth;
use std::alloc::Global;
use std::marker::Model;

/// What the lines of the innermost block depend on.
#[derive(Clone, Copy)]
pub struct Facts {
    /// Whether its surroundings are live.
    pub live_around: bool,
    /// Whether a branch of it was taken.
    pub taken: bool,
    /// Whether it has an `#else`.
    pub with_else: bool,
}

impl Model for Facts {
    ghost use Rattle.pp_model.specs.Moves as spec;

    ghost Value = { spec.BlockFacts };

    ghost view = { λ f. record {
      are_surroundings_live = f.live_around;
      has_taken_branch = f.taken;
      has_else = f.with_else;
    } };

    ghost inverse = { λ facts. record {
      live_around = facts.are_surroundings_live;
      taken = facts.has_taken_branch;
      with_else = facts.has_else;
    } };
}

// Whether the fault is one of what is there, and not of what is missing.
fn is_shown(fault: &Fault) -> bool
    ensures { result ≡ is_shown (fails fault.now) }
{
    !matches!(fault, (PreprocessorError::UnexpectedEndOfInput, _))
}

// Whether the answer is a fault that is shown.
fn has_fault<T: Drop>(answer: Result<T, Halt>) -> Result<bool, Stop>
    ensures { IfOk result (IsShownBy answer) }
{
    match answer {
        Ok(value) => {
            drop(value);
            Ok(false)
        }
        Err(Halt::Fault(fault)) => Ok(is_shown(&fault)),
        Err(Halt::Stop(stop)) => Err(stop),
    }
}

// Whether the `#` of a directive is in front.
fn begins_directive(items: &[SourceItem]) -> bool
    ensures { result ≡ list_any (λ s. is_directive_hash s.item) (take 1 items.now) }
{
    match items.first() {
        Some(first) => is_directive_hash(&first.item),
        None => false,
    }
}

// Whether a fault of this line takes it whole: by GLSL's rules one of a directive does.
fn takes_line(rules: Rules, line: &[SourceItem]) -> bool
    ensures { result ≡ (rules.passes_dead_errors
        && list_any (λ s. is_directive_hash s.item) (take 1 line.now)) }
{
    rules.passes_dead_errors && begins_directive(line)
}

// An item of a line that stays.
fn word_item(place: Location, value: lexer::TokenValue) -> SourceItem
    ensures { result ≡ record {
      item = Ok (record { value = value; location = place; leading_whitespace = true; start_of_line = true });
      had_comments = false;
    } }
{
    let token = lexer::Token {
        value,
        location: place,
        leading_whitespace: true,
        start_of_line: true,
    };
    SourceItem {
        item: Ok(token),
        had_comments: false,
    }
}

// A line of this word alone.
fn word_line(alloc: Global, place: Location, name: &str) -> Result<Vec<SourceItem>, Stop>
    ensures { IfOk result (λ line. line.items ≡ spec.word_line place (chars name.now)) }
{
    let name = Text::from(String::from_str(alloc, name)?);
    let mut line = Vec::new(alloc);
    line.push(word_item(place, lexer::TokenValue::Hash))?;
    line.push(word_item(place, lexer::TokenValue::Ident(name)))?;
    line.push(word_item(place, lexer::TokenValue::NewLine))?;
    Ok(line)
}

// What stays for what was taken.
fn left_line(
    alloc: Global,
    live: bool,
    block: &Option<Facts>,
    sight: &Sight,
) -> Result<Vec<SourceItem>, Stop>
    ensures { IfOk result (λ line. line.items ≡ spec.left_line live block.now sight.now) }
{
    let Sight::Directive(directive, word) = sight else {
        return Ok(Vec::new(alloc));
    };
    match directive {
        Directive::Elif if block.is_some() => word_line(alloc, *word, "elif"),
        Directive::Elif if live => word_line(alloc, *word, "if"),
        Directive::Endif if block.is_some() => word_line(alloc, *word, "endif"),
        Directive::If | Directive::Ifdef | Directive::Ifndef if !live => {
            word_line(alloc, *word, "if")
        }
        Directive::Version | Directive::Extension | Directive::Pragma if live => {
            word_line(alloc, *word, "pragma")
        }
        _ => Ok(Vec::new(alloc)),
    }
}

// Whether a fault of it makes the rest of the text dead: it is an `#elif` outside of all blocks.
fn makes_dead(block: &Option<Facts>, sight: &Sight) -> bool
    ensures { result ≡ spec.makes_dead block.now sight.now }
{
    block.is_none() && matches!(sight, Sight::Directive(Directive::Elif, _))
}

impl SourceReader {
    // The facts of the innermost block at the position that isn't among this many outermost ones.
    fn facts(&self, alloc: Global, outside: usize) -> Result<Option<Facts>, Stop>
        ensures { IfOk result (λ facts. facts ≡ spec.facts_past outside (reader_of self.now)) }
    {
        let blocks = blocks_at(alloc, &self.items, self.position)?;
        let Some(block) = innermost_past(&blocks, outside) else {
            return Ok(None);
        };
        Ok(Some(Facts {
            live_around: self.are_surroundings_live(alloc, block)?,
            taken: has_taken_branch(&self.truths, block),
            with_else: has_else(block),
        }))
    }

    // Whether a line that is skipped shows a fault.
    fn shows_skipped(&self, alloc: Global, after: &[SourceItem]) -> Result<bool, Stop>
        ensures { IfOk result (λ shown. shown ≡ is_shown (moves.skip_move self.now.rules after.now).effect) }
    {
        if self.rules.passes_dead_errors {
            return Ok(false);
        }
        match line_fault(alloc, after)? {
            None => Ok(false),
            Some(fault) => Ok(is_shown(&fault)),
        }
    }

    // Whether an `#elif` does.
    fn shows_elif(
        &self,
        alloc: Global,
        block: &Option<Facts>,
        word: Location,
        after: &[SourceItem],
    ) -> Result<bool, Stop>
        ensures { IfOk result (λ shown. shown
            ≡ is_shown (moves.elif_move self.now.rules block.now word after.now).effect) }
    {
        let Some(block) = block else {
            return Ok(true);
        };
        if block.with_else {
            return Ok(true);
        }
        if !block.live_around || block.taken {
            return self.shows_skipped(alloc, after);
        }
        has_fault(line_tokens(alloc, after))
    }

    // Whether an `#else` does.
    fn shows_else(
        &self,
        alloc: Global,
        block: &Option<Facts>,
        word: Location,
        after: &[SourceItem],
    ) -> Result<bool, Stop>
        ensures { IfOk result (λ shown. shown ≡ is_shown (moves.else_move block.now word after.now).effect) }
    {
        match ended_line(alloc, word, after) {
            Ok(()) => match block {
                None => Ok(true),
                Some(block) => Ok(block.with_else),
            },
            Err(Halt::Fault(fault)) => Ok(is_shown(&fault)),
            Err(Halt::Stop(stop)) => Err(stop),
        }
    }

    // Whether an `#endif` does.
    fn shows_endif(
        &self,
        alloc: Global,
        block: &Option<Facts>,
        word: Location,
        after: &[SourceItem],
    ) -> Result<bool, Stop>
        ensures { IfOk result (λ shown. shown
            ≡ is_shown (moves.endif_move self.now.rules block.now word after.now).effect) }
    {
        let Some(block) = block else {
            return Ok(true);
        };
        if !block.live_around {
            return self.shows_skipped(alloc, after);
        }
        has_fault(ended_line(alloc, word, after))
    }

    // Whether an `#include` in live text does.
    fn shows_include(
        &self,
        alloc: Global,
        word: Location,
        after: &[SourceItem],
    ) -> Result<bool, Stop>
        ensures { IfOk result (λ shown. shown
            ≡ is_shown (moves.include_move self.now.rules word after.now).effect) }
    {
        if !self.rules.asks_includes {
            return Ok(true);
        }
        self.shows_skipped(alloc, after)
    }

    // Whether a line in live text does.
    fn shows_live(
        &self,
        alloc: Global,
        block: &Option<Facts>,
        directive: Directive,
        word: Location,
        after: &[SourceItem],
    ) -> Result<bool, Stop>
        ensures { IfOk result (λ shown. shown
            ≡ is_shown (moves.directive_move self.now.rules true block.now directive word after.now).effect) }
    {
        match directive {
            Directive::Elif => self.shows_elif(alloc, block, word, after),
            Directive::Else => self.shows_else(alloc, block, word, after),
            Directive::Endif => self.shows_endif(alloc, block, word, after),
            Directive::Define => has_fault(defined_on(alloc, self.rules, word, after)),
            Directive::Undef => has_fault(undefined_on(alloc, self.rules, word, after)),
            Directive::Ifdef | Directive::Ifndef => has_fault(only_name(alloc, word, after)),
            Directive::If
            | Directive::Line
            | Directive::Version
            | Directive::Extension
            | Directive::Pragma => has_fault(line_tokens(alloc, after)),
            Directive::Include => self.shows_include(alloc, word, after),
            Directive::Error | Directive::Unknown => Ok(true),
        }
    }

    // Whether a line in dead text does.
    fn shows_dead(
        &self,
        alloc: Global,
        block: &Option<Facts>,
        directive: Directive,
        word: Location,
        after: &[SourceItem],
    ) -> Result<bool, Stop>
        ensures { IfOk result (λ shown. shown
            ≡ is_shown (moves.directive_move self.now.rules false block.now directive word after.now).effect) }
    {
        match directive {
            Directive::Elif => self.shows_elif(alloc, block, word, after),
            Directive::Else => self.shows_else(alloc, block, word, after),
            Directive::Endif => self.shows_endif(alloc, block, word, after),
            Directive::Unknown => Ok(false),
            Directive::Include if !self.rules.asks_includes => Ok(false),
            _ => self.shows_skipped(alloc, after),
        }
    }

    // Whether these items show a fault in live or in dead text, if no more are left and these are the facts of the
    // innermost block.
    fn shows(
        &self,
        alloc: Global,
        live: bool,
        block: &Option<Facts>,
        items: &[SourceItem],
    ) -> Result<bool, Stop>
        ensures { IfOk result (λ shown. shown
            ≡ is_shown (moves.move_at self.now.rules live block.now (sight_of items.now) items.now).effect) }
    {
        match sight_of(alloc, items)? {
            Sight::End | Sight::NewLine | Sight::Lone | Sight::Token(_) => Ok(false),
            Sight::Fault(fault) => {
                Ok((live || !self.rules.passes_dead_errors) && is_shown(&fault))
            }
            Sight::Hash(_) => Ok(live),
            Sight::NoWord(fault) => Ok(live && is_shown(&fault)),
            Sight::Directive(directive, word) if live => {
                self.shows_live(alloc, block, directive, word, &items[2..])
            }
            Sight::Directive(directive, word) => {
                self.shows_dead(alloc, block, directive, word, &items[2..])
            }
        }
    }

    // How many items of this line show its fault, if the first `count` of them don't, or all.
    fn shown_length(
        &self,
        alloc: Global,
        live: bool,
        block: &Option<Facts>,
        line: &[SourceItem],
        count: usize,
    ) -> Result<usize, Stop>
        requires { count ≤ length line.now }
        ensures is { IfOk result (λ shown. shown ≡ count + spec.shown_length
            (λ more. (moves.move_at self.now.rules live block.now (sight_of (take count line.now ++ more))
            (take count line.now ++ more)).effect) (drop count line.now)) }
        ensures within { IfOk result (λ shown. shown ≤ length line.now) }
    {
        if count == line.len() {
            return Ok(count);
        }
        if self.shows(alloc, live, block, &line[..count + 1])? {
            return Ok(count + 1);
        }
        self.shown_length(alloc, live, block, line, count + 1)
    }

    // How many items the fault at the position takes.
    fn fault_length(&self, alloc: Global, outside: usize) -> Result<usize, Stop>
        ensures is { IfOk result (λ taken. taken ≡ spec.fault_length outside (reader_of self.now)) }
        ensures within { IfOk result (λ taken. self.now.position + taken ≤ length self.now.items) }
    {
        let rest = self.items_left();
        let line = &rest[..line_length(rest)];
        if takes_line(self.rules, line) {
            return Ok(line.len());
        }
        let live = self.is_live_here(alloc)?;
        let block = self.facts(alloc, outside)?;
        self.shown_length(alloc, live, &block, line, 0)
    }

    // Takes this many items at the position out of the text, and puts these there, which are passed.
    fn replace(&mut self, count: usize, line: Vec<SourceItem>) -> Result<(), Stop>
        requires { self.old.position + count ≤ length self.old.items }
        ensures { OnOk result (reader_of self.new ≡ record (reader_of self.old) {
          items = take self.old.position self.old.items ++ line.items
              ++ drop count (drop self.old.position self.old.items);
          position = self.old.position + length line.items;
        }) }
    {
        let passed = line.len();
        let mut line = line;
        let mut after = self.items.split_off(self.position + count)?;
        self.items.truncate(self.position);
        self.items.append(&mut line)?;
        self.items.append(&mut after)?;
        self.position += passed;
        Ok(())
    }

    // The `#elif` of a block counts as one whose condition is false.
    fn note_elif(&mut self, block: &Option<Facts>, sight: &Sight) -> Result<(), Stop>
        ensures { OnOk result (reader_of self.new ≡ record (reader_of self.old) {
          truths = spec.truths_left block.now sight.now (reader_of self.old);
        }) }
    {
        if block.is_some() && matches!(sight, Sight::Directive(Directive::Elif, _)) {
            let position = self.position;
            self.truths.insert(
                0,
                Truth {
                    position,
                    holds: false,
                },
            )?;
        }
        Ok(())
    }

    // The name of an `#undef` with this place of its word is undefined, if it can be read.
    fn undefine(&mut self, alloc: Global, word: Location) -> Result<(), Stop>
        requires { self.old.position + 2 ≤ length self.old.items }
        ensures { OnOk result (reader_of self.new ≡ record (reader_of self.old) {
          definitions = spec.definitions_left true (sights.Directive Undef word) (reader_of self.old);
        }) }
    {
        match changed_name(alloc, self.rules, word, self.after_word()) {
            Ok(first) => {
                self.definitions.change(first.name, None)?;
                Ok(())
            }
            Err(Halt::Fault(fault)) => {
                drop(fault);
                Ok(())
            }
            Err(Halt::Stop(stop)) => Err(stop),
        }
    }

    // An `#undef` counts once its name was read.
    fn note_undef(&mut self, alloc: Global, live: bool, sight: &Sight) -> Result<(), Stop>
        requires { self.old.position + least_items sight.now ≤ length self.old.items }
        ensures { OnOk result (reader_of self.new ≡ record (reader_of self.old) {
          definitions = spec.definitions_left live sight.now (reader_of self.old);
        }) }
    {
        let Sight::Directive(directive, word) = sight else {
            return Ok(());
        };
        match directive {
            Directive::Undef if live => self.undefine(alloc, *word),
            _ => Ok(()),
        }
    }

    /// Whether a fault at the position makes the rest of the text dead, if this many outermost blocks don't count.
    pub fn makes_dead(&self, alloc: Global, outside: usize) -> Result<bool, Stop>
        ensures { IfOk result (λ dead. dead ≡ spec.makes_dead
            (spec.facts_past outside (reader_of self.now)) (sight_of (parts.items_left (reader_of self.now)))) }
    {
        let block = self.facts(alloc, outside)?;
        let sight = sight_of(alloc, self.items_left())?;
        Ok(makes_dead(&block, &sight))
    }

    /// Goes on after the fault at the position, if this many outermost blocks don't count.
    pub fn pass_fault(&mut self, alloc: Global, outside: usize) -> Result<(), Stop>
        ensures { OnOk result (reader_of self.new ≡ spec.after_fault outside (reader_of self.old)) }
    {
        let live = is_live(alloc, &self.items, &self.truths, self.position)?;
        let block = self.facts(alloc, outside)?;
        let count = self.fault_length(alloc, outside)?;
        let sight = sight_of(alloc, self.items_left())?;
        let line = left_line(alloc, live, &block, &sight)?;
        self.note_elif(&block, &sight)?;
        self.note_undef(alloc, live, &sight)?;
        drop(sight);
        self.replace(count, line)?;
        self.unfinished = blocks_at(alloc, &self.items, self.items.len())?.len();
        Ok(())
    }

    /// Goes back to an earlier position.
    pub fn go_back(&mut self, position: usize)
        requires { position ≤ length self.old.items }
        ensures { reader_of self.new ≡ record (reader_of self.old) { position = position } }
    {
        self.position = position;
    }
}
