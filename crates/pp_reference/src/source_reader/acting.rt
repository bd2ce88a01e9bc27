//! What the lines of directives do, in live and in dead text.

ghost use Rattle.std.specs.Prelude.{◌≡◌, ◌≤◌, ◌+◌, pos, length, true, false, Some};
ghost use Rattle.pp_model.specs.Lines.{line_tokens, comments_before_end};
ghost use Rattle.pp_model.specs.DefineLines.{defined_on, undefined_on};
ghost use Rattle.pp_reference.specs.inner.Acting.{ActsAs, HasLineIfOk};
ghost use Rattle.pp_model.specs.Faults.{facts_past};
ghost use Rattle.pp_model.specs.Onward.{numbered_by as onward_numbered_by};
ghost use Rattle.pp_model.specs.inner.Acts as parts;
ghost use Rattle.pp_model.specs.Moves as moves;
ghost use Rattle.pp_reference.specs.inner.ReaderState.{reader_of};
ghost use Rattle.pp_model.specs.Reads.{numbered_line};
ghost use Rattle.pp_model.specs.inner.Reads.{after_line_number};

use crate::define_line::{defined_on, undefined_on};
use crate::line::{comments_before_end, line_tokens};
use crate::source_reader::{SourceReader, refuse};
use crate::stop::Halt;
use pp_lexer::rules::Rules;
use pp_lexer::token::{
    Extension, Location, Pragma, PreprocessorError, Token, TokenValue, Tokens, Version,
};
use pp_model::directive::Directive;
use pp_model::outcome::Outcome;
use pp_model::step::Step;
use std::alloc::Global;

// The line to which a `#line` on this line gives its number.
fn numbered_line(rules: Rules, line: u32) -> i64
    ensures { result ≡ pos (numbered_line rules line) }
{
    if rules.numbers_next_line {
        i64::from(line) + 1
    } else {
        i64::from(line)
    }
}

impl SourceReader {
    /// Acts on a `#line` of this number with this place of its word, and moves past the line.
    pub fn renumber(&mut self, word: Location, number: u32)
        requires { self.old.position + 2 ≤ length self.old.items }
        ensures { reader_of self.new ≡ after_line_number (reader_of self.old) word number }
    {
        self.line_offset = i64::from(number) - numbered_line(self.rules, word.line);
        self.pass_line();
    }

    /// Numbers the lines after a `#line` of this number with this place of its word.
    pub fn number_from(&mut self, word: Location, number: u32)
        ensures { reader_of self.new ≡ onward_numbered_by (reader_of self.old) word (Some number) }
    {
        self.line_offset = i64::from(number) - numbered_line(self.rules, word.line);
    }

    // Gathers a `#line`.
    fn line_number(&mut self, alloc: Global, word: Location) -> Result<Step, Halt>
        requires { self.old.position + 2 ≤ length self.old.items }
        ensures acts { ActsAs result (parts.perform_line
            (moves.line_move (line_tokens (parts.after_word (reader_of self.old)))
            (moves.renumbers word) (parts.after_word (reader_of self.old)))
            (reader_of self.old)) (reader_of self.new) }
        ensures line { HasLineIfOk result self.old self.new }
    {
        let tokens = line_tokens(alloc, self.after_word())?;
        Ok(Step::LineNumber(word, tokens))
    }

    // Reads a `#define`.
    fn define(&mut self, alloc: Global, word: Location) -> Result<Step, Halt>
        requires { self.old.position + 2 ≤ length self.old.items }
        ensures acts { ActsAs result (parts.perform_line
            (moves.line_move (defined_on self.old.rules word (parts.after_word (reader_of self.old)))
            moves.defines (parts.after_word (reader_of self.old)))
            (reader_of self.old)) (reader_of self.new) }
        ensures line { HasLineIfOk result self.old self.new }
    {
        let named = defined_on(alloc, self.rules, word, self.after_word())?;
        self.pass_line();
        Ok(Step::Defines(named.in_text(self.text)))
    }

    // Acts on an `#undef`.
    fn undef(&mut self, alloc: Global, word: Location) -> Result<Step, Halt>
        requires { self.old.position + 2 ≤ length self.old.items }
        ensures acts { ActsAs result (parts.perform_line
            (moves.line_move (undefined_on self.old.rules word (parts.after_word (reader_of self.old)))
            moves.undefines (parts.after_word (reader_of self.old)))
            (reader_of self.old)) (reader_of self.new) }
        ensures line { HasLineIfOk result self.old self.new }
    {
        let name = undefined_on(alloc, self.rules, word, self.after_word())?;
        self.definitions.change(name, None)?;
        self.pass_line();
        Ok(Step::Passed)
    }

    // Gives the item of a `#version`.
    fn version(&mut self, alloc: Global, word: Location) -> Result<Step, Halt>
        requires { self.old.position + 2 ≤ length self.old.items }
        ensures acts { ActsAs result (parts.perform_line
            (moves.item_move (moves.version_item
            (comments_before_end (parts.after_word (reader_of self.old)))) word
            (parts.after_word (reader_of self.old))) (reader_of self.old))
            (reader_of self.new) }
        ensures line { HasLineIfOk result self.old self.new }
    {
        let tokens = line_tokens(alloc, self.after_word())?;
        let first = self.is_first_directive(alloc)?;
        let value = TokenValue::Version(Version {
            tokens: Tokens::from(tokens.items),
            is_first_directive: first,
            has_comments_before: comments_before_end(self.after_word()),
        });
        Ok(self.give_line(value, word))
    }

    // Gives the item of an `#extension`.
    fn extension(&mut self, alloc: Global, word: Location) -> Result<Step, Halt>
        requires { self.old.position + 2 ≤ length self.old.items }
        ensures acts { ActsAs result (parts.perform_line
            (moves.item_move moves.extension_item word
            (parts.after_word (reader_of self.old))) (reader_of self.old))
            (reader_of self.new) }
        ensures line { HasLineIfOk result self.old self.new }
    {
        let tokens = line_tokens(alloc, self.after_word())?;
        let before = self.had_text(alloc)?;
        let value = TokenValue::Extension(Extension {
            tokens: Tokens::from(tokens.items),
            has_non_directive_before: before,
        });
        Ok(self.give_line(value, word))
    }

    // Gives the item of a `#pragma`.
    fn pragma(&mut self, alloc: Global, word: Location) -> Result<Step, Halt>
        requires { self.old.position + 2 ≤ length self.old.items }
        ensures acts { ActsAs result (parts.perform_line
            (moves.item_move moves.pragma_item word
            (parts.after_word (reader_of self.old))) (reader_of self.old))
            (reader_of self.new) }
        ensures line { HasLineIfOk result self.old self.new }
    {
        let tokens = line_tokens(alloc, self.after_word())?;
        let value = TokenValue::Pragma(Pragma {
            tokens: Tokens::from(tokens.items),
        });
        Ok(self.give_line(value, word))
    }

    // Gives a line's item, and moves past the line.
    fn give_line(&mut self, value: TokenValue, word: Location) -> Step
        requires { self.old.position + 2 ≤ length self.old.items }
        ensures { parts.item_at (record { value = value; location = word }) (parts.after_line
            (reader_of self.old)) ≡ record { step = result; after = (reader_of self.new) } }
    {
        self.pass_line();
        Step::Given(Outcome::Token(Token {
            value,
            location: word,
        }))
    }

    // Acts on a directive in live text.
    pub(crate) fn act_live_directive(
        &mut self,
        alloc: Global,
        outside: usize,
        directive: Directive,
        word: Location,
    ) -> Result<Step, Halt>
        requires { self.old.position + 2 ≤ length self.old.items }
        ensures acts { ActsAs result (parts.perform_line
            (moves.directive_move self.old.rules true (facts_past outside (reader_of self.old)) directive word
            (parts.after_word (reader_of self.old))) (reader_of self.old))
            (reader_of self.new) }
        ensures line { HasLineIfOk result self.old self.new }
    {
        match directive {
            Directive::Define => self.define(alloc, word),
            Directive::Undef => self.undef(alloc, word),
            Directive::If => self.condition(alloc, word),
            Directive::Ifdef => self.ifdef(alloc, word),
            Directive::Ifndef => self.ifndef(alloc, word),
            Directive::Elif => self.elif_line(alloc, outside, word),
            Directive::Else => self.else_line(alloc, outside, word),
            Directive::Endif => self.endif_line(alloc, outside, word),
            Directive::Error => Err(refuse(PreprocessorError::ErrorDirective, word)),
            Directive::Include => self.ask(alloc, word),
            Directive::Line => self.line_number(alloc, word),
            Directive::Version => self.version(alloc, word),
            Directive::Extension => self.extension(alloc, word),
            Directive::Pragma => self.pragma(alloc, word),
            Directive::Unknown => Err(refuse(PreprocessorError::UnknownDirective, word)),
        }
    }

    // Acts on a directive in dead text. Only those of blocks do anything.
    pub(crate) fn act_dead_directive(
        &mut self,
        alloc: Global,
        outside: usize,
        directive: Directive,
        word: Location,
    ) -> Result<Step, Halt>
        requires { self.old.position + 2 ≤ length self.old.items }
        ensures acts { ActsAs result (parts.perform_line
            (moves.directive_move self.old.rules false (facts_past outside (reader_of self.old)) directive word
            (parts.after_word (reader_of self.old))) (reader_of self.old))
            (reader_of self.new) }
        ensures line { HasLineIfOk result self.old self.new }
    {
        match directive {
            Directive::Elif => self.elif_line(alloc, outside, word),
            Directive::Else => self.else_line(alloc, outside, word),
            Directive::Endif => self.endif_line(alloc, outside, word),
            Directive::Include => self.skip_include(alloc),
            Directive::Unknown => {
                self.position += 2;
                Ok(Step::Passed)
            }
            Directive::Define
            | Directive::Undef
            | Directive::If
            | Directive::Ifdef
            | Directive::Ifndef
            | Directive::Line
            | Directive::Error
            | Directive::Version
            | Directive::Extension
            | Directive::Pragma => self.skip_line(alloc),
        }
    }
}
