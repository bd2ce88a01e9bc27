//! What the lines of directives do, in live and in dead text.

ghost use Rattle.std.specs.Prelude.{◌≡◌, ◌≢◌, [], false, true, pos, ◌-ℤ◌};
ghost use Rattle.pp_model.specs.Lines.{first_token};
ghost use Rattle.pp_model.specs.Reads.{numbered_line};
ghost use Rattle.pp_model.specs.declared.directive.Directive.TheVariants as d;
ghost use Rattle.pp_directives.specs.inner.ReadNames.{as_named};
ghost use Rattle.pp_macros.specs.inner.OpenBlocks.{facts_among};
ghost use Rattle.pp_macros.specs.inner.Source.{had_text, is_first_directive};
ghost use Rattle.pp_directives.specs.inner.LineEntries.{entries_move, version_move};
ghost use Rattle.pp_directives.specs.inner.SourceActs.{Acts, GivesDirective, ActsAsItem, ActsNoted, Gives, GivesNoted};
ghost use Rattle.pp_directives.specs.inner.SourceActs.{without_item, plain_act, directive_act, word_act, word_note};
ghost use Rattle.pp_directives.specs.inner.SourceActs.{define_act, is_item};
ghost use Rattle.pp_model.specs.Moves as moves;

use crate::directive_halt::DirectiveHalt;
use crate::directives::DirectiveProcessor;
use crate::given::Given;
use crate::line_value::line_number;
use crate::lines::{
    DefineLine, define_line, ended_line, first_token, free_name, line_end, line_reads, line_tokens,
    only_name, skip_line,
};
use pp_lexer::lexer;
use pp_lexer::rules::Rules;
use pp_lexer::token::{Extension, Location, Pragma, PreprocessorError, Token, TokenValue, Version};
use pp_macros::halt::Halt;
use pp_macros::list_lexer::Scope;
use pp_model::conversion::refused_token;
use pp_model::directive::{Directive, directive_of};
use pp_model::outcome::IncludeLine;
use pp_model::place::Place;

// Whether the directive is an item in live text.
fn is_item(directive: Directive) -> bool
    ensures { result ≡ is_item directive }
{
    matches!(
        directive,
        Directive::Version | Directive::Extension | Directive::Pragma
    )
}

// The result of a directive that gives nothing, as that of one that may give something.
fn without_item(acted: Result<(), DirectiveHalt>) -> Result<Given, DirectiveHalt>
    ensures { result ≡ without_item acted }
{
    acted?;
    Ok(Given::Nothing)
}

impl<'a> DirectiveProcessor<'a> {
    // Defines a name as its line says. If the name has the same definition already, the old one stays.
    fn add(&mut self, line: DefineLine) -> Result<(), DirectiveHalt>
        requires { self.old.spent ≡ false }
        ensures { Acts (define_act (as_named line)) self.old result self.new }
    {
        let DefineLine {
            name,
            location,
            define,
        } = line;
        let define = define.in_text(self.text);
        if let Some(before) = self.definitions.get(name.as_str()) {
            let is_same = before.is_same(&define);
            drop((name, define));
            if is_same {
                return Ok(());
            }
            return Err(DirectiveHalt::Fault((PreprocessorError::DefineRedefined, location)));
        }
        self.definitions.set(name, define)?;
        Ok(())
    }

    // Acts on a `#define` line, after its word.
    fn define(&mut self, word: Location) -> Result<(), DirectiveHalt>
        requires { self.old.spent ≡ false }
        ensures { Acts (directive_act self.old.rules true (facts_among self.old.blocks) d.Define word self.old.rest)
            self.old result self.new }
    {
        let line = define_line(self.alloc, self.rules, word, &mut self.lexer)?;
        self.add(line)
    }

    // Acts on an `#undef` line, after its word. A name that is followed by more tokens is undefined too.
    fn undef(&mut self, word: Location) -> Result<(), DirectiveHalt>
        requires { self.old.spent ≡ false }
        ensures { Acts (directive_act self.old.rules true (facts_among self.old.blocks) d.Undef word self.old.rest)
            self.old result self.new }
    {
        let first = free_name(self.rules, word, &mut self.lexer)?;
        self.definitions.remove(first.name.as_str());
        drop(first);
        ended_line(word, &mut self.lexer)?;
        Ok(())
    }

    // Shows the line that a `#line` here numbers as this number from now on, and the lines after it accordingly.
    fn count_from(&mut self, line: u32, number: u32)
        ensures { self.new ≡ record self.old
            { line_offset = pos number -ℤ pos (numbered_line self.old.rules line) } }
    {
        let numbered = i64::from(line) + i64::from(self.rules.numbers_next_line);
        self.line_offset = i64::from(number) - numbered;
    }

    // Acts on a `#line` line, after its word: the next lines are numbered from its first number, also if only what
    // follows that number has a fault.
    fn number_lines(&mut self, word: Location) -> Result<(), DirectiveHalt>
        requires { self.old.spent ≡ false }
        ensures { Acts (directive_act self.old.rules true (facts_among self.old.blocks) d.Line word self.old.rest)
            self.old result self.new }
    {
        let place = Place::in_text(self.text, word);
        let tokens = line_reads(self.alloc, place, &mut self.lexer)?;
        let scope = Scope {
            numbering: self.list_numbering(),
            definitions: &self.definitions,
        };
        match line_number(self.alloc, tokens, &scope, &mut self.counts) {
            Ok(number) => {
                self.count_from(word.line, number);
                Ok(())
            }
            Err(unnumbered) => match unnumbered.number {
                Some(number) => {
                    self.count_from(word.line, number);
                    Err(DirectiveHalt::from(unnumbered.halt))
                }
                None => Err(DirectiveHalt::from(unnumbered.halt)),
            },
        }
    }

    // Skips the line.
    fn skip(&mut self) -> Result<(), DirectiveHalt>
        requires { self.old.spent ≡ false }
        ensures { Acts (plain_act (moves.skip_move self.old.rules) self.old.rest) self.old result self.new }
    {
        skip_line(self.rules.passes_dead_errors, &mut self.lexer)?;
        Ok(())
    }

    // Whether a live token was read so far, in this text or in another.
    fn had_text(&self) -> bool
        ensures { result ≡ had_text self.now }
    {
        self.earlier_text || self.has_text
    }

    // Whether no live token and no directive was read so far, in this text or in another.
    fn is_first_directive(&self) -> bool
        ensures { result ≡ is_first_directive self.now }
    {
        let had_directive = self.earlier_directive || self.has_directive;
        !(had_directive || self.had_text())
    }

    // An `#include` line, after its word: it asks for its text, if the rules say so. What is on it isn't read.
    fn include_line(&mut self, word: Location) -> Result<Given, DirectiveHalt>
        requires { self.old.spent ≡ false }
        ensures { Gives (plain_act (moves.include_move self.old.rules word) self.old.rest) self.old result self.new }
    {
        if !self.rules.asks_includes {
            return Err(DirectiveHalt::Fault((PreprocessorError::UnknownDirective, word)));
        }
        let end = line_end(self.rules.passes_dead_errors, word.end, &mut self.lexer)?;
        let rest = Location {
            start: word.end,
            end,
            line: word.line,
        };
        Ok(Given::Include(IncludeLine { word, rest }))
    }

    // Skips an `#include` line in dead text, if the rules ask for texts. Otherwise it is dead text after an unknown
    // word.
    fn skip_include(&mut self) -> Result<(), DirectiveHalt>
        requires { self.old.spent ≡ false }
        ensures { Acts (plain_act (moves.dead_include_move self.old.rules) self.old.rest) self.old result self.new }
    {
        if self.rules.asks_includes {
            self.skip()
        } else {
            Ok(())
        }
    }

    // A `#version` line as an item.
    fn version(&mut self, word: Location) -> Result<Token, DirectiveHalt>
        requires unspent { self.old.spent ≡ false }
        requires left { self.old.rest ≢ [] }
        ensures { ActsAsItem (plain_act (version_move word) self.old.rest) self.old result self.new }
    {
        let tokens = line_tokens(self.alloc, &mut self.lexer)?;
        let value = TokenValue::Version(Version {
            tokens,
            is_first_directive: self.is_first_directive(),
            has_comments_before: self.lexer.had_comments(),
        });
        Ok(Token {
            value,
            location: word,
        })
    }

    // An `#extension` line as an item.
    fn extension(&mut self, word: Location) -> Result<Token, DirectiveHalt>
        requires unspent { self.old.spent ≡ false }
        requires left { self.old.rest ≢ [] }
        ensures { ActsAsItem (plain_act (entries_move moves.extension_item word) self.old.rest)
            self.old result self.new }
    {
        let tokens = line_tokens(self.alloc, &mut self.lexer)?;
        let value = TokenValue::Extension(Extension {
            tokens,
            has_non_directive_before: self.had_text(),
        });
        Ok(Token {
            value,
            location: word,
        })
    }

    // A `#pragma` line as an item.
    fn pragma(&mut self, word: Location) -> Result<Token, DirectiveHalt>
        requires unspent { self.old.spent ≡ false }
        requires left { self.old.rest ≢ [] }
        ensures { ActsAsItem (plain_act (entries_move moves.pragma_item word) self.old.rest)
            self.old result self.new }
    {
        let tokens = line_tokens(self.alloc, &mut self.lexer)?;
        Ok(Token {
            value: TokenValue::Pragma(Pragma { tokens }),
            location: word,
        })
    }

    // Acts on a directive in live text, after its word, and gives its item, if it is one, or asks for its text.
    fn act_live(&mut self, directive: Directive, word: Location) -> Result<Given, DirectiveHalt>
        requires unspent { self.old.spent ≡ false }
        requires left { self.old.rest ≢ [] }
        ensures { Gives (directive_act self.old.rules true (facts_among self.old.blocks) directive word self.old.rest)
            self.old result self.new }
    {
        match directive {
            Directive::Define => without_item(self.define(word)),
            Directive::Undef => without_item(self.undef(word)),
            Directive::If => without_item(self.open_if(word)),
            Directive::Ifdef => without_item(self.open_where(true, word)),
            Directive::Ifndef => without_item(self.open_where(false, word)),
            Directive::Elif => without_item(self.elif_line(word)),
            Directive::Else => without_item(self.else_line(word)),
            Directive::Endif => without_item(self.endif_line(word)),
            Directive::Line => without_item(self.number_lines(word)),
            Directive::Error => Err(DirectiveHalt::Fault((
                PreprocessorError::ErrorDirective,
                word,
            ))),
            Directive::Include => self.include_line(word),
            Directive::Version => Ok(Given::Item(self.version(word)?)),
            Directive::Extension => Ok(Given::Item(self.extension(word)?)),
            Directive::Pragma => Ok(Given::Item(self.pragma(word)?)),
            Directive::Unknown => Err(DirectiveHalt::Fault((
                PreprocessorError::UnknownDirective,
                word,
            ))),
        }
    }

    // Acts on a directive in dead text, after its word.
    fn act_dead(&mut self, directive: Directive, word: Location) -> Result<(), DirectiveHalt>
        requires { self.old.spent ≡ false }
        ensures { Acts (directive_act self.old.rules false (facts_among self.old.blocks) directive word self.old.rest)
            self.old result self.new }
    {
        match directive {
            Directive::If | Directive::Ifdef | Directive::Ifndef => self.open_unread(word),
            Directive::Elif => self.elif_line(word),
            Directive::Else => self.else_line(word),
            Directive::Endif => self.endif_line(word),
            Directive::Include => self.skip_include(),
            Directive::Unknown => Ok(()),
            Directive::Define
            | Directive::Undef
            | Directive::Line
            | Directive::Error
            | Directive::Version
            | Directive::Extension
            | Directive::Pragma => self.skip(),
        }
    }

    // What a directive gives in live text, after its number sign. A number sign alone on its line gives nothing. A line
    // that would be an item counts as a directive even if it has a fault.
    fn read_live(&mut self, hash: Location) -> Result<Given, DirectiveHalt>
        requires { self.old.spent ≡ false }
        ensures { GivesNoted (word_note true (first_token hash self.old.rest))
            (word_act self.old.rules true (facts_among self.old.blocks) hash self.old.rest)
            self.old result self.new }
    {
        let token = first_token(hash, &mut self.lexer)?;
        let word = token.location;
        match token.value {
            lexer::TokenValue::Ident(name) => {
                let directive = directive_of(&name);
                drop(name);
                match self.act_live(directive, word) {
                    Ok(given) => {
                        self.has_directive = true;
                        Ok(given)
                    }
                    Err(halt) => {
                        self.has_directive |= is_item(directive);
                        Err(halt)
                    }
                }
            }
            lexer::TokenValue::NewLine => {
                self.has_directive = true;
                Ok(Given::Nothing)
            }
            _ => Err(DirectiveHalt::Fault(refused_token(token))),
        }
    }

    // Acts on a directive in dead text, after its number sign. Without a word after the number sign it does nothing,
    // and an error of the lexer there is passed if the rules say so.
    fn read_dead(&mut self, hash: Location) -> Result<(), DirectiveHalt>
        requires { self.old.spent ≡ false }
        ensures { ActsNoted (word_note false (first_token hash self.old.rest))
            (word_act self.old.rules false (facts_among self.old.blocks) hash self.old.rest)
            self.old result self.new }
    {
        let token = match first_token(hash, &mut self.lexer) {
            Ok(token) => token,
            Err(Halt::Fault(fault)) if self.rules.passes_dead_errors => {
                drop(fault);
                self.lexer.take_error_place();
                return Ok(());
            }
            Err(halt) => return Err(DirectiveHalt::from(halt)),
        };
        let word = token.location;
        match token.value {
            lexer::TokenValue::Ident(name) => {
                let directive = directive_of(&name);
                drop(name);
                self.act_dead(directive, word)?;
                self.has_directive = true;
                Ok(())
            }
            lexer::TokenValue::NewLine => {
                self.has_directive = true;
                Ok(())
            }
            _ => Ok(()),
        }
    }

    // What a directive gives, after its number sign.
    pub(crate) fn read_directive(&mut self, hash: Location) -> Result<Given, DirectiveHalt>
        requires { self.old.spent ≡ false }
        ensures { GivesDirective hash self.old result self.new }
    {
        if self.is_live() {
            return self.read_live(hash);
        }
        self.read_dead(hash)?;
        Ok(Given::Nothing)
    }
}
