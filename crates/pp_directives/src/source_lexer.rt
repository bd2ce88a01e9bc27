//! The lexer of a source, which keeps the place of an error.

ghost use Rattle.std.specs.Prelude.{◌≡◌, ◌≢◌, ◌-◌, ◌^◌, ◌<◌, length, false, None, IfOk, IfSome};
ghost use Rattle.pp_lexer.specs.Lexed.{start_by};
ghost use Rattle.pp_lexer.specs.Spots.{spots_of};
ghost use Rattle.pp_lexer.specs.declared.lexer.plain.Form.TheVariants.{Hash};
ghost use Rattle.pp_directives.specs.inner.PlainText.{IsPeeked, PassesBlanks, PassesWord, TakesWordToken};
ghost use Rattle.pp_directives.specs.inner.PlainText.{PassesNewline, PassesWords};
ghost use Rattle.pp_directives.specs.inner.Suspending.{IsReadable, IsTakenFrom, reading};
ghost use Rattle.pp_directives.specs.inner.TokenTaking.{TakesToken};
ghost use Rattle.pp_macros.specs.inner.SourceLexed.{beginning};

use crate::convert::word_token;
use pp_lexer::lexer::{self, Lexer, PlainItem};
use pp_lexer::rules::Rules;
use pp_lexer::token::{Location, Token};
use pp_macros::budget::Budget;
use pp_macros::halt::Halt;
use pp_macros::step::is_out_of_memory;
use std::alloc::{AllocError, Global};
use std::marker::Model;
use std::mem;

/// The lexer of a source. It keeps the place of an error that was read until the error is reported.
#[derive(Drop)]
pub struct SourceLexer<'a> {
    lexer: Lexer<'a>,
    error_place: Option<Location>,
    budget: Budget,
}

impl<'a> Model for SourceLexer<'a> {
    ghost use Rattle.std.specs.Prelude.{◌≡◌, false};
    ghost use Rattle.pp_directives.specs.inner.Lined.{AreEnded, ShowErrors};
    ghost use Rattle.pp_macros.specs.inner.SourceLexed.{SourceLexed, HavePlaces};

    ghost Value = { SourceLexed };

    ghost view = { λ s. record {
      rest = s.lexer.rest;
      places = s.lexer.places;
      over = s.lexer.over;
      error_place = s.error_place;
      had_comments = s.lexer.had_comments;
      at_end = s.lexer.at_end;
      spent = s.lexer.spent;
      rules = s.lexer.rules;
    } };

    ghost invariant = { λ s. s.lexer.spent ≡ false → AreEnded s.lexer.rest
        × ShowErrors s.lexer.rest × HavePlaces s.lexer.rest s.lexer.places };
}

impl<'a> SourceLexer<'a> {
    /// A lexer at the start of a source of fewer than 2^32 - 1 bytes, by these rules.
    ///
    /// It allocates nothing and reads nothing yet.
    pub fn new(alloc: Global, input: &'a str, rules: Rules) -> SourceLexer<'a>
        requires { length input.now < 2 ^ 32 - 1 }
        ensures { result ≡ beginning (start_by rules (spots_of input.now)) }
    {
        SourceLexer {
            lexer: Lexer::with_rules(alloc, input, rules),
            error_place: None,
            budget: Budget::unbounded(),
        }
    }

    /// Reads what this lexer gives from now on, and returns the lexer that was read before. The place of an error that
    /// was read and not reported yet stays, and so does the budget.
    pub fn replace(&mut self, lexer: Lexer<'a>) -> Lexer<'a>
        requires unspent { self.old.spent ≡ false }
        requires readable { IsReadable lexer }
        ensures before { IsTakenFrom self.old result }
        ensures after { self.new ≡ reading lexer.entry self.old.error_place }
    {
        mem::replace(&mut self.lexer, lexer)
    }

    /// Takes its steps from this budget from now on.
    pub fn set_budget(&mut self, budget: Budget)
        ensures { self.new ≡ self.old }
    {
        self.budget = budget;
    }

    /// Whether more steps were needed than there were.
    pub fn is_over_budget(&self) -> bool {
        self.budget.is_over()
    }

    /// Pays for a word. It fails if no step is left.
    #[inline(always)]
    pub fn pay(&self) -> Result<(), AllocError> {
        self.budget.pay(1)
    }

    /// Whether an allocation failed.
    #[inline(always)]
    pub fn is_spent(&self) -> bool
        ensures { result ≡ self.now.spent }
    {
        self.lexer.is_spent()
    }

    /// Whether there is a comment before the token that was read last or, after the end was reached, before the end.
    pub fn had_comments(&self) -> bool
        ensures { result ≡ self.now.had_comments }
    {
        self.lexer.had_comments()
    }

    /// Takes the place of the error that was read and not reported yet. The caller reports it now.
    pub fn take_error_place(&mut self) -> Option<Location>
        ensures place { result ≡ self.old.error_place }
        ensures others { self.new ≡ record self.old { error_place = None } }
    {
        let place = self.error_place;
        self.error_place = None;
        place
    }

    /// Keeps this place as that of an error that was read and not reported yet.
    pub fn put_error_place(&mut self, place: Option<Location>)
        ensures { self.new ≡ record self.old { error_place = place } }
    {
        self.error_place = place;
    }

    /// The place of the item that was read last, or `NOWHERE` before the first.
    pub fn reached(&self) -> Location {
        self.lexer.place()
    }

    /// Whether the line is over: the item that was read last was a newline, or none was read.
    pub fn is_line_over(&self) -> bool
        ensures { result ≡ self.now.over }
    {
        self.lexer.is_line_over()
    }

    /// The next token before memory is taken for it, if it is a word of plain text. It isn't taken.
    #[inline(always)]
    pub fn peek_word(&mut self) -> Option<PlainItem<'a>>
        requires { self.old.spent ≡ false }
        ensures same { PassesBlanks self.old self.new }
        ensures word { IfSome result (IsPeeked self.new) }
    {
        self.lexer.peek_word()
    }

    /// Takes the word that `peek_word` gave.
    #[inline(always)]
    pub fn pass_word(&mut self, word: &PlainItem<'a>)
        requires { IsPeeked self.old word.now }
        ensures { PassesWord self.old word.now self.new }
    {
        self.lexer.pass_word(word);
    }

    /// Takes the word that `peek_word` gave, which is no `#`, as a token. The error is that its text could not be
    /// allocated; then the lexer is spent.
    #[inline(always)]
    pub fn take_word(&mut self, alloc: Global, word: PlainItem<'a>) -> Result<Token, AllocError>
        requires peeked { IsPeeked self.old word }
        requires no_hash { word.form ≢ Hash }
        ensures { IfOk result (λ token. TakesWordToken self.old word.entry token self.new) }
    {
        self.pass_word(&word);
        let Ok(token) = word_token(alloc, word) else {
            self.lexer.spend();
            return Err(AllocError);
        };
        Ok(token)
    }

    /// Passes the next token if it is a newline of plain text, and returns whether it did. Otherwise it changes
    /// nothing.
    #[inline(always)]
    pub fn pass_newline(&mut self) -> bool
        requires { self.old.spent ≡ false }
        ensures { PassesNewline self.old result self.new }
    {
        self.lexer.pass_newline()
    }

    /// Passes words and newlines that come next, if they are known to be no errors, and returns whether it did.
    /// Otherwise it changes nothing. They are one step: if none is left to pay for it, the next step of the source
    /// fails.
    #[inline(always)]
    pub fn pass_words(&mut self) -> bool
        requires { self.old.spent ≡ false }
        ensures { PassesWords self.old result self.new }
    {
        if self.budget.is_over() || !self.lexer.pass_words() {
            return false;
        }
        drop(self.budget.pay(1));
        true
    }

    /// The next token, or nothing at the end. If no step is left to pay for it, the next step of the source fails.
    pub fn next_token(&mut self) -> Result<Option<lexer::Token>, Halt>
        requires { self.old.spent ≡ false }
        ensures { TakesToken self.old result self.new }
    {
        match self.lexer.next() {
            None => Ok(None),
            Some(Ok(token)) => {
                drop(self.pay());
                Ok(Some(token))
            }
            Some(Err(error)) => {
                if is_out_of_memory(&error.0) {
                    drop(error);
                    return Err(Halt::OutOfMemory);
                }
                self.error_place = Some(self.lexer.place());
                Err(Halt::Fault(error))
            }
        }
    }
}
