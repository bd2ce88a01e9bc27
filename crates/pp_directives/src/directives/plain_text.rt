//! The words of plain text, which are given before they become tokens.

ghost use Rattle.std.specs.Prelude.{◌≡◌, ◌++◌, ◌∷◌, [], List, is_some, IfOk, IfSome};
ghost use Rattle.pp_model.specs.declared.read.Read.{Read};
ghost use Rattle.pp_macros.specs.inner.Reader.{of_source, nests, ReadsOnto};
ghost use Rattle.pp_directives.specs.inner.PlainText.{IsInText, GivesWord, PassesPauses, PausesAtNewline};

use crate::directives::DirectiveProcessor;
use crate::words::{act_of, is_apart, is_parenthesis};
use pp_lexer::lexer::{Form, PlainItem};
use pp_macros::names::NameId;
use pp_model::read::Read;
use std::alloc::AllocError;

impl<'a> DirectiveProcessor<'a> {
    /// The next word of live text before memory is taken for it, if it is given as it is while no macro is open, or
    /// opens a macro without parentheses: then with the number of its name. Otherwise nothing changes.
    #[inline(always)]
    pub fn next_word(&mut self) -> Option<(PlainItem<'a>, Option<NameId>)>
        requires { IsInText self.old }
        ensures gives { GivesWord self.old result self.new }
        ensures text { self.new.text ≡ self.old.text }
        ensures stays { IsInText self.new }
    {
        let word = self.lexer.peek_word()?;
        let act = act_of(&word, &self.definitions)?;
        self.lexer.pass_word(&word);
        self.has_text = true;
        Some((word, act))
    }

    // Reads a word of plain text onto the end of the tokens, if one comes first and isn't `__LINE__`, and returns
    // whether it is a parenthesis. Otherwise nothing changes, and it returns `None`.
    #[inline(always)]
    pub(crate) fn push_word(&mut self, tokens: &mut Vec<Read>) -> Result<Option<bool>, AllocError>
        requires { IsInText self.old }
        ensures onto { IfOk result (λ pushed. ReadsOnto (of_source self.old) tokens.old.items (is_some pushed)
            (of_source self.new) tokens.new.items) }
        ensures nests { (before : List Read) (read : Read) → tokens.new.items ≡ before ++ read ∷ []
            → IfOk result (λ pushed. IfSome pushed (λ is. is ≡ nests read.token.value)) }
        ensures stays { IfOk result (λ _. IsInText self.new) }
    {
        let Some(word) = self.lexer.peek_word() else {
            return Ok(None);
        };
        if !is_apart(&word) {
            return Ok(None);
        }
        let is_parenthesis = is_parenthesis(&word);
        let token = self.lexer.take_word(self.alloc, word)?;
        self.has_text = true;
        tokens.push(Read::of_text(token, self.text))?;
        Ok(Some(is_parenthesis))
    }

    /// Passes a newline of plain text, if one comes first, and returns whether it did. Otherwise it changes nothing.
    /// The text has to be live. It is a function of its own, so that less is computed before a word that comes first.
    #[inline(never)]
    pub fn pass_newline(&mut self) -> bool
        requires { IsInText self.old }
        ensures pauses { PausesAtNewline self.old result self.new }
        ensures text { self.new.text ≡ self.old.text }
        ensures stays { IsInText self.new }
    {
        self.lexer.pass_newline()
    }

    /// Passes words and newlines of plain text, if some come first in dead text, and returns whether it did. Otherwise
    /// it changes nothing. A `#` isn't passed, since it may begin a directive.
    #[inline(always)]
    pub fn pass_dead(&mut self) -> bool
        ensures { PassesPauses self.old result self.new }
    {
        if self.is_live() || self.lexer.is_spent() {
            return false;
        }
        if self.lexer.pass_words() {
            return true;
        }
        let Some(word) = self.lexer.peek_word() else {
            return self.lexer.pass_newline();
        };
        if matches!(word.form, Form::Hash) {
            return false;
        }
        let Ok(()) = self.lexer.pay() else {
            return false;
        };
        self.lexer.pass_word(&word);
        true
    }
}
