//! Giving the tokens that come to what takes them, before memory is taken for them.

ghost use Rattle.std.specs.Prelude.{◌≡◌, ◌≤◌, true, false, None, IsTrue, OnOk, OnErr, IfOk};
ghost use Rattle.pp_directives.specs.WordTokens.{word_token};
ghost use Rattle.pp_lexer.specs.TokenValue.{is_ordinary};
ghost use Rattle.pp_rs.specs.Giving.{GivesTokens};
ghost use Rattle.pp_rs.specs.Kept.{is_spent, most_items, rules_of};
ghost use Rattle.pp_rs.specs.inner.GivingOn.{KeepsGiving, IsRefused, IsRefusedAfter, HasLeft, TakesToken};
ghost use Rattle.pp_rs.specs.inner.NextWord.{IsPlain};

use crate::lexer::{Form, PlainItem};
use crate::pp::preprocessor::{Preprocessor, PreprocessorItem};
use crate::pp::token_ref::{TokenRef, TokenSink};
use crate::token::{Token, TokenValue, out_of_memory};
use pp_model::splice::Origin;
use std::alloc::AllocError;

impl<'a> Preprocessor<'a> {
    /// Gives the ordinary tokens that come to the sink, as `next` would return them, and returns what `next` returns
    /// after them: a `#version`, `#extension` or `#pragma`, an error, or `None` at the end. Once the sink is full, it
    /// returns `None` and reads no further than the last token that was given.
    ///
    /// No memory is taken for most of these tokens. If the sink fails, it returns `OutOfMemory`, as `next` does if
    /// memory runs out for an item.
    pub fn give_tokens<S: TokenSink>(&mut self, sink: &mut S) -> Option<PreprocessorItem>
        ensures { GivesTokens S.takes S.refuses S.is_full self.old sink.old result self.new sink.new }
    {
        if self.is_spent() {
            return None;
        }
        match self.give_all(sink) {
            Ok(item) => item,
            Err(_) => {
                self.spend();
                Some(Err(out_of_memory()))
            }
        }
    }

    // Does what `give_tokens` does. The error is that memory ran out for a token.
    #[inline(always)]
    fn give_all<S: TokenSink>(
        &mut self,
        sink: &mut S,
    ) -> Result<Option<PreprocessorItem>, AllocError>
        requires unspent { is_spent self.old ≡ false }
        ensures gives { IfOk result (λ item. GivesTokens S.takes S.refuses S.is_full self.old sink.old item
            self.new sink.new) }
        ensures refused { OnErr result (IsRefusedAfter S.takes S.refuses S.is_full self.old sink.old sink.new) }
        ensures rules { rules_of self.new ≡ rules_of self.old }
    {
        'items: loop {
            self.give_front(sink)?;
            if sink.is_full() {
                return Ok(None);
            }
            if self.give_words(sink)? {
                continue;
            }
            if sink.is_full() {
                return Ok(None);
            }
            match self.step() {
                Some(Some(Ok(token))) => {
                    if !token.is_ordinary() {
                        return Ok(Some(Ok(token)));
                    }
                    let given = sink.take(TokenRef::of_token(&token, self.origin()));
                    drop(token);
                    given?;
                }
                Some(Some(Err(error))) => return Ok(Some(Err(error))),
                Some(None) => return Ok(None),
                None => {}
            }
        }
    }

    // Gives the words of live text that come to the sink, up to a macro without parentheses, which opens, or to
    // anything else; or passes words of dead text. Returns whether a macro has opened or words were passed.
    #[inline(never)]
    fn give_words<S: TokenSink>(&mut self, sink: &mut S) -> Result<bool, AllocError>
        requires unspent { is_spent self.old ≡ false }
        requires wants { S.is_full sink.old ≡ false }
        ensures spent { OnOk result (is_spent self.new ≡ false) }
        ensures left { IfOk result (λ opened. HasLeft opened self.old self.new) }
        ensures giving { OnOk result (KeepsGiving S.takes S.is_full self.old sink.old self.new sink.new) }
        ensures refused { OnErr result (IsRefused S.takes S.refuses S.is_full self.old sink.old sink.new) }
        ensures rules { rules_of self.new ≡ rules_of self.old }
    {
        if !self.is_in_text() {
            return Ok(self.pass_dead());
        }
        'words: while !sink.is_full() {
            let Some(word) = self.next_word()? else {
                return Ok(!self.is_idle());
            };
            self.pay()?;
            give_word(self.source_text(), &word, sink)?;
        }
        Ok(false)
    }

    // Gives the tokens to the sink that the open macros give next, from their lists.
    #[inline(never)]
    fn give_front<S: TokenSink>(&mut self, sink: &mut S) -> Result<(), AllocError>
        requires unspent { is_spent self.old ≡ false }
        ensures spent { OnOk result (is_spent self.new ≡ false) }
        ensures left { OnOk result (most_items self.new ≤ most_items self.old) }
        ensures giving { OnOk result (KeepsGiving S.takes S.is_full self.old sink.old self.new sink.new) }
        ensures refused { OnErr result (IsRefused S.takes S.refuses S.is_full self.old sink.old sink.new) }
        ensures rules { rules_of self.new ≡ rules_of self.old }
    {
        if self.is_idle() {
            return Ok(());
        }
        'tokens: while !sink.is_full() && self.advance()? {
            let Some((token, origin)) = self.front() else {
                return Ok(());
            };
            self.pay()?;
            give_token(token, origin, sink)?;
            self.pass(origin.text);
        }
        Ok(())
    }
}

// Gives a word of this text to the sink. The most frequent kinds have a call of their own, into each of which the sink
// is compiled for that kind alone.
#[inline(always)]
fn give_word<S: TokenSink>(text: u32, word: &PlainItem<'_>, sink: &mut S) -> Result<(), AllocError>
    requires plain { IsPlain word.now }
    requires wants { S.is_full sink.old ≡ false }
    ensures taken { OnOk result (TakesToken S.takes (word_token word.now) (record { text = text; call = None })
        sink.old sink.new) }
    ensures refused { OnErr result (S.refuses sink.old sink.new) }
{
    match word.form {
        Form::Identifier => sink.take(TokenRef::of_word(text, word)),
        Form::Punct(_) => sink.take(TokenRef::of_word(text, word)),
        _ => sink.take(TokenRef::of_word(text, word)),
    }
}

// Gives an ordinary token to the sink. It has as many calls as `give_word`, for the same reason.
#[inline(always)]
fn give_token<S: TokenSink>(token: &Token, origin: Origin, sink: &mut S) -> Result<(), AllocError>
    requires ordinary { IsTrue (is_ordinary token.now.value) }
    requires wants { S.is_full sink.old ≡ false }
    ensures taken { OnOk result (TakesToken S.takes token.now origin sink.old sink.new) }
    ensures refused { OnErr result (S.refuses sink.old sink.new) }
{
    match token.value {
        TokenValue::Ident(_) => sink.take(TokenRef::of_token(token, origin)),
        TokenValue::Punct(_) => sink.take(TokenRef::of_token(token, origin)),
        _ => sink.take(TokenRef::of_token(token, origin)),
    }
}
