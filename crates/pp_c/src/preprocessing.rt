//! The items of a preprocessed source.

ghost use Rattle.std.specs.Prelude.{◌≡◌, ◌↔◌, ◌⊎◌, ◌<◌, ◌≤◌, ◌-◌, ◌^◌, ◌∷◌, [], true, false, map, length};
ghost use Rattle.std.specs.Prelude.{◌≢◌, Option, None, IsOk, OnOk, IfOk, IfErr, IsTrue, IsUtf8, All, Any, Some};
ghost use Rattle.std.specs.Prelude.{◌+◌, is_some, OnErr};
ghost use Rattle.pp_rs.specs.Preprocessing.{is_refusal};
ghost use Rattle.pp_rs.specs.TokenRefs.{value_of};
ghost use Rattle.pp_c.specs.Preprocessed.{given_entries};
ghost use Rattle.pp_rs.specs.Preorder.{preorder, inner, leaf_of};
ghost use Rattle.pp_rs.specs.TokenValue.{is_ordinary};
ghost use Rattle.pp_rs.specs.Kept.{is_spent, most_items, rules_of};
ghost use Rattle.pp_c.specs.Calls.{answered_in, is_text, CanEnter, HasLongContent, LacksWords};
ghost use Rattle.pp_c.specs.Entries.{in_32_bits};
ghost use Rattle.pp_c.specs.Tokens.{item_at, leaf_entry, token_entries, error_entries, asking_entries};
ghost use Rattle.pp_c.specs.inner.Kinds.{kind_number};
ghost use Rattle.pp_c.specs.inner.Refusing.{IsAddingRefusal, IsRefusalWithin};
ghost use Rattle.pp_c.specs.inner.Making.{given_of, NextIsWritten, IsUntil, GoesOn, HasRest, HasAll, Gives};
ghost use Rattle.pp_c.specs.inner.Making.{up_to, taken, is_front};
ghost use Rattle.pp_c.specs.inner.Settings.{takes_texts};
ghost use Rattle.pp_c.specs.inner.Taking.{Takes, TakesIfRoom};

use crate::definitions::{LIMIT, enter};
use crate::items::{
    COMMENTS_BEFORE, Definition, FIRST_DIRECTIVE, Item, Kind, NON_DIRECTIVE_BEFORE, bit_if,
};
use crate::options::Setting;
use crate::output::Output;
use crate::status::{End, Refusal};
use crate::words::{float_entry, give_error, integer_entry, item_at, name_entry, punctuator_entry};
use pp_rs::pp::{Preprocessor, PreprocessorItem, TokenRef, TokenSink, ValueRef};
use pp_rs::token::{Location, PreprocessorError, Token, TokenValue};
use std::alloc::{AllocError, Global};
use std::str;

/// Gives the items of a source, with the definitions added and the texts included at their numbers. Returns where they
/// end.
pub(crate) fn preprocess(
    alloc: Global,
    setting: Setting,
    source: &[u8],
    words: &[u8],
    definitions: &mut [Definition],
    numbers: &mut [u32],
    output: &mut Output<'_>,
) -> Result<End, Refusal>
    requires { setting.most_items ≡ None → setting.passes ≡ None }
    ensures given { IfOk result (λ end.
        Gives setting end source.now words.now definitions.old output.old output.new) }
    ensures answered { OnOk result (definitions.new
        ≡ map (answered_in (takes_texts setting) setting.rules words.now) definitions.old) }
    ensures text { IsOk result → IsUtf8 source.now × IsUtf8 words.now }
    ensures fit { IsOk result → All (CanEnter (takes_texts setting) words.now) definitions.old }
    ensures not_utf8 { (result ≡ Err Refusal.NotUtf8)
        ↔ ((length source.now < 2 ^ 32 - 1) × ¬ (IsUtf8 source.now × IsUtf8 words.now)) }
    ensures long_source { 2 ^ 32 - 1 ≤ length source.now → result ≡ Err Refusal.TooLong }
    ensures too_long { result ≡ Err Refusal.TooLong
        → (2 ^ 32 - 1 ≤ length source.now) ⊎ Any (HasLongContent words.now) definitions.old }
    ensures bad_definition { result ≡ Err Refusal.BadDefinition
        → Any (LacksWords (takes_texts setting) words.now) definitions.old }
    ensures over_budget { result ≡ Err Refusal.OverBudget → setting.budget ≢ None }
    ensures too_deep { result ≡ Err Refusal.TooDeep
        → Any (λ definition. is_text (takes_texts setting) definition ≡ true) definitions.old }
{
    if source.len() >= LIMIT {
        return Err(Refusal::TooLong);
    }
    let (Ok(source), Ok(words)) = (str::from_utf8(source), str::from_utf8(words)) else {
        return Err(Refusal::NotUtf8);
    };
    let mut pp = Preprocessor::with_rules(alloc, source, setting.rules);
    let end = give_within(&mut pp, setting, words, definitions, numbers, output);
    drop(pp);
    end
}

// Gives the items within the budget. Returns where they end.
fn give_within<'a>(
    pp: &mut Preprocessor<'a>,
    setting: Setting,
    words: &'a str,
    definitions: &mut [Definition],
    numbers: &mut [u32],
    output: &mut Output<'_>,
) -> Result<End, Refusal>
    requires unspent { is_spent pp.old ≡ false }
    requires bounded { setting.most_items ≡ None → setting.passes ≡ None }
    ensures given { IfOk result (λ end. HasAll setting end pp.old output.old
        words.now definitions.old pp.new output.new) }
    ensures answered { OnOk result (definitions.new
        ≡ map (answered_in (takes_texts setting) (rules_of pp.old) words.now) definitions.old) }
    ensures fit { OnOk result (All (CanEnter (takes_texts setting) words.now) definitions.old) }
    ensures err { IfErr result (λ refusal. IsRefusalWithin setting.budget refusal
        (Any (HasLongContent words.now) definitions.old)
        (Any (LacksWords (takes_texts setting) words.now) definitions.old)
        (Any (λ definition. is_text (takes_texts setting) definition ≡ true) definitions.old)) }
    ensures spent { result ≡ Err Refusal.OverBudget → is_spent pp.new ≡ true }
{
    set_budget(pp, setting.budget)?;
    match give_all(pp, setting, words, definitions, numbers, output) {
        Err(Refusal::OutOfMemory) if setting.budget.is_some() && pp.is_over_budget() => {
            Err(Refusal::OverBudget)
        }
        end => end,
    }
}

/// Bounds the steps, if there is a budget.
pub(crate) fn set_budget(pp: &mut Preprocessor<'_>, budget: Option<u64>) -> Result<(), AllocError>
    ensures { pp.new ≡ pp.old }
{
    let Some(steps) = budget else {
        return Ok(());
    };
    match pp.set_budget(steps) {
        Ok(()) => Ok(()),
        Err(_) => Err(AllocError),
    }
}

// How far a call has got.
#[derive(Clone, Copy)]
struct Progress {
    // How many items were given.
    given: u64,
    // How many `#include` lines that ask for texts may still be passed, if they are counted.
    passes: Option<u64>,
    // Where the items end, if they do so far.
    end: End,
}

impl Progress {
    // Counts an item, which asks for a text or not.
    fn take(&mut self, asks: bool)
        requires { self.old.given + 1 < 2 ^ 64 }
        ensures { self.new ≡ taken asks self.old }
    {
        self.given += 1;
        match self.passes {
            Some(0) if asks => self.end = End::Include,
            Some(lines) if asks => self.passes = Some(lines - 1),
            _ => {}
        }
    }
}

// Gives the items, those that are asked for or all, with the definitions added and the texts included at their numbers.
// Returns where they end.
fn give_all<'a>(
    pp: &mut Preprocessor<'a>,
    setting: Setting,
    words: &'a str,
    definitions: &mut [Definition],
    numbers: &mut [u32],
    output: &mut Output<'_>,
) -> Result<End, Refusal>
    requires unspent { is_spent pp.old ≡ false }
    requires bounded { setting.most_items ≡ None → setting.passes ≡ None }
    ensures given { IfOk result (λ end. HasAll setting end pp.old output.old
        words.now definitions.old pp.new output.new) }
    ensures answered { OnOk result (definitions.new
        ≡ map (answered_in (takes_texts setting) (rules_of pp.old) words.now) definitions.old) }
    ensures fit { OnOk result (All (CanEnter (takes_texts setting) words.now) definitions.old) }
    ensures err { IfErr result (λ refusal. IsAddingRefusal refusal
        (Any (HasLongContent words.now) definitions.old)
        (Any (LacksWords (takes_texts setting) words.now) definitions.old)
        (Any (λ definition. is_text (takes_texts setting) definition ≡ true) definitions.old)) }
{
    let texts = setting.passes.is_some();
    let mut progress = Progress {
        given: 0,
        passes: setting.passes,
        end: End::Front,
    };
    for i in 0..definitions.len() {
        let after = up_to(setting.most_items, definitions[i].after);
        give_until(pp, after, &mut progress, numbers, output)?;
        enter(pp, texts, words, &mut definitions[i])?;
    }
    let Some(most) = setting.most_items else {
        give_rest(pp, progress, output)?;
        return Ok(End::All);
    };
    give_until(pp, most, &mut progress, numbers, output)?;
    Ok(progress.end)
}

// The smaller of both, if there are two.
fn up_to(most: Option<u64>, count: u64) -> u64
    ensures { result ≡ up_to most count }
{
    match most {
        Some(most) => count.min(most),
        None => count,
    }
}

// Gives items until `count` items were given, or up to the end or to a line that asks for a text.
fn give_until(
    pp: &mut Preprocessor<'_>,
    count: u64,
    progress: &mut Progress,
    numbers: &mut [u32],
    output: &mut Output<'_>,
) -> Result<(), AllocError>
    requires { is_spent pp.old ≡ false }
    ensures unspent { OnOk result (is_spent pp.new ≡ false) }
    ensures until { OnOk result (IsUntil count progress.old progress.new) }
    ensures given { OnOk result (GoesOn pp.old output.old progress.old pp.new output.new progress.new) }
{
    'items: while progress.end.is_front() && progress.given < count {
        match give_next(pp, numbers, output)? {
            Some(asks) => progress.take(asks),
            None => progress.end = End::All,
        }
    }
    Ok(())
}

// Gives the items that are left.
fn give_rest(
    pp: &mut Preprocessor<'_>,
    progress: Progress,
    output: &mut Output<'_>,
) -> Result<(), AllocError>
    requires { is_spent pp.old ≡ false }
    ensures { OnOk result (HasRest progress pp.old output.old pp.new output.new) }
{
    if !progress.end.is_front() {
        return Ok(());
    }
    'items: while let Some(item) = pp.give_tokens(output) {
        give_unless_refused(item, pp.place(), pp.include_line(), output)?;
    }
    Ok(())
}

// Gives the next item, if there is one, and the number of the text in which it is. Returns whether it asks for a text.
fn give_next(
    pp: &mut Preprocessor<'_>,
    numbers: &mut [u32],
    output: &mut Output<'_>,
) -> Result<Option<bool>, AllocError>
    requires { is_spent pp.old ≡ false }
    ensures given { IfOk result (λ more. NextIsWritten pp.old pp.new output.old output.new more) }
    ensures less { IfOk result (λ more. is_some more ≡ true → most_items pp.new < most_items pp.old) }
{
    let Some(item) = pp.next() else {
        return Ok(None);
    };
    let first = output.sizes().items;
    let asked = pp.include_line();
    give_unless_refused(item, pp.place(), asked, output)?;
    number(numbers, first, output.sizes().items, pp.origin().text);
    Ok(Some(asked.is_some()))
}

/// Writes the number of a text at the items from `first` up to `end`, if there is room.
pub(crate) fn number(numbers: &mut [u32], first: u64, end: u64, text: u32) {
    for i in first as usize..numbers.len().min(end as usize) {
        numbers[i] = text;
    }
}

impl TokenSink for Output<'_> {
    ghost use Rattle.std.specs.Prelude.{false, ⊤};
    ghost use Rattle.pp_c.specs.inner.Taking.{TakesToken};

    ghost takes = { TakesToken };

    ghost refuses = { λ _ _. ⊤ };

    ghost is_full = { λ _. false };

    #[inline(always)]
    fn take(&mut self, token: TokenRef<'_>) -> Result<(), AllocError> {
        give_ordinary(token.location, token.value, self);
        Ok(())
    }

    #[inline(always)]
    fn is_full(&self) -> bool {
        false
    }
}

// Gives an ordinary token.
#[inline(always)]
fn give_ordinary(place: Location, value: ValueRef<'_>, output: &mut Output<'_>)
    ensures { Takes output.old (token_entries place (value_of value.entry)) output.new }
{
    match value {
        ValueRef::Ident(name) => output.take(name_entry(place, 0, name)),
        ValueRef::Integer(integer) => output.take(integer_entry(place, 0, integer)),
        ValueRef::Float(digits, width) => output.take(float_entry(place, 0, digits, width)),
        ValueRef::Punct(punct) => output.take(punctuator_entry(place, 0, punct)),
    }
}

/// Gives an ordinary token if there is room for it, and returns whether there is.
// Each kind has a call of its own, so that most fields of an item are known where it is written.
#[inline(always)]
pub(crate) fn give_if_room(place: Location, value: ValueRef<'_>, output: &mut Output<'_>) -> bool
    ensures { TakesIfRoom output.old (token_entries place (value_of value.entry)) result output.new }
{
    match value {
        ValueRef::Ident(name) => output.take_if_room(name_entry(place, 0, name)),
        ValueRef::Integer(integer) => output.take_if_room(integer_entry(place, 0, integer)),
        ValueRef::Float(digits, width) => output.take_if_room(float_entry(place, 0, digits, width)),
        ValueRef::Punct(punct) => output.take_if_room(punctuator_entry(place, 0, punct)),
    }
}

/// Fails if the item says that memory ran out.
pub(crate) fn unless_refused(item: &PreprocessorItem) -> Result<(), AllocError>
    ensures given { OnOk result (is_refusal (Some item.now) ≡ false) }
    ensures refused { OnErr result (is_refusal (Some item.now) ≡ true) }
{
    match item {
        Err((PreprocessorError::OutOfMemory, _)) => Err(AllocError),
        _ => Ok(()),
    }
}

// Gives an item, or fails if it says that memory ran out.
fn give_unless_refused(
    item: PreprocessorItem,
    place: Location,
    asked: Option<Location>,
    output: &mut Output<'_>,
) -> Result<(), AllocError>
    ensures given { OnOk result (Takes output.old (given_entries (given_of item place asked)) output.new) }
    ensures reported { OnOk result (is_refusal (Some item) ≡ false) }
{
    unless_refused(&item)?;
    give_item(&item, place, asked, output);
    Ok(())
}

/// Gives an item. If it is an error, `place` is its true place, and `asked` the rest of its line, if it asks for a
/// text.
pub(crate) fn give_item(
    item: &PreprocessorItem,
    place: Location,
    asked: Option<Location>,
    output: &mut Output<'_>,
)
    ensures { Takes output.old (given_entries (given_of item.now place asked)) output.new }
{
    match item {
        Ok(token) => give_value(token.location, &token.value, output),
        Err((error, location)) => match asked {
            Some(rest) => give_include_line(error, *location, place, rest, output),
            None => give_fault(error, *location, place, output),
        },
    }
}

// Gives an error with its place and the rest of its line, which asks for a text.
fn give_include_line(
    error: &PreprocessorError,
    location: Location,
    place: Location,
    rest: Location,
    output: &mut Output<'_>,
)
    ensures { Takes output.old (asking_entries error.now location place rest) output.new }
{
    give_error(error, location, place, 1, output);
    output.take_item(item_at(rest, Kind::IncludeLine, 0));
}

// Gives an error, with its place and the token that it carries.
fn give_fault(
    error: &PreprocessorError,
    location: Location,
    place: Location,
    output: &mut Output<'_>,
)
    ensures { Takes output.old (error_entries error.now location place) output.new }
{
    match error {
        PreprocessorError::UnexpectedToken(value) => {
            let held = count(tokens_of(value).len());
            give_error(error, location, place, held.saturating_add(1), output);
            give_value(location, value, output);
        }
        _ => give_error(error, location, place, 0, output),
    }
}

// Gives a token, and after it the tokens of its line.
fn give_value(place: Location, value: &TokenValue, output: &mut Output<'_>)
    ensures { Takes output.old (token_entries place value.now) output.new }
{
    let line = tokens_of(value);
    give_word(place, value, count(line.len()), output);
    for token in line {
        give_word(token.location, &token.value, 0, output);
    }
}

// The tokens of a directive's line.
fn tokens_of(value: &TokenValue) -> &[Token]
    ensures held { preorder result.now ≡ inner value.now }
    ensures ordinary { IsTrue (is_ordinary value.now) → result.now ≡ [] }
{
    match value {
        TokenValue::Version(version) => version.tokens.as_slice(),
        TokenValue::Extension(extension) => extension.tokens.as_slice(),
        TokenValue::Pragma(pragma) => pragma.tokens.as_slice(),
        _ => &[],
    }
}

// A count of tokens.
fn count(tokens: usize) -> u32
    ensures { result ≡ in_32_bits tokens }
{
    u32::try_from(tokens).unwrap_or(u32::MAX)
}

// Gives one item for a token. If it is a directive, the `children` items that follow belong to it.
fn give_word(place: Location, value: &TokenValue, children: u32, output: &mut Output<'_>)
    requires { IsTrue (is_ordinary value.now) → children ≡ 0 }
    ensures { Takes output.old (leaf_entry place 0 children (leaf_of value.now) ∷ []) output.new }
{
    match value {
        TokenValue::Ident(name) => output.take(name_entry(place, 0, name.as_str())),
        TokenValue::Integer(integer) => output.take(integer_entry(place, 0, *integer)),
        TokenValue::Float(float) => {
            output.take(float_entry(place, 0, float.text.as_str(), float.width))
        }
        TokenValue::Punct(punct) => output.take(punctuator_entry(place, 0, *punct)),
        TokenValue::Version(version) => {
            let flags = bit_if(version.is_first_directive, FIRST_DIRECTIVE)
                | bit_if(version.has_comments_before, COMMENTS_BEFORE);
            output.take_item(directive_item(place, Kind::Version, flags, children));
        }
        TokenValue::Extension(extension) => {
            let flags = bit_if(extension.has_non_directive_before, NON_DIRECTIVE_BEFORE);
            output.take_item(directive_item(place, Kind::Extension, flags, children));
        }
        TokenValue::Pragma(_) => {
            output.take_item(directive_item(place, Kind::Pragma, 0, children));
        }
    }
}

// The item of a directive.
fn directive_item(place: Location, kind: Kind, flags: u32, children: u32) -> Item
    ensures { result ≡ record (item_at place (kind_number kind) flags) { children = children } }
{
    let mut item = item_at(place, kind, flags);
    item.children = children;
    item
}
