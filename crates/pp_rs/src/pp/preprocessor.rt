//! The items of a preprocessed source.

ghost use Rattle.std.specs.Prelude.{◌≡◌, ◌-◌, ◌^◌, ◌<◌, [], false, length, if◌then◌else◌, true, IsTrue, OnOk, IfSome};
ghost use Rattle.std.specs.Prelude.{MatchBool, OnErr, IfOk, IfErr, Option, None, Some, Ok, Err, option_map, unwrap_or};
ghost use Rattle.pp_lexer.specs.declared.token.Token.{Token};
ghost use Rattle.std.specs.Iterator.{at_most};
ghost use Rattle.pp_lexer.specs.Location.{nowhere};
ghost use Rattle.pp_lexer.specs.Rules.{pp_rs};
ghost use Rattle.pp_lexer.specs.PreprocessorError.{out_of_memory};
ghost use Rattle.pp_model.specs.Names.{Name};
ghost use Rattle.pp_model.specs.Run.{items_by, items_of};
ghost use Rattle.pp_rs.specs.Comes.{start, start_by};
ghost use Rattle.pp_rs.specs.Adding.{IsAdded};
ghost use Rattle.pp_rs.specs.inner.GivingOn.{IsFrontCall};
ghost use Rattle.pp_rs.specs.TokenRefs.{token_of};
ghost use Rattle.pp_macros.specs.Item.{is_out_of_memory};
ghost use Rattle.pp_rs.specs.Kept.{Stands, IsAhead, is_spent, most_items, errors_left, error_place, call_place};
ghost use Rattle.pp_model.specs.Places.{fault_in, source_text, unplaced};
ghost use Rattle.pp_model.specs.declared.read.Read.{Read};
ghost use Rattle.pp_rs.specs.Kept.{item_text, last_error, origin_of, rules_of};
ghost use Rattle.pp_macros.specs.inner.Idle.{is_idle};
ghost use Rattle.pp_macros.specs.LexerErrors.{lexer_errors, lexer_errors_by};
ghost use Rattle.pp_directives.specs.WordTokens.{word_token};
ghost use Rattle.pp_directives.specs.inner.PlainText.{IsBare};
ghost use Rattle.pp_rs.specs.inner.NextWord.{IsNextGiven, IsNextStep, IsNextWord, IsPassed, IsPlain, OpensNumbered};
ghost use Rattle.pp_rs.specs.inner.NextWord.{HasFront, IsAheadAs, IsPause, ReadsText, SomeAheadOf};
ghost use Rattle.pp_rs.specs.Preprocessing.{IsNextItem};

use crate::lexer::PlainItem;
use crate::pp::last_item::LastItem;
use crate::pp::source_turn::turn_source;
use crate::rules::Rules;
use crate::token::{Location, NOWHERE, PreprocessorError, Token, out_of_memory};
use pp_directives::convert::word_token;
use pp_directives::directives::DirectiveProcessor;
use pp_macros::budget::Budget;
use pp_macros::halt::Halt;
use pp_macros::macro_processor::MacroProcessor;
use pp_macros::names::{Definitions, NameId};
use pp_macros::step::{PlacedExit, is_out_of_memory};
use pp_model::place::{PlacedFault, SOURCE_TEXT, unplaced};
use pp_model::splice::{CallPlace, Origin};
use std::alloc::{AllocError, Global};
use std::marker::Model;

/// An item of the preprocessor: a token, or an error with its place.
pub type PreprocessorItem = Result<Token, (PreprocessorError, Location)>;

/// An iterator of the preprocessed tokens of a source.
///
/// It goes on after every error except `OutOfMemory`. After `OutOfMemory`, `next` returns `None` from then on.
#[derive(Drop)]
pub struct Preprocessor<'a> {
    alloc: Global,
    rules: Rules,
    pub(crate) expander: MacroProcessor,
    pub(crate) source: DirectiveProcessor<'a>,
    spent: bool,
    place: Location,
    pub(crate) last: LastItem,
    // Where the outermost macro was called that was open before the last turn. If a step is held, that turn gave a
    // name.
    name_call: Option<CallPlace>,
    // Whether the next token is known to be read from live text. Most tokens are, and nothing else is then asked.
    pub(crate) in_text: bool,
}

impl<'a> Model for Preprocessor<'a> {
    ghost use Rattle.std.specs.Prelude.{◌≡◌, [], true, false};
    ghost use Rattle.pp_rs.specs.inner.Fit.{IsFit, IsReported, IsInLiveText};
    ghost use Rattle.pp_rs.specs.Kept.{Preprocessing};

    ghost Value = { Preprocessing };

    ghost view = { λ p. record {
      expander = p.expander.here;
      source = p.source;
      spent = p.spent;
      place = p.place;
      last = p.last;
      name_call = p.name_call;
      rules = p.rules;
    } };

    ghost invariant = { λ p. (p.spent ≡ false → IsFit p.expander.here p.source
        × IsReported p.rules p.expander.here p.source)
        × (p.expander.below ≡ [])
        × (p.in_text ≡ true → IsInLiveText p.expander.here p.source p.spent) };
}

// The error. `OutOfMemory` always gets the same place.
fn place_refusal(error: PlacedFault) -> (PreprocessorError, Location)
    ensures { result ≡ if is_out_of_memory error.0 then out_of_memory else unplaced error }
{
    if is_out_of_memory(&error.0) {
        drop(error);
        return out_of_memory();
    }
    unplaced(error)
}

// The item of an error that was found in this call, if in one. Its place and origin are noted, and whether memory ran
// out. It is a function of its own, so that tokens are moved without it.
#[inline(never)]
fn refused_item(
    error: PlacedFault,
    call: Option<CallPlace>,
    source: &mut DirectiveProcessor<'_>,
    spent: &mut bool,
    place: &mut Location,
    last: &mut LastItem,
) -> PreprocessorItem
    ensures item { result ≡ Err (if is_out_of_memory error.0 then out_of_memory else unplaced error) }
    ensures spent { spent.new ≡ is_out_of_memory error.0 }
    ensures place { place.new ≡ unwrap_or source.old.error_place
        (if is_out_of_memory error.0 then out_of_memory else unplaced error).1 }
    ensures last { last.new ≡ last_error (fault_in call error).1 }
    ensures source { source.new ≡ record source.old { error_place = None } }
{
    *spent = is_out_of_memory(&error.0);
    last.set_error(error.1.in_call(call));
    let error = place_refusal(error);
    *place = source.take_error_place().unwrap_or(error.1);
    Err(error)
}

// Opens the macro without parentheses whose name has this number and is at this place of this text. The place is given
// by its parts: so words that open none are never put into memory.
#[inline(always)]
fn open_numbered(
    expander: &mut MacroProcessor,
    definitions: &Definitions,
    text: u32,
    id: NameId,
    start: u32,
    end: u32,
    line: u32,
) -> Result<(), AllocError>
    requires { (known : Name) × IsBare definitions.now id known }
    ensures opens { OnOk result (OpensNumbered definitions.now text id
        (record { start = start; end = end; line = line }) expander.old.here expander.new.here) }
    ensures below { expander.new.below ≡ expander.old.below }
{
    let Some(found) = definitions.get_define(id) else {
        unreachable!();
    };
    let opened = found.clone()?;
    expander.open_bare(opened, text, Location { start, end, line })
}

impl<'a> Preprocessor<'a> {
    /// Returns a preprocessor of a source of fewer than 2^32 - 1 bytes.
    ///
    /// It allocates nothing and reads nothing yet.
    pub fn new(alloc: Global, input: &'a str) -> Preprocessor<'a>
        requires { length input.now < 2 ^ 32 - 1 }
        ensures unspent { is_spent result ≡ false }
        ensures stands { Stands result (start (items_of input.now)) }
        ensures errors { errors_left result ≡ lexer_errors input.now }
        ensures place { error_place result ≡ nowhere }
        ensures call { call_place result ≡ None }
        ensures text { item_text result ≡ source_text }
        ensures rules { rules_of result ≡ pp_rs }
    {
        Preprocessor::with_rules(alloc, input, Rules::PP_RS)
    }

    /// Returns a preprocessor that reads the source, and each content that is added, by these rules. `new` is this at
    /// [`Rules::PP_RS`].
    pub fn with_rules(alloc: Global, input: &'a str, rules: Rules) -> Preprocessor<'a>
        requires { length input.now < 2 ^ 32 - 1 }
        ensures unspent { is_spent result ≡ false }
        ensures stands { Stands result (start_by rules (items_by rules input.now)) }
        ensures errors { errors_left result ≡ lexer_errors_by rules input.now }
        ensures place { error_place result ≡ nowhere }
        ensures call { call_place result ≡ None }
        ensures text { item_text result ≡ source_text }
        ensures rules { rules_of result ≡ rules }
    {
        Preprocessor {
            alloc,
            rules,
            expander: MacroProcessor::new(alloc),
            source: DirectiveProcessor::new(alloc, input, rules),
            spent: false,
            place: NOWHERE,
            last: LastItem::from_text(SOURCE_TEXT),
            name_call: None,
            in_text: false,
        }
    }

    // Whether the next token is one of live text: no macro is open, nothing is held, and memory didn't run out. It
    // notes that it is.
    #[inline(always)]
    pub(crate) fn is_in_text(&mut self) -> bool
        ensures reads { IsTrue result → ReadsText self.new }
        ensures same { self.new ≡ self.old }
    {
        if self.in_text {
            return true;
        }
        if self.spent || !self.expander.is_idle() || !self.source.is_in_text() {
            return false;
        }
        self.in_text = true;
        true
    }

    // Whether no macro is open, and nothing is held.
    #[inline(always)]
    pub(crate) fn is_idle(&self) -> bool
        ensures { result ≡ is_idle self.now.expander }
    {
        self.expander.is_idle()
    }

    // Whether memory ran out for an item.
    #[inline(always)]
    pub(crate) fn is_spent(&self) -> bool
        ensures { result ≡ is_spent self.now }
    {
        self.spent
    }

    // Gives nothing more, since memory ran out for an item.
    #[inline(never)]
    pub(crate) fn spend(&mut self)
        ensures { self.new ≡ record self.old { spent = true } }
    {
        self.spent = true;
        self.in_text = false;
    }

    // The next word of live text before memory is taken for it, if it is given as it is in the source. It passes
    // newlines before it, and opens the macro without parentheses that it names; then what its body has comes next.
    #[inline(always)]
    pub(crate) fn next_word(&mut self) -> Result<Option<PlainItem<'a>>, AllocError>
        requires { ReadsText self.old }
        ensures gives { IfOk result (λ word. IsNextWord self.old word self.new) }
        ensures spent { OnErr result (is_spent self.new ≡ true) }
        ensures some_left { OnErr result (0 < most_items self.old) }
        ensures rules { rules_of self.new ≡ rules_of self.old }
    {
        'words: loop {
            match self.source.next_word() {
                Some((word, None)) => {
                    self.last.set_text(self.source.text());
                    return Ok(Some(word));
                }
                Some((word, Some(id))) => {
                    let definitions = self.source.definitions();
                    let text = self.source.text();
                    let Location { start, end, line } = word.location;
                    self.in_text = false;
                    match open_numbered(
                        &mut self.expander,
                        definitions,
                        text,
                        id,
                        start,
                        end,
                        line,
                    ) {
                        Ok(()) => return Ok(None),
                        Err(refused) => {
                            self.spent = true;
                            return Err(refused);
                        }
                    }
                }
                None => {
                    if !self.source.pass_newline() {
                        return Ok(None);
                    }
                }
            }
        }
    }

    // Passes the words and newlines of dead text that come next, and returns whether there were any. Otherwise it
    // changes nothing. It is a function of its own, so that a pause costs no more than its word.
    #[inline(never)]
    pub(crate) fn pass_dead(&mut self) -> bool
        requires { is_spent self.old ≡ false }
        ensures { MatchBool result (IsPause self.old self.new) (self.new ≡ self.old) }
    {
        if self.in_text || !self.expander.is_idle() {
            return false;
        }
        let mut is_passed = false;
        'words: while self.source.pass_dead() {
            is_passed = true;
        }
        is_passed
    }

    // The number of the text that is read.
    #[inline(always)]
    pub(crate) fn source_text(&self) -> u32
        ensures { result ≡ self.now.source.text }
    {
        self.source.text()
    }

    // Pays for a word of live text. It fails if no step is left.
    #[inline(always)]
    pub(crate) fn pay(&self) -> Result<(), AllocError> {
        self.expander.pay(1)
    }

    // The token of a word that is paid for.
    #[inline(always)]
    fn paid_token(&self, word: PlainItem<'a>) -> Result<Token, AllocError>
        requires { IsPlain word }
        ensures { IfOk result (λ token. token ≡ word_token word.entry) }
    {
        self.pay()?;
        word_token(self.alloc, word)
    }

    // The token of the word that `next_word` returned, as an item.
    #[inline(always)]
    fn word_item(&mut self, word: PlainItem<'a>) -> PreprocessorItem
        requires { IsPlain word }
        ensures token { IfOk result (λ token. (token ≡ word_token word.entry) × (self.new ≡ self.old)) }
        ensures refused { IfErr result (λ e. (e ≡ out_of_memory) × (self.new ≡ record self.old { spent = true })) }
    {
        match self.paid_token(word) {
            Ok(token) => Ok(token),
            Err(_) => {
                self.spend();
                Err(out_of_memory())
            }
        }
    }

    // Does what `next` does, if the next item is a word of live text that is given as it is. Otherwise returns `None`,
    // after what `next_word` passes; if memory ran out that is nothing.
    #[inline(always)]
    fn next_text(&mut self) -> Option<PreprocessorItem>
        ensures gives { IsNextGiven self.old result self.new }
        ensures spent { is_spent self.old ≡ true → (result ≡ None) × (self.new ≡ self.old) }
    {
        if !self.is_in_text() {
            return None;
        }
        match self.next_word() {
            Ok(Some(word)) => Some(self.word_item(word)),
            Ok(None) => None,
            Err(_) => Some(Err(out_of_memory())),
        }
    }

    // Does what `next` does, if the open macros give the next item from their lists. Otherwise returns `None`, after
    // what `advance` passes.
    #[inline(always)]
    fn next_given(&mut self) -> Option<PreprocessorItem>
        requires { is_spent self.old ≡ false }
        ensures { IsNextGiven self.old result self.new }
    {
        self.in_text = false;
        match self.expander.give_next(&self.source) {
            Ok(Some(read)) => {
                self.last.set_text(read.text);
                Some(Ok(read.token))
            }
            Ok(None) => None,
            Err(_) => {
                self.spent = true;
                Some(Err(out_of_memory()))
            }
        }
    }

    // One step at what isn't given as it is, in a list or in the source. Returns nothing if it is a pause, and
    // otherwise what `next` returns.
    #[inline(always)]
    pub(crate) fn step(&mut self) -> Option<Option<PreprocessorItem>>
        requires { is_spent self.old ≡ false }
        ensures { IsNextStep self.old result self.new }
    {
        self.in_text = false;
        self.name_call = self.expander.outermost_call();
        match turn_source(self.alloc, &mut self.expander, &mut self.source) {
            Ok(read) => {
                self.last.set_text(read.text);
                Some(Some(Ok(read.token)))
            }
            Err(PlacedExit::Error(error)) => Some(Some(refused_item(
                error,
                self.expander.outermost_call(),
                &mut self.source,
                &mut self.spent,
                &mut self.place,
                &mut self.last,
            ))),
            Err(PlacedExit::Finished) => {
                self.last.set_end();
                Some(None)
            }
            Err(PlacedExit::Continue) => None,
        }
    }

    // Does what `step` does. It is a function of its own, so that what a step needs isn't kept ready for other items.
    #[inline(never)]
    fn next_step(&mut self) -> Option<Option<PreprocessorItem>>
        requires { is_spent self.old ≡ false }
        ensures { IsNextStep self.old result self.new }
    {
        self.step()
    }

    // Goes on where no word of live text comes that is given as it is: in dead text, in the open macros, or by one
    // step. Returns nothing if it is a pause, and otherwise what `next` returns. What `step` returns is taken apart, so
    // that no other item is kept in memory with it.
    #[inline(always)]
    fn next_other(&mut self) -> Option<Option<PreprocessorItem>>
        requires { is_spent self.old ≡ false }
        ensures { IsNextStep self.old result self.new }
    {
        if self.pass_dead() {
            return None;
        }
        if let Some(item) = self.next_given() {
            return Some(Some(item));
        }
        match self.next_step() {
            Some(Some(Ok(token))) => Some(Some(Ok(token))),
            Some(Some(Err(error))) => Some(Some(Err(error))),
            Some(None) => Some(None),
            None => None,
        }
    }

    // Does what `next` does. Most items are words of plain text, and these cost least if they are asked for first.
    #[inline(always)]
    fn next_item(&mut self) -> Option<PreprocessorItem>
        ensures { IsNextItem self.old result self.new }
    {
        'steps: loop {
            if let Some(item) = self.next_text() {
                return Some(item);
            }
            if self.is_spent() {
                return None;
            }
            if let Some(answer) = self.next_other() {
                return answer;
            }
        }
    }

    // Goes on in the open macros, and returns whether the body or an argument of one has the next token as it is given.
    // Then `front` returns it before memory is taken for it, if it is ordinary, and `pass` passes it. It passes ends of
    // macros and names of macros without parameters, which open.
    #[inline(always)]
    pub(crate) fn advance(&mut self) -> Result<bool, AllocError>
        requires { is_spent self.old ≡ false }
        ensures passed { OnOk result (IsPassed self.old self.new) }
        ensures front { IfOk result (λ found. found ≡ true → HasFront self.new) }
        ensures some_left { OnErr result (0 < most_items self.old) }
        ensures rules { rules_of self.new ≡ rules_of self.old }
    {
        self.in_text = false;
        match self.expander.advance(&self.source) {
            Ok(found) => Ok(found.is_some()),
            Err(refused) => {
                self.spent = true;
                Err(refused)
            }
        }
    }

    // The token that `advance` found, if it is ordinary, and where it comes from.
    #[inline(always)]
    pub(crate) fn front(&self) -> Option<(&Token, Origin)>
        requires { HasFront self.now }
        ensures ahead { IfSome result (λ found. IsAheadAs self.now found.0.now found.1.text) }
        ensures call { IfSome result (λ found. IsFrontCall found.1.call self.now) }
        ensures some_left { IfSome result (λ found. 0 < most_items self.now) }
    {
        let Some(ahead) = self.expander.ahead() else {
            unreachable!();
        };
        if !ahead.token.is_ordinary() {
            return None;
        }
        let origin = Origin {
            text: ahead.text,
            call: self.expander.outermost_call(),
        };
        Some((ahead.token, origin))
    }

    // Passes the token that `advance` found, which is of this text, as `next` does.
    #[inline(always)]
    pub(crate) fn pass(&mut self, text: u32)
        requires { SomeAheadOf text self.old }
        ensures gives { (read : Read) → IsAhead self.old read → IsNextItem self.old (Some (Ok read.token)) self.new }
        ensures text { item_text self.new ≡ text }
        ensures call { IsFrontCall (call_place self.new) self.old }
    {
        self.in_text = false;
        self.last.set_text(text);
        self.expander.pass_token();
    }

    /// Bounds the work from here on to this many steps, in place of any bound before.
    ///
    /// A step is a token that is read, put on a list, or passed in the body or an argument of a macro, wherever that
    /// happens. Some thousand bytes of dead text may be one step. If an item needs more steps than are left, `next`
    /// returns `OutOfMemory`, and `None` from then on, as if memory had run out; [`Preprocessor::is_over_budget`] tells
    /// the two apart. So the time and the memory that a source takes are bounded by the number, and by the length of
    /// its longest token. Without this call there is no bound. The only error is `OutOfMemory`, if an allocation fails;
    /// then the bound is as before.
    pub fn set_budget(&mut self, steps: u64) -> Result<(), (PreprocessorError, Location)>
        ensures same { self.new ≡ self.old }
        ensures refused { IfErr result (λ fault. fault ≡ out_of_memory) }
    {
        if self.share_budget(steps).is_err() {
            return Err(out_of_memory());
        }
        Ok(())
    }

    // Does the same.
    fn share_budget(&mut self, steps: u64) -> Result<(), AllocError>
        ensures { self.new ≡ self.old }
    {
        let budget = Budget::of_steps(self.alloc, steps)?;
        self.source.set_budget(&budget)?;
        self.expander.set_budget(budget);
        Ok(())
    }

    /// Returns whether `next` returned `OutOfMemory` since more steps were needed than `set_budget` allowed.
    pub fn is_over_budget(&self) -> bool
        ensures { IsTrue result → is_spent self.now ≡ true }
    {
        self.is_spent() && self.expander.is_over_budget()
    }

    /// Returns the place of the word, newline or lexer's error of the source that was read last, on the line of a
    /// directive and in dead text too. Before the first it is [`NOWHERE`].
    pub fn reached(&self) -> Location {
        self.source.reached()
    }

    /// Returns the place of the last error that `next` returned, in byte offsets and a 1-based line of the source.
    ///
    /// An error of the lexer has the place (0, 0, line 1) in its item. Here its place is that of the characters that it
    /// took, in the text, on the line of a directive, in dead text or on a line that is skipped. For any other error it
    /// is the place in its item. Tokens, the end and `add_define` leave it as it is. Before the first error it is
    /// [`NOWHERE`]. After an `OutOfMemory` its value is not specified.
    pub fn place(&self) -> Location
        ensures { result ≡ error_place self.now }
    {
        self.place
    }

    /// Returns where the macro was called from which the last item of `next` came.
    ///
    /// It is the outermost macro that was open when the token was taken or the error was found; for an error in an
    /// argument of a call, or on the line of an `#if`, `#elif` or `#line`, that may be a macro there. It is `None` if
    /// no macro was open, as after a token of the source itself, an error of a directive, and the end. (The place of an
    /// item that a macro gives is in that macro's definition, or in the content that `add_define` was given.)
    /// `add_define` leaves it as it is. After an `OutOfMemory` its value is not specified.
    #[inline(always)]
    pub fn call_place(&self) -> Option<CallPlace>
        ensures { result ≡ call_place self.now }
    {
        match self.last.call() {
            Some(call) => Some(call),
            None => self.expander.item_call(self.name_call),
        }
    }

    /// Returns where the last item of `next` comes from: the number of the text that its place is in, and the place of
    /// the call that [`call_place`](Preprocessor::call_place) returns.
    ///
    /// Text 0 is the source, and each content that `add_define` took has the next number. A token that a macro gives is
    /// in the text of its body, or of the argument that it comes from. An error in a macro is in the text of its place.
    /// Before the first item the text is the source. The end and `add_define` leave it as it is. After an `OutOfMemory`
    /// it is not specified.
    #[inline(always)]
    pub fn origin(&self) -> Origin
        ensures { result ≡ origin_of self.now }
    {
        Origin {
            text: self.last.text(),
            call: self.call_place(),
        }
    }

    /// Returns the line of [`call_place`](Preprocessor::call_place), numbered as in a token's place: the line of the
    /// macro's name, or of the `)` of its call.
    #[inline(always)]
    pub fn call_line(&self) -> Option<u32>
        ensures { result ≡ option_map (λ call. call.line) (call_place self.now) }
    {
        match self.call_place() {
            Some(call) => Some(call.line),
            None => None,
        }
    }

    /// Defines the name as an object-like macro, replacing any definition of it, as `Preprocessor::add_define` of pp-rs
    /// 0.2.1 does.
    ///
    /// The macro's body is the tokens of the content, without the newlines. Their places are byte offsets and 1-based
    /// lines in the content, which must have fewer than 2^32 - 1 bytes. The name isn't checked: a name that is no
    /// identifier never matches a token.
    ///
    /// The error is the first one in the content: an error of the lexer, or `UnexpectedHash` at a number sign. If an
    /// allocation fails, the error is `OutOfMemory` instead. After an error nothing is changed. Call it between any two
    /// calls of `next`. It may also be called after `next` returned `OutOfMemory`, though `next` returns only `None`
    /// then.
    pub fn add_define(
        &mut self,
        name: &str,
        content: &str,
    ) -> Result<(), (PreprocessorError, Location)>
        requires { length content.now < 2 ^ 32 - 1 }
        ensures { IsAdded self.old name.now content.now result self.new }
    {
        self.in_text = false;
        match self.source.set_content(name, content, self.rules) {
            Ok(()) => Ok(()),
            Err(Halt::Fault(fault)) => Err(fault),
            Err(Halt::OutOfMemory) => Err(out_of_memory()),
        }
    }
}

impl<'a> Iterator for Preprocessor<'a> {
    type Item = PreprocessorItem;

    ghost next_gives = { IsNextItem };

    ghost remaining = { λ p. at_most (most_items p) };

    fn next(&mut self) -> Option<PreprocessorItem> {
        self.next_item()
    }
}
