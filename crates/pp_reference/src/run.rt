//! Runs of a source, by the definitions.

ghost use Rattle.std.specs.Prelude.{◌≡◌, ◌<◌, ◌^◌, ◌-◌, [], ◌∷◌, ◌++◌, false, length, map, All};
ghost use Rattle.std.specs.Prelude.{IfOk, OnOk, IfSome};
ghost use Rattle.pp_model.specs.Emitting.{answers_at, expansion_limit};
ghost use Rattle.pp_reference.specs.inner.Halting.{Meets};
ghost use Rattle.pp_model.specs.Run as spec;
ghost use Rattle.pp_model.specs.Run.{call_of, HasRoom};
ghost use Rattle.pp_model.specs.RunToEnd.{RunsToEnd, IsRunToEnd, IsRunToEndBy, going_on};
ghost use Rattle.pp_reference.specs.inner.Seen.{seen};
ghost use Rattle.pp_reference.specs.inner.SeenSource.{source_state, RefusedBy, Replying, is_refused};
ghost use Rattle.std.specs.Str.{chars};

use crate::block::blocks_at;
use crate::conversion::{conversion, is_newline};
use crate::copies::copy_fault;
use crate::definitions::Definitions;
use crate::expand::{emit, expansion_limit};
use crate::expander::Expander;
use crate::item::SourceItem;
use crate::line::with_first;
use crate::source::Source;
use crate::source_reader::SourceReader;
use crate::source_reader::including::Earlier;
use crate::stop::{Budget, Halt, Stop, stays_short};
use pp_lexer::lexer::{Lexer, LexerItem};
use pp_lexer::rules::Rules;
use pp_lexer::token::{PreprocessorError, Text};
use pp_model::call::{Call, Reply};
use pp_model::definition::TokenList;
use pp_model::place::SOURCE_TEXT;
use pp_model::read::Taken;
use std::alloc::{AllocError, Global};

// Whether the item is the error `OutOfMemory`.
fn is_refused(item: &LexerItem) -> bool
    ensures { result ≡ is_refused item.now }
{
    matches!(item, Err((PreprocessorError::OutOfMemory, _)))
}

// Appends the rest of a text's items to a list.
fn read_items(lexer: &mut Lexer<'_>, items: &mut Vec<SourceItem>) -> Result<(), Stop>
    requires { lexer.old.spent ≡ false }
    ensures { OnOk result (items.new.items ≡ items.old.items ++ lexer.old.rest) }
{
    'items: loop {
        let Some(item) = lexer.next() else {
            return stays_short(items.len());
        };
        if is_refused(&item) {
            drop(item);
            return Err(Stop::OutOfMemory);
        }
        let had_comments = lexer.had_comments();
        items.push(SourceItem { item, had_comments })?;
    }
}

/// The items of a text by these rules, each with whether the lexer had passed a comment.
pub fn items_by(alloc: Global, text: &str, rules: Rules) -> Result<Vec<SourceItem>, Stop>
    requires { length text.now < 2 ^ 32 - 1 }
    ensures { IfOk result (λ items. items.items ≡ spec.items_by rules text.now) }
{
    let mut lexer = Lexer::with_rules(alloc, text, rules);
    let mut items = Vec::new(alloc);
    match read_items(&mut lexer, &mut items) {
        Ok(()) => Ok(items),
        Err(stop) => {
            drop(items);
            Err(stop)
        }
    }
}

// The tokens of an added content, or the first error or `#` in it.
fn content_tokens(alloc: Global, items: &[SourceItem]) -> Result<TokenList, Halt>
    ensures { Meets result (spec.content_tokens items.now) }
{
    let Some((first, rest)) = items.split_first() else {
        return Ok(TokenList {
            items: Vec::new(alloc),
        });
    };
    match &first.item {
        Err(fault) => Err(Halt::Fault(copy_fault(alloc, fault)?)),
        Ok(token) if is_newline(&token.value) => content_tokens(alloc, rest),
        Ok(token) => {
            let first = conversion(alloc, token)?;
            match content_tokens(alloc, rest) {
                Ok(tokens) => Ok(with_first(first, tokens)?),
                Err(halt) => {
                    drop(first);
                    Err(halt)
                }
            }
        }
    }
}

// An expander at the start of a source that is read by these rules.
fn start(alloc: Global, rules: Rules, items: Vec<SourceItem>) -> Result<Expander<Source>, Stop>
    ensures { IfOk result (λ expander. seen source_state expander ≡ going_on [] (spec.start_by rules items.items)) }
{
    let unfinished = blocks_at(alloc, &items, items.len())?.len();
    let reader = SourceReader {
        rules,
        text: SOURCE_TEXT,
        items,
        position: 0,
        definitions: Definitions::new(alloc),
        contents: 0,
        line_offset: 0,
        truths: Vec::new(alloc),
        unfinished,
        around: Vec::new(alloc),
        earlier: Earlier {
            text: false,
            directive: false,
        },
    };
    let dead = Vec::new(alloc);
    let source = Source {
        alloc,
        reader,
        dead,
    };
    Ok(Expander::new(alloc, source, Vec::new(alloc)))
}

// The tokens of an added content by these rules.
fn added_body(alloc: Global, content: &str, rules: Rules) -> Result<TokenList, Halt>
    requires { length content.now < 2 ^ 32 - 1 }
    ensures { Meets result (spec.content_tokens (spec.items_by rules content.now)) }
{
    let items = items_by(alloc, content, rules)?;
    content_tokens(alloc, &items)
}

// The reply to a content with a fault.
fn refusal(halt: Halt) -> Result<Reply, Stop>
    ensures { IfOk result (RefusedBy halt) }
{
    match halt {
        Halt::Fault(fault) => Ok(Reply::Refused(fault)),
        Halt::Stop(stop) => Err(stop),
    }
}

// The text of a name.
fn text_of(alloc: Global, name: &str) -> Result<Text, AllocError>
    ensures { IfOk result (λ text. text ≡ chars name.now) }
{
    Ok(Text::from(String::from_str(alloc, name)?))
}

// The reply to an `add_define`, whose content is read by these rules.
fn add_define(
    alloc: Global,
    rules: Rules,
    expander: &mut Expander<Source>,
    name: &str,
    content: &str,
) -> Result<Reply, Stop>
    requires { length content.now < 2 ^ 32 - 1 }
    ensures { IfOk result (λ reply. Replying (answers_at expansion_limit) rules
        (seen source_state expander.old) (spec.add_define name.now content.now) reply
        (seen source_state expander.new)) }
{
    match added_body(alloc, content, rules) {
        Ok(body) => {
            let name = text_of(alloc, name)?;
            expander.reader.reader.add(alloc, name, body)?;
            Ok(Reply::Added)
        }
        Err(halt) => refusal(halt),
    }
}

// Drops the end, if it is held.
fn drop_end(held: &mut Option<Taken>)
    ensures { held.new ≡ spec.without_end held.old }
{
    if matches!(held, Some(Taken::End)) {
        *held = None;
    }
}

// The reply to an `include`, whose text is read by these rules.
fn include(
    alloc: Global,
    rules: Rules,
    expander: &mut Expander<Source>,
    text: &str,
) -> Result<Reply, Stop>
    requires { length text.now < 2 ^ 32 - 1 }
    ensures { IfOk result (λ reply. Replying (answers_at expansion_limit) rules
        (seen source_state expander.old) (spec.include text.now) reply
        (seen source_state expander.new)) }
{
    if expander.reader.reader.is_full() {
        return Ok(Reply::TooDeep);
    }
    let items = items_by(alloc, text, rules)?;
    expander.reader.reader.include(alloc, items)?;
    drop_end(&mut expander.held);
    Ok(Reply::Included)
}

// The reply to a call, if contents and texts are read by these rules.
fn reply_to(
    alloc: Global,
    rules: Rules,
    expander: &mut Expander<Source>,
    call: &Call<'_>,
    budget: &mut Budget,
) -> Result<Reply, Stop>
    requires { HasRoom call.now }
    ensures { IfOk result (λ reply. Replying (answers_at expansion_limit) rules
        (seen source_state expander.old) (call_of call.now) reply
        (seen source_state expander.new)) }
{
    match call {
        Call::AddDefine(name, content) => add_define(alloc, rules, expander, name, content),
        Call::Include(text) => include(alloc, rules, expander, text),
        Call::Next => {
            let item = emit(expander, expansion_limit(), budget)?;
            Ok(Reply::Given(item.taken.into_item()))
        }
    }
}

// These replies with one before them.
fn with_reply(reply: Reply, others: Vec<Reply>) -> Result<Vec<Reply>, Stop>
    ensures { IfOk result (λ replies. replies.items ≡ reply ∷ others.items) }
{
    let mut replies = others;
    replies.insert(0, reply)?;
    Ok(replies)
}

// The replies to the calls, to the end, if contents are read by these rules.
#[tactic(auto, using(crate::proofs::RunProgramLemmas::all_after))]
fn replies(
    alloc: Global,
    rules: Rules,
    expander: &mut Expander<Source>,
    calls: &[Call<'_>],
    budget: &mut Budget,
) -> Result<Vec<Reply>, Stop>
    requires { All HasRoom calls.now }
    ensures { IfOk result (λ replies. RunsToEnd (answers_at expansion_limit) rules
        (seen source_state expander.old) (map call_of calls.now) replies.items) }
{
    let Some((call, others)) = calls.split_first() else {
        return Ok(Vec::new(alloc));
    };
    let reply = reply_to(alloc, rules, expander, call, budget)?;
    match replies(alloc, rules, expander, others, budget) {
        Ok(rest) => with_reply(reply, rest),
        Err(stop) => {
            drop(reply);
            Err(stop)
        }
    }
}

// The replies over the items of a source that is read by these rules.
fn replies_over(
    alloc: Global,
    rules: Rules,
    items: Vec<SourceItem>,
    calls: &[Call<'_>],
    budget: &mut Budget,
) -> Result<Vec<Reply>, Stop>
    requires { All HasRoom calls.now }
    ensures { IfOk result (λ replies. RunsToEnd (answers_at expansion_limit) rules
        (going_on [] (spec.start_by rules items.items)) (map call_of calls.now) replies.items) }
{
    let mut expander = start(alloc, rules, items)?;
    let replies = replies(alloc, rules, &mut expander, calls, budget);
    drop(expander);
    replies
}

// The replies over a source by these rules, within a budget.
fn run_within(
    alloc: Global,
    source: &str,
    rules: Rules,
    calls: &[Call<'_>],
    budget: &mut Budget,
) -> Result<Vec<Reply>, Stop>
    requires size { length source.now < 2 ^ 32 - 1 }
    requires contents { All HasRoom calls.now }
    ensures { IfOk result (λ replies. IsRunToEndBy rules source.now (map call_of calls.now)
        replies.items) }
{
    stays_short(calls.len())?;
    let items = items_by(alloc, source, rules)?;
    replies_over(alloc, rules, items, calls, budget)
}

/// Returns the replies of a source, read by these rules, to the calls, those after errors too. Returns `None` if that
/// takes more than this many steps, if the source, a content or an included text has more than 3,000 items or a
/// condition more than 3,000 words, or if there are more than 3,000 calls.
///
/// The source, each added content and each included text must have fewer than 2^32 - 1 bytes. The only error is that an
/// allocation failed.
pub fn run_by(
    alloc: Global,
    source: &str,
    rules: Rules,
    calls: &[Call<'_>],
    steps: u64,
) -> Result<Option<Vec<Reply>>, AllocError>
    requires size { length source.now < 2 ^ 32 - 1 }
    requires contents { All HasRoom calls.now }
    ensures { IfOk result (λ answer. IfSome answer
        (λ replies. IsRunToEndBy rules source.now (map call_of calls.now) replies.items)) }
{
    let mut budget = Budget { steps };
    match run_within(alloc, source, rules, calls, &mut budget) {
        Ok(replies) => Ok(Some(replies)),
        Err(Stop::OutOfBudget) => Ok(None),
        Err(Stop::OutOfMemory) => Err(AllocError),
    }
}

/// Does the same as [`run_by`] at [`Rules::PP_RS`].
pub fn run(
    alloc: Global,
    source: &str,
    calls: &[Call<'_>],
    steps: u64,
) -> Result<Option<Vec<Reply>>, AllocError>
    requires size { length source.now < 2 ^ 32 - 1 }
    requires contents { All HasRoom calls.now }
    ensures { IfOk result (λ answer. IfSome answer
        (λ replies. IsRunToEnd source.now (map call_of calls.now) replies.items)) }
{
    run_by(alloc, source, Rules::PP_RS, calls, steps)
}
