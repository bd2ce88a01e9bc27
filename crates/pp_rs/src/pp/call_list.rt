//! The replies to a list of calls.

ghost use Rattle.std.specs.Prelude.{◌≡◌, ◌-◌, ◌^◌, ◌<◌, false, length, map, All, IfOk, OnOk, Some, Err};
ghost use Rattle.pp_model.specs.Run.{add_define, include, next, call_of, HasRoom};
ghost use Rattle.pp_model.specs.RunToEnd.{IsRunToEnd, IsRunToEndBy};
ghost use Rattle.pp_rs.specs.inner.Answering.{IsAnswered, AreReplies};
ghost use Rattle.pp_macros.specs.Item.{is_out_of_memory};
ghost use Rattle.pp_rs.specs.Kept.{is_spent};
ghost use Rattle.pp_rs.specs.Preprocessing.{outcome_of};

use crate::pp::including::IncludeError;
use crate::pp::preprocessor::Preprocessor;
use crate::rules::Rules;
use crate::token::Location;
use pp_macros::step::is_out_of_memory;
use pp_model::call::{Call, Reply};
use pp_model::outcome::{Fault, IncludeLine, Outcome};
use std::alloc::{AllocError, Global};

// The error, unless it is `OutOfMemory`.
fn reported_fault(fault: Fault) -> Result<Fault, AllocError>
    ensures { IfOk result (λ reported. (reported ≡ fault) × (is_out_of_memory reported.0 ≡ false)) }
{
    if is_out_of_memory(&fault.0) {
        return Err(AllocError);
    }
    Ok(fault)
}

// The reply to an `add_define`.
fn reply_to_definition(
    pp: &mut Preprocessor<'_>,
    name: &str,
    content: &str,
) -> Result<Reply, AllocError>
    requires room { length content.now < 2 ^ 32 - 1 }
    requires unspent { is_spent pp.old ≡ false }
    ensures { IfOk result (λ reply. IsAnswered pp.old (add_define name.now content.now) reply
        pp.new) }
{
    match pp.add_define(name, content) {
        Ok(()) => Ok(Reply::Added),
        Err(fault) => Ok(Reply::Refused(reported_fault(fault)?)),
    }
}

// The reply to an `include`.
fn reply_to_text<'a>(pp: &mut Preprocessor<'a>, text: &'a str) -> Result<Reply, AllocError>
    requires room { length text.now < 2 ^ 32 - 1 }
    requires unspent { is_spent pp.old ≡ false }
    ensures { IfOk result (λ reply. IsAnswered pp.old (include text.now) reply pp.new) }
{
    match pp.include(text) {
        Ok(()) => Ok(Reply::Included),
        Err(IncludeError::TooDeep) => Ok(Reply::TooDeep),
        Err(IncludeError::TooLong | IncludeError::OutOfMemory) => Err(AllocError),
    }
}

// The outcome of an error that is an `#include` line which asks for this, if for any.
fn error_outcome(fault: Fault, asks: Option<Location>) -> Result<Outcome, AllocError>
    ensures item { IfOk result (λ outcome. outcome ≡ outcome_of (Some (Err fault)) asks) }
    ensures reported { OnOk result (is_out_of_memory fault.0 ≡ false) }
{
    let fault = reported_fault(fault)?;
    match asks {
        Some(rest) => Ok(Outcome::Include(IncludeLine {
            word: fault.1,
            rest,
        })),
        None => Ok(Outcome::Fault(fault)),
    }
}

// The reply to a `next`.
fn reply_to_next(pp: &mut Preprocessor<'_>) -> Result<Reply, AllocError>
    requires { is_spent pp.old ≡ false }
    ensures { IfOk result (λ reply. IsAnswered pp.old next reply pp.new) }
{
    match pp.next() {
        Some(Ok(token)) => Ok(Reply::Given(Outcome::Token(token))),
        Some(Err(fault)) => Ok(Reply::Given(error_outcome(fault, pp.include_line())?)),
        None => Ok(Reply::Given(Outcome::End)),
    }
}

// The reply to a call.
fn reply_to<'a>(pp: &mut Preprocessor<'a>, call: &Call<'a>) -> Result<Reply, AllocError>
    requires room { HasRoom call.now }
    requires unspent { is_spent pp.old ≡ false }
    ensures { IfOk result (λ reply. IsAnswered pp.old (call_of call.now) reply pp.new) }
{
    match call {
        Call::AddDefine(name, content) => reply_to_definition(pp, name, content),
        Call::Include(text) => reply_to_text(pp, text),
        Call::Next => reply_to_next(pp),
    }
}

// The replies of a preprocessor to the calls.
fn replies_to<'a>(
    alloc: Global,
    pp: &mut Preprocessor<'a>,
    calls: &[Call<'a>],
) -> Result<Vec<Reply>, AllocError>
    requires contents { All HasRoom calls.now }
    requires unspent { is_spent pp.old ≡ false }
    ensures { IfOk result (λ replies. AreReplies pp.old (map call_of calls.now) replies.items) }
{
    let mut replies = Vec::new(alloc);
    for call in calls {
        let reply = reply_to(pp, call)?;
        replies.push(reply)?;
    }
    Ok(replies)
}

/// Returns the replies of a preprocessor of the source to the calls, made one after another, those after errors too.
/// pp-rs 0.2.1 has no such function.
///
/// By the law [`runs_to_end`](crate::laws::runs_to_end) there are no other such replies, and those up to and with the
/// first error item are the run that ends with it.
///
/// The source and each added content must have fewer than 2^32 - 1 bytes. The only error is that an allocation failed,
/// for a reply or for the list of replies. No replies are returned then.
pub fn replies<'a>(
    alloc: Global,
    source: &'a str,
    calls: &[Call<'a>],
) -> Result<Vec<Reply>, AllocError>
    requires size { length source.now < 2 ^ 32 - 1 }
    requires contents { All HasRoom calls.now }
    ensures { IfOk result (λ replies. IsRunToEnd source.now (map call_of calls.now) replies.items) }
{
    replies_by(alloc, source, Rules::PP_RS, calls)
}

/// Does what `replies` does, by these rules: the source and each content are read by them. `replies` is this at
/// [`Rules::PP_RS`].
pub fn replies_by<'a>(
    alloc: Global,
    source: &'a str,
    rules: Rules,
    calls: &[Call<'a>],
) -> Result<Vec<Reply>, AllocError>
    requires size { length source.now < 2 ^ 32 - 1 }
    requires contents { All HasRoom calls.now }
    ensures { IfOk result (λ replies. IsRunToEndBy rules source.now (map call_of calls.now) replies.items) }
{
    let mut pp = Preprocessor::with_rules(alloc, source, rules);
    let replies = replies_to(alloc, &mut pp, calls);
    drop(pp);
    replies
}
