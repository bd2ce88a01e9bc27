//! What a case gives: by the plain program, by the preprocessor's list of replies, and by its items one by one.

ghost use Rattle.std.specs.Prelude.{◌-◌, ◌^◌, ◌<◌, length};

use crate::case::{Act, Case};
use pp_reference::run::run;
use pp_rs::SOURCE_LIMIT;
use pp_rs::pp::{self, Call, Outcome, Preprocessor, PreprocessorItem, Reply, preprocess_all};
use pp_rs::token::{Location, PreprocessorError};
use std::alloc::{AllocError, Global};
use test_shown::{have_room, item, joined, reply};

// More steps than any source here needs.
const STEPS: u64 = 1_000_000;

// More items than any source here gives.
const ITEMS: u32 = 100;

fn call_of<'a>(act: &'a Act) -> Call<'a> {
    match act {
        Act::Add { name, content } => Call::AddDefine(name.as_str(), content.as_str()),
        Act::Next => Call::Next,
    }
}

/// The calls of a case: what it does, and then one for each item that is left.
pub(crate) fn calls_of<'a>(alloc: Global, case: &'a Case) -> Result<Vec<Call<'a>>, AllocError> {
    let mut calls = Vec::new(alloc);
    for act in &case.acts {
        calls.push(call_of(act))?;
    }
    for _ in 0..ITEMS {
        calls.push(Call::Next)?;
    }
    Ok(calls)
}

/// Items as text.
#[derive(Drop)]
pub(crate) struct Items {
    /// Those up to the end or the first error.
    pub(crate) first: Vec<String>,
    /// Those after the first error, up to the end.
    pub(crate) after: Vec<String>,
    failed: bool,
}

impl Items {
    // None.
    fn new(alloc: Global) -> Items {
        Items {
            first: Vec::new(alloc),
            after: Vec::new(alloc),
            failed: false,
        }
    }

    // One more.
    fn push(&mut self, shown: String, fails: bool) -> Result<(), AllocError> {
        if self.failed {
            self.after.push(shown)?;
        } else {
            self.first.push(shown)?;
        }
        self.failed = self.failed || fails;
        Ok(())
    }
}

// The replies as text, up to the end.
fn shown(alloc: Global, replies: &[Reply]) -> Result<Items, AllocError> {
    let mut items = Items::new(alloc);
    for given in replies {
        let text = reply(alloc, given)?;
        items.push(text, matches!(given, Reply::Given(Outcome::Fault(_))))?;
        if matches!(given, Reply::Given(Outcome::End)) {
            break;
        }
    }
    Ok(items)
}

// What stands for the items if there is no answer.
fn no_answer(alloc: Global) -> Result<Items, AllocError> {
    let mut items = Items::new(alloc);
    put_text(alloc, "no answer", &mut items)?;
    Ok(items)
}

/// What the calls give by the plain program, up to the end.
pub(crate) fn by_the_plain_program(
    alloc: Global,
    source: &str,
    calls: &[Call<'_>],
) -> Result<Items, AllocError> {
    if source.len() < SOURCE_LIMIT && have_room(calls) {
        if let Some(replies) = run(alloc, source, calls, STEPS)? {
            let items = shown(alloc, &replies);
            drop(replies);
            return items;
        }
    }
    no_answer(alloc)
}

/// The same by the preprocessor's list of replies.
pub(crate) fn by_replies(
    alloc: Global,
    source: &str,
    calls: &[Call<'_>],
) -> Result<Items, AllocError> {
    if source.len() < SOURCE_LIMIT && have_room(calls) {
        let replies = pp::replies(alloc, source, calls)?;
        let items = shown(alloc, &replies);
        drop(replies);
        return items;
    }
    no_answer(alloc)
}

fn put_text(alloc: Global, text: &str, items: &mut Items) -> Result<(), AllocError> {
    items.push(String::from_str(alloc, text)?, false)
}

fn put_item(alloc: Global, given: &PreprocessorItem, items: &mut Items) -> Result<(), AllocError> {
    items.push(item(alloc, given)?, given.is_err())
}

// What adding a definition returns.
fn put_addition(
    alloc: Global,
    answer: Result<(), (PreprocessorError, Location)>,
    items: &mut Items,
) -> Result<(), AllocError> {
    let answer = match answer {
        Ok(()) => Reply::Added,
        Err(fault) => Reply::Refused(fault),
    };
    let text = reply(alloc, &answer);
    drop(answer);
    items.push(text?, false)
}

// What an act returns.
fn act_on(
    alloc: Global,
    pp: &mut Preprocessor<'_>,
    act: &Act,
    items: &mut Items,
) -> Result<(), AllocError> {
    match act {
        Act::Add { name, content } if content.len() < SOURCE_LIMIT => {
            put_addition(alloc, pp.add_define(name.as_str(), content.as_str()), items)
        }
        Act::Add { .. } => put_text(alloc, "no answer", items),
        Act::Next => match pp.next() {
            Some(given) => {
                let put = put_item(alloc, &given, items);
                drop(given);
                put
            }
            None => put_text(alloc, "None", items),
        },
    }
}

// All of these items.
fn put_each(
    alloc: Global,
    given: &[PreprocessorItem],
    items: &mut Items,
) -> Result<(), AllocError> {
    for one in given {
        put_item(alloc, one, items)?;
    }
    Ok(())
}

fn put_left(alloc: Global, pp: &mut Preprocessor<'_>, items: &mut Items) -> Result<(), AllocError> {
    match preprocess_all(alloc, pp) {
        Ok(left) => {
            let put = put_each(alloc, &left, items);
            drop(left);
            put
        }
        Err(_) => Err(AllocError),
    }
}

// The items that are left, and the end twice.
fn items_left(
    alloc: Global,
    pp: &mut Preprocessor<'_>,
    items: &mut Items,
) -> Result<(), AllocError> {
    put_left(alloc, pp, items)?;
    if pp.next().is_some() || pp.next().is_some() {
        return put_text(alloc, "an item after the end", items);
    }
    put_text(alloc, "None", items)
}

// The items of a source with these acts.
fn put_items(alloc: Global, source: &str, acts: &[Act], items: &mut Items) -> Result<(), AllocError>
    requires { length source.now < 2 ^ 32 - 1 }
{
    let mut pp = Preprocessor::new(alloc, source);
    let done = act_in_order(alloc, &mut pp, acts, items);
    drop(pp);
    done
}

// What its acts give, and then the items that are left.
fn act_in_order(
    alloc: Global,
    pp: &mut Preprocessor<'_>,
    acts: &[Act],
    items: &mut Items,
) -> Result<(), AllocError> {
    for act in acts {
        act_on(alloc, pp, act, items)?;
    }
    items_left(alloc, pp, items)
}

/// What a case gives by the preprocessor, item by item, past errors too.
pub(crate) fn by_items(alloc: Global, case: &Case) -> Result<Items, AllocError> {
    let mut items = Items::new(alloc);
    if case.source.len() < SOURCE_LIMIT {
        put_items(
            alloc,
            case.source.as_str(),
            case.acts.as_slice(),
            &mut items,
        )?;
    }
    Ok(items)
}
