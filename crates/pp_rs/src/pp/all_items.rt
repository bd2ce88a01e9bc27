//! All items of a source at once.

ghost use Rattle.std.specs.Prelude.{◌≡◌, [], false, Some, IfOk, OnOk, IfErr, OnErr, All};
ghost use Rattle.pp_lexer.specs.PreprocessorError.{out_of_memory};
ghost use Rattle.pp_rs.specs.Collecting.{AreItemsOf, AreReported, AreItemsToEnd, AreAppended, AreAllAppended};
ghost use Rattle.pp_rs.specs.Collecting.{IsGivenUp, IsDrained};
ghost use Rattle.pp_macros.specs.Held.{ItemHoldsOrdinary};
ghost use Rattle.pp_rs.specs.Kept.{is_spent, most_items, errors_left};
ghost use Rattle.pp_rs.specs.Preprocessing.{is_refusal};

use crate::pp::preprocessor::{Preprocessor, PreprocessorItem};
use crate::token::{Location, PreprocessorError, out_of_memory};
use std::alloc::{AllocError, Global};

// Whether the item is the error `OutOfMemory`.
fn is_refusal(item: &PreprocessorItem) -> bool
    ensures { result ≡ is_refusal (Some item.now) }
{
    matches!(item, Err((PreprocessorError::OutOfMemory, _)))
}

// Appends the items up to the end to the list. Room for an item is allocated before the item is read.
fn gather(pp: &mut Preprocessor<'_>, items: &mut Vec<PreprocessorItem>) -> Result<(), AllocError>
    ensures all { OnOk result (AreAllAppended pp.old items.old.items items.new.items pp.new) }
    ensures appended { OnErr result (AreAppended pp.old items.old.items items.new.items pp.new) }
{
    'items: loop {
        items.reserve(1)?;
        let Some(item) = pp.next() else {
            return Ok(());
        };
        if is_refusal(&item) {
            drop(item);
            return Err(AllocError);
        }
        items.push(item)?;
    }
}

/// Calls `next` until it returns `None`, and appends the items to the list, error items among them. pp-rs 0.2.1 has no
/// such function.
///
/// The error is `OutOfMemory`, if an allocation fails. No item is lost then: the list holds all items that were read.
/// If the list can't grow, `next` goes on after these items. If memory for an item runs out, `next` returns `None` from
/// then on.
pub fn append_all(
    pp: &mut Preprocessor<'_>,
    items: &mut Vec<PreprocessorItem>,
) -> Result<(), (PreprocessorError, Location)>
    ensures all { OnOk result (AreAllAppended pp.old items.old.items items.new.items pp.new) }
    ensures refused { IfErr result (λ fault. fault ≡ out_of_memory) }
    ensures appended { OnErr result (AreAppended pp.old items.old.items items.new.items pp.new) }
{
    match gather(pp, items) {
        Ok(()) => Ok(()),
        Err(_) => Err(out_of_memory()),
    }
}

/// Calls `next` until it returns `None`, and returns all items that were left, error items among them. pp-rs 0.2.1 has
/// no such function.
///
/// The error is `OutOfMemory`, if an allocation fails. The items that were read are dropped then; [`append_all`] keeps
/// them. If memory for an item runs out, `next` returns `None` from then on. If the list of the items can't grow,
/// `next` goes on after the items that were read.
pub fn preprocess_all(
    alloc: Global,
    pp: &mut Preprocessor<'_>,
) -> Result<Vec<PreprocessorItem>, (PreprocessorError, Location)>
    ensures items { IfOk result (λ items. AreItemsOf pp.old items.items) }
    ensures holds { IfOk result (λ items. All ItemHoldsOrdinary items.items) }
    ensures ended { OnOk result (most_items pp.new ≡ 0) }
    ensures spent { OnOk result (is_spent pp.new ≡ is_spent pp.old) }
    ensures reports { IfOk result (λ items. AreReported pp.old items.items pp.new) }
    ensures reports_all { OnOk result (is_spent pp.old ≡ false → errors_left pp.new ≡ []) }
    ensures by_next { IfOk result (λ items. AreItemsToEnd pp.old items.items pp.new) }
    ensures refused { IfErr result (λ fault. fault ≡ out_of_memory) }
    ensures given_up { OnErr result (IsGivenUp pp.old pp.new) }
{
    let mut items = Vec::new(alloc);
    append_all(pp, &mut items)?;
    Ok(items)
}

/// Calls `next` until it returns `None`, and drops the items. pp-rs 0.2.1 has no such function.
///
/// It ends after any calls, also after errors and after a failed allocation, and allocates nothing of its own. From
/// then on `next` returns `None`, whatever is added. If memory runs out for an item, the items after it aren't read.
pub fn drain(pp: &mut Preprocessor<'_>)
    ensures ended { most_items pp.new ≡ 0 }
    ensures drained { IsDrained pp.old pp.new }
    ensures reports_all { is_spent pp.new ≡ false → errors_left pp.new ≡ [] }
{
    'items: loop {
        match pp.next() {
            Some(item) => drop(item),
            None => return,
        }
    }
}
