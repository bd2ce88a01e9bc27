//! Streams of items for C: a handle, and the calls over it.

ghost use Rattle.std.specs.Prelude.{◌≡◌, ◌≢◌, ◌↔◌, ◌⊎◌, ◌<◌, ◌≤◌, ◌-◌, ◌^◌, true, length, None, IfSome, MatchOption};
ghost use Rattle.std.specs.Prelude.{IsUtf8};
ghost use Rattle.pp_model.specs.Run.{include};
ghost use Rattle.pp_c.specs.Ends.{HasRoom};
ghost use Rattle.pp_c.specs.StreamCalls.{ran_out_of, CanGoOn, DefinesAs, Goes, IsBegun};
ghost use Rattle.pp_c.specs.Options.{all_unless_zero, says_text, AreStreamOptions, AreTextFlags};
ghost use Rattle.pp_c.specs.Preprocessed.{HasAskedItems};
ghost use Rattle.pp_c.specs.Streams.{shortage_number, GivesItems, GivesNothing, MakesCall};

mod batch;
mod handle;
mod loose;
mod state;

use crate::faults::written_fault;
use crate::items::{ContentFault, Item, Sizes};
use crate::options::{IS_UTF8, Options, most_asking, says_text};
use crate::status::Status;
pub use handle::Stream;
use state::State;
use std::alloc::Global;

/// Opens a stream of the items of `source`, by the rules of the options and within their budget, which is of all its
/// calls. The stream is closed before, if it is open.
///
/// The flags are bits: 1 asks `#include` lines for their texts, and with 2 the source is taken for UTF-8 without a
/// look. The number of items of the options has to be 0.
///
/// Returns a [`Status`] as a number: `PP_DONE`, `PP_NOT_UTF8`, `PP_TOO_LONG`, `PP_OUT_OF_MEMORY`, or `PP_BAD_OPTIONS`
/// if this library doesn't know the options or the flags. Without `PP_DONE` the stream is closed. The time is that of a
/// look at the source.
#[unsafe(no_mangle)]
pub extern "C" fn pp_stream_open(
    alloc: Global,
    options: &Options,
    flags: u32,
    source: &'static [u8],
    stream: &mut Stream,
) -> u32
    requires text { says_text flags ≡ true → IsUtf8 source.now }
    ensures answer { (result ≡ 0) ⊎ (result ≡ 2) ⊎ (result ≡ 3) ⊎ (result ≡ 5) ⊎ (result ≡ 8) }
    ensures opened { result ≡ 0 → MatchOption stream.new.kept ⊥ (IsBegun options.now flags source.now) }
    ensures closed { result ≢ 0 → stream.new.kept ≡ None }
    ensures bad_options { (result ≡ 8) ↔ ¬ (AreStreamOptions options.now flags) }
    ensures not_utf8 { AreStreamOptions options.now flags
        → ((result ≡ 2) ↔ ((length source.now < 2 ^ 32 - 1) × ¬ (IsUtf8 source.now))) }
    ensures too_long { AreStreamOptions options.now flags → ((result ≡ 3) ↔ (2 ^ 32 - 1 ≤ length source.now)) }
{
    stream.close(alloc);
    let Some(setting) = options.stream_setting(flags) else {
        return Status::BadOptions as u32;
    };
    match State::open(alloc, setting, says_text(flags), source) {
        Ok(state) => match Box::new(alloc, state) {
            Ok(state) => {
                stream.keep(alloc, state);
                Status::Done as u32
            }
            Err(_) => Status::OutOfMemory as u32,
        },
        Err(refusal) => refusal.number(),
    }
}

/// Gives the next items of the stream: at most `most`, or any number if that is 0, up to the end or a line that asks
/// for its text, and as many as there is room for. Items that belong to another item don't count.
///
/// Items and texts are written as by `pp_preprocess_including`, and so are the numbers of texts. Places of texts are in
/// `texts` of this call. `sizes` says how much was written.
///
/// Returns a [`Status`] as a number: `PP_PARTIAL` if more may come; `PP_INCLUDE` if the last item is a line that asks
/// for its text; `PP_DONE` if the end was reached, behind which a definition or a text may bring more; `PP_TOO_SMALL`
/// if not even the first item has room: `sizes` says how much it takes, and it stays the next; `PP_CLOSED` if the
/// stream isn't open. With `PP_OUT_OF_MEMORY` and `PP_OVER_BUDGET` no item is given, nor by any later call. The time is
/// that of the items that are given and one more.
#[unsafe(no_mangle)]
pub extern "C" fn pp_stream_next(
    alloc: Global,
    stream: &mut Stream,
    most: u64,
    items: &mut [Item],
    texts: &mut [u8],
    numbers: &mut [u32],
    sizes: &mut Sizes,
) -> u32
    ensures answer { HasAskedItems result ⊎ (result ≡ 5) ⊎ (result ≡ 6) ⊎ (result ≡ 11) }
    ensures closed { (result ≡ 11) ↔ (stream.old.kept ≡ None) }
    ensures stays { stream.old.kept ≡ None → stream.new.kept ≡ None }
    ensures given { HasAskedItems result → Goes
        (λ old new. GivesItems (all_unless_zero most) result old new
        items.old items.new texts.old texts.new sizes.new)
        stream.old.kept stream.new.kept }
    ensures room { (result ≡ 0) ⊎ (result ≡ 7) ⊎ (result ≡ 9)
        → HasRoom (length items.old) (length texts.old) sizes.new }
    ensures too_small { result ≡ 1 → ¬ (HasRoom (length items.old) (length texts.old) sizes.new) }
    ensures short { (result ≡ 5) ⊎ (result ≡ 6) → Goes (GivesNothing result) stream.old.kept stream.new.kept }
    ensures ran_out { IfSome (ran_out_of stream.old.kept) (λ shortage.
        (result ≡ shortage_number shortage) × (stream.new.kept ≡ stream.old.kept)) }
    ensures over_budget { result ≡ 6 → CanGoOn stream.old.kept
        → IfSome stream.old.kept (λ old. old.is_bounded ≡ true) }
{
    let Some(mut state) = stream.take(alloc) else {
        return Status::Closed as u32;
    };
    let answer = state.next(alloc, most_asking(most), items, texts, numbers, sizes);
    stream.keep(alloc, state);
    answer
}

/// Adds a definition without parameters behind the items that were read, which are those that were given and, if the
/// last call left one for want of room, that one. Or writes the first error of its content into `fault`, and 0 if it
/// has none.
///
/// Returns a [`Status`] as a number: `PP_DONE`, also if the content has an error; `PP_NOT_UTF8`, `PP_TOO_LONG`,
/// `PP_OUT_OF_MEMORY`, or `PP_CLOSED`: then nothing happens. Once memory or the budget ran out for an item, it is the
/// same as of that. The time is that of the content.
#[unsafe(no_mangle)]
pub extern "C" fn pp_stream_define(
    alloc: Global,
    stream: &mut Stream,
    name: &[u8],
    content: &[u8],
    fault: &mut ContentFault,
) -> u32
    ensures answer { (result ≡ 0) ⊎ (result ≡ 2) ⊎ (result ≡ 3) ⊎ (result ≡ 5) ⊎ (result ≡ 6) ⊎ (result ≡ 11) }
    ensures closed { (result ≡ 11) ↔ (stream.old.kept ≡ None) }
    ensures defines { result ≡ 0
        → Goes (DefinesAs name.now content.now fault.new) stream.old.kept stream.new.kept }
    ensures stays { result ≢ 0 → stream.new.kept ≡ stream.old.kept }
    ensures not_utf8 { CanGoOn stream.old.kept → ((result ≡ 2)
        ↔ ((length content.now < 2 ^ 32 - 1) × ¬ (IsUtf8 name.now × IsUtf8 content.now))) }
    ensures too_long { CanGoOn stream.old.kept → ((result ≡ 3) ↔ (2 ^ 32 - 1 ≤ length content.now)) }
    ensures ran_out { IfSome (ran_out_of stream.old.kept) (λ shortage. result ≡ shortage_number shortage) }
    ensures over_budget { result ≡ 6 → ¬ (CanGoOn stream.old.kept) }
{
    let Some(mut state) = stream.take(alloc) else {
        return Status::Closed as u32;
    };
    let answer = match state.define(name, content) {
        Ok(found) => {
            *fault = written_fault(found);
            Status::Done as u32
        }
        Err(refusal) => refusal.number(),
    };
    stream.keep(alloc, state);
    answer
}

/// Includes a text behind the items that were read: what comes next is the text's, and after its end what came next
/// before. With the flag 2 it is taken for UTF-8 without a look.
///
/// Returns a [`Status`] as a number: `PP_DONE`; `PP_NOT_UTF8`, `PP_TOO_LONG`, `PP_OUT_OF_MEMORY`, `PP_TOO_DEEP` inside
/// of 200 others, `PP_BAD_OPTIONS` for any other flag but 0, or `PP_CLOSED`: then nothing happens. Once memory or the
/// budget ran out for an item, it is the same as of that.
#[unsafe(no_mangle)]
pub extern "C" fn pp_stream_include(
    alloc: Global,
    stream: &mut Stream,
    flags: u32,
    text: &'static [u8],
) -> u32
    requires text { says_text flags ≡ true → IsUtf8 text.now }
    ensures answer { (result ≡ 0) ⊎ (result ≡ 2) ⊎ (result ≡ 3) ⊎ (result ≡ 5) ⊎ (result ≡ 6) ⊎ (result ≡ 8)
        ⊎ (result ≡ 10) ⊎ (result ≡ 11) }
    ensures bad_flags { (result ≡ 8) ↔ ¬ (AreTextFlags flags) }
    ensures closed { AreTextFlags flags → ((result ≡ 11) ↔ (stream.old.kept ≡ None)) }
    ensures includes { result ≡ 0 → Goes (MakesCall (include text.now)) stream.old.kept stream.new.kept }
    ensures stays { result ≢ 0 → stream.new.kept ≡ stream.old.kept }
    ensures not_utf8 { AreTextFlags flags → CanGoOn stream.old.kept
        → ((result ≡ 2) ↔ ((length text.now < 2 ^ 32 - 1) × ¬ (IsUtf8 text.now))) }
    ensures too_long { AreTextFlags flags → CanGoOn stream.old.kept
        → ((result ≡ 3) ↔ (2 ^ 32 - 1 ≤ length text.now)) }
    ensures ran_out { AreTextFlags flags
        → IfSome (ran_out_of stream.old.kept) (λ shortage. result ≡ shortage_number shortage) }
    ensures over_budget { result ≡ 6 → ¬ (CanGoOn stream.old.kept) }
    ensures too_deep { result ≡ 10 → CanGoOn stream.old.kept }
{
    if flags != 0 && flags != IS_UTF8 {
        return Status::BadOptions as u32;
    }
    let Some(mut state) = stream.take(alloc) else {
        return Status::Closed as u32;
    };
    let answer = match state.include(says_text(flags), text) {
        Ok(()) => Status::Done as u32,
        Err(refusal) => refusal.number(),
    };
    stream.keep(alloc, state);
    answer
}

/// Closes the stream, and gives its memory back. Nothing happens if it isn't open.
#[unsafe(no_mangle)]
pub extern "C" fn pp_stream_close(alloc: Global, stream: &mut Stream)
    ensures { stream.new.kept ≡ None }
{
    stream.close(alloc);
}
