//! The preprocessor and its lexer for C: one call gives all items of a source, in the caller's memory. `include/pp.h`
//! declares the functions and types here, and says what a caller in C has to uphold.
#![tactic(auto)]

ghost use Rattle.std.specs.Prelude.{◌≡◌, ◌≢◌, ◌↔◌, ◌⊎◌, ◌<◌, ◌≤◌, ◌-◌, ◌^◌, false, map, length, None, IsUtf8, All};
ghost use Rattle.std.specs.Prelude.{Any, IsTrue, true};
ghost use Rattle.pp_rs.specs.Positions.{line_column};
ghost use Rattle.pp_c.specs.Calls.{answered, answered_by, answered_in, is_text, CanEnter, Fits, HasLongContent};
ghost use Rattle.pp_c.specs.Calls.{LacksWords, LiesOutside};
ghost use Rattle.pp_c.specs.Ends.{HasRoom};
ghost use Rattle.pp_c.specs.Lexing.{lexer_entries};
ghost use Rattle.pp_c.specs.Options.{AreOptions, asking_rules_in, rules_in};
ghost use Rattle.pp_c.specs.Preprocessed.{AreWritten, HasAskedItems, HasItems, Includes, Preprocesses};
ghost use Rattle.pp_c.specs.Preprocessed.{PreprocessesWith};
ghost use Rattle.pp_c.specs.inner.Making.{Answers};
ghost use Rattle.pp_c.specs.inner.Settings.{takes_texts};

mod definitions;
mod faults;
mod items;
pub mod laws;
mod lexing;
mod options;
mod output;
mod preprocessing;
mod status;
mod stream;
mod words;

use definitions::LIMIT;
pub use items::{ContentFault, Definition, Item, Position, Sizes};
use lexing::lex;
pub use options::Options;
use options::Setting;
use output::Output;
use pp_rs::lexer::line_column;
use preprocessing::preprocess;
use status::{End, Status, status_after};
use std::alloc::Global;
use std::str;
pub use stream::{
    Stream, pp_stream_close, pp_stream_define, pp_stream_include, pp_stream_next, pp_stream_open,
};

// The room that the caller provides.
fn room_of(items: &[Item], texts: &[u8]) -> Sizes
    ensures items { result.items ≡ length items.now }
    ensures texts { result.texts ≡ length texts.now }
{
    Sizes {
        items: items.len() as u64,
        texts: texts.len() as u64,
    }
}

// Gives the items of a source in the caller's memory, those that the setting asks for.
fn answer(
    alloc: Global,
    setting: Setting,
    source: &[u8],
    words: &[u8],
    definitions: &mut [Definition],
    items: &mut [Item],
    texts: &mut [u8],
    numbers: &mut [u32],
    sizes: &mut Sizes,
) -> u32
    requires { setting.most_items ≡ None → setting.passes ≡ None }
    ensures answer { (result < 8) ⊎ (IsTrue (takes_texts setting) × ((result ≡ 9) ⊎ (result ≡ 10))) }
    ensures given { HasAskedItems result → Answers setting result source.now words.now
        definitions.old items.old items.new texts.old texts.new sizes.new }
    ensures answered { HasAskedItems result
        → definitions.new ≡ map (answered_in (takes_texts setting) setting.rules words.now) definitions.old }
    ensures room { (result ≡ 0) ⊎ (result ≡ 7) ⊎ (result ≡ 9)
        → HasRoom (length items.old) (length texts.old) sizes.new }
    ensures too_small { result ≡ 1 → ¬ (HasRoom (length items.old) (length texts.old) sizes.new) }
    ensures text { HasAskedItems result → IsUtf8 source.now × IsUtf8 words.now }
    ensures fit { HasAskedItems result → All (CanEnter (takes_texts setting) words.now) definitions.old }
    ensures not_utf8 { (result ≡ 2)
        ↔ ((length source.now < 2 ^ 32 - 1) × ¬ (IsUtf8 source.now × IsUtf8 words.now)) }
    ensures long_source { 2 ^ 32 - 1 ≤ length source.now → result ≡ 3 }
    ensures too_long { result ≡ 3
        → (2 ^ 32 - 1 ≤ length source.now) ⊎ Any (HasLongContent words.now) definitions.old }
    ensures bad_definition { result ≡ 4
        → Any (LacksWords (takes_texts setting) words.now) definitions.old }
    ensures over_budget { result ≡ 6 → setting.budget ≢ None }
    ensures too_deep { result ≡ 10
        → Any (λ definition. is_text (takes_texts setting) definition ≡ true) definitions.old }
{
    let room = room_of(items, texts);
    let mut output = Output::new(items, texts);
    let end = preprocess(
        alloc,
        setting,
        source,
        words,
        definitions,
        numbers,
        &mut output,
    );
    let wanted = output.sizes();
    *sizes = wanted;
    status_after(end, wanted, room) as u32
}

/// Preprocesses `source` by pp-rs's rules, and writes its items into `items` and their texts into `texts`. Error items
/// are among them, and items follow them.
///
/// Each of `definitions` is added as soon as its number of items was given and the definitions before it were added. If
/// its number isn't reached, it is added after the last item. The error of its content, or 0, is written into it.
///
/// With `PP_DONE` the items are at the front of `items`, and their texts, one after another, at the front of `texts`.
/// The rest of both is unchanged.
///
/// Returns a [`Status`] as a number. `sizes` says how much room all items and texts take. If the caller provides less,
/// the status is `PP_TOO_SMALL`, and a call with that much room returns the items.
#[unsafe(no_mangle)]
pub extern "C" fn pp_preprocess(
    alloc: Global,
    source: &[u8],
    words: &[u8],
    definitions: &mut [Definition],
    items: &mut [Item],
    texts: &mut [u8],
    sizes: &mut Sizes,
) -> u32
    ensures answer { result < 6 }
    ensures given { result < 2 → Preprocesses source.now words.now definitions.old
        items.old items.new texts.old texts.new sizes.new }
    ensures answered { result < 2 → definitions.new ≡ map (answered words.now) definitions.old }
    ensures done { result ≡ 0 → HasRoom (length items.old) (length texts.old) sizes.new }
    ensures too_small { result ≡ 1 → ¬ (HasRoom (length items.old) (length texts.old) sizes.new) }
    ensures text { result < 2 → IsUtf8 source.now × IsUtf8 words.now }
    ensures fit { result < 2 → All (Fits words.now) definitions.old }
    ensures not_utf8 { (result ≡ 2)
        ↔ ((length source.now < 2 ^ 32 - 1) × ¬ (IsUtf8 source.now × IsUtf8 words.now)) }
    ensures long_source { 2 ^ 32 - 1 ≤ length source.now → result ≡ 3 }
    ensures too_long { result ≡ 3
        → (2 ^ 32 - 1 ≤ length source.now) ⊎ Any (HasLongContent words.now) definitions.old }
    ensures bad_definition { result ≡ 4 → Any (LiesOutside words.now) definitions.old }
{
    answer(
        alloc,
        Setting::PLAIN,
        source,
        words,
        definitions,
        items,
        texts,
        &mut [],
        sizes,
    )
}

/// Does what [`pp_preprocess`] does, by the rules that the options name, within a budget of steps, and up to a number
/// of items. With 0 for each of these it is the same.
///
/// A step is a token that is read, put on a list, or passed in the body or an argument of a macro, wherever that
/// happens. Some thousand bytes of dead text may be one step. If the items need more steps than the budget has, the
/// status is `PP_OVER_BUDGET`. So the time and the memory that a call takes are bounded by the budget, by the length
/// of the longest token, and by the definitions, which take no steps.
///
/// If `most_items` isn't 0, the call stops after so many items, and takes no more time than these and the definitions
/// do. Items that belong to another item don't count. Then the status is `PP_PARTIAL`, also if no item follows, and a
/// definition whose number isn't reached is added after the last item. If there are fewer items, it is `PP_DONE`.
///
/// If the options have another size than [`Options`], or rules that aren't among its rules, the status is
/// `PP_BAD_OPTIONS`.
#[unsafe(no_mangle)]
pub extern "C" fn pp_preprocess_with(
    alloc: Global,
    options: &Options,
    source: &[u8],
    words: &[u8],
    definitions: &mut [Definition],
    items: &mut [Item],
    texts: &mut [u8],
    sizes: &mut Sizes,
) -> u32
    ensures answer { result < 9 }
    ensures bad_options { (result ≡ 8) ↔ ¬ (AreOptions options.now) }
    ensures given { HasItems result → PreprocessesWith options.now result source.now words.now definitions.old
        items.old items.new texts.old texts.new sizes.new }
    ensures answered { HasItems result
        → definitions.new ≡ map (answered_by (rules_in options.now) words.now) definitions.old }
    ensures room { (result ≡ 0) ⊎ (result ≡ 7) → HasRoom (length items.old) (length texts.old) sizes.new }
    ensures too_small { result ≡ 1 → ¬ (HasRoom (length items.old) (length texts.old) sizes.new) }
    ensures text { HasItems result → IsUtf8 source.now × IsUtf8 words.now }
    ensures fit { HasItems result → All (Fits words.now) definitions.old }
    ensures not_utf8 { AreOptions options.now → ((result ≡ 2)
        ↔ ((length source.now < 2 ^ 32 - 1) × ¬ (IsUtf8 source.now × IsUtf8 words.now))) }
    ensures long_source { AreOptions options.now → 2 ^ 32 - 1 ≤ length source.now → result ≡ 3 }
    ensures too_long { result ≡ 3
        → (2 ^ 32 - 1 ≤ length source.now) ⊎ Any (HasLongContent words.now) definitions.old }
    ensures bad_definition { result ≡ 4 → Any (LiesOutside words.now) definitions.old }
    ensures over_budget { result ≡ 6 → options.now.budget ≢ 0 }
{
    let Some(setting) = options.setting() else {
        return Status::BadOptions as u32;
    };
    answer(
        alloc,
        setting,
        source,
        words,
        definitions,
        items,
        texts,
        &mut [],
        sizes,
    )
}

/// Does what [`pp_preprocess_with`] does, by rules that ask for the text of each `#include` line, which the caller
/// hands in.
///
/// The call stops after such a line, once it has passed `lines` others: the status is `PP_INCLUDE`, and the last item
/// is the error `PP_UNKNOWN_DIRECTIVE`, which holds the rest of the line. The caller calls again with one more line
/// passed. To include a text it adds to `definitions` one whose name begins at 2^64 - 1, whose content is the text,
/// and whose number of items is that of the items so far. Without it reading goes on after the line.
///
/// A text that would be inside of 200 others isn't included, and the status is `PP_TOO_DEEP`.
///
/// At the place of each item in `items` its text's number is written into `numbers`, if there is room: 0 is `source`,
/// and each definition that is added and each text has the next number. With `most_items` of 0 the call stops after
/// 2^64 - 1 items.
#[unsafe(no_mangle)]
pub extern "C" fn pp_preprocess_including(
    alloc: Global,
    options: &Options,
    lines: u64,
    source: &[u8],
    words: &[u8],
    definitions: &mut [Definition],
    items: &mut [Item],
    texts: &mut [u8],
    numbers: &mut [u32],
    sizes: &mut Sizes,
) -> u32
    ensures answer { result < 11 }
    ensures bad_options { (result ≡ 8) ↔ ¬ (AreOptions options.now) }
    ensures given { HasAskedItems result → Includes options.now lines result source.now words.now
        definitions.old items.old items.new texts.old texts.new sizes.new }
    ensures answered { HasAskedItems result
        → definitions.new ≡ map (answered_in true (asking_rules_in options.now) words.now) definitions.old }
    ensures room { (result ≡ 0) ⊎ (result ≡ 7) ⊎ (result ≡ 9)
        → HasRoom (length items.old) (length texts.old) sizes.new }
    ensures too_small { result ≡ 1 → ¬ (HasRoom (length items.old) (length texts.old) sizes.new) }
    ensures text { HasAskedItems result → IsUtf8 source.now × IsUtf8 words.now }
    ensures fit { HasAskedItems result → All (CanEnter true words.now) definitions.old }
    ensures not_utf8 { AreOptions options.now → ((result ≡ 2)
        ↔ ((length source.now < 2 ^ 32 - 1) × ¬ (IsUtf8 source.now × IsUtf8 words.now))) }
    ensures long_source { AreOptions options.now → 2 ^ 32 - 1 ≤ length source.now → result ≡ 3 }
    ensures too_long { result ≡ 3
        → (2 ^ 32 - 1 ≤ length source.now) ⊎ Any (HasLongContent words.now) definitions.old }
    ensures bad_definition { result ≡ 4 → Any (LacksWords true words.now) definitions.old }
    ensures over_budget { result ≡ 6 → options.now.budget ≢ 0 }
    ensures too_deep { result ≡ 10 → Any (λ definition. is_text true definition ≡ true) definitions.old }
{
    let Some(setting) = options.asking_setting(lines) else {
        return Status::BadOptions as u32;
    };
    answer(
        alloc,
        setting,
        source,
        words,
        definitions,
        items,
        texts,
        numbers,
        sizes,
    )
}

/// Lexes `source`, and writes the items of its lexer into `items` and their texts into `texts`, as [`pp_preprocess`]
/// does.
#[unsafe(no_mangle)]
pub extern "C" fn pp_lex(
    alloc: Global,
    source: &[u8],
    items: &mut [Item],
    texts: &mut [u8],
    sizes: &mut Sizes,
) -> u32
    ensures answer { result < 6 }
    ensures given { result < 2 → AreWritten (lexer_entries source.now)
        items.old items.new texts.old texts.new sizes.new }
    ensures done { result ≡ 0 → HasRoom (length items.old) (length texts.old) sizes.new }
    ensures too_small { result ≡ 1 → ¬ (HasRoom (length items.old) (length texts.old) sizes.new) }
    ensures text { result < 2 → IsUtf8 source.now }
    ensures not_utf8 { (result ≡ 2) ↔ ((length source.now < 2 ^ 32 - 1) × ¬ (IsUtf8 source.now)) }
    ensures too_long { (result ≡ 3) ↔ (2 ^ 32 - 1 ≤ length source.now) }
    ensures no_definition { result ≢ 4 }
{
    let room = room_of(items, texts);
    let mut output = Output::new(items, texts);
    let end = lex(alloc, source, &mut output);
    let wanted = output.sizes();
    *sizes = wanted;
    status_after(end.and(Ok(End::All)), wanted, room) as u32
}

/// Says on which line and in which column a byte of `source` is.
///
/// Lines are those of items, and columns count characters. A byte inside of a character is at that character, and an
/// offset past the source is at its end. The time grows with the offset.
///
/// Returns a [`Status`] as a number: `PP_DONE`, `PP_NOT_UTF8` or `PP_TOO_LONG`.
#[unsafe(no_mangle)]
pub extern "C" fn pp_line_column(source: &[u8], offset: u64, position: &mut Position) -> u32
    ensures answer { (result ≡ 0) ⊎ (result ≡ 2) ⊎ (result ≡ 3) }
    ensures given { result ≡ 0
        → line_column source.now offset ≡ (position.new.line, position.new.column) }
    ensures not_utf8 { (result ≡ 2) ↔ ((length source.now < 2 ^ 32 - 1) × ¬ (IsUtf8 source.now)) }
    ensures too_long { (result ≡ 3) ↔ (2 ^ 32 - 1 ≤ length source.now) }
{
    if source.len() >= LIMIT {
        return Status::TooLong as u32;
    }
    let Ok(source) = str::from_utf8(source) else {
        return Status::NotUtf8 as u32;
    };
    let Some((line, column)) = line_column(source, offset as usize) else {
        return Status::TooLong as u32;
    };
    *position = Position { line, column };
    Status::Done as u32
}

/// Returns the version of this library's interface, `PP_API_VERSION` of its header.
#[unsafe(no_mangle)]
pub extern "C" fn pp_version() -> u32
    ensures { result ≡ 3 }
{
    3
}
