//! Makes the calls that the words of its command line name over the source on its standard input, and prints what each
//! answers, an item a line:
//!
//!     test_calls A=7 next rest replies plain < shader.frag
//!
//! | word | what is called |
//! |---|---|
//! | `glsl` | all is done anew, by GLSL's rules |
//! | `includes` | all is done anew, by rules that ask for the texts of `#include` lines too |
//! | `+TEXT` | `include` |
//! | `N+TEXT` | `include`, N times: only the last answer is printed |
//! | `:NAME:TEXT` | nothing: from here on `next` includes the text where an `#include "NAME"` line asks for it |
//! | `NAME=CONTENT` | `add_define` |
//! | `at-most-N` | `set_budget`, of N steps |
//! | `budget` | `is_over_budget` and `reached` |
//! | `next` | `next`, once |
//! | `rest` | `next` up to the first `None`, and then twice more |
//! | `all`, `append` | `preprocess_all`, and `append_all` to an empty list |
//! | `drain` | `drain` |
//! | `errors` | `next` up to the first `None`, and `place` after each error: only errors are printed, with that place |
//! | `calls` | `next` up to the first `None`, and after each item `origin`, `call_line` and `call_place` |
//! | `spell`, `afresh` | `spell_tokens` and `are_read_afresh`, of the tokens that were given so far |
//! | `copy` | `clone` of all items so far, of what they hold, of errors of their values, and of steps with the errors |
//! | `replies` | `replies`, over all `add_define`, `include` and `next` so far, up to the first error item |
//! | `plain` | the plain program, over the same, to the end |
//! | `agree` | both: only how many replies they give is printed, and whether these are the same |
//! | `lexer` | `next` of a `Lexer` of the source, up to the first `None` and then once more |
//! | `convert` | `clone`, `convert_lexer_token` and `convert_lexer_token_to_step`, of each token of a `Lexer` |
//! | `lines` | `next` and `get_current_offset` of `CharsAndLine` |
//! | `joined` | the same of `SkipBackslashNewline` |
//! | `uncommented` | the same of `ReplaceComments` |
//! | `copies` | `clone` of each of the three after its first character, and then the same |
//! | `sheet`, alone | those of the cases of a sheet, which the source is |
//!
//! The cases of a sheet stand apart by empty lines, and each begins anew. Its lines are
//! printed before what they answer:
//!
//!     = TEXT           more of its source: \n, \r, \t and \\ stand for LF, CR, a tab and a backslash
//!     * N TEXT         the text N times
//!     > WORD           a word, with the same escapes
//!     any other line   what the case shows
//!
//! The status is 0 unless its own memory, its input or its output fails. Scripts of tests run it.
#![tactic(auto)]

mod phases;
mod session;
mod sheet;
mod shown;

use pp_rs::rules::{Profile, Rules};
use session::Session;
use std::alloc::Global;
use std::{env, io};

fn main(rt: HostRuntime) -> io::Result<()> {
    let arguments = env::args(&rt)?;
    // The first is the program's name.
    let words: Vec<String> = arguments.skip(1).collect(rt.alloc())?;
    let source = io::read_to_string(rt.alloc(), rt.stdin())?;
    answer(&rt, rt.alloc(), source.as_str(), &words)
}

// Prints what the words, or a sheet, return.
fn answer<'a>(
    rt: &impl Print,
    alloc: Global,
    source: &'a str,
    words: &'a [String],
) -> io::Result<()> {
    if matches!(words, [word] if word.as_str() == "sheet") {
        return sheet::read(rt, alloc, source);
    }
    let mut session = Session::new(alloc, source, Rules::PP_RS);
    let done = make_calls(rt, alloc, &mut session, source, words);
    drop(session);
    done
}

// Makes the calls of the words in turn.
fn make_calls<'a>(
    rt: &impl Print,
    alloc: Global,
    session: &mut Session<'a>,
    source: &'a str,
    words: &'a [String],
) -> io::Result<()> {
    for word in words {
        act(rt, alloc, &mut *session, source, word.as_str())?;
    }
    Ok(())
}

// Makes the calls of a word over a source.
fn act<'a>(
    rt: &impl Print,
    alloc: Global,
    session: &mut Session<'a>,
    source: &'a str,
    word: &'a str,
) -> io::Result<()> {
    if let Some(text) = word.strip_prefix('+') {
        return session.include(rt, text);
    }
    if let Some(named) = word.strip_prefix(':') {
        return session.name_text(named);
    }
    if let Some((name, content)) = word.split_once('=') {
        return session.add(rt, name, content);
    }
    if let Some((times, text)) = word.split_once('+') {
        return session.include_often(rt, times.parse::<u32>().unwrap_or(0), text);
    }
    if let Some(steps) = word.strip_prefix("at-most-") {
        return session.bound(rt, steps.parse::<u64>().unwrap_or(0));
    }
    match word {
        "glsl" => {
            session.begin_anew(Rules::glsl(460, Profile::Core));
            Ok(())
        }
        "includes" => {
            session.begin_anew(session.rules().with_includes());
            Ok(())
        }
        "next" => {
            session.next(rt)?;
            Ok(())
        }
        "budget" => session.budget(rt),
        "rest" => session.rest(rt),
        "all" => session.all(rt),
        "append" => session.append(rt),
        "drain" => {
            session.drain();
            Ok(())
        }
        "errors" => session.errors(rt),
        "calls" => session.calls(rt),
        "spell" => session.spell(rt),
        "afresh" => session.afresh(rt),
        "copy" => session.copy(rt),
        "replies" => session.replies(rt),
        "plain" => session.plain(rt),
        "agree" => session.agree(rt),
        "lexer" => shown::lexer(rt, alloc, source, session.rules()),
        "convert" => shown::convert(rt, alloc, source, session.rules()),
        "lines" => phases::lines(rt, source),
        "joined" => phases::joined(rt, source),
        "uncommented" => phases::uncommented(rt, source),
        "copies" => phases::copies(rt, source),
        _ => println!(rt; "not understood: {word}"),
    }
}
