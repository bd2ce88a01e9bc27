//! Items of the lexer, copies and replies, printed.

ghost use Rattle.std.specs.Prelude.{◌≢◌};
ghost use Rattle.pp_lexer.specs.declared.lexer.item.TokenValue.TheVariants.{NewLine};

use pp_rs::SOURCE_LIMIT;
use pp_rs::lexer::{self, Lexer, LexerItem};
use pp_rs::pp::{
    Origin, PreprocessorItem, Reply, SOURCE_TEXT, Step, StepExit, convert_lexer_token,
    convert_lexer_token_to_step,
};
use pp_rs::rules::Rules;
use pp_rs::token::{Location, PreprocessorError, Token, TokenValue};
use std::alloc::{AllocError, Global};
use std::io;
use test_shown::{item, lexer_item, reply};

// Prints an item of the lexer, with whether a comment was passed.
fn print_lexer_item(
    rt: &impl Print,
    alloc: Global,
    item: &LexerItem,
    comments: bool,
) -> io::Result<()> {
    let shown = lexer_item(alloc, item)?;
    println!(rt; "{} comments={comments}", shown.as_str())
}

// Prints the next item of a lexer. Returns whether there was one.
fn print_next(rt: &impl Print, alloc: Global, items: &mut Lexer<'_>) -> io::Result<bool> {
    match items.next() {
        Some(item) => {
            let shown = print_lexer_item(rt, alloc, &item, items.had_comments());
            drop(item);
            shown?;
            Ok(true)
        }
        None => Ok(false),
    }
}

// Prints the items of a lexer.
fn lexer_items(rt: &impl Print, alloc: Global, items: &mut Lexer<'_>) -> io::Result<()> {
    for _ in 0..u64::MAX {
        if !print_next(rt, alloc, items)? {
            break;
        }
    }
    let again = items.next().is_some();
    println!(rt; "None again={again} comments={}", items.had_comments())
}

/// The items of a `Lexer`, each with whether a comment was passed, and with its true place.
pub(crate) fn lexer(rt: &impl Print, alloc: Global, source: &str, rules: Rules) -> io::Result<()> {
    if source.len() < SOURCE_LIMIT {
        let mut items = Lexer::with_rules(alloc, source, rules);
        let shown = lexer_items(rt, alloc, &mut items);
        drop(items);
        return shown;
    }
    Ok(())
}

/// Prints an error with this place, and nothing of a token.
pub(crate) fn print_error(
    rt: &impl Print,
    alloc: Global,
    given: PreprocessorItem,
    place: Location,
) -> io::Result<()> {
    match given {
        Ok(token) => {
            drop(token);
            Ok(())
        }
        Err((error, _)) => print_item(rt, alloc, &Err((error, place))),
    }
}

/// Prints an item with its place.
pub(crate) fn print_item(
    rt: &impl Print,
    alloc: Global,
    given: &PreprocessorItem,
) -> io::Result<()> {
    let shown = item(alloc, given)?;
    println!(rt; "{}", shown.as_str())
}

// Prints the number of a text, unless it is the source.
fn print_text(rt: &impl Print, indent: &str, text: u32) -> io::Result<()> {
    if text == SOURCE_TEXT {
        return Ok(());
    }
    println!(rt; "{indent}in text {text}")
}

/// Prints where an item comes from: its text, and the call on this line with the text of its name. The source is not
/// named.
pub(crate) fn print_origin(rt: &impl Print, origin: Origin, line: Option<u32>) -> io::Result<()> {
    print_text(rt, "  ", origin.text)?;
    let (Some(call), Some(line)) = (origin.call, line) else {
        return Ok(());
    };
    let name = call.name;
    println!(rt;
        "  in a call on line {line}, its name at {}..{} L{}",
        name.start, name.end, name.line
    )?;
    print_text(rt, "    ", call.text)
}

// The item that a step gives, or the name of a step that gives none.
fn item_of_step(answer: Step<Token>) -> Result<PreprocessorItem, &'static str> {
    match answer {
        Ok(token) => Ok(Ok(token)),
        Err(StepExit::Error(fault)) => Ok(Err(fault)),
        Err(StepExit::Continue) => Err("Continue"),
        Err(StepExit::Finished) => Err("Finished"),
    }
}

// Prints what a token is converted to as a step.
fn converted_step(rt: &impl Print, alloc: Global, answer: Step<Token>) -> io::Result<()> {
    match item_of_step(answer) {
        Ok(item) => {
            let shown = print_item(rt, alloc, &item);
            drop(item);
            shown
        }
        Err(name) => println!(rt; "{name}"),
    }
}

// Copies a token of the lexer and its value.
fn lexer_copy(alloc: Global, token: &lexer::Token) -> Result<bool, (PreprocessorError, Location)> {
    Ok(whole_copy(alloc, token)? && value_copy(alloc, &token.value)?)
}

// Copies a token of the lexer.
fn whole_copy(alloc: Global, token: &lexer::Token) -> Result<bool, (PreprocessorError, Location)> {
    Ok(token.clone(alloc)? == *token)
}

// Copies the value of a token of the lexer.
fn value_copy(
    alloc: Global,
    value: &lexer::TokenValue,
) -> Result<bool, (PreprocessorError, Location)> {
    Ok(value.clone(alloc)? == *value)
}

// Prints what a copy of a token is converted to.
fn print_converted(rt: &impl Print, alloc: Global, token: &lexer::Token) -> io::Result<()>
    requires { token.now.value ≢ NewLine }
{
    match token.clone(alloc) {
        Ok(copy) => {
            let item = convert_lexer_token(copy);
            let shown = print_item(rt, alloc, &item);
            drop(item);
            shown
        }
        Err(fault) => refused(rt, alloc, fault),
    }
}

// Prints what a copy of a token is converted to as a step.
fn print_converted_step(rt: &impl Print, alloc: Global, token: &lexer::Token) -> io::Result<()>
    requires { token.now.value ≢ NewLine }
{
    match token.clone(alloc) {
        Ok(copy) => converted_step(rt, alloc, convert_lexer_token_to_step(copy)),
        Err(fault) => refused(rt, alloc, fault),
    }
}

// Copies a token of the lexer, and prints what it is converted to.
fn convert_token(rt: &impl Print, alloc: Global, token: &lexer::Token) -> io::Result<()> {
    copied(rt, alloc, lexer_copy(alloc, token))?;
    if token.value == lexer::TokenValue::NewLine {
        return Ok(());
    }
    print_converted(rt, alloc, token)?;
    print_converted_step(rt, alloc, token)
}

// Copies and converts the next token of a lexer. Answers whether it gave an item.
fn convert_next(rt: &impl Print, alloc: Global, items: &mut Lexer<'_>) -> io::Result<bool> {
    match items.next() {
        Some(Ok(token)) => {
            let shown = convert_token(rt, alloc, &token);
            drop(token);
            shown?;
            Ok(true)
        }
        Some(Err(_)) => Ok(true),
        None => Ok(false),
    }
}

// Copies and converts the tokens of a lexer.
fn convert_items(rt: &impl Print, alloc: Global, items: &mut Lexer<'_>) -> io::Result<()> {
    println!(rt; "comments={}", items.had_comments())?;
    for _ in 0..u64::MAX {
        if !convert_next(rt, alloc, items)? {
            break;
        }
    }
    Ok(())
}

/// Copies and converts the tokens of a `Lexer`.
pub(crate) fn convert(
    rt: &impl Print,
    alloc: Global,
    source: &str,
    rules: Rules,
) -> io::Result<()> {
    if source.len() < SOURCE_LIMIT {
        let mut items = Lexer::with_rules(alloc, source, rules);
        let shown = convert_items(rt, alloc, &mut items);
        drop(items);
        return shown;
    }
    Ok(())
}

/// An error that a call answered.
pub(crate) fn refused(
    rt: &impl Print,
    alloc: Global,
    fault: (PreprocessorError, Location),
) -> io::Result<()> {
    let answer = Reply::Refused(fault);
    let shown = print_reply(rt, alloc, &answer);
    drop(answer);
    shown
}

/// Prints a reply.
pub(crate) fn print_reply(rt: &impl Print, alloc: Global, given: &Reply) -> io::Result<()> {
    let shown = reply(alloc, given)?;
    println!(rt; "{}", shown.as_str())
}

// Prints a reply after who gave it.
fn print_reply_by(rt: &impl Print, alloc: Global, by: &str, given: &Reply) -> io::Result<()> {
    let shown = reply(alloc, given)?;
    println!(rt; "{by}: {}", shown.as_str())
}

/// Replies to a list of calls, a line each.
pub(crate) fn replies(
    rt: &impl Print,
    alloc: Global,
    by: &str,
    given: Result<Option<Vec<Reply>>, AllocError>,
) -> io::Result<()> {
    match given {
        Ok(Some(replies)) => {
            for given in &replies {
                print_reply_by(rt, alloc, by, given)?;
            }
            Ok(())
        }
        Ok(None) => println!(rt; "{by} gives no answer"),
        Err(_) => println!(rt; "{by} was refused memory"),
    }
}

// Whether two replies are printed as the same line.
fn is_same_reply(alloc: Global, left: &Reply, right: &Reply) -> Result<bool, AllocError> {
    let left = reply(alloc, left)?;
    let right = reply(alloc, right)?;
    Ok(left.as_str() == right.as_str())
}

// Whether two lists of replies are printed as the same lines.
fn are_same_replies(alloc: Global, left: &[Reply], right: &[Reply]) -> Result<bool, AllocError> {
    if left.len() != right.len() {
        return Ok(false);
    }
    for (one, other) in left.iter().zip(right.iter()) {
        if !is_same_reply(alloc, one, other)? {
            return Ok(false);
        }
    }
    Ok(true)
}

/// Prints how many replies there are, and whether those of the plain program are the same.
pub(crate) fn compared(
    rt: &impl Print,
    alloc: Global,
    given: &[Reply],
    plain: &[Reply],
) -> io::Result<()> {
    let is_same = are_same_replies(alloc, given, plain)?;
    println!(rt; "replies={} same={is_same}", given.len())
}

// Says whether a copy equals what it was made of.
fn copied(
    rt: &impl Print,
    alloc: Global,
    answer: Result<bool, (PreprocessorError, Location)>,
) -> io::Result<()> {
    match answer {
        Ok(is_same) => println!(rt; "copied={is_same}"),
        Err(fault) => refused(rt, alloc, fault),
    }
}

// Copies what a value holds.
fn held_copy(alloc: Global, value: &TokenValue) -> Result<bool, (PreprocessorError, Location)> {
    match value {
        TokenValue::Float(float) => Ok(float.clone(alloc)? == *float),
        TokenValue::Version(version) => Ok(version.clone(alloc)? == *version),
        TokenValue::Extension(extension) => Ok(extension.clone(alloc)? == *extension),
        TokenValue::Pragma(pragma) => Ok(pragma.clone(alloc)? == *pragma),
        _ => Ok(value.clone(alloc)? == *value),
    }
}

// Copies a token.
fn token_copy(alloc: Global, token: &Token) -> Result<bool, (PreprocessorError, Location)> {
    Ok(token.clone(alloc)? == *token)
}

// Copies an error.
fn error_copy(
    alloc: Global,
    error: &PreprocessorError,
) -> Result<bool, (PreprocessorError, Location)> {
    Ok(error.clone(alloc)? == *error)
}

// Copies an error that the token's value is.
fn unexpected_copy(alloc: Global, token: &Token) -> Result<bool, (PreprocessorError, Location)> {
    error_copy(
        alloc,
        &PreprocessorError::UnexpectedToken(token.value.clone(alloc)?),
    )
}

/// Copies a token, what its value holds, and an error of that value.
pub(crate) fn copy_token(rt: &impl Print, alloc: Global, token: &Token) -> io::Result<()> {
    copied(rt, alloc, token_copy(alloc, token))?;
    copied(rt, alloc, held_copy(alloc, &token.value))?;
    copied(rt, alloc, unexpected_copy(alloc, token))
}

// Copies a step that gives an error.
fn exit_copy(
    alloc: Global,
    error: &PreprocessorError,
) -> Result<bool, (PreprocessorError, Location)> {
    let exit = StepExit::Error((error.clone(alloc)?, Location::default()));
    Ok(exit.clone(alloc)? == exit)
}

/// Copies an error, and a step that gives it.
pub(crate) fn copy_error(
    rt: &impl Print,
    alloc: Global,
    error: &PreprocessorError,
) -> io::Result<()> {
    copied(rt, alloc, error_copy(alloc, error))?;
    copied(rt, alloc, exit_copy(alloc, error))
}
