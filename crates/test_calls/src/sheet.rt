//! Sheets of cases.

use crate::act;
use crate::session::Session;
use pp_rs::rules::Rules;
use std::alloc::{AllocError, Global};
use std::io;

/// Makes the calls of each case of a sheet, and prints the sheet with what they return.
pub(crate) fn read(rt: &impl Print, alloc: Global, sheet: &str) -> io::Result<()> {
    for case in sheet.split("\n\n") {
        make_calls(rt, alloc, case)?;
    }
    Ok(())
}

fn make_calls(rt: &impl Print, alloc: Global, case: &str) -> io::Result<()> {
    let source = source_of(alloc, case)?;
    let source = source.as_str();
    let words = words_of(alloc, case)?;
    let mut session = Session::new(alloc, source, Rules::PP_RS);
    let done = answer(rt, alloc, &mut session, source, case, &words);
    drop(session);
    done
}

// Prints the lines of a case with what its words return.
fn answer<'a>(
    rt: &impl Print,
    alloc: Global,
    session: &mut Session<'a>,
    source: &'a str,
    case: &str,
    words: &'a [String],
) -> io::Result<()> {
    let mut words = words.iter();
    for line in case.lines() {
        println!(rt; "{line}")?;
        if line.starts_with("> ") {
            let Some(word) = words.next() else {
                break;
            };
            act(rt, alloc, &mut *session, source, word.as_str())?;
        }
    }
    Ok(())
}

// The words of a case, without escapes.
fn words_of(alloc: Global, case: &str) -> Result<Vec<String>, AllocError> {
    let mut words = Vec::new(alloc);
    for line in case.lines() {
        if let Some(text) = line.strip_prefix("> ") {
            let mut word = String::new(alloc);
            add_text(&mut word, text)?;
            words.push(word)?;
        }
    }
    Ok(words)
}

fn source_of(alloc: Global, case: &str) -> Result<String, AllocError> {
    let mut source = String::new(alloc);
    for line in case.lines() {
        if let Some(text) = line.strip_prefix("= ") {
            add_text(&mut source, text)?;
        } else if let Some(text) = line.strip_prefix("* ") {
            add_times(&mut source, text)?;
        }
    }
    Ok(source)
}

// Adds `N TEXT`: the text, N times.
fn add_times(source: &mut String, text: &str) -> Result<(), AllocError> {
    let Some((count, text)) = text.split_once(' ') else {
        return Ok(());
    };
    for _ in 0..count.parse::<u32>().unwrap_or(0) {
        add_text(source, text)?;
    }
    Ok(())
}

// Adds the characters of a text with escapes.
fn add_text(source: &mut String, text: &str) -> Result<(), AllocError> {
    let mut is_escaped = false;
    for c in text.chars() {
        if is_escaped {
            source.push(escaped(c))?;
            is_escaped = false;
        } else if c == '\\' {
            is_escaped = true;
        } else {
            source.push(c)?;
        }
    }
    Ok(())
}

// The character that is written as this one after a backslash.
fn escaped(c: char) -> char {
    match c {
        'n' => '\n',
        'r' => '\r',
        't' => '\t',
        _ => c,
    }
}
