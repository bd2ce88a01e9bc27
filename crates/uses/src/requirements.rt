//! What a shader asks of its compiler: its version, and its extensions with the lines on which it asks for them.

use anyhow::{Context, Result, bail};
use pp_rs::pp::Preprocessor;
use pp_rs::token::{Token, TokenValue, Tokens};
use std::alloc::Global;
use std::io;

/// Prints a line for each `#version` and `#extension` of a source in which the macro `FAST` is 1. Returns the first
/// error of the source, with its line.
pub fn show_requirements(rt: &impl Print, alloc: Global, source: &str) -> Result<()> {
    let Some(mut pp) = Preprocessor::try_new(alloc, source) else {
        bail!("the source is too long");
    };
    let shown = show_items(rt, &mut pp);
    drop(pp);
    shown
}

// Adds the definition, and prints what each item asks for, up to the first error.
fn show_items(rt: &impl Print, pp: &mut Preprocessor<'_>) -> Result<()> {
    pp.try_add_define("FAST", "1").context("defining FAST")?;
    'items: while let Some(item) = pp.next() {
        match item {
            Ok(token) => {
                if !token.is_ordinary() {
                    show_requirement(rt, &token)?;
                }
            }
            Err((error, _)) => bail!("line {}: {error}", pp.place().line),
        }
    }
    Ok(())
}

// Prints a `#version` with its number, or an `#extension` with its name.
fn show_requirement(rt: &impl Print, token: &Token) -> io::Result<()> {
    let line = token.location.line;
    match &token.value {
        TokenValue::Version(version) => show_version(rt, line, &version.tokens),
        TokenValue::Extension(extension) => show_extension(rt, line, &extension.tokens),
        _ => Ok(()),
    }
}

fn show_version(rt: &impl Print, line: u32, tokens: &Tokens) -> io::Result<()> {
    match tokens.iter().next().map(|token| &token.value) {
        Some(TokenValue::Integer(number)) => println!(rt; "line {line}: version {}", number.value),
        _ => println!(rt; "line {line}: version"),
    }
}

fn show_extension(rt: &impl Print, line: u32, tokens: &Tokens) -> io::Result<()> {
    match tokens.iter().next().map(|token| &token.value) {
        Some(TokenValue::Ident(name)) => println!(rt; "line {line}: extension {}", name.as_str()),
        _ => println!(rt; "line {line}: extension"),
    }
}
