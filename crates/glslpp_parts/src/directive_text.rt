//! The text of a directive that is given: as the source has it, if that is read as the same tokens.

ghost use Rattle.std.specs.Prelude.{◌≡◌, ◌-◌, ◌^◌, ◌<◌, IfOk, IsTrue, length, string_bytes};
ghost use Rattle.pp_lexer.specs.Respelling.{read_values_by};
ghost use Rattle.glslpp_parts.specs.Reading.{IsDirectiveText};

use crate::place::{after_continuations, is_line_end};
use crate::reading::{Read, read_next};
use crate::texts::Spot;
use pp_rs::SOURCE_LIMIT;
use pp_rs::lexer::Lexer;
use pp_rs::rules::Rules;
use pp_rs::token::TokenValue;
use std::alloc::{AllocError, Global};

/// The text of a directive. Of a `#pragma` it is that of the source without comments, which compilers may read by its
/// text. Otherwise it is the word and the tokens, with single spaces.
pub(crate) fn directive_text(
    alloc: Global,
    rules: Rules,
    value: &TokenValue,
    spot: Option<Spot<'_>>,
) -> Result<String, AllocError>
    ensures { IfOk result (λ text. IsDirectiveText rules value.now (string_bytes text)) }
{
    let spelled = format!(in alloc; "{value}")?;
    let (TokenValue::Pragma(_), Some(spot)) = (value, spot) else {
        return Ok(spelled);
    };
    let written = written_line(alloc, spot.text.get(spot.start..).unwrap_or(""))?;
    if is_read_alike(alloc, rules, written.as_str(), spelled.as_str())? {
        return Ok(written);
    }
    Ok(spelled)
}

/// The line of a directive from its word on, with a `#`, and a space for each comment.
pub(crate) fn written_line(alloc: Global, text: &str) -> Result<String, AllocError> {
    let mut line = String::from_str(alloc, "#")?;
    let mut rest = text;
    for _ in 0..text.len() {
        rest = after_continuations(rest);
        if let Some(comment) = rest.strip_prefix("/*") {
            rest = comment.split_once("*/").unwrap_or(("", "")).1;
            line.push(' ')?;
        }
        let mut chars = rest.chars();
        match chars.next() {
            Some(c) if !is_line_end(c) && !rest.starts_with("//") => line.push(c)?,
            _ => break,
        }
        rest = chars.as_str();
    }
    String::from_str(alloc, line.as_str().trim_end())
}

// Whether the lexer reads the same tokens from two texts by these rules.
fn is_read_alike(alloc: Global, rules: Rules, first: &str, second: &str) -> Result<bool, AllocError>
    ensures { IfOk result (λ is. IsTrue is → read_values_by rules first.now
        ≡ read_values_by rules second.now) }
{
    if first.len() >= SOURCE_LIMIT || second.len() >= SOURCE_LIMIT {
        return Ok(false);
    }
    let first = read_all(alloc, rules, first)?;
    let second = read_all(alloc, rules, second)?;
    Ok(are_same(first.as_slice(), second.as_slice()))
}

fn are_same(first: &[Read], second: &[Read]) -> bool
    ensures { IsTrue result → first.now ≡ second.now }
{
    if first.len() != second.len() {
        return false;
    }
    for index in 0..first.len() {
        if !is_same(&first[index], &second[index]) {
            return false;
        }
    }
    true
}

// Whether both are one value.
fn is_same(first: &Read, second: &Read) -> bool
    ensures { IsTrue result → first.now ≡ second.now }
{
    match (first, second) {
        (Ok(first), Ok(second)) => first == second,
        _ => false,
    }
}

// What the lexer reads from a text by these rules.
fn read_all(alloc: Global, rules: Rules, text: &str) -> Result<Vec<Read>, AllocError>
    requires { length text.now < 2 ^ 32 - 1 }
    ensures { IfOk result (λ reads. reads.items ≡ read_values_by rules text.now) }
{
    let mut lexer = Lexer::with_rules(alloc, text, rules);
    let mut reads = Vec::new(alloc);
    'tokens: while let Some(read) = read_next(&mut lexer)? {
        reads.push(read)?;
    }
    Ok(reads)
}
