//! Items, replies and tokens as text, as the worked cases and the tables of tests show them.
#![tactic(auto)]

ghost use Rattle.std.specs.Prelude.{◌≡◌, ◌++◌, [], IsTrue, All, IfOk, OnOk, map, string_bytes};
ghost use Rattle.std.specs.Str.{encode_utf8_all};
ghost use Rattle.pp_model.specs.Run.{HasRoom};
ghost use Rattle.test_shown.specs.Shown.{joined, integer_text, float_text, item_value_text, lexer_value_text};
ghost use Rattle.test_shown.specs.Shown.{place_text, value_text, IsWith, ShowsError, ShowsFault, ShowsItem};
ghost use Rattle.test_shown.specs.Shown.{ShowsLexerItem, ShowsLexerToken, ShowsReply, ShowsToken, ShowsUnexpected};

use pp_lexer::lexer::{self, LexerItem, SOURCE_LIMIT};
use pp_lexer::token::{
    Float, Integer, Location, PreprocessorError, Punct, Text, Token, TokenValue, Tokens,
    float_letters, integer_letters,
};
use pp_model::call::{Call, Reply};
use pp_model::outcome::{Fault, Outcome};
use std::alloc::{AllocError, Global};

/// Whether each content that the calls add, and each text that they include, is short enough.
pub fn have_room(calls: &[Call<'_>]) -> bool
    ensures { IsTrue result → All HasRoom calls.now }
{
    calls.iter().all(|call| has_room(call))
}

// Whether the content that a call adds, or the text that it includes, is short enough.
fn has_room(call: &Call<'_>) -> bool
    ensures { IsTrue result → HasRoom call.now }
{
    match call {
        Call::AddDefine(_, content) => content.len() < SOURCE_LIMIT,
        Call::Include(text) => text.len() < SOURCE_LIMIT,
        Call::Next => true,
    }
}

/// The parts with a comma and a space between each two.
pub fn joined(alloc: Global, parts: &[String]) -> Result<String, AllocError>
    ensures { IfOk result (λ text. string_bytes text ≡ joined (map string_bytes parts.now)) }
{
    let mut text = String::new(alloc);
    let Some((first, others)) = parts.split_first() else {
        return Ok(text);
    };
    text.push_str(first.as_str())?;
    for part in others {
        text.push_str(", ")?;
        text.push_str(part.as_str())?;
    }
    Ok(text)
}

/// An item of the lexer, with its place and, for a token, its flags: the text of an identifier, the digits of an
/// integer, `Float` and the text of a float, and otherwise the name of the variant.
pub fn lexer_item(alloc: Global, item: &LexerItem) -> Result<String, AllocError>
    ensures { IfOk result (λ text. ShowsLexerItem item.now [] (string_bytes text)) }
{
    let mut text = String::new(alloc);
    match item {
        Ok(token) => push_lexer_token(&mut text, token)?,
        Err(fault) => push_fault(&mut text, "Error ", fault)?,
    }
    Ok(text)
}

/// An item of the preprocessor, with its place.
pub fn item(alloc: Global, item: &Result<Token, Fault>) -> Result<String, AllocError>
    ensures { IfOk result (λ text. ShowsItem item.now [] (string_bytes text)) }
{
    let mut text = String::new(alloc);
    match item {
        Ok(token) => push_token(&mut text, token)?,
        Err(fault) => push_fault(&mut text, "Error ", fault)?,
    }
    Ok(text)
}

/// What a call answered, with its place.
pub fn reply(alloc: Global, reply: &Reply) -> Result<String, AllocError>
    ensures { IfOk result (λ text. ShowsReply reply.now [] (string_bytes text)) }
{
    let mut text = String::new(alloc);
    push_reply(&mut text, reply)?;
    Ok(text)
}

// A place, as ` 3..4 L1`.
fn push_at(text: &mut String, location: Location) -> Result<(), AllocError>
    ensures { OnOk result (string_bytes text.new ≡ string_bytes text.old ++ place_text location) }
{
    let Location { start, end, line } = location;
    write!(text, " {start}..{end} L{line}")?;
    Ok(())
}

fn push_integer(text: &mut String, integer: Integer) -> Result<(), AllocError>
    ensures { OnOk result (string_bytes text.new ≡ string_bytes text.old ++ integer_text integer) }
{
    write!(text, "{}", integer.value)?;
    text.push_str(integer_letters(integer.signed, integer.width))
}

fn push_text(text: &mut String, name: &Text) -> Result<(), AllocError>
    ensures { OnOk result (string_bytes text.new ≡ string_bytes text.old ++ encode_utf8_all name.now) }
{
    text.push_str(name.as_str())?;
    Ok(())
}

fn push_float(text: &mut String, float: &Float) -> Result<(), AllocError>
    ensures { OnOk result (string_bytes text.new ≡ string_bytes text.old ++ float_text float.now) }
{
    text.push_str("Float ")?;
    push_text(text, &float.text)?;
    text.push_str(float_letters(float.width))
}

fn push_punct(text: &mut String, punct: Punct) -> Result<(), AllocError> {
    write!(text, "{punct:?}")?;
    Ok(())
}

fn push_lexer_value(text: &mut String, value: &lexer::TokenValue) -> Result<(), AllocError>
    ensures { OnOk result (IsWith (lexer_value_text value.now)
        (string_bytes text.old) (string_bytes text.new)) }
{
    match value {
        lexer::TokenValue::Hash => text.push_str("Hash"),
        lexer::TokenValue::NewLine => text.push_str("NL"),
        lexer::TokenValue::Ident(name) => push_text(text, name),
        lexer::TokenValue::Integer(integer) => push_integer(text, *integer),
        lexer::TokenValue::Float(float) => push_float(text, float),
        lexer::TokenValue::Punct(punct) => push_punct(text, *punct),
    }
}

// A token of the lexer with its place and flags.
fn push_lexer_token(text: &mut String, token: &lexer::Token) -> Result<(), AllocError>
    ensures { OnOk result (ShowsLexerToken token.now (string_bytes text.old) (string_bytes text.new)) }
{
    push_lexer_value(text, &token.value)?;
    push_at(text, token.location)?;
    let leading = token.leading_whitespace;
    let start = token.start_of_line;
    write!(text, " leading={leading} start={start}")?;
    Ok(())
}

// A value of a preprocessed token; a directive item shows its name alone.
fn push_value(text: &mut String, value: &TokenValue) -> Result<(), AllocError>
    ensures { OnOk result (IsWith (value_text value.now)
        (string_bytes text.old) (string_bytes text.new)) }
{
    match value {
        TokenValue::Ident(name) => push_text(text, name),
        TokenValue::Integer(integer) => push_integer(text, *integer),
        TokenValue::Float(float) => push_float(text, float),
        TokenValue::Punct(punct) => push_punct(text, *punct),
        TokenValue::Version(_) => text.push_str("Version"),
        TokenValue::Extension(_) => text.push_str("Extension"),
        TokenValue::Pragma(_) => text.push_str("Pragma"),
    }
}

// An error: its name, with the value of an unexpected token.
fn push_error(text: &mut String, error: &PreprocessorError) -> Result<(), AllocError>
    ensures { OnOk result (ShowsError error.now (string_bytes text.old) (string_bytes text.new)) }
{
    match error {
        PreprocessorError::UnexpectedToken(value) => push_unexpected(text, value),
        _ => text.push_str(error.name()),
    }
}

fn push_unexpected(text: &mut String, value: &TokenValue) -> Result<(), AllocError>
    ensures { OnOk result (ShowsUnexpected value.now (string_bytes text.old) (string_bytes text.new)) }
{
    text.push_str("UnexpectedToken(")?;
    push_value(text, value)?;
    text.push_str(")")?;
    Ok(())
}

// The tokens that a directive item holds, with their places.
fn push_held(text: &mut String, tokens: &Tokens) -> Result<(), AllocError> {
    text.push_str(" [")?;
    for (index, token) in tokens.iter().enumerate() {
        if index > 0 {
            text.push_str(", ")?;
        }
        push_value(text, &token.value)?;
        push_at(text, token.location)?;
    }
    text.push(']')
}

// A value; a directive item shows all its fields.
fn push_item_value(text: &mut String, value: &TokenValue) -> Result<(), AllocError>
    ensures { OnOk result (IsWith (item_value_text value.now)
        (string_bytes text.old) (string_bytes text.new)) }
{
    match value {
        TokenValue::Version(version) => {
            let first = version.is_first_directive;
            let comments = version.has_comments_before;
            write!(text, "Version first={first} comments={comments}")?;
            push_held(text, &version.tokens)
        }
        TokenValue::Extension(extension) => {
            let before = extension.has_non_directive_before;
            write!(text, "Extension before={before}")?;
            push_held(text, &extension.tokens)
        }
        TokenValue::Pragma(pragma) => {
            text.push_str("Pragma")?;
            push_held(text, &pragma.tokens)
        }
        _ => push_value(text, value),
    }
}

// A preprocessed token with its place.
fn push_token(text: &mut String, token: &Token) -> Result<(), AllocError>
    ensures { OnOk result (ShowsToken token.now (string_bytes text.old) (string_bytes text.new)) }
{
    push_item_value(text, &token.value)?;
    push_at(text, token.location)
}

// An error with its place, after a word.
fn push_fault(text: &mut String, word: &str, fault: &Fault) -> Result<(), AllocError>
    ensures { OnOk result (ShowsFault word.now fault.now (string_bytes text.old) (string_bytes text.new)) }
{
    text.push_str(word)?;
    push_error(text, &fault.0)?;
    push_at(text, fault.1)
}

fn push_reply(text: &mut String, reply: &Reply) -> Result<(), AllocError>
    ensures { OnOk result (ShowsReply reply.now (string_bytes text.old) (string_bytes text.new)) }
{
    match reply {
        Reply::Added => text.push_str("Added"),
        Reply::Refused(fault) => push_fault(text, "Refused ", fault),
        Reply::Given(Outcome::Token(token)) => push_token(text, token),
        Reply::Given(Outcome::Fault(fault)) => push_fault(text, "Error ", fault),
        Reply::Given(Outcome::Include(line)) => {
            text.push_str("Include")?;
            push_at(text, line.word)?;
            push_at(text, line.rest)
        }
        Reply::Given(Outcome::End) => text.push_str("None"),
        Reply::Included => text.push_str("Included"),
        Reply::TooDeep => text.push_str("TooDeep"),
    }
}
