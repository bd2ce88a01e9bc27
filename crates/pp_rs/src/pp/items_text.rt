//! Items as text.

ghost use Rattle.std.specs.Prelude.{◌≡◌, ◌++◌, OnOk, OnErr, IfOk, MatchResult, string_bytes};
ghost use Rattle.std.specs.Io.{StartsWith};
ghost use Rattle.std.specs.Str.{chars, encode_utf8_all};
ghost use Rattle.pp_lexer.specs.ItemText.{item_text, with_tokens};
ghost use Rattle.pp_lexer.specs.Spelling.{spelling};
ghost use Rattle.pp_lexer.specs.PreprocessorError.{out_of_memory};
ghost use Rattle.pp_rs.specs.Output.{output};
ghost use Rattle.pp_rs.specs.inner.ItemsText.{after_item, before_item, item_piece};

use crate::pp::spelling::push_value;
use crate::token::{Location, PreprocessorError, Token, TokenValue, Tokens, out_of_memory};
use std::alloc::{AllocError, Global};

/// Appends the text of an item: the spelling of an ordinary token, or a directive's word with each
/// token of its line after a space. pp-rs 0.2.1 has no such function.
///
/// Fails only if an allocation fails. Then nothing is appended.
pub fn push_token(text: &mut String, token: &Token) -> Result<(), AllocError>
    ensures appended { OnOk result (string_bytes text.new
        ≡ string_bytes text.old ++ encode_utf8_all (item_text token.now.value)) }
    ensures refused { OnErr result (string_bytes text.new ≡ string_bytes text.old) }
{
    let length = text.len();
    if let Err(refused) = push_item_text(text, token) {
        text.truncate(length);
        return Err(refused);
    }
    Ok(())
}

// Appends what `{}` writes of an item. If memory runs out, the front of it may be there.
fn push_item_text(text: &mut String, token: &Token) -> Result<(), AllocError>
    ensures appended { OnOk result (string_bytes text.new
        ≡ string_bytes text.old ++ encode_utf8_all (item_text token.now.value)) }
    ensures refused { OnErr result (StartsWith (string_bytes text.new) (string_bytes text.old)) }
{
    match &token.value {
        TokenValue::Version(version) => push_directive(text, "#version", &version.tokens),
        TokenValue::Extension(extension) => push_directive(text, "#extension", &extension.tokens),
        TokenValue::Pragma(pragma) => push_directive(text, "#pragma", &pragma.tokens),
        _ => push_spelling(text, token),
    }
}

// Appends the word of a directive, and each token of its line after a space. If memory runs out, the front of it may be
// there.
fn push_directive(text: &mut String, word: &str, tokens: &Tokens) -> Result<(), AllocError>
    ensures appended { OnOk result (string_bytes text.new
        ≡ string_bytes text.old ++ encode_utf8_all (with_tokens (chars word.now) tokens.now)) }
    ensures refused { OnErr result (StartsWith (string_bytes text.new) (string_bytes text.old)) }
{
    text.push_str(word)?;
    for token in tokens.as_slice() {
        text.push(' ')?;
        push_spelling(text, token)?;
    }
    Ok(())
}

// Appends the spelling of an ordinary token, and nothing of a directive.
fn push_spelling(text: &mut String, token: &Token) -> Result<(), AllocError>
    ensures appended { OnOk result (string_bytes text.new
        ≡ string_bytes text.old ++ encode_utf8_all (spelling token.now.value)) }
    ensures refused { OnErr result (string_bytes text.new ≡ string_bytes text.old) }
{
    if token.is_ordinary() {
        return push_value(text, &token.value);
    }
    Ok(())
}

/// Returns the items as lines. Each longest run of ordinary tokens is one line, with one space
/// between each two tokens, and each directive is one line. A newline ends each line. No items give
/// the empty text. pp-rs 0.2.1 has no such function.
///
/// The only error is `OutOfMemory`, with the place (0, 0, line 1), if an allocation fails.
pub fn spell_items(alloc: Global, tokens: &[Token]) -> Result<String, (PreprocessorError, Location)>
    ensures { MatchResult result (λ text. string_bytes text ≡ output tokens.now)
        (λ e. e ≡ out_of_memory) }
{
    match join_items(alloc, tokens) {
        Ok(text) => Ok(text),
        Err(_) => Err(out_of_memory()),
    }
}

// The lines of the items.
fn join_items(alloc: Global, tokens: &[Token]) -> Result<String, AllocError>
    ensures { IfOk result (λ text. string_bytes text ≡ output tokens.now) }
{
    let mut text = String::new(alloc);
    let mut in_line = false;
    for token in tokens {
        push_item(&mut text, in_line, token)?;
        in_line = token.is_ordinary();
    }
    if !in_line {
        return Ok(text);
    }
    text.push('\n')?;
    Ok(text)
}

// Appends an item, which may continue a line of ordinary tokens.
fn push_item(text: &mut String, in_line: bool, token: &Token) -> Result<(), AllocError>
    ensures { OnOk result (string_bytes text.new
        ≡ string_bytes text.old ++ item_piece in_line token.now.value) }
{
    push_before(text, in_line, token)?;
    push_token(text, token)?;
    push_after(text, token)
}

// Appends what comes before an item within a line: a space before an ordinary token, the line's end
// before a directive.
fn push_before(text: &mut String, in_line: bool, token: &Token) -> Result<(), AllocError>
    ensures { OnOk result (string_bytes text.new
        ≡ string_bytes text.old ++ before_item in_line token.now.value) }
{
    if !in_line {
        return Ok(());
    }
    if token.is_ordinary() {
        text.push(' ')?;
        return Ok(());
    }
    text.push('\n')?;
    Ok(())
}

// Appends what comes after an item: the end of the line after a directive.
fn push_after(text: &mut String, token: &Token) -> Result<(), AllocError>
    ensures { OnOk result (string_bytes text.new
        ≡ string_bytes text.old ++ after_item token.now.value) }
{
    if token.is_ordinary() {
        return Ok(());
    }
    text.push('\n')?;
    Ok(())
}
