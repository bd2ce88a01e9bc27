//! A preprocessed source without the spaces that its tokens do not need.

ghost use Rattle.std.specs.Prelude.{◌≡◌, ◌<◌, ◌≤◌, ◌^◌, ◌-◌, ◌⊎◌, [], false, ℕ, List, length};
ghost use Rattle.std.specs.Prelude.{IfErr, IfOk, IsOkAnd, OnOk, string_bytes};
ghost use Rattle.std.specs.Str.{chars};
ghost use Rattle.pp_lexer.specs.PlacedErrors.{placed};
ghost use Rattle.pp_lexer.specs.PreprocessorError.{out_of_memory};
ghost use Rattle.pp_lexer.specs.Rules.{pp_rs};
ghost use Rattle.pp_lexer.specs.declared.token.Token.{Token as TheToken};
ghost use Rattle.pp_model.specs.Run.{items_of};
ghost use Rattle.pp_rs.specs.Comes.{start};
ghost use Rattle.pp_rs.specs.Kept.{Stands, is_spent, rules_of};
ghost use Rattle.uses.specs.Minified.{is_alone, is_of_word, may_join, minified_text};
ghost use Rattle.uses.specs.Minified.{separator, with_item};
ghost use Rattle.uses.specs.Sources.{FailsAfter, GivesAll};

use pp_rs::pp::{Preprocessor, push_token};
use pp_rs::token::{PlacedError, Token};
use std::alloc::Global;

/// The preprocessed source, with each directive on a line of its own. A source that is too long
/// comes back empty.
pub fn minify(alloc: Global, source: &str) -> Result<String, PlacedError>
    ensures too_long { 2 ^ 32 - 1 ≤ length source.now → IsOkAnd result (λ text. string_bytes text ≡ []) }
    ensures text { length source.now < 2 ^ 32 - 1 → IfOk result (λ text. (tokens : List TheToken)
        × GivesAll source.now tokens × (chars (string_bytes text) ≡ minified_text tokens)) }
    ensures error { IfErr result (λ error. (error ≡ placed out_of_memory)
        ⊎ ((tokens : List TheToken) × FailsAfter source.now tokens error)) }
{
    let Some(mut pp) = Preprocessor::try_new(alloc, source) else {
        return Ok(String::new(alloc));
    };
    let text = text_of_items(alloc, &mut pp);
    drop(pp);
    text
}

// The text of all items, up to the first error.
fn text_of_items(alloc: Global, pp: &mut Preprocessor<'_>) -> Result<String, PlacedError>
    requires unspent { is_spent pp.old ≡ false }
    requires rules { rules_of pp.old ≡ pp_rs }
    ensures text { IfOk result (λ text. (source : List ℕ) → Stands pp.old (start (items_of source))
        → (tokens : List TheToken) × GivesAll source tokens × (chars (string_bytes text) ≡ minified_text tokens)) }
    ensures error { IfErr result (λ error. (error ≡ placed out_of_memory)
        ⊎ ((source : List ℕ) → Stands pp.old (start (items_of source))
        → (tokens : List TheToken) × FailsAfter source tokens error)) }
{
    let mut text = String::new(alloc);
    'items: while let Some(item) = pp.next() {
        let token = item?;
        let pushed = push_item(&mut text, alloc, &token);
        drop(token);
        pushed?;
    }
    Ok(text)
}

// Puts an item at the end of the text.
fn push_item(text: &mut String, alloc: Global, token: &Token) -> Result<(), PlacedError>
    ensures pushed { OnOk result (chars (string_bytes text.new)
        ≡ with_item (chars (string_bytes text.old)) token.now.value) }
    ensures refused { IfErr result (λ error. error ≡ placed out_of_memory) }
{
    let mut word = String::new(alloc);
    push_token(&mut word, token)?;
    text.push_str(separator(text.as_str(), word.as_str()))?;
    text.push_str(word.as_str())?;
    if token.is_ordinary() {
        return Ok(());
    }
    text.push('\n')?;
    Ok(())
}

// The separator that is needed between a text and the word after it.
fn separator(text: &str, word: &str) -> &'static str
    ensures { result.now ≡ separator (chars text.now) (chars word.now) }
{
    let Some(last) = text.chars().last() else {
        return "";
    };
    let Some(first) = word.chars().next() else {
        return "";
    };
    if last == '\n' {
        ""
    } else if first == '#' {
        "\n"
    } else if may_join(last, first) {
        " "
    } else {
        ""
    }
}

// Whether two words could be read as one, by the last character of one and the first character of the other.
fn may_join(last: char, first: char) -> bool
    ensures { result ≡ may_join last first }
{
    is_of_word(last) == is_of_word(first) && !is_alone(last) && !is_alone(first)
}

// Whether identifiers and numbers may have the character.
fn is_of_word(c: char) -> bool
    ensures { result ≡ is_of_word c }
{
    c.is_alphanumeric() || c == '_' || c == '.'
}

// Whether the character is a punctuator that isn't part of any longer one.
fn is_alone(c: char) -> bool
    ensures { result ≡ is_alone c }
{
    matches!(
        c,
        '(' | ')' | '[' | ']' | '{' | '}' | ';' | ',' | ':' | '?' | '~'
    )
}
