//! The text of a source's code: a proved caller of `preprocess_all` and `spell_tokens`.

ghost use Rattle.std.specs.Prelude.{◌≡◌, ◌<◌, ◌^◌, ◌-◌, ◌⊎◌, ◌++◌, ◌∷◌, [], IsTrue, All, List, None, Some, length};
ghost use Rattle.std.specs.Prelude.{Err, OnOk, IfOk, IfErr, is_err, string_bytes};
ghost use Rattle.std.specs.List.{filter, find};
ghost use Rattle.std.specs.Result.{ok_prefix};
ghost use Rattle.std.specs.Str.{chars};
ghost use Rattle.pp_lexer.specs.PreprocessorError.{out_of_memory};
ghost use Rattle.pp_lexer.specs.Spelling.{spelled_text, values_of};
ghost use Rattle.pp_lexer.specs.TokenValue.{is_ordinary};
ghost use Rattle.pp_lexer.specs.declared.token.Token.{Token as TheToken};
ghost use Rattle.pp_model.specs.Run.{items_of};
ghost use Rattle.pp_model.specs.declared.outcome.Outcome.TheVariants.{Fault, End};
ghost use Rattle.pp_rs.specs.Comes.{IsRunFrom, start};

use pp_rs::pp::{Preprocessor, PreprocessorItem, preprocess_all, spell_tokens};
use pp_rs::token::{Location, PreprocessorError, Token, out_of_memory};
use std::alloc::Global;

/// The code of a preprocessed source: its tokens with single spaces, without the lines of `#version`, `#extension` and
/// `#pragma`. The error is the first one of the source, or `OutOfMemory`.
pub fn code_text(alloc: Global, source: &str) -> Result<String, (PreprocessorError, Location)>
    requires { length source.now < 2 ^ 32 - 1 }
    ensures text { IfOk result (λ text. (tokens : List TheToken) × IsRunFrom (start (items_of source.now)) tokens End
        × (chars (string_bytes text) ≡ spelled_text (values_of (filter (λ t. is_ordinary t.value) tokens)))) }
    ensures error { IfErr result (λ error. (error ≡ out_of_memory)
        ⊎ ((tokens : List TheToken) × IsRunFrom (start (items_of source.now)) tokens (Fault error))) }
{
    let mut pp = Preprocessor::new(alloc, source);
    let items = preprocess_all(alloc, &mut pp);
    drop(pp);
    let tokens = ordinary_tokens(alloc, items?)?;
    spell_tokens(alloc, tokens.as_slice())
}

// The tokens among the items that are no directives, or the first error.
fn ordinary_tokens(
    alloc: Global,
    items: Vec<PreprocessorItem>,
) -> Result<Vec<Token>, (PreprocessorError, Location)>
    ensures ordinary { IfOk result (λ tokens. All (λ t. IsTrue (is_ordinary t.value)) tokens.items) }
    ensures kept { IfOk result (λ tokens. tokens.items
        ≡ filter (λ t. is_ordinary t.value) (ok_prefix items.items)) }
    ensures whole { IfOk result (λ tokens. find is_err items.items ≡ None) }
    ensures error { IfErr result (λ error. (error ≡ out_of_memory) ⊎ (find is_err items.items ≡ Some (Err error))) }
{
    let mut tokens = Vec::new(alloc);
    for item in items {
        push_ordinary(&mut tokens, item?)?;
    }
    Ok(tokens)
}

// Puts the token at the end, unless it is a directive.
fn push_ordinary(tokens: &mut Vec<Token>, token: Token) -> Result<(), (PreprocessorError, Location)>
    ensures pushed { OnOk result (tokens.new.items
        ≡ tokens.old.items ++ filter (λ t. is_ordinary t.value) (token ∷ [])) }
    ensures refused { IfErr result (λ error. error ≡ out_of_memory) }
{
    if !token.is_ordinary() {
        drop(token);
        return Ok(());
    }
    match tokens.push(token) {
        Ok(()) => Ok(()),
        Err(_) => Err(out_of_memory()),
    }
}
