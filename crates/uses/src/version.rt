//! Whether a compiler for GLSL ES 3.00 takes a shader.

ghost use Rattle.std.specs.Prelude.{◌≡◌, ◌<◌, ◌≤◌, ◌^◌, ◌-◌, ◌⊎◌, false, ℕ, List, None, Option, codes, length};
ghost use Rattle.std.specs.Prelude.{IfErr, IfOk, IsOkAnd};
ghost use Rattle.pp_lexer.specs.PlacedErrors.{placed};
ghost use Rattle.pp_lexer.specs.PreprocessorError.{out_of_memory};
ghost use Rattle.pp_lexer.specs.Rules.{pp_rs};
ghost use Rattle.pp_lexer.specs.declared.token.Token.{Token as TheToken};
ghost use Rattle.pp_model.specs.Run.{items_of};
ghost use Rattle.pp_rs.specs.Comes.{start};
ghost use Rattle.pp_rs.specs.Kept.{Stands, is_spent, rules_of};
ghost use Rattle.uses.specs.Sources.{FailsAfter};
ghost use Rattle.uses.specs.Versions.{AsksFor, first_version_number, version_number, verdict};

use pp_rs::pp::Preprocessor;
use pp_rs::token::{PlacedError, Token, TokenValue};
use std::alloc::Global;

// The latest version that the compiler takes.
const LATEST: u64 = 300;

/// What a compiler says of the version that a source asks for, up to its first error.
pub fn check_version(alloc: Global, source: &str) -> Result<&'static str, PlacedError>
    ensures too_long { 2 ^ 32 - 1 ≤ length source.now
        → IsOkAnd result (λ said. said.now ≡ codes "the source is too long") }
    ensures verdict { length source.now < 2 ^ 32 - 1
        → IfOk result (λ said. (asked : Option ℕ) × AsksFor source.now asked × (said.now ≡ verdict asked)) }
    ensures error { IfErr result (λ error. (error ≡ placed out_of_memory)
        ⊎ ((tokens : List TheToken) × FailsAfter source.now tokens error × (first_version_number tokens ≡ None))) }
{
    let Some(mut pp) = Preprocessor::try_new(alloc, source) else {
        return Ok("the source is too long");
    };
    let version = first_version(&mut pp);
    drop(pp);
    Ok(match version? {
        None => "none is asked for",
        Some(number) if number <= LATEST => "supported",
        Some(_) => "too new",
    })
}

// The number of the first `#version`.
fn first_version(pp: &mut Preprocessor<'_>) -> Result<Option<u64>, PlacedError>
    requires unspent { is_spent pp.old ≡ false }
    requires rules { rules_of pp.old ≡ pp_rs }
    ensures asked { IfOk result (λ asked. (source : List ℕ) → Stands pp.old (start (items_of source))
        → AsksFor source asked) }
    ensures error { IfErr result (λ error. (error ≡ placed out_of_memory)
        ⊎ ((source : List ℕ) → Stands pp.old (start (items_of source))
        → (tokens : List TheToken) × FailsAfter source tokens error × (first_version_number tokens ≡ None))) }
{
    'items: while let Some(item) = pp.next() {
        let token = item?;
        let number = version_of(&token);
        drop(token);
        if number.is_some() {
            return Ok(number);
        }
    }
    Ok(None)
}

// The number of a `#version`.
fn version_of(token: &Token) -> Option<u64>
    ensures { result ≡ version_number token.now.value }
{
    let TokenValue::Version(version) = &token.value else {
        return None;
    };
    match &version.tokens.iter().next()?.value {
        TokenValue::Integer(number) => Some(number.value),
        _ => None,
    }
}
