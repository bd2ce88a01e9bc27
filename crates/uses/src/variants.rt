//! A shader once for each quality.

ghost use Rattle.std.specs.Prelude.{◌≡◌, List, ℕ, false, map, IfOk, string_bytes};
ghost use Rattle.pp_lexer.specs.Rules.{pp_rs};
ghost use Rattle.pp_lexer.specs.declared.token.Token.{Token as TheToken};
ghost use Rattle.pp_model.specs.Run.{items_of};
ghost use Rattle.pp_model.specs.declared.outcome.Outcome.TheVariants.{End};
ghost use Rattle.pp_rs.specs.Comes.{IsRunFrom, State, start};
ghost use Rattle.pp_rs.specs.Kept.{Stands, is_spent, rules_of};
ghost use Rattle.pp_rs.specs.Output.{output};
ghost use Rattle.uses.specs.Variants.{AreVariants, IsVariant};

use anyhow::{Context, Result, bail};
use pp_rs::pp::{Preprocessor, spell_items};
use pp_rs::token::{PlacedError, Token};
use std::alloc::Global;

/// The source preprocessed once with each content of `QUALITY`, one after another.
pub fn build_variants(alloc: Global, source: &str, contents: &[&str]) -> Result<String>
    ensures { IfOk result (λ text. AreVariants source.now
        (map (λ content. content.now) contents.now) (string_bytes text)) }
{
    let mut variants = String::new(alloc);
    for content in contents {
        let variant = build_variant(alloc, source, content)?;
        write!(variants, "// QUALITY {content}\n{variant}")?;
    }
    Ok(variants)
}

// The source preprocessed with this content of `QUALITY`.
fn build_variant(alloc: Global, source: &str, content: &str) -> Result<String>
    ensures { IfOk result (λ text. IsVariant source.now content.now (string_bytes text)) }
{
    let Some(mut pp) = Preprocessor::try_new(alloc, source) else {
        bail!("the source is too long");
    };
    let text = text_with(alloc, &mut pp, content);
    drop(pp);
    text
}

// The items of the source as text, once the definition is added.
fn text_with(alloc: Global, pp: &mut Preprocessor<'_>, content: &str) -> Result<String>
    requires unspent { is_spent pp.old ≡ false }
    requires rules { rules_of pp.old ≡ pp_rs }
    ensures { IfOk result (λ text. (source : List ℕ) → Stands pp.old (start (items_of source))
        → IsVariant source content.now (string_bytes text)) }
{
    pp.try_add_define("QUALITY", content)
        .context("defining QUALITY")?;
    Ok(text_of_rest(alloc, pp)?)
}

// The items that are left as text, or the first error.
fn text_of_rest(alloc: Global, pp: &mut Preprocessor<'_>) -> Result<String, PlacedError>
    requires { is_spent pp.old ≡ false }
    ensures { IfOk result (λ text. (state : State) → Stands pp.old state
        → (tokens : List TheToken) × IsRunFrom state tokens End × (string_bytes text ≡ output tokens)) }
{
    let mut tokens: Vec<Token> = Vec::new(alloc);
    'items: while let Some(item) = pp.next() {
        tokens.push(item?)?;
    }
    Ok(spell_items(alloc, &tokens)?)
}
