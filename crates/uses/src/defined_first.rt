//! What a source gives first, once a macro is defined: a proved caller of `add_define` and `next`.

ghost use Rattle.std.specs.Prelude.{◌≡◌, ◌<◌, ◌^◌, ◌-◌, ◌⊎◌, ℕ, false, List, [], ◌∷◌, None, length, IfOk, IfErr};
ghost use Rattle.pp_lexer.specs.Rules.{pp_rs};
ghost use Rattle.pp_lexer.specs.PreprocessorError.{out_of_memory};
ghost use Rattle.pp_model.specs.Run.{IsRun, add_define, next, items_of};
ghost use Rattle.pp_model.specs.declared.call.Reply.TheVariants.{Added, Refused, Given};
ghost use Rattle.pp_rs.specs.Comes.{start};
ghost use Rattle.pp_rs.specs.Kept.{Stands, is_spent, rules_of};
ghost use Rattle.pp_rs.specs.Preprocessing.{is_refusal, outcome_of};

use pp_rs::pp::{Preprocessor, PreprocessorItem};
use pp_rs::token::{Location, PreprocessorError};
use std::alloc::Global;

/// What a source gives first if the name is a macro with this content from the start: a token, an error, or nothing.
/// The error is the first one of the content, with its place there, or `OutOfMemory`.
pub fn first_item_with(
    alloc: Global,
    source: &str,
    name: &str,
    content: &str,
) -> Result<Option<PreprocessorItem>, (PreprocessorError, Location)>
    requires source { length source.now < 2 ^ 32 - 1 }
    requires content { length content.now < 2 ^ 32 - 1 }
    ensures item { IfOk result (λ item. is_refusal item ≡ false
        → IsRun source.now (add_define name.now content.now ∷ next ∷ [])
        (Added ∷ Given (outcome_of item None) ∷ [])) }
    ensures error { IfErr result (λ error. (error ≡ out_of_memory)
        ⊎ IsRun source.now (add_define name.now content.now ∷ []) (Refused error ∷ [])) }
{
    let mut pp = Preprocessor::new(alloc, source);
    let item = define_and_read(&mut pp, name, content);
    drop(pp);
    item
}

// Adds the definition, and reads an item.
fn define_and_read(
    pp: &mut Preprocessor<'_>,
    name: &str,
    content: &str,
) -> Result<Option<PreprocessorItem>, (PreprocessorError, Location)>
    requires unspent { is_spent pp.old ≡ false }
    requires content { length content.now < 2 ^ 32 - 1 }
    requires rules { rules_of pp.old ≡ pp_rs }
    ensures item { IfOk result (λ item. is_refusal item ≡ false
        → (text : List ℕ) → Stands pp.old (start (items_of text))
        → IsRun text (add_define name.now content.now ∷ next ∷ []) (Added ∷ Given (outcome_of item None) ∷ [])) }
    ensures error { IfErr result (λ error. (error ≡ out_of_memory)
        ⊎ ((text : List ℕ) → IsRun text (add_define name.now content.now ∷ []) (Refused error ∷ []))) }
{
    pp.add_define(name, content)?;
    Ok(pp.next())
}
