//! How many tokens of a source come from macros. No memory is taken for them.

ghost use Rattle.std.specs.Prelude.{⊤, false};

use anyhow::{Result, bail};
use pp_rs::pp::{Preprocessor, TokenRef, TokenSink};
use pp_rs::token::PlacedError;
use std::alloc::{AllocError, Global};

// The tokens so far, and those of them that macros gave.
#[derive(Drop)]
struct Counts {
    tokens: u64,
    from_macros: u64,
}

impl TokenSink for Counts {
    ghost takes = { λ _ _ _. ⊤ };

    ghost refuses = { λ _ _. ⊤ };

    ghost is_full = { λ _. false };

    fn take(&mut self, token: TokenRef<'_>) -> Result<(), AllocError> {
        self.tokens = self.tokens.saturating_add(1);
        if token.origin.call.is_some() {
            self.from_macros = self.from_macros.saturating_add(1);
        }
        Ok(())
    }

    fn is_full(&self) -> bool {
        false
    }
}

/// Prints how many tokens a source gives, and how many of them macros give. Returns the first error of the source.
pub fn show_from_macros(rt: &impl Print, alloc: Global, source: &str) -> Result<()> {
    let Some(mut pp) = Preprocessor::try_new(alloc, source) else {
        bail!("the source is too long");
    };
    let mut counts = Counts {
        tokens: 0,
        from_macros: 0,
    };
    let counted = count_tokens(&mut pp, &mut counts);
    drop(pp);
    counted?;
    println!(rt;
        "tokens: {}, of macros {}",
        counts.tokens, counts.from_macros
    )?;
    Ok(())
}

// Counts the tokens that are left, and drops directive items.
fn count_tokens(pp: &mut Preprocessor<'_>, counts: &mut Counts) -> Result<(), PlacedError> {
    'items: while let Some(item) = pp.give_tokens(counts) {
        drop(item?);
    }
    Ok(())
}
