//! What the uses of macros became: a sink of tokens that keeps those of calls alone.

ghost use Rattle.std.specs.Prelude.{⊤, false};

use pp_rs::pp::{CallPlace, TokenRef, TokenSink, ValueRef};
use pp_rs::token::Location;
use std::alloc::{AllocError, Global};

/// A use of a macro, and the tokens that it became.
#[derive(Drop)]
pub struct MacroUsed {
    /// The number of the text that it is in.
    pub text: u32,
    /// The place of the macro's name.
    pub name: Location,
    /// The tokens, with a space between each two.
    pub tokens: String,
    /// Whether they are only the first of many, with a `…` behind them.
    pub is_cut: bool,
}

// How many bytes of tokens are kept before more of them are left out.
const MOST_BYTES: usize = 2_000;

/// The uses of macros that gave tokens, in their order.
#[derive(Drop)]
pub struct MacroUses {
    alloc: Global,
    /// The uses.
    pub uses: Vec<MacroUsed>,
}

impl MacroUses {
    /// No uses.
    pub fn new(alloc: Global) -> MacroUses {
        MacroUses {
            alloc,
            uses: Vec::new(alloc),
        }
    }

    // Takes a token of a call.
    fn add(&mut self, call: CallPlace, value: ValueRef<'_>) -> Result<(), AllocError> {
        if let Some(last) = self.uses.last_mut()
            && last.text == call.text
            && last.name == call.name
        {
            return last.add(value);
        }
        let mut tokens = String::new(self.alloc);
        value.push_to(&mut tokens)?;
        self.uses.push(MacroUsed {
            text: call.text,
            name: call.name,
            tokens,
            is_cut: false,
        })?;
        Ok(())
    }
}

impl MacroUsed {
    // Takes one token more.
    fn add(&mut self, value: ValueRef<'_>) -> Result<(), AllocError> {
        if self.is_cut {
            return Ok(());
        }
        self.tokens.push(' ')?;
        if self.tokens.len() > MOST_BYTES {
            self.is_cut = true;
            return self.tokens.push('…');
        }
        value.push_to(&mut self.tokens)
    }
}

impl TokenSink for MacroUses {
    ghost takes = { λ _ _ _. ⊤ };

    ghost refuses = { λ _ _. ⊤ };

    ghost is_full = { λ _. false };

    fn take(&mut self, token: TokenRef<'_>) -> Result<(), AllocError> {
        match token.origin.call {
            Some(call) => self.add(call, token.value),
            None => Ok(()),
        }
    }

    fn is_full(&self) -> bool {
        false
    }
}
