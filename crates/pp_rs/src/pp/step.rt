//! One step over tokens, as the Rust crate has it.

ghost use Rattle.std.specs.Prelude.{◌≡◌, ◌≢◌, IfOk, IsTrue, MatchResult};
ghost use Rattle.pp_lexer.specs.PreprocessorError.{out_of_memory};
ghost use Rattle.pp_lexer.specs.TokenValue.{is_ordinary};
ghost use Rattle.pp_lexer.specs.declared.lexer.item.TokenValue.TheVariants.{NewLine};
ghost use Rattle.pp_model.specs.Conversions.{conversion};
ghost use Rattle.pp_rs.specs.Steps.{as_step};

use crate::lexer;
use crate::pp::convert_lexer_token;
use crate::token::{Location, PreprocessorError, Token, out_of_memory};
use std::alloc::{AllocError, AllocFailed, Global};

/// A value, or the reason why a step gives none.
pub type Step<T> = Result<T, StepExit>;

/// Why a step gives no value.
#[derive(PartialEq, Eq, Debug, Drop)]
pub enum StepExit {
    /// A fault with its place.
    Error((PreprocessorError, Location)),
    /// A pause: nothing yet, and another step goes on.
    Continue,
    /// The end: nothing is left to give.
    Finished,
}

impl From<AllocError> for StepExit {
    ghost use Rattle.std.specs.Prelude.{◌≡◌};
    ghost use Rattle.pp_lexer.specs.PreprocessorError.{out_of_memory};
    ghost use Rattle.pp_rs.specs.declared.pp.step.StepExit.TheVariants.{Error};

    ghost from_gives = { λ error exit. exit ≡ Error out_of_memory };

    fn from(_error: AllocError) -> Self {
        StepExit::Error(out_of_memory())
    }
}

impl<T: Drop> From<AllocFailed<T>> for StepExit {
    ghost use Rattle.std.specs.Prelude.{◌≡◌};
    ghost use Rattle.pp_lexer.specs.PreprocessorError.{out_of_memory};
    ghost use Rattle.pp_rs.specs.declared.pp.step.StepExit.TheVariants.{Error};

    ghost from_gives = { λ error exit. exit ≡ Error out_of_memory };

    fn from(_error: AllocFailed<T>) -> Self {
        StepExit::Error(out_of_memory())
    }
}

impl StepExit {
    /// A copy of the exit.
    ///
    /// The only error is `OutOfMemory`, with the place (0, 0, line 1).
    pub fn clone(&self, alloc: Global) -> Result<Self, (PreprocessorError, Location)>
        ensures { MatchResult result (λ exit. exit ≡ self.now) (λ e. e ≡ out_of_memory) }
    {
        match self {
            StepExit::Error((error, location)) => {
                Ok(StepExit::Error((error.clone(alloc)?, *location)))
            }
            StepExit::Continue => Ok(StepExit::Continue),
            StepExit::Finished => Ok(StepExit::Finished),
        }
    }
}

/// `convert_lexer_token` as a step: for a number sign it is an `Error`.
pub fn convert_lexer_token_to_step(token: lexer::Token) -> Step<Token>
    requires { token.value ≢ NewLine }
    ensures is { result ≡ as_step (conversion token) }
    ensures ordinary { IfOk result (λ token. IsTrue (is_ordinary token.value)) }
{
    convert_lexer_token(token).map_err(StepExit::Error)
}
