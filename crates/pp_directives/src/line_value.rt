//! The value of an `#if`, `#elif` or `#line` line.

ghost use Rattle.pp_model.specs.Emitting.{answers_at, expansion_limit};
ghost use Rattle.pp_model.specs.LineValues.{IsCondition, IsLineNumber};
ghost use Rattle.pp_macros.specs.inner.Defined.{meaning_of};
ghost use Rattle.pp_macros.specs.Held.{AllHoldOrdinary};
ghost use Rattle.pp_macros.specs.inner.Expander.{Satisfies};
ghost use Rattle.pp_model.specs.Onward.{IsFirstNumber};
ghost use Rattle.pp_directives.specs.inner.LineHalts.{without_number, GivesFirst};

use crate::if_parser::IfParser;
use crate::plain_condition::plain_condition;
use crate::token_list::LineReads;
use pp_lexer::token::PreprocessorError;
use pp_macros::halt::PlacedHalt;
use pp_macros::list_lexer::Scope;
use pp_macros::macro_processor::SpareCounts;
use pp_model::numbering::as_line_number;
use pp_model::word::LineKind;
use std::alloc::{AllocError, Global};

/// Whether the condition of an `#if` or `#elif` line holds, or its first fault.
///
/// `tokens` are those after the directive's word, with its place. The error is the fault, or
/// `OutOfMemory` if an allocation failed.
pub fn condition(
    alloc: Global,
    tokens: LineReads<'_>,
    scope: &Scope<'_>,
    counts: &mut SpareCounts,
) -> Result<bool, PlacedHalt>
    requires { AllHoldOrdinary tokens.tokens }
    ensures { Satisfies result (IsCondition (answers_at expansion_limit) tokens.entry.directive tokens.entry.tokens
        scope.now.numbering (meaning_of scope.now.definitions.now)) }
{
    if let Some(holds) = plain_condition(alloc, &tokens, scope)? {
        return Ok(holds);
    }
    let mut parser = IfParser::new(alloc, LineKind::Condition, &tokens, scope, counts)?;
    let value = parser.evaluate_line()?;
    Ok(value != 0)
}

/// Why a `#line` gives no line number that the rules allow.
#[derive(Drop)]
pub struct LineHalt {
    /// Its first fault, or that an allocation failed.
    pub halt: PlacedHalt,
    /// The line number of its first expression, if the fault comes after that expression.
    pub number: Option<u32>,
}

impl From<AllocError> for LineHalt {
    ghost use Rattle.std.specs.Prelude.{◌≡◌, None};
    ghost use Rattle.pp_macros.specs.declared.halt.PlacedHalt.TheVariants.{OutOfMemory};

    ghost from_gives = { λ error refused. refused ≡ record { halt = OutOfMemory; number = None } };

    fn from(_error: AllocError) -> Self {
        LineHalt {
            halt: PlacedHalt::OutOfMemory,
            number: None,
        }
    }
}

impl From<PlacedHalt> for LineHalt {
    ghost use Rattle.std.specs.Prelude.{◌≡◌, None};

    ghost from_gives = { λ halt refused. refused ≡ record { halt = halt; number = None } };

    fn from(halt: PlacedHalt) -> Self {
        LineHalt { halt, number: None }
    }
}

/// The line number of a `#line`, or its first fault with any number that comes before it.
///
/// `tokens` are those after the directive's word, with its place. The error is the fault, or
/// `OutOfMemory` if an allocation failed.
pub fn line_number(
    alloc: Global,
    tokens: LineReads<'_>,
    scope: &Scope<'_>,
    counts: &mut SpareCounts,
) -> Result<u32, LineHalt>
    requires { AllHoldOrdinary tokens.tokens }
    ensures is { Satisfies (without_number result) (IsLineNumber (answers_at expansion_limit) tokens.entry.directive
        tokens.entry.tokens scope.now.numbering (meaning_of scope.now.definitions.now)) }
    ensures first { GivesFirst result (IsFirstNumber (answers_at expansion_limit) tokens.entry.directive
        tokens.entry.tokens scope.now.numbering (meaning_of scope.now.definitions.now)) }
{
    let directive = tokens.directive();
    let mut parser = IfParser::new(alloc, LineKind::LineNumber, &tokens, scope, counts)?;
    let value = parser.evaluate_expression()?;
    let Some(number) = as_line_number(value) else {
        return Err(LineHalt::from(PlacedHalt::Fault((PreprocessorError::LineOverflow, directive))));
    };
    if parser.peek().is_none() {
        return Ok(number);
    }
    match parser.evaluate_line() {
        Ok(_) => Ok(number),
        Err(halt) => Err(LineHalt {
            halt,
            number: Some(number),
        }),
    }
}
