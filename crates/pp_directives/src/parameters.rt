//! The parameters of a macro, read token by token.

ghost use Rattle.std.specs.Prelude.{◌≡◌, ◌++◌, ◌∷◌, [], Bool, false, Ok, IfOk, MatchOption};
ghost use Rattle.pp_lexer.specs.declared.token.Location.{Location};
ghost use Rattle.pp_model.specs.DefineLines.{parameters};
ghost use Rattle.pp_model.specs.Names.{is_in};
ghost use Rattle.pp_macros.specs.inner.LineReading as spec;
ghost use Rattle.pp_macros.specs.inner.ParameterReading.{ends_parameters, one_parameter, first_parameter, alone};
ghost use Rattle.pp_macros.specs.inner.ParameterReading.{GoesOnInLine, ShowsOnLine};
ghost use Rattle.pp_macros.specs.inner.SourceLexed.{unreported_at};
ghost use Rattle.pp_macros.specs.inner.Unreported.{Reports};
ghost use Rattle.pp_directives.specs.inner.PlainText.{PassesBlanks};
ghost use Rattle.pp_directives.specs.inner.ReadNames.{parameters_to};
ghost use Rattle.pp_directives.specs.inner.ReadingLines.{ReadsNext};

use crate::lines::first_token;
use crate::source_lexer::SourceLexer;
use pp_lexer::lexer::{self, Form};
use pp_lexer::token::{Location, PreprocessorError, Punct, Text};
use pp_macros::halt::Halt;
use pp_macros::parameter_names::ParameterNames;
use pp_model::conversion::refused_token;
use std::alloc::Global;

// The name of one more parameter, which comes next.
fn one_parameter(
    names: &ParameterNames,
    word: Location,
    lexer: &mut SourceLexer<'_>,
) -> Result<Text, Halt>
    requires { lexer.old.spent ≡ false }
    ensures reads { ReadsNext (λ name. names.now ++ name ∷ []) (one_parameter word names.now)
        lexer.old result lexer.new }
    ensures new { IfOk result (λ name. is_in name names.now ≡ false) }
{
    let token = first_token(word, lexer)?;
    let location = token.location;
    match token.value {
        lexer::TokenValue::Ident(name) => {
            if names.contains(&name) {
                drop(name);
                return Err(Halt::Fault((PreprocessorError::DuplicateParameter, location)));
            }
            Ok(name)
        }
        _ => Err(Halt::Fault(refused_token(token))),
    }
}

// The name of the first parameter, or `None` if there is none.
fn first_parameter(word: Location, lexer: &mut SourceLexer<'_>) -> Result<Option<Text>, Halt>
    requires { lexer.old.spent ≡ false }
    ensures { ReadsNext alone (first_parameter word) lexer.old result lexer.new }
{
    let token = first_token(word, lexer)?;
    match token.value {
        lexer::TokenValue::Punct(Punct::RightParen) => Ok(None),
        lexer::TokenValue::Ident(name) => Ok(Some(name)),
        _ => Err(Halt::Fault(refused_token(token))),
    }
}

// Passes the next token if it is a `)` or a comma of plain text, and returns whether it is a `)`. Otherwise at most
// comments in front of it are passed.
fn plain_end(lexer: &mut SourceLexer<'_>) -> Option<bool>
    requires { lexer.old.spent ≡ false }
    ensures { MatchOption result (PassesBlanks lexer.old lexer.new) (λ ends. (word : Location)
        → ReadsNext {A = Bool} (λ b. b) (ends_parameters word) lexer.old (Ok ends) lexer.new) }
{
    let word = lexer.peek_word()?;
    let ends = match word.form {
        Form::Punct(Punct::RightParen) => true,
        Form::Punct(Punct::Comma) => false,
        _ => return None,
    };
    lexer.pass_word(&word);
    Some(ends)
}

// Reads what follows a parameter: a `)` ends the parameters, and after a comma they go on. Returns
// whether they end.
fn ends_parameters(word: Location, lexer: &mut SourceLexer<'_>) -> Result<bool, Halt>
    requires { lexer.old.spent ≡ false }
    ensures { ReadsNext (λ b. b) (ends_parameters word) lexer.old result lexer.new }
{
    if let Some(ends) = plain_end(lexer) {
        return Ok(ends);
    }
    let token = first_token(word, lexer)?;
    match token.value {
        lexer::TokenValue::Punct(Punct::RightParen) => Ok(true),
        lexer::TokenValue::Punct(Punct::Comma) => Ok(false),
        _ => Err(Halt::Fault(refused_token(token))),
    }
}

/// The parameters of a macro, after its `(`.
pub fn parameters(
    alloc: Global,
    word: Location,
    lexer: &mut SourceLexer<'_>,
) -> Result<ParameterNames, Halt>
    requires { lexer.old.spent ≡ false }
    ensures is { spec.Meets (λ names. parameters_to names lexer.new) result
        (parameters word lexer.old.rest) }
    ensures goes { GoesOnInLine result lexer.old lexer.new }
    ensures shown { ShowsOnLine word result lexer.old lexer.new }
    ensures fault { spec.IsShownOrLast result lexer.new }
    ensures errors { Reports false result (unreported_at lexer.old) (unreported_at lexer.new) }
{
    let none = ParameterNames::new(alloc);
    let Some(first) = first_parameter(word, lexer)? else {
        return Ok(none);
    };
    let mut names = none.with(alloc, first)?;
    'parameters: while !ends_parameters(word, lexer)? {
        let name = one_parameter(&names, word, lexer)?;
        names = names.with(alloc, name)?;
    }
    Ok(names)
}
