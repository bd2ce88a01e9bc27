//! The word at a place.

ghost use Rattle.std.specs.Prelude.{◌≡◌, OnOk};
ghost use Rattle.pp_lexer.specs.Outcome.{IsGiven};
ghost use Rattle.pp_lexer.specs.Reading.{letters, advanced};
ghost use Rattle.pp_lexer.specs.Words.{word_at};

use crate::lexer::char_iterator::LexerCharIterator;
use crate::lexer::identifier::parse_identifier;
use crate::lexer::item::TokenValue;
use crate::lexer::look_ahead::{begins_identifier, begins_number, is_next};
use crate::lexer::number::parse_number;
use crate::lexer::punctuation::parse_punctuation;
use crate::rules::Rules;
use crate::token::PreprocessorError;
use std::alloc::{AllocError, Global};

/// Takes the longest word here, with the suffix of a number: a newline, an identifier, a number, a punctuator or a `#`.
/// Any other character is [`PreprocessorError::UnexpectedCharacter`], which takes it and, by pp-rs's rules, up to two
/// more. The errors of numbers are those of [`parse_number`].
///
/// The outer error is that an allocation failed. It comes only in place of an identifier or of a float. Some of the
/// characters of an identifier may have been taken then.
pub fn parse_word(
    alloc: Global,
    rules: Rules,
    inner: &mut LexerCharIterator<'_>,
) -> Result<Result<TokenValue, PreprocessorError>, AllocError>
    ensures value { IsGiven result (word_at rules (letters inner.old.rest)).value }
    ensures state { OnOk result (inner.new
        ≡ advanced (word_at rules (letters inner.old.rest)).taken inner.old) }
{
    if is_next(inner, '\n') {
        inner.next_char();
        return Ok(Ok(TokenValue::NewLine));
    }
    if begins_identifier(inner) {
        let name = parse_identifier(alloc, inner)?;
        return Ok(Ok(TokenValue::Ident(name)));
    }
    if begins_number(inner) {
        return parse_number(alloc, rules, inner);
    }
    Ok(parse_punctuation(rules, inner))
}
