//! The words of an `#if`, `#elif` or `#line` line.

ghost use Rattle.std.specs.Prelude.{◌≡◌, is_some};
ghost use Rattle.pp_model.specs.LineWords.{reading, unknown_name, unexpected, name_in_value, word_of};
ghost use Rattle.pp_model.specs.Names.{is_identifier, defined_name};
ghost use Rattle.pp_model.specs.WordReadings.{reading_named, unwanted_read, IsOf};

use crate::names::is_defined_name;
use crate::place::{Place, PlacedFault};
use crate::read::Read;
use crate::splice::CallPlace;
use pp_lexer::token::{Integer, PreprocessorError, Token, TokenValue};
use std::marker::Model;

/// A word of a line that is evaluated (GLSL ES 3.20 section 3.4).
#[derive(Drop)]
pub enum Word {
    /// A token other than an identifier, or the number 0 for an unknown identifier, with its place.
    Plain(TokenValue, Place),
    /// A `defined` at this place with its operand: whether the name is defined, or the fault of the operand.
    Defined(Place, Result<bool, PlacedFault>),
}

impl Word {
    /// Returns the word that a token is, which comes from this call if a macro gave it.
    pub fn of_read(read: Read, call: Option<CallPlace>) -> Word
        ensures { result ≡ word_of call read }
    {
        let place = read.place().in_call(call);
        Word::Plain(read.token.value, place)
    }
}

/// The words of a line, and the fault that ends their reading, if there is one.
#[derive(Drop)]
pub struct Words {
    /// The words.
    pub words: Vec<Word>,
    /// The fault.
    pub ending: Option<PlacedFault>,
}

impl Model for Words {
    ghost use Rattle.pp_model.specs.LineWords as spec;

    ghost Value = { spec.Words };

    ghost view = { λ w. record { words = w.words.items; ending = w.ending } };
}

impl Words {
    /// Returns these words, with the fault that ends their reading, if there is one.
    pub fn new(words: Vec<Word>, ending: Option<PlacedFault>) -> Words
        ensures { result ≡ record { words = words.items; ending = ending } }
    {
        Words { words, ending }
    }
}

/// The kind of a line that is evaluated.
#[derive(Clone, Copy)]
pub enum LineKind {
    /// An `#if` or `#elif` line, in which an unknown identifier is 0.
    Condition,
    /// A `#line` line, in which an unknown identifier is an error.
    LineNumber,
}

/// What a token of an expanded line is read as.
#[derive(Drop)]
pub enum WordReading {
    /// The operator `defined`, as the token that it was read from.
    Operator(Read),
    /// A word.
    Word(Read),
    /// The fault of an unknown name in a line that allows none.
    Refused(PlacedFault),
}

/// Returns the fault of a token that the grammar doesn't allow at its place.
pub fn unexpected(read: Read) -> PlacedFault
    ensures { result ≡ unexpected read }
{
    let place = read.place();
    (PreprocessorError::UnexpectedToken(read.token.value), place)
}

// Whether the token is the identifier `defined`.
fn is_operator(value: &TokenValue) -> bool
    ensures { result ≡ is_identifier defined_name value.now }
{
    match value {
        TokenValue::Ident(name) => is_defined_name(name),
        _ => false,
    }
}

// Whether the token is an identifier.
fn is_name(value: &TokenValue) -> bool
    ensures { result ≡ is_some (name_in_value value.now) }
{
    matches!(value, TokenValue::Ident(_))
}

// What an unknown identifier of a line is read as.
fn unknown_name(kind: LineKind, read: Read) -> WordReading
    ensures { unknown_name kind read ≡ reading_named result }
{
    match kind {
        LineKind::Condition => {
            let zero = TokenValue::Integer(Integer {
                value: 0,
                signed: true,
                width: 64,
            });
            WordReading::Word(Read {
                token: Token {
                    value: zero,
                    location: read.token.location,
                },
                text: read.text,
                painted: read.painted,
            })
        }
        LineKind::LineNumber => WordReading::Refused(unexpected(read)),
    }
}

/// Returns what a token of an expanded line is read as.
pub fn reading_of(kind: LineKind, read: Read) -> WordReading
    ensures reads { reading kind read ≡ reading_named result }
    ensures whole { IsOf read result }
{
    if is_operator(&read.token.value) {
        WordReading::Operator(read)
    } else if is_name(&read.token.value) {
        unknown_name(kind, read)
    } else {
        WordReading::Word(read)
    }
}

/// Returns the fault of what was read in place of the operand or of a parenthesis of a `defined`.
pub fn unwanted_reading(read: WordReading) -> PlacedFault
    ensures { result ≡ unwanted_read read }
{
    match read {
        WordReading::Operator(operator) => unexpected(operator),
        WordReading::Word(word) => unexpected(word),
        WordReading::Refused(fault) => fault,
    }
}
