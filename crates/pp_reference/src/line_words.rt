//! The words of an `#if`, `#elif` or `#line` line.

ghost use Rattle.std.specs.Prelude.{◌≡◌, ◌≤◌, [], map, IfOk, MatchResult, Some, None};
ghost use Rattle.pp_reference.specs.inner.Changes.{meaning_of};
ghost use Rattle.pp_model.specs.Emitting.{answers_at};
ghost use Rattle.pp_model.specs.LineWords.{LineWords, InParentheses, Operand, name_in, is_defined, unwanted_part};
ghost use Rattle.pp_model.specs.LineWords.{unwanted_closing};
ghost use Rattle.pp_model.specs.inner.LineWords.{is_open_paren, is_close_paren};
ghost use Rattle.pp_model.specs.Painting.{read_in};
ghost use Rattle.pp_model.specs.Reading.{reading_of};
ghost use Rattle.pp_model.specs.inner.WordsRead.{Closes};
ghost use Rattle.pp_reference.specs.inner.Seen.{seen};
ghost use Rattle.pp_reference.specs.inner.SeenList.{line_state};

use crate::definitions::Definitions;
use crate::emitted::Emitted;
use crate::expand::emit;
use crate::expander::Expander;
use crate::list::outermost_call;
use crate::reader::LineReader;
use crate::stop::{Budget, Stop};
use pp_lexer::token::{PreprocessorError, Text, Token, TokenValue};
use pp_model::numbering::Numbering;
use pp_model::parentheses::{is_left_paren, is_right_paren};
use pp_model::place::{Place, PlacedFault, fault_in};
use pp_model::read::{Read, Taken};
use pp_model::splice::CallPlace;
use pp_model::word::{LineKind, Word, WordReading, Words, reading_of, unwanted_reading};
use std::alloc::{AllocError, Global};

/// The fault of what was taken in place of the operand or of a parenthesis of a `defined`.
fn unwanted_word(kind: LineKind, directive: Place, taken: Taken) -> PlacedFault
    ensures { result ≡ unwanted_closing kind directive taken }
{
    match taken {
        Taken::Token(read) => unwanted_reading(reading_of(kind, read)),
        Taken::Fault(fault) => fault,
        Taken::End => (PreprocessorError::UnexpectedEndOfInput, directive),
    }
}

/// The name of an identifier, or the fault of anything else that was taken in place of the name of a `defined`.
fn name_or_fault(directive: Place, taken: Taken) -> Result<Text, PlacedFault>
    ensures { MatchResult result (λ name. name_in taken ≡ Some name)
        (λ fault. (name_in taken ≡ None) × (fault ≡ unwanted_part directive taken)) }
{
    match taken {
        Taken::Token(read) => {
            let place = read.place();
            let value = read.token.value;
            match value {
                TokenValue::Ident(name) => Ok(name),
                other => Err((PreprocessorError::UnexpectedToken(other), place)),
            }
        }
        Taken::Fault(fault) => Err(fault),
        Taken::End => Err((PreprocessorError::UnexpectedEndOfInput, directive)),
    }
}

/// Whether it is a `(`.
fn is_open_paren(taken: &Taken) -> bool
    ensures { result ≡ is_open_paren taken.now }
{
    match taken {
        Taken::Token(read) => is_left_paren(&read.token.value),
        Taken::Fault(_) | Taken::End => false,
    }
}

/// Whether it is a `)`.
fn is_close_paren(taken: &Taken) -> bool
    ensures { result ≡ is_close_paren taken.now }
{
    match taken {
        Taken::Token(read) => is_right_paren(&read.token.value),
        Taken::Fault(_) | Taken::End => false,
    }
}

/// Whether the name is defined.
fn is_defined(expander: &Expander<LineReader<'_>>, name: &Text) -> bool
    ensures { result ≡ is_defined (seen line_state expander.now) name.now }
{
    expander.reader.definitions.find(name).is_some()
}

/// The value of a `defined` after its `(` and the name.
fn closed_operand(
    kind: LineKind,
    directive: Place,
    expander: &mut Expander<LineReader<'_>>,
    name: &Text,
    levels: u32,
    budget: &mut Budget,
) -> Result<Result<bool, PlacedFault>, Stop>
    ensures closes { IfOk result (λ answer. Closes kind directive (answers_at levels) name.now
        (seen line_state expander.old) answer (seen line_state expander.new)) }
    ensures budget { budget.new.steps ≤ budget.old.steps }
{
    let Emitted { taken, call } = emit(expander, levels, budget)?;
    if is_close_paren(&taken) {
        drop(taken);
        Ok(Ok(is_defined(expander, name)))
    } else {
        let fault = unwanted_word(kind, directive, taken);
        Ok(Err(fault_in(call, fault)))
    }
}

/// The value of a `defined` after its `(`.
fn operand_in_parentheses(
    kind: LineKind,
    directive: Place,
    expander: &mut Expander<LineReader<'_>>,
    levels: u32,
    budget: &mut Budget,
) -> Result<Result<bool, PlacedFault>, Stop>
    ensures inside { IfOk result
        (λ answer. InParentheses kind directive (answers_at levels)
        (seen line_state expander.old) answer (seen line_state expander.new)) }
    ensures budget { budget.new.steps ≤ budget.old.steps }
{
    let found = expander.take(budget)?;
    match name_or_fault(directive, found) {
        Ok(name) => closed_operand(kind, directive, expander, &name, levels, budget),
        Err(fault) => Ok(Err(fault_in(outermost_call(&expander.list), fault))),
    }
}

/// The value of a `defined`, from its operand.
fn operand(
    kind: LineKind,
    directive: Place,
    expander: &mut Expander<LineReader<'_>>,
    levels: u32,
    budget: &mut Budget,
) -> Result<Result<bool, PlacedFault>, Stop>
    ensures operand { IfOk result (λ answer. Operand kind directive (answers_at levels)
        (seen line_state expander.old) answer (seen line_state expander.new)) }
    ensures budget { budget.new.steps ≤ budget.old.steps }
{
    let found = expander.take(budget)?;
    if is_open_paren(&found) {
        drop(found);
        return operand_in_parentheses(kind, directive, expander, levels, budget);
    }
    match name_or_fault(directive, found) {
        Ok(name) => Ok(Ok(is_defined(expander, &name))),
        Err(fault) => Ok(Err(fault_in(outermost_call(&expander.list), fault))),
    }
}

/// Appends the words of the rest of a line to a list, and returns the fault that ends their
/// reading, if there is one.
fn read_into(
    kind: LineKind,
    directive: Place,
    expander: &mut Expander<LineReader<'_>>,
    words: &mut Vec<Word>,
    levels: u32,
    budget: &mut Budget,
) -> Result<Option<PlacedFault>, Stop>
    requires { words.old.items ≡ [] }
    ensures words { IfOk result (λ ending. LineWords kind directive (answers_at levels)
        (seen line_state expander.old) (record { words = words.new.items; ending = ending })) }
    ensures budget { budget.new.steps ≤ budget.old.steps }
{
    'words: loop {
        budget.spend()?;
        let Emitted { taken, call } = emit(expander, levels, budget)?;
        let read = match taken {
            Taken::Token(read) => read,
            Taken::Fault(fault) => return Ok(Some(fault)),
            Taken::End => return Ok(None),
        };
        let place = read.place().in_call(call);
        match reading_of(kind, read) {
            WordReading::Refused(fault) => return Ok(Some(fault_in(call, fault))),
            WordReading::Word(word) => words.push(Word::of_read(word, call))?,
            WordReading::Operator(operator) => {
                drop(operator);
                match operand(kind, directive, expander, levels, budget)? {
                    Ok(answer) => words.push(Word::Defined(place, Ok(answer)))?,
                    Err(fault) => {
                        words.push(Word::Defined(place, Err(fault)))?;
                        return Ok(None);
                    }
                }
            }
        }
    }
}

/// The words of the rest of a line.
fn read_words(
    kind: LineKind,
    directive: Place,
    expander: &mut Expander<LineReader<'_>>,
    levels: u32,
    budget: &mut Budget,
) -> Result<Words, Stop>
    ensures words { IfOk result (λ words. LineWords kind directive (answers_at levels)
        (seen line_state expander.old) words) }
    ensures budget { budget.new.steps ≤ budget.old.steps }
{
    let mut words = Vec::new(expander.alloc);
    match read_into(kind, directive, expander, &mut words, levels, budget) {
        Ok(ending) => Ok(Words::new(words, ending)),
        Err(stop) => {
            drop(words);
            Err(stop)
        }
    }
}

/// The tokens of a line of this text, unpainted.
fn unpainted(alloc: Global, text: u32, tokens: Vec<Token>) -> Result<Vec<Read>, AllocError>
    ensures { IfOk result (λ reads. reads.items ≡ map (read_in text) tokens.items) }
{
    let mut reads = Vec::new(alloc);
    for token in tokens {
        reads.push(Read::of_text(token, text))?;
    }
    Ok(reads)
}

/// The words of a line, and the fault that ends their reading, if there is one.
pub fn line_words(
    alloc: Global,
    kind: LineKind,
    directive: Place,
    tokens: Vec<Token>,
    numbering: Numbering,
    definitions: &Definitions,
    levels: u32,
    budget: &mut Budget,
) -> Result<Words, Stop>
    ensures words { IfOk result (λ words. LineWords kind directive (answers_at levels)
        (reading_of (map (read_in directive.text) tokens.items) numbering (meaning_of definitions.now) []) words) }
    ensures budget { budget.new.steps ≤ budget.old.steps }
{
    let reader = LineReader {
        tokens: unpainted(alloc, directive.text, tokens)?,
        numbering,
        definitions,
    };
    let mut expander = Expander::new(alloc, reader, Vec::new(alloc));
    let words = read_words(kind, directive, &mut expander, levels, budget);
    drop(expander);
    words
}
