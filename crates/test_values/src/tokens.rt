//! Texts, lists of tokens, errors and exits: what they hold, their copies, and what is no output.

use pp_rs::pp::{EXPANSION_LIMIT, Preprocessor, StepExit, are_read_afresh};
use pp_rs::token::{
    Integer, Location, PreprocessorError, Punct, Text, Token, TokenValue, Tokens, out_of_memory,
};
use pp_rs::{laws, lexer};
use std::alloc::{AllocError, Global};
use std::test::Fail;

const PLACE: Location = Location {
    start: 14,
    end: 19,
    line: 2,
};

const NOWHERE: Location = Location {
    start: 0,
    end: 0,
    line: 1,
};

fn name(alloc: Global, content: &str) -> Result<TokenValue, AllocError> {
    let text = Text::from(String::from_str(alloc, content)?);
    Ok(TokenValue::Ident(text))
}

fn placed(value: TokenValue) -> Token {
    Token {
        value,
        location: PLACE,
    }
}

// Whether a text that grows by each character of a string is that string.
fn grows_to(alloc: Global, wanted: &str) -> Result<bool, AllocError> {
    let mut grown = Text::new(alloc);
    let is_empty_first = grown.is_empty();
    for character in wanted.chars() {
        grown.push(character)?;
    }
    let copy = grown.try_clone(alloc)?;
    let other = Text::from(String::from_str(alloc, wanted)?);
    let is_wanted = !grown.is_empty() && grown.as_str() == wanted;
    let is_same = grown == copy && grown == other;
    let string = String::from(grown);
    Ok(is_empty_first && is_wanted && is_same && string.as_str() == wanted)
}

// `(` and a name
fn call_front(alloc: Global) -> Result<Vec<Token>, AllocError> {
    let mut items = Vec::new(alloc);
    items.push(placed(TokenValue::Punct(Punct::LeftParen)))?;
    items.push(placed(name(alloc, "été")?))?;
    Ok(items)
}

// Whether a list of tokens holds those that it was made of.
fn holds_its_tokens(alloc: Global) -> Result<bool, AllocError> {
    let items = call_front(alloc)?;
    let list = Tokens::from(call_front(alloc)?);
    let is_long = !list.is_empty() && list.len() == 2;
    let is_placed = matches!(list.as_slice(), [_, second] if second.location == PLACE);
    let is_same = Vec::from(list).as_slice() == items.as_slice();
    Ok(is_long && is_placed && is_same)
}

// The value of a source's first item.
fn first_value(alloc: Global, source: &str) -> Option<TokenValue> {
    let mut pp = Preprocessor::try_new(alloc, source)?;
    let item = pp.next();
    drop(pp);
    match item {
        Some(Ok(token)) => Some(token.value),
        _ => None,
    }
}

// The tokens of the `#version` that a source begins with.
fn version_tokens(alloc: Global, source: &str) -> Option<Tokens> {
    match first_value(alloc, source)? {
        TokenValue::Version(version) => Some(version.tokens),
        _ => None,
    }
}

// The text of the float that a source begins with.
fn float_text(alloc: Global, source: &str) -> Option<String> {
    match first_value(alloc, source)? {
        TokenValue::Float(float) => Some(String::from(float.text)),
        _ => None,
    }
}

// Whether the tokens are `300` and `es`, the latter at the given place, by each way to them.
fn are_300_es(tokens: Tokens, second: Location) -> bool {
    let mut last = NOWHERE;
    for token in &tokens {
        last = token.location;
    }
    let name = tokens
        .iter()
        .position(|token| matches!(token.value, TokenValue::Ident(_)));
    let number = Integer {
        value: 300,
        signed: true,
        width: 32,
    };
    let is_indexed = tokens.len() == 2
        && tokens[0].value == TokenValue::Integer(number)
        && tokens[1].location == second;
    let is_given_back = matches!(Vec::from(tokens).as_slice(), [_, it] if it.location == second);
    last == second && name == Some(1) && is_indexed && is_given_back
}

fn is_exit_copied(alloc: Global, exit: StepExit) -> bool {
    match exit.clone(alloc) {
        Ok(copy) => copy == exit,
        Err(_) => false,
    }
}

// Whether the text of the tokens gives them again; `None` if they aren't ordinary, or memory runs out.
fn is_output(alloc: Global, tokens: &[Token]) -> Option<bool> {
    if !tokens.iter().all(|token| token.is_ordinary()) {
        return None;
    }
    are_read_afresh(alloc, tokens).ok()
}

#[test]
fn texts_and_lists_hold_what_they_are_made_of(rt: HostRuntime) -> Result<(), Fail> {
    assert!(rt; grows_to(rt.alloc(), "été")?);
    assert!(rt; Tokens::from(Vec::new(rt.alloc())).is_empty());
    assert!(rt; holds_its_tokens(rt.alloc())?);
    let comma = lexer::TokenValue::from(Punct::Comma);
    assert!(rt; comma == lexer::TokenValue::Punct(Punct::Comma));
    Ok(())
}

#[test]
fn tokens_of_a_directive_are_read_as_a_vec(rt: HostRuntime) {
    let es = Location {
        start: 13,
        end: 15,
        line: 1,
    };
    let tokens = version_tokens(rt.alloc(), "#version 300 es\n");
    assert!(rt; tokens.is_some_and(|tokens| are_300_es(tokens, es)));
    let text = float_text(rt.alloc(), "1.50f");
    assert!(rt; text.is_some_and(|text| text.as_str() == "1.50"));
}

// A text is written as a `String`, and a list as a `Vec`.
#[test]
fn debug_is_that_of_the_parts(rt: HostRuntime) -> Result<(), Fail> {
    let shown = format!(in rt.alloc(); "{:?}", first_value(rt.alloc(), "#pragma on\n"))?;
    let place = "location: Location { start: 8, end: 10, line: 1 }";
    let token = format!(in rt.alloc(); "Token {{ value: Ident(\"on\"), {place} }}")?;
    let wanted = format!(in rt.alloc(); "Some(Pragma(Pragma {{ tokens: [{token}] }}))")?;
    assert!(rt; shown == wanted, "{shown}");
    Ok(())
}

#[test]
fn exits_are_copied(rt: HostRuntime) -> Result<(), Fail> {
    let error = PreprocessorError::UnexpectedToken(name(rt.alloc(), "word")?);
    assert!(rt; is_exit_copied(rt.alloc(), StepExit::Error((error, PLACE))));
    assert!(rt; is_exit_copied(rt.alloc(), StepExit::Continue));
    assert!(rt; is_exit_copied(rt.alloc(), StepExit::Finished));
    Ok(())
}

// No source gives a name with a blank in it, and its text gives two tokens.
#[test]
fn what_is_no_output_is_not_read_afresh(rt: HostRuntime) -> Result<(), Fail> {
    let mut tokens = Vec::new(rt.alloc());
    tokens.push(placed(name(rt.alloc(), "a b")?))?;
    assert!(rt; is_output(rt.alloc(), &tokens) == Some(false));
    Ok(())
}

#[test]
fn refused_memory_stands_nowhere(rt: HostRuntime) {
    let (error, location) = out_of_memory();
    assert!(rt; error.name() == "OutOfMemory");
    assert!(rt; matches!(error, PreprocessorError::OutOfMemory));
    assert!(rt; location == NOWHERE && Location::default() == NOWHERE);
}

// The laws say something by their contracts alone.
#[test]
fn laws_and_limits(rt: HostRuntime) {
    laws::places();
    laws::line_ends();
    assert!(rt; EXPANSION_LIMIT == 128);
}

// Whether this word comes next. It is passed.
fn is_passed(items: &mut lexer::Lexer<'_>, spelling: &str, start: u32) -> bool {
    if items.is_spent() {
        return false;
    }
    let Some(word) = items.peek_word() else {
        return false;
    };
    items.pass_word(&word);
    word.spelling == spelling && word.location.start == start
}

// The words are given before memory is taken for their values; the newline and the end are not.
#[test]
fn plain_words_are_given(rt: HostRuntime) -> Result<(), Fail> {
    let Some(mut items) = lexer::Lexer::try_new(rt.alloc(), "a /* b */ 12u\n#") else {
        return Ok(());
    };
    assert!(rt; items.is_line_over() && is_passed(&mut items, "a", 0));
    assert!(rt; !items.is_line_over() && is_passed(&mut items, "12u", 10));
    assert!(rt; !is_passed(&mut items, "", 13) && items.had_comments() && items.pass_newline());
    assert!(rt; items.is_line_over() && is_passed(&mut items, "#", 14) && !items.pass_newline());
    items.spend();
    assert!(rt; items.is_spent() && items.next().is_none());
    Ok(())
}

#[test]
fn plain_values_are_those_of_the_lexer(rt: HostRuntime) -> Result<(), Fail> {
    let word = lexer::plain_value(rt.alloc(), lexer::Form::Identifier, "a")?;
    assert!(rt; word == lexer::TokenValue::Ident(Text::from(String::from_str(rt.alloc(), "a")?)));
    let comma = lexer::plain_value(rt.alloc(), lexer::Form::Punct(Punct::Comma), ",")?;
    assert!(rt; comma == lexer::TokenValue::from(Punct::Comma));
    Ok(())
}
