//! The lexer at pp-rs's rules and at GLSL's.

use pp_lexer::lexer::{Lexer, LexerItem, TokenValue};
use pp_lexer::rules::{Profile, Rules};
use pp_lexer::token::PreprocessorError;
use std::alloc::Global;
use std::test::Fail;

// Whether the item is this float.
fn is_float(item: Option<LexerItem>, text: &str, width: i32) -> bool {
    let Some(Ok(token)) = item else {
        return false;
    };
    match token.value {
        TokenValue::Float(float) => float.text.as_str() == text && float.width == width,
        _ => false,
    }
}

// Whether the item is this integer.
fn is_integer(item: Option<LexerItem>, value: u64, signed: bool, width: i32) -> bool {
    let Some(Ok(token)) = item else {
        return false;
    };
    match token.value {
        TokenValue::Integer(integer) => {
            integer.value == value && integer.signed == signed && integer.width == width
        }
        _ => false,
    }
}

// Whether the item is this name.
fn is_name(item: Option<LexerItem>, name: &str) -> bool {
    let Some(Ok(token)) = item else {
        return false;
    };
    match token.value {
        TokenValue::Ident(text) => text.as_str() == name,
        _ => false,
    }
}

// Whether the item is this error.
fn is_error(item: Option<LexerItem>, error: PreprocessorError) -> bool {
    match item {
        Some(Err((other, _))) => other == error,
        _ => false,
    }
}

fn is_newline(item: Option<LexerItem>) -> bool {
    let Some(Ok(token)) = item else {
        return false;
    };
    token.value == TokenValue::NewLine
}

fn is_hash(item: Option<LexerItem>) -> bool {
    let Some(Ok(token)) = item else {
        return false;
    };
    token.value == TokenValue::Hash
}

#[test]
fn glsl_takes_widths(rt: HostRuntime) {
    let alloc = rt.alloc();
    let text = "1.0LF 2.5lf 1.0hf 3.HF 1.0f 1.0l 1e3lf 0x1.5hf";
    let mut items = Lexer::with_rules(alloc, text, Rules::glsl(460, Profile::Core));
    assert!(rt; is_float(items.next(), "1.0", 64));
    assert!(rt; is_float(items.next(), "2.5", 64));
    assert!(rt; is_float(items.next(), "1.0", 16));
    assert!(rt; is_float(items.next(), "3.", 16));
    assert!(rt; is_float(items.next(), "1.0", 32));
    assert!(rt; is_float(items.next(), "1.0", 32));
    assert!(rt; is_name(items.next(), "l"));
    assert!(rt; is_float(items.next(), "1e3", 64));
    assert!(rt; is_float(items.next(), "01.5", 16));
    let text = "7ul 7UL 8l 8L 3s 3S 4us 4US 0x1FUL 1uL 1Ul 5u 6 1lu 017s";
    let mut items = Lexer::with_rules(alloc, text, Rules::glsl(460, Profile::Core));
    assert!(rt; is_integer(items.next(), 7, false, 64));
    assert!(rt; is_integer(items.next(), 7, false, 64));
    assert!(rt; is_integer(items.next(), 8, true, 64));
    assert!(rt; is_integer(items.next(), 8, true, 64));
    assert!(rt; is_integer(items.next(), 3, true, 16));
    assert!(rt; is_integer(items.next(), 3, true, 16));
    assert!(rt; is_integer(items.next(), 4, false, 16));
    assert!(rt; is_integer(items.next(), 4, false, 16));
    assert!(rt; is_integer(items.next(), 31, false, 64));
    assert!(rt; is_integer(items.next(), 1, false, 32));
    assert!(rt; is_name(items.next(), "L"));
    assert!(rt; is_integer(items.next(), 1, false, 32));
    assert!(rt; is_name(items.next(), "l"));
    assert!(rt; is_integer(items.next(), 5, false, 32));
    assert!(rt; is_integer(items.next(), 6, true, 32));
    assert!(rt; is_integer(items.next(), 1, true, 64));
    assert!(rt; is_name(items.next(), "u"));
    assert!(rt; is_integer(items.next(), 15, true, 16));
    assert!(rt; is_newline(items.next()));
    assert!(rt; items.next().is_none());
}

#[test]
fn pp_rs_refuses_widths(rt: HostRuntime) {
    let mut items = Lexer::with_rules(rt.alloc(), "1.0LF 1.0hf 7ul 3s", Rules::PP_RS);
    assert!(rt; is_error(items.next(), PreprocessorError::NotSupported64BitLiteral));
    assert!(rt; is_name(items.next(), "LF"));
    assert!(rt; is_error(items.next(), PreprocessorError::NotSupported16BitLiteral));
    assert!(rt; is_name(items.next(), "hf"));
    assert!(rt; is_error(items.next(), PreprocessorError::NotSupported64BitLiteral));
    assert!(rt; is_name(items.next(), "l"));
    assert!(rt; is_error(items.next(), PreprocessorError::NotSupported16BitLiteral));
    assert!(rt; is_name(items.next(), "s"));
}

#[test]
fn a_bad_character_takes_itself_or_up_to_two_more(rt: HostRuntime) {
    let text = "a $\n#define";
    let mut items = Lexer::with_rules(rt.alloc(), text, Rules::glsl(460, Profile::Core));
    assert!(rt; is_name(items.next(), "a"));
    assert!(rt; is_error(items.next(), PreprocessorError::UnexpectedCharacter));
    assert!(rt; is_newline(items.next()));
    assert!(rt; is_hash(items.next()));
    assert!(rt; is_name(items.next(), "define"));
    let mut items = Lexer::with_rules(rt.alloc(), text, Rules::PP_RS);
    assert!(rt; is_name(items.next(), "a"));
    assert!(rt; is_error(items.next(), PreprocessorError::UnexpectedCharacter));
    assert!(rt; is_name(items.next(), "define"));
}

// A width is written as its suffix.
#[test]
fn widths_are_spelled(rt: HostRuntime) -> Result<(), Fail> {
    let alloc = rt.alloc();
    let text = "1.0LF 1.0hf 1.0f 7UL 8L 3S 4US 5U 6";
    let mut shown = String::new(alloc);
    for item in Lexer::with_rules(alloc, text, Rules::glsl(460, Profile::Core)) {
        let Ok(token) = item else {
            continue;
        };
        let value = match token.value {
            TokenValue::Float(float) => pp_lexer::token::TokenValue::Float(float),
            TokenValue::Integer(integer) => pp_lexer::token::TokenValue::Integer(integer),
            _ => continue,
        };
        let spelled = format!(in alloc; "{value} ")?;
        shown.push_str(spelled.as_str())?;
    }
    assert!(rt;
        shown.as_str() == "1.0lf 1.0hf 1.0 7ul 8l 3s 4us 5u 6 ",
        "{shown}"
    );
    Ok(())
}
