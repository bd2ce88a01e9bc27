//! What caused an error, if the line of its directive shows it.

use crate::diagnostic::{Note, Site};
use crate::directive_line::{DirectiveLine, is_punct, name_of};
use crate::macro_use::MacroUse;
use crate::place::Place;
use pp_rs::lexer::{Token, TokenValue};
use pp_rs::rules::Rules;
use pp_rs::token::{Punct, TokenValue as Value};
use std::alloc::{AllocError, Global};

// What a number or a punctuator in place of a name is told.
const NAMES_ALONE: &str = "macro names must be identifiers";

/// What caused an error: a sentence in place of the library's, its place, and what is said beside it.
#[derive(Drop)]
pub(crate) struct Cause<'a> {
    /// What is wrong.
    pub message: String,
    /// Where.
    pub site: Site<'a>,
    /// What is said beside it.
    pub note: Option<Note<'a>>,
}

impl<'a> Cause<'a> {
    /// A cause without a note.
    pub(crate) fn new(message: String, site: Site<'a>) -> Cause<'a> {
        Cause {
            message,
            site,
            note: None,
        }
    }
}

/// Why an expression has no end.
pub(crate) fn of_unfinished_expression<'a>(
    alloc: Global,
    line: &DirectiveLine<'a>,
    site: Site<'a>,
) -> Result<Option<Cause<'a>>, AllocError> {
    let Some(last) = line.tokens().last() else {
        let message = format!(in alloc; "`#{}` with no expression", line.word())?;
        return Ok(Some(Cause::new(message, site)));
    };
    if let Some(open) = open_parenthesis(line.tokens()) {
        let message = String::from_str(alloc, "expected `)`")?;
        let mut cause = Cause::new(message, line.end_site());
        cause.note = Some(Note {
            message: "to match this `(`",
            site: line.site_of(open),
        });
        return Ok(Some(cause));
    }
    let message = match (&last.value, name_of(last)) {
        (_, Some("defined")) => String::from_str(alloc, "no macro name after `defined`"),
        (TokenValue::Punct(punct), _) if *punct != Punct::RightParen => {
            format!(in alloc; "operator `{}` has no right operand", punct.spelling())
        }
        _ => return Ok(None),
    };
    Ok(Some(Cause::new(message?, line.site_of(last))))
}

// The last parenthesis that opens and isn't closed.
fn open_parenthesis(tokens: &[Token]) -> Option<&Token> {
    let mut closed = 0usize;
    for token in tokens.iter().rev() {
        if is_punct(token, Punct::RightParen) {
            closed = closed.saturating_add(1);
        } else if is_punct(token, Punct::LeftParen) {
            if closed == 0 {
                return Some(token);
            }
            closed = closed.saturating_sub(1);
        }
    }
    None
}

// The token before the last parenthesis that opens and isn't closed.
fn before_parenthesis(tokens: &[Token]) -> Option<&Token> {
    let open = open_parenthesis(tokens)?;
    let mut before = None;
    for token in tokens {
        if token.location.start == open.location.start {
            return before;
        }
        before = Some(token);
    }
    None
}

/// Why a token isn't expected at a place of a directive's line. `value` is the token as the library read it, and `used`
/// the use of the macro from which it comes.
pub(crate) fn of_unexpected_token<'a>(
    alloc: Global,
    line: &DirectiveLine<'a>,
    place: Place<'a>,
    value: &Value,
    used: &Option<MacroUse<'a>>,
) -> Result<Option<String>, AllocError> {
    let word = line.word();
    if word.is_empty() {
        let message = format!(in alloc; "`{}` is not a directive", place.here)?;
        return Ok(Some(message));
    }
    let Some((before, token)) = line.split_at(place) else {
        return Ok(None);
    };
    let text = line.text_of(token);
    let found = Unexpected {
        word,
        before,
        token,
        text,
    };
    if line.has_expression() {
        return of_token_in_expression(alloc, &found, value);
    }
    let message = match word {
        "else" | "endif" => of_token_after_word(alloc, &found),
        "define" if !before.is_empty() => {
            let word = word_of_use(alloc, line.rules, used)?;
            return of_token_in_definition(alloc, before, token, text, value, word);
        }
        "define" | "undef" | "ifdef" | "ifndef" => of_token_as_name(alloc, &found),
        _ => return Ok(None),
    };
    Ok(Some(message?))
}

// Why a token isn't expected after an `#else` or `#endif`.
fn of_token_after_word(alloc: Global, found: &Unexpected<'_>) -> Result<String, AllocError> {
    if is_else_if(found) {
        return String::from_str(alloc, "`#else if` is not a directive: use `#elif`");
    }
    format!(in alloc; "extra token `{}` after `#{}`", found.text, found.word)
}

fn is_else_if(found: &Unexpected<'_>) -> bool {
    found.word == "else" && name_of(found.token) == Some("if")
}

// Why a token isn't expected in place of a macro's name, or after it.
fn of_token_as_name(alloc: Global, found: &Unexpected<'_>) -> Result<String, AllocError> {
    let (word, text) = (found.word, found.text);
    if !found.before.is_empty() {
        return format!(in alloc; "extra token `{text}` after the name of `#{word}`");
    }
    match name_of(found.token) {
        Some(name) => format!(in alloc; "`{name}` is a name of GLSL's own"),
        None => String::from_str(alloc, NAMES_ALONE),
    }
}

// The word of the directive by whose rules a token of a macro's content is judged: that of the `#line` in which the
// macro was used, or else that of its definition.
fn word_of_use(
    alloc: Global,
    rules: Rules,
    used: &Option<MacroUse<'_>>,
) -> Result<&'static str, AllocError> {
    let Some(used) = used else {
        return Ok("define");
    };
    let line = DirectiveLine::of(alloc, rules, used.site)?;
    let word = match &line {
        Some(line) if line.word() == "line" => "line",
        _ => "define",
    };
    drop(line);
    Ok(word)
}

// Why a token isn't expected in the parameters of a macro, or in its content, by this word, if an expression uses it.
fn of_token_in_definition(
    alloc: Global,
    before: &[Token],
    token: &Token,
    text: &str,
    value: &Value,
    word: &str,
) -> Result<Option<String>, AllocError> {
    let message = match before {
        [_, open, parameters @ ..] if is_list(open, parameters) => match parameters.last() {
            _ if text.starts_with('.') => String::from_str(alloc, "GLSL has no variadic macros"),
            Some(last) if name_of(last).is_some() => {
                format!(in alloc; "expected `,` or `)` before `{text}`")
            }
            _ => format!(in alloc; "expected the name of a parameter before `{text}`"),
        },
        _ => {
            let found = Unexpected {
                word,
                before: content_of(before),
                token,
                text,
            };
            return of_token_in_expression(alloc, &found, value);
        }
    };
    Ok(Some(message?))
}

// Whether the parameters of a macro begin with a parenthesis that isn't closed yet.
fn is_list(open: &Token, parameters: &[Token]) -> bool {
    is_punct(open, Punct::LeftParen)
        && !open.leading_whitespace
        && !parameters
            .iter()
            .any(|token| is_punct(token, Punct::RightParen))
}

// What follows the name and the parameters of a macro.
fn content_of(tokens: &[Token]) -> &[Token] {
    match tokens {
        [_, open, parameters @ ..]
            if is_punct(open, Punct::LeftParen) && !open.leading_whitespace => {
            match parameters
                .iter()
                .position(|token| is_punct(token, Punct::RightParen))
            {
                Some(close) => parameters.get(close.saturating_add(1)..).unwrap_or(&[]),
                None => &[],
            }
        }
        [_, content @ ..] => content,
        _ => &[],
    }
}

/// A token that isn't expected in an expression.
#[derive(Clone, Copy)]
struct Unexpected<'t> {
    /// The word of the directive.
    word: &'t str,
    /// What is before it in the expression, or in the content of a macro.
    before: &'t [Token],
    token: &'t Token,
    /// Its text.
    text: &'t str,
}

// Why a token isn't expected in an expression.
fn of_token_in_expression(
    alloc: Global,
    found: &Unexpected<'_>,
    value: &Value,
) -> Result<Option<String>, AllocError> {
    if is_in_defined(found.before) {
        return of_token_in_defined(alloc, found);
    }
    let text = found.text;
    let message = match &found.token.value {
        TokenValue::Float(_) => {
            let place = place_of(found.word);
            format!(in alloc; "floating-point number `{text}` in {place}")
        }
        TokenValue::Ident(_) if is_unknown(value) => {
            format!(in alloc; "`{text}` is not a number")
        }
        TokenValue::Ident(_) | TokenValue::Integer(_) => missing_operator(alloc, found),
        TokenValue::Punct(punct) => return of_punct_in_expression(alloc, found, *punct),
        _ => return Ok(None),
    };
    Ok(Some(message?))
}

// Where the expression of a directive with this word is.
fn place_of(word: &str) -> &'static str {
    if word == "line" {
        "a `#line`"
    } else {
        "an `#if`"
    }
}

// What is said of a token with which another operand begins: a `#line` takes only some.
fn missing_operator(alloc: Global, found: &Unexpected<'_>) -> Result<String, AllocError> {
    let text = found.text;
    if found.word == "line" {
        return format!(in alloc; "extra token `{text}` after `#line`");
    }
    format!(in alloc; "missing operator before `{text}`")
}

// Whether the library read a name that is no macro's as such, which it does in a `#line`.
fn is_unknown(value: &Value) -> bool {
    match value {
        Value::Ident(name) => name.as_str() != "defined",
        _ => false,
    }
}

// Whether these tokens end inside a `defined`.
fn is_in_defined(before: &[Token]) -> bool {
    match before {
        [.., first] if is_defined(first) => true,
        [.., first, open] if is_defined(first) => is_punct(open, Punct::LeftParen),
        [.., first, open, _] if is_defined(first) => is_punct(open, Punct::LeftParen),
        _ => false,
    }
}

fn is_defined(token: &Token) -> bool {
    name_of(token) == Some("defined")
}

// Why a token isn't expected inside a `defined`.
fn of_token_in_defined(
    alloc: Global,
    found: &Unexpected<'_>,
) -> Result<Option<String>, AllocError> {
    let message = match found.before {
        [.., last] if name_of(last).is_some() && !is_defined(last) => {
            format!(in alloc; "expected `)` before `{}`", found.text)
        }
        _ if is_punct(found.token, Punct::RightParen) => {
            String::from_str(alloc, "no macro name after `defined`")
        }
        _ => String::from_str(alloc, NAMES_ALONE),
    };
    Ok(Some(message?))
}

// Why a punctuator isn't expected in an expression.
fn of_punct_in_expression(
    alloc: Global,
    found: &Unexpected<'_>,
    punct: Punct,
) -> Result<Option<String>, AllocError> {
    if takes_operands(punct) {
        return of_operator(alloc, found, punct);
    }
    let text = found.text;
    let message = match punct {
        Punct::Equal if matches!(found.word, "if" | "elif") => {
            String::from_str(alloc, "`=` in an `#if`: use `==`")
        }
        Punct::LeftParen => of_opening(alloc, found),
        Punct::Bang | Punct::Tilde => format!(in alloc; "missing operator before `{text}`"),
        _ => {
            let place = place_of(found.word);
            format!(in alloc; "`{text}` is not valid in {place}")
        }
    };
    Ok(Some(message?))
}

// Why a `(` isn't expected in an expression.
fn of_opening(alloc: Global, found: &Unexpected<'_>) -> Result<String, AllocError> {
    match found.before.last().and_then(name_of) {
        Some(name) if found.word != "line" => {
            format!(in alloc; "missing operator before `(`: `{name}` is not a function-like macro")
        }
        _ => missing_operator(alloc, found),
    }
}

// Why a binary operator or a `)` isn't expected in an expression.
fn of_operator(
    alloc: Global,
    found: &Unexpected<'_>,
    punct: Punct,
) -> Result<Option<String>, AllocError> {
    let message = match found.before.last().and_then(operator_of) {
        Some(operator) => format!(in alloc; "operator `{operator}` has no right operand"),
        None if punct == Punct::RightParen => return of_closing(alloc, found.before),
        None => format!(in alloc; "operator `{}` has no left operand", found.text),
    };
    Ok(Some(message?))
}

// Why a `)` isn't expected after these tokens.
fn of_closing(alloc: Global, before: &[Token]) -> Result<Option<String>, AllocError> {
    let message = match before.last() {
        _ if open_parenthesis(before).is_none() => String::from_str(alloc, "`)` without `(`"),
        Some(last) if is_punct(last, Punct::LeftParen) => {
            String::from_str(alloc, "no expression between `(` and `)`")
        }
        _ => return Ok(None),
    };
    Ok(Some(message?))
}

// The operator of an expression that a token is.
fn operator_of(token: &Token) -> Option<&'static str> {
    match token.value {
        TokenValue::Punct(punct @ (Punct::Bang | Punct::Tilde)) => Some(punct.spelling()),
        TokenValue::Punct(punct) if is_binary(punct) => Some(punct.spelling()),
        _ => None,
    }
}

// Whether a punctuator follows an operand: it is a binary operator or a `)`.
fn takes_operands(punct: Punct) -> bool {
    punct == Punct::RightParen || is_binary(punct)
}

// Whether a punctuator is a binary operator of expressions.
fn is_binary(punct: Punct) -> bool {
    matches!(
        punct,
        Punct::LogicalOr
            | Punct::LogicalAnd
            | Punct::Pipe
            | Punct::Caret
            | Punct::Ampersand
            | Punct::EqualEqual
            | Punct::NotEqual
            | Punct::LeftAngle
            | Punct::RightAngle
            | Punct::LessEqual
            | Punct::GreaterEqual
            | Punct::LeftShift
            | Punct::RightShift
            | Punct::Plus
            | Punct::Minus
            | Punct::Star
            | Punct::Slash
            | Punct::Percent
    )
}

/// The macro that gives no operand before the token at a place of an expression.
pub(crate) fn macro_before<'l>(line: &'l DirectiveLine<'_>, place: Place<'_>) -> Option<&'l Token> {
    let (before, token) = line.split_at(place)?;
    match token.value {
        TokenValue::Punct(Punct::RightParen) if open_parenthesis(before).is_none() => None,
        TokenValue::Punct(punct) if line.has_expression() && takes_operands(punct) => {
            last_macro(before)
        }
        _ => None,
    }
}

/// The macro that gives no operand at the end of an expression.
pub(crate) fn macro_at_end<'l>(line: &'l DirectiveLine<'_>) -> Option<&'l Token> {
    match open_parenthesis(line.tokens()) {
        Some(_) => None,
        None => last_macro(line.tokens()),
    }
}

// The name with which tokens end, or that of the call with which they end.
fn last_macro(tokens: &[Token]) -> Option<&Token> {
    let name = match tokens.split_last()? {
        (last, others) if is_punct(last, Punct::RightParen) => before_parenthesis(others)?,
        (last, _) => last,
    };
    if name_of(name).is_some() && !is_defined(name) {
        Some(name)
    } else {
        None
    }
}

/// The only operator of this kind in a line.
pub(crate) fn only_operator<'l>(line: &'l DirectiveLine<'_>, punct: Punct) -> Option<&'l Token> {
    let mut found = None;
    for token in line.tokens() {
        if is_punct(token, punct) {
            if found.is_some() {
                return None;
            }
            found = Some(token);
        }
    }
    found
}

/// Why the text of a floating-point number isn't read as one.
pub(crate) fn of_float(alloc: Global, text: &str) -> Result<Option<String>, AllocError> {
    let number = text
        .strip_suffix('f')
        .or(text.strip_suffix('F'))
        .unwrap_or(text);
    let number = number
        .strip_suffix('+')
        .or(number.strip_suffix('-'))
        .unwrap_or(number);
    if !number.ends_with('e') && !number.ends_with('E') {
        return Ok(None);
    }
    let message = format!(in alloc; "no digits in the exponent of `{text}`")?;
    Ok(Some(message))
}

/// Why the text of an integer isn't read as one.
pub(crate) fn of_integer(alloc: Global, text: &str) -> Result<String, AllocError> {
    let digits = text.strip_prefix("0x").or(text.strip_prefix("0X"));
    if digits.is_some_and(|digits| !digits.starts_with(|c: char| c.is_ascii_hexdigit())) {
        return format!(in alloc; "no digits after `{}`", text.get(..2).unwrap_or(""));
    }
    if digits.is_none() && text.starts_with('0') {
        if let Some(digit) = text.chars().find(|c| *c == '8' || *c == '9') {
            return format!(in alloc; "digit `{digit}` in an octal literal");
        }
    }
    String::from_str(alloc, "integer out of range")
}

/// What a definition's line, or one that needs a name, ends without.
pub(crate) fn of_early_end(alloc: Global, line: &DirectiveLine<'_>) -> Result<String, AllocError> {
    match line.tokens().last() {
        Some(last) if name_of(last).is_some() => {
            String::from_str(alloc, "expected `,` or `)` before the end of the line")
        }
        Some(_) => String::from_str(
            alloc,
            "expected the name of a parameter before the end of the line",
        ),
        None => format!(in alloc; "no macro name in `#{}`", line.word()),
    }
}
