//! Tokens as text: `{}` writes the spelling of a token, and a directive with the tokens of its line.

ghost use Rattle.std.specs.Prelude.{◌≡◌, Some, codes};
ghost use Rattle.std.specs.Fmt.{WritesOnOk};
ghost use Rattle.std.specs.Str.{chars, encode_utf8_all};
ghost use Rattle.pp_lexer.specs.ItemText.{item_text, with_tokens};
ghost use Rattle.pp_lexer.specs.Punctuators.{punctuator};
ghost use Rattle.pp_lexer.specs.Spelling.{width_letters, integer_letters, integer_literal, float_literal, spelling};

use crate::token::{Float, Integer, Punct, Text, Token, TokenValue, Tokens};
use std::fmt;

impl Punct {
    /// Returns its characters.
    pub fn spelling(self) -> &'static str
        ensures { result.now ≡ punctuator self }
    {
        match self {
            Punct::AddAssign => "+=",
            Punct::SubAssign => "-=",
            Punct::MulAssign => "*=",
            Punct::DivAssign => "/=",
            Punct::ModAssign => "%=",
            Punct::LeftShiftAssign => "<<=",
            Punct::RightShiftAssign => ">>=",
            Punct::AndAssign => "&=",
            Punct::XorAssign => "^=",
            Punct::OrAssign => "|=",
            Punct::Increment => "++",
            Punct::Decrement => "--",
            Punct::LogicalAnd => "&&",
            Punct::LogicalOr => "||",
            Punct::LogicalXor => "^^",
            Punct::LessEqual => "<=",
            Punct::GreaterEqual => ">=",
            Punct::EqualEqual => "==",
            Punct::NotEqual => "!=",
            Punct::LeftShift => "<<",
            Punct::RightShift => ">>",
            Punct::LeftBrace => "{",
            Punct::RightBrace => "}",
            Punct::LeftParen => "(",
            Punct::RightParen => ")",
            Punct::LeftBracket => "[",
            Punct::RightBracket => "]",
            Punct::LeftAngle => "<",
            Punct::RightAngle => ">",
            Punct::Semicolon => ";",
            Punct::Comma => ",",
            Punct::Colon => ":",
            Punct::Dot => ".",
            Punct::Equal => "=",
            Punct::Bang => "!",
            Punct::Minus => "-",
            Punct::Tilde => "~",
            Punct::Plus => "+",
            Punct::Star => "*",
            Punct::Slash => "/",
            Punct::Percent => "%",
            Punct::Pipe => "|",
            Punct::Caret => "^",
            Punct::Ampersand => "&",
            Punct::Question => "?",
        }
    }
}

impl fmt::Display for Punct {
    ghost output = { λ punct. Some (punctuator punct) };

    fn fmt<W: fmt::Write>(&self, f: &mut fmt::Formatter<W>) -> fmt::Result {
        f.write_str(self.spelling())
    }
}

impl fmt::Display for Text {
    ghost output = { λ text. Some (encode_utf8_all text) };

    fn fmt<W: fmt::Write>(&self, f: &mut fmt::Formatter<W>) -> fmt::Result {
        f.write_str(self.as_str())
    }
}

// The letters of a width: the first ones for 64 bits, the others for 16, and none for the usual 32.
#[inline(always)]
fn width_letters(long: &'static str, short: &'static str, width: i32) -> &'static str
    ensures { result.now ≡ width_letters long.now short.now width }
{
    if width == 64 {
        return long;
    }
    if width == 16 {
        return short;
    }
    ""
}

/// Returns the letters after the digits of an integer: a `u` if it is unsigned, and then an `l` if its width is 64 and
/// an `s` if it is 16.
#[inline(always)]
pub fn integer_letters(signed: bool, width: i32) -> &'static str
    ensures { result.now ≡ integer_letters signed width }
{
    if signed {
        return width_letters("l", "s", width);
    }
    if width == 64 {
        return "ul";
    }
    if width == 16 {
        return "us";
    }
    "u"
}

/// Returns the letters after the text of a float: `lf` if its width is 64, and `hf` if it is 16.
#[inline(always)]
pub fn float_letters(width: i32) -> &'static str
    ensures { result.now ≡ width_letters (codes "lf") (codes "hf") width }
{
    width_letters("lf", "hf", width)
}

// The digits of an integer, and its letters.
fn write_integer<W: fmt::Write>(integer: Integer, f: &mut fmt::Formatter<W>) -> fmt::Result
    ensures { WritesOnOk W.write_str_gives f.old result
        (encode_utf8_all (integer_literal integer)) f.new }
{
    write!(f, "{}", integer.value)?;
    f.write_str(integer_letters(integer.signed, integer.width))
}

// The text of a float, and the letters of its width.
fn write_float<W: fmt::Write>(float: &Float, f: &mut fmt::Formatter<W>) -> fmt::Result
    ensures { WritesOnOk W.write_str_gives f.old result
        (encode_utf8_all (float_literal float.now.text float.now.width)) f.new }
{
    f.write_str(float.text.as_str())?;
    f.write_str(float_letters(float.width))
}

// The spelling of an ordinary token, and nothing for a directive.
fn write_word<W: fmt::Write>(value: &TokenValue, f: &mut fmt::Formatter<W>) -> fmt::Result
    ensures { WritesOnOk W.write_str_gives f.old result
        (encode_utf8_all (spelling value.now)) f.new }
{
    match value {
        TokenValue::Ident(name) => f.write_str(name.as_str()),
        TokenValue::Integer(integer) => write_integer(*integer, f),
        TokenValue::Float(float) => write_float(float, f),
        TokenValue::Punct(punct) => f.write_str(punct.spelling()),
        TokenValue::Version(_) | TokenValue::Extension(_) | TokenValue::Pragma(_) => f.write_str(
            "",
        ),
    }
}

// The word of a directive, and each token of its line after a space.
fn write_directive<W: fmt::Write>(
    word: &str,
    tokens: &Tokens,
    f: &mut fmt::Formatter<W>,
) -> fmt::Result
    ensures { WritesOnOk W.write_str_gives f.old result
        (encode_utf8_all (with_tokens (chars word.now) tokens.now)) f.new }
{
    f.write_str(word)?;
    for token in tokens.as_slice() {
        f.write_str(" ")?;
        write_word(&token.value, f)?;
    }
    Ok(())
}

impl fmt::Display for TokenValue {
    ghost output = { λ value. Some (encode_utf8_all (item_text value)) };

    fn fmt<W: fmt::Write>(&self, f: &mut fmt::Formatter<W>) -> fmt::Result {
        match self {
            TokenValue::Version(version) => write_directive("#version", &version.tokens, f),
            TokenValue::Extension(extension) => write_directive("#extension", &extension.tokens, f),
            TokenValue::Pragma(pragma) => write_directive("#pragma", &pragma.tokens, f),
            _ => write_word(self, f),
        }
    }
}

impl fmt::Display for Token {
    ghost output = { λ token. Some (encode_utf8_all (item_text token.value)) };

    fn fmt<W: fmt::Write>(&self, f: &mut fmt::Formatter<W>) -> fmt::Result {
        fmt::Display::fmt(&self.value, f)
    }
}
