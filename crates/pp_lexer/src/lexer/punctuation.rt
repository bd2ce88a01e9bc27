//! Punctuators, and the `#` of a directive.

ghost use Rattle.std.specs.Prelude.{◌≡◌, ◌==◌, ◌&&◌, option_map, take};
ghost use Rattle.std.specs.List.{find};
ghost use Rattle.pp_lexer.specs.Longest.{longest};
ghost use Rattle.pp_lexer.specs.Punctuators.{punct_of, is_punctuator, bad_length, punctuation_at};
ghost use Rattle.pp_lexer.specs.Reading.{letters, advanced};

use crate::lexer::char_iterator::LexerCharIterator;
use crate::lexer::item::TokenValue;
use crate::lexer::look_ahead::is_next;
use crate::rules::Rules;
use crate::token::{PreprocessorError, Punct};

// The punctuators of one character, of two and of three.
const SINGLES: [(char, Punct); 24] = [
    ('{', Punct::LeftBrace),
    ('}', Punct::RightBrace),
    ('(', Punct::LeftParen),
    (')', Punct::RightParen),
    ('[', Punct::LeftBracket),
    (']', Punct::RightBracket),
    ('<', Punct::LeftAngle),
    ('>', Punct::RightAngle),
    (';', Punct::Semicolon),
    (',', Punct::Comma),
    (':', Punct::Colon),
    ('.', Punct::Dot),
    ('=', Punct::Equal),
    ('!', Punct::Bang),
    ('-', Punct::Minus),
    ('~', Punct::Tilde),
    ('+', Punct::Plus),
    ('*', Punct::Star),
    ('/', Punct::Slash),
    ('%', Punct::Percent),
    ('|', Punct::Pipe),
    ('^', Punct::Caret),
    ('&', Punct::Ampersand),
    ('?', Punct::Question),
];

const PAIRS: [(char, char, Punct); 19] = [
    ('+', '=', Punct::AddAssign),
    ('-', '=', Punct::SubAssign),
    ('*', '=', Punct::MulAssign),
    ('/', '=', Punct::DivAssign),
    ('%', '=', Punct::ModAssign),
    ('&', '=', Punct::AndAssign),
    ('^', '=', Punct::XorAssign),
    ('|', '=', Punct::OrAssign),
    ('+', '+', Punct::Increment),
    ('-', '-', Punct::Decrement),
    ('&', '&', Punct::LogicalAnd),
    ('|', '|', Punct::LogicalOr),
    ('^', '^', Punct::LogicalXor),
    ('<', '=', Punct::LessEqual),
    ('>', '=', Punct::GreaterEqual),
    ('=', '=', Punct::EqualEqual),
    ('!', '=', Punct::NotEqual),
    ('<', '<', Punct::LeftShift),
    ('>', '>', Punct::RightShift),
];

const TRIPLES: [(char, char, char, Punct); 2] = [
    ('<', '<', '=', Punct::LeftShiftAssign),
    ('>', '>', '=', Punct::RightShiftAssign),
];

// The punctuator that the table has for this character, for these two or for these three.
fn single(table: &[(char, Punct)], c: char) -> Option<Punct>
    ensures { result ≡ option_map (λ e. e.1) (find (λ e. e.0 == c) table.now) }
{
    let entry = table.iter().find(|entry| entry.0 == c)?;
    Some(entry.1)
}

fn pair(table: &[(char, char, Punct)], c: char, d: char) -> Option<Punct>
    ensures { result ≡ option_map (λ e. e.2) (find (λ e. (e.0 == c) && (e.1 == d)) table.now) }
{
    let entry = table.iter().find(|entry| entry.0 == c && entry.1 == d)?;
    Some(entry.2)
}

fn triple(table: &[(char, char, char, Punct)], c: char, d: char, e: char) -> Option<Punct>
    ensures { result
        ≡ option_map (λ x. x.3) (find (λ x. (x.0 == c) && ((x.1 == d) && (x.2 == e))) table.now) }
{
    let entry = table
        .iter()
        .find(|entry| entry.0 == c && (entry.1 == d && entry.2 == e))?;
    Some(entry.3)
}

// Takes the longest punctuator, if there is one here.
fn take_punct(inner: &mut LexerCharIterator<'_>) -> Option<Punct>
    ensures value { result ≡ punct_of (take (longest is_punctuator (letters inner.old.rest))
        (letters inner.old.rest)) }
    ensures state { inner.new ≡ advanced (longest is_punctuator (letters inner.old.rest))
        inner.old }
{
    let first = inner.peek_char()?;
    let one = single(&SINGLES, first)?;
    inner.next_char();
    let Some(second) = inner.peek_char() else {
        return Some(one);
    };
    let Some(two) = pair(&PAIRS, first, second) else {
        return Some(one);
    };
    inner.next_char();
    let Some(third) = inner.peek_char() else {
        return Some(two);
    };
    let Some(three) = triple(&TRIPLES, first, second, third) else {
        return Some(two);
    };
    inner.next_char();
    Some(three)
}

// Takes a bad character, and up to two more if the rules say so.
fn skip_bad_character(rules: Rules, inner: &mut LexerCharIterator<'_>)
    ensures { inner.new ≡ advanced (bad_length rules) inner.old }
{
    inner.next_char();
    if rules.takes_one_bad_character {
        return;
    }
    inner.next_char();
    inner.next_char();
}

/// Takes the longest punctuator or a `#`. Any other character is [`PreprocessorError::UnexpectedCharacter`], which
/// takes it and, by pp-rs's rules, up to two more of any kind. It allocates nothing.
pub fn parse_punctuation(
    rules: Rules,
    inner: &mut LexerCharIterator<'_>,
) -> Result<TokenValue, PreprocessorError>
    ensures value { result ≡ (punctuation_at rules (letters inner.old.rest)).value }
    ensures state { inner.new
        ≡ advanced (punctuation_at rules (letters inner.old.rest)).taken inner.old }
{
    if is_next(inner, '#') {
        inner.next_char();
        return Ok(TokenValue::Hash);
    }
    if let Some(punct) = take_punct(inner) {
        return Ok(TokenValue::Punct(punct));
    }
    skip_bad_character(rules, inner);
    Err(PreprocessorError::UnexpectedCharacter)
}
