//! The number that `__LINE__` becomes.

ghost use Rattle.std.specs.Prelude.{◌≡◌};
ghost use Rattle.pp_model.specs.Numbering.{as_line_number, literal, number_of, list_numbering, text_number};

use pp_lexer::rules::Rules;
use pp_lexer::token::Integer;

/// How the lines of an argument, or of a directive's line, are numbered.
#[derive(Clone, Copy)]
pub struct Numbering {
    /// What is added to a line.
    pub offset: i64,
    /// Whether the number is an `int`. Otherwise it is a `uint`.
    pub is_signed: bool,
}

/// Returns the value as a line number, which has 32 bits.
pub fn as_line_number(value: i64) -> Option<u32>
    ensures { result ≡ as_line_number value }
{
    u32::try_from(value).ok()
}

// The number as an `int` or a `uint`.
fn literal(signed: bool, number: u32) -> Integer
    ensures { result ≡ literal signed number }
{
    Integer {
        value: u64::from(number),
        signed,
        width: 32,
    }
}

impl Numbering {
    /// Returns how the lines of a list are numbered, if `#line` adds this to those of its text.
    pub fn of_list(rules: Rules, offset: i64) -> Numbering
        ensures { result ≡ list_numbering rules offset }
    {
        Numbering {
            offset: if rules.numbers_as_int { offset } else { 0 },
            is_signed: rules.numbers_as_int,
        }
    }

    /// Returns the number of a line. One that is out of the range of its type is the nearest one in it.
    pub fn number_of(self, line: u32) -> Integer
        ensures { result ≡ number_of self line }
    {
        let most: u32 = if self.is_signed {
            0x7FFF_FFFF
        } else {
            0xFFFF_FFFF
        };
        let number = match self.offset.checked_add(i64::from(line)) {
            Some(sum) if sum < 0 => 0,
            Some(sum) if sum < i64::from(most) => sum as u32,
            _ => most,
        };
        literal(self.is_signed, number)
    }
}

/// Returns the number of a line of a text to whose lines `#line` adds this, or `None` if it is out of range by pp-rs's
/// rules.
pub fn text_number(rules: Rules, offset: i64, line: u32) -> Option<Integer>
    ensures { result ≡ text_number rules offset line }
{
    if rules.numbers_as_int {
        return Some(Numbering::of_list(rules, offset).number_of(line));
    }
    let number = as_line_number(offset.checked_add(i64::from(line))?)?;
    Some(literal(false, number))
}
