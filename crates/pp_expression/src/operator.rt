//! The operators of an expression.

ghost use Rattle.std.specs.Prelude.{◌≡◌};
ghost use Rattle.pp_expression.specs.Operators as spec;

use pp_lexer::token::Punct;

/// An operator in front of its operand (GLSL ES 3.20 section 3.4).
#[derive(Clone, Copy, PartialEq)]
pub enum Unary {
    /// `+`
    Plus,
    /// `-`
    Minus,
    /// `!`
    Not,
    /// `~`
    Complement,
}

/// An operator between its operands (GLSL ES 3.20 section 3.4).
#[derive(Clone, Copy, PartialEq)]
pub enum Binary {
    /// `*`
    Multiply,
    /// `/`
    Divide,
    /// `%`
    Remainder,
    /// `+`
    Add,
    /// `-`
    Subtract,
    /// `<<`
    ShiftLeft,
    /// `>>`
    ShiftRight,
    /// `<`
    Less,
    /// `>`
    Greater,
    /// `<=`
    LessEqual,
    /// `>=`
    GreaterEqual,
    /// `==`
    Equal,
    /// `!=`
    NotEqual,
    /// `&`
    And,
    /// `^`
    Xor,
    /// `|`
    Or,
    /// `&&`
    LogicalAnd,
    /// `||`
    LogicalOr,
}

/// Returns the operator that a punctuator is in front of an operand, or `None` if it is none there.
pub fn unary_of(punct: Punct) -> Option<Unary>
    ensures { result ≡ spec.unary_of punct }
{
    match punct {
        Punct::Plus => Some(Unary::Plus),
        Punct::Minus => Some(Unary::Minus),
        Punct::Bang => Some(Unary::Not),
        Punct::Tilde => Some(Unary::Complement),
        _ => None,
    }
}

/// Returns the operator that a punctuator is after an operand, or `None` if it is none there.
pub fn binary_of(punct: Punct) -> Option<Binary>
    ensures { result ≡ spec.binary_of punct }
{
    match punct {
        Punct::Star => Some(Binary::Multiply),
        Punct::Slash => Some(Binary::Divide),
        Punct::Percent => Some(Binary::Remainder),
        Punct::Plus => Some(Binary::Add),
        Punct::Minus => Some(Binary::Subtract),
        Punct::LeftShift => Some(Binary::ShiftLeft),
        Punct::RightShift => Some(Binary::ShiftRight),
        Punct::LeftAngle => Some(Binary::Less),
        Punct::RightAngle => Some(Binary::Greater),
        Punct::LessEqual => Some(Binary::LessEqual),
        Punct::GreaterEqual => Some(Binary::GreaterEqual),
        Punct::EqualEqual => Some(Binary::Equal),
        Punct::NotEqual => Some(Binary::NotEqual),
        Punct::Ampersand => Some(Binary::And),
        Punct::Caret => Some(Binary::Xor),
        Punct::Pipe => Some(Binary::Or),
        Punct::LogicalAnd => Some(Binary::LogicalAnd),
        Punct::LogicalOr => Some(Binary::LogicalOr),
        _ => None,
    }
}

/// Returns how tightly an operator binds: 0 is the loosest level, that of `||`, and 9 that of `*`.
#[tactic(auto, unfolding(crate::specs::Operators::level_of))]
pub fn level_of(operator: Binary) -> u8
    ensures { result ≡ spec.level_of operator }
{
    match operator {
        Binary::LogicalOr => 0,
        Binary::LogicalAnd => 1,
        Binary::Or => 2,
        Binary::Xor => 3,
        Binary::And => 4,
        Binary::Equal | Binary::NotEqual => 5,
        Binary::Less | Binary::Greater | Binary::LessEqual | Binary::GreaterEqual => 6,
        Binary::ShiftLeft | Binary::ShiftRight => 7,
        Binary::Add | Binary::Subtract => 8,
        Binary::Multiply | Binary::Divide | Binary::Remainder => 9,
    }
}
