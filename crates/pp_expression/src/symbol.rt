//! The symbols of which an expression is read, and its value or fault.

use pp_lexer::token::Punct;

/// What a word of a directive's line is in the grammar of expressions (GLSL ES 3.20 section 3.4).
#[derive(Clone, Copy)]
pub enum Symbol {
    /// A number: an integer literal, the 0 that replaces an identifier without a definition, or the 1 or 0 of a
    /// `defined`.
    Number(u64),
    /// A punctuator: an operator, a parenthesis, or one that no expression has.
    Punct(Punct),
    /// A `defined` whose own operand has a fault.
    Fault,
    /// Any other token, such as a float. No expression has one.
    Other,
}

/// What is wrong with an expression.
#[derive(Clone, Copy, PartialEq, Eq, Debug)]
pub enum ExpressionFault {
    /// A sum, a difference, a product, a quotient or a negation doesn't fit in 64 bits, nor does the quotient of a
    /// remainder, or a shift's count is not one of 0 to 63.
    IntegerOverflow,
    /// A division by 0.
    DivisionByZero,
    /// A remainder by 0.
    RemainderByZero,
    /// The line ends where an operand or a `)` has to come.
    UnexpectedEndOfInput,
    /// A symbol that begins no operand is where an operand has to come, or one other than `)` where a `)` has to come.
    Unexpected,
    /// The fault that ends the reading of the line's words: what comes after them isn't known.
    Unread,
    /// A `defined` whose own operand has a fault, where an operand has to come.
    Operand,
}

/// The value of an expression, with its end.
#[derive(Clone, Copy, PartialEq, Eq, Debug)]
pub struct Value {
    /// The value.
    pub value: i64,
    /// How many symbols come after the expression.
    pub left: usize,
}

/// The first fault of an expression, with its place.
#[derive(Clone, Copy, PartialEq, Eq, Debug)]
pub struct Found {
    /// What is wrong.
    pub kind: ExpressionFault,
    /// How many symbols there are from the one at which it is found to the end of the line, that one included: 0 at the
    /// line's end. An `Unexpected` is the first of these symbols.
    pub left: usize,
}
