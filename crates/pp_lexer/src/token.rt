//! Tokens of GLSL source with their places, and the errors of the preprocessor.
//!
//! Contracts see each type here as the values of its fields: a text as the list of its characters,
//! and a list of tokens as the list of its entries in preorder. Two values are `==` exactly if they
//! are equal in all fields.

ghost use Rattle.std.specs.Prelude.{◌≡◌};

use std::marker::Model;

mod copies;
mod equality;
mod error;
mod list;
mod placed_error;
mod sentence;
mod spelling;
mod text;

pub use error::out_of_memory;
pub(crate) use error::refused;
pub use placed_error::PlacedError;
pub use spelling::{float_letters, integer_letters};
pub use text::Text;

/// The place of a token in its source.
#[derive(Clone, Copy, PartialEq, Eq, Debug)]
pub struct Location {
    /// The byte offset at which the token begins.
    pub start: u32,
    /// The byte offset after the token.
    pub end: u32,
    /// The line on which the token begins. The first line is 1.
    pub line: u32,
}

/// The place of an error that has none in the source: the Lexer's errors, and `OutOfMemory`.
pub const NOWHERE: Location = Location {
    start: 0,
    end: 0,
    line: 1,
};

impl Default for Location {
    ghost use Rattle.std.specs.Prelude.{◌≡◌};
    ghost use Rattle.pp_lexer.specs.Location.{nowhere};

    ghost is_default = { λ place. place ≡ nowhere };

    fn default() -> Self {
        NOWHERE
    }
}

/// A punctuator (GLSL ES 3.20 section 3.4).
#[derive(Clone, Copy, PartialEq, Eq, Debug)]
pub enum Punct {
    // Compound assignments.
    /// `+=`
    AddAssign,
    /// `-=`
    SubAssign,
    /// `*=`
    MulAssign,
    /// `/=`
    DivAssign,
    /// `%=`
    ModAssign,
    /// `<<=`
    LeftShiftAssign,
    /// `>>=`
    RightShiftAssign,
    /// `&=`
    AndAssign,
    /// `^=`
    XorAssign,
    /// `|=`
    OrAssign,

    // Other punctuators of two characters.
    /// `++`
    Increment,
    /// `--`
    Decrement,
    /// `&&`
    LogicalAnd,
    /// `||`
    LogicalOr,
    /// `^^`
    LogicalXor,
    /// `<=`
    LessEqual,
    /// `>=`
    GreaterEqual,
    /// `==`
    EqualEqual,
    /// `!=`
    NotEqual,
    /// `<<`
    LeftShift,
    /// `>>`
    RightShift,

    // Braces, parentheses and brackets.
    /// `{`
    LeftBrace,
    /// `}`
    RightBrace,
    /// `(`
    LeftParen,
    /// `)`
    RightParen,
    /// `[`
    LeftBracket,
    /// `]`
    RightBracket,

    // Other punctuators of one character.
    /// `<`
    LeftAngle,
    /// `>`
    RightAngle,
    /// `;`
    Semicolon,
    /// `,`
    Comma,
    /// `:`
    Colon,
    /// `.`
    Dot,
    /// `=`
    Equal,
    /// `!`
    Bang,
    /// `-`
    Minus,
    /// `~`
    Tilde,
    /// `+`
    Plus,
    /// `*`
    Star,
    /// `/`
    Slash,
    /// `%`
    Percent,
    /// `|`
    Pipe,
    /// `^`
    Caret,
    /// `&`
    Ampersand,
    /// `?`
    Question,
}

/// What is wrong with a source, or that memory ran out.
#[derive(PartialEq, Eq, Debug, Drop)]
pub enum PreprocessorError {
    /// An integer literal has no value of 64 bits, a value in an `#if`, `#elif` or `#line`
    /// expression doesn't fit in 64 bits, a shift's count there is not one of 0 to 63, or the
    /// parentheses inside a macro call are too many to count.
    IntegerOverflow,
    /// A float literal is not digits with an optional point and an optional exponent.
    FloatParsingError,
    /// No token begins with this character.
    UnexpectedCharacter,
    /// A directive or an expression has this token where it needs another token, or none.
    UnexpectedToken(TokenValue),
    /// A `#` in live text is not the first on its line, or is in a directive or in the content of
    /// an added definition.
    UnexpectedHash,
    /// A directive ends before its name, or within the parameters of a `#define`.
    UnexpectedNewLine,
    /// The arguments of a macro call have no closing `)`, or an expression is incomplete.
    UnexpectedEndOfInput,
    /// A macro call has fewer arguments than the macro has parameters.
    TooFewDefineArguments,
    /// A macro call has more arguments than the macro has parameters.
    TooManyDefineArguments,
    /// An `#error` line in live text.
    ErrorDirective,
    /// A `#define` names a parameter twice.
    DuplicateParameter,
    /// A directive's word is not a directive of GLSL.
    UnknownDirective,
    /// A `#define` gives a defined macro another meaning.
    DefineRedefined,
    /// An `#elif` without its `#if`.
    ElifOutsideOfBlock,
    /// An `#else` without its `#if`.
    ElseOutsideOfBlock,
    /// An `#endif` without its `#if`.
    EndifOutsideOfBlock,
    /// An `#elif` after the block's `#else`.
    ElifAfterElse,
    /// A second `#else` of a block.
    MoreThanOneElse,
    /// An `#if`, `#ifdef` or `#ifndef` without its `#endif`.
    UnfinishedBlock,
    /// A line number of `#line` or `__LINE__` is negative or has more than 32 bits.
    LineOverflow,
    /// A literal with a suffix for 16 bits.
    NotSupported16BitLiteral,
    /// A literal with a suffix for 64 bits.
    NotSupported64BitLiteral,
    /// Kept from the Rust crate. It is never returned.
    MacroNotDefined,
    /// Too many macro calls are nested.
    RecursionLimitReached,
    /// An expression divides by 0.
    DivisionByZero,
    /// An expression takes a remainder by 0.
    RemainderByZero,
    /// An allocation failed. The Rust crate ends the process instead.
    OutOfMemory,
}

/// An integer literal.
#[derive(Clone, Copy, PartialEq, Eq, Debug)]
pub struct Integer {
    /// Its value.
    pub value: u64,
    /// Whether it is signed, that is, has no suffix `u` or `U`.
    pub signed: bool,
    /// Its width in bits: 32 for a literal of the source.
    pub width: i32,
}

/// A float literal.
#[derive(PartialEq, Eq, Debug, Drop)]
pub struct Float {
    /// Its spelling, without a suffix. The Rust crate has the value as an `f32` instead.
    pub text: Text,
    /// Its width in bits: 32 for a literal of the source.
    pub width: i32,
}

/// A list of tokens, which contracts see as the list of its entries in preorder: each token with
/// how deep it lies.
///
/// It is made from a `Vec<Token>` and gives it back without an allocation.
#[cycle(tokens)]
#[derive(Drop)]
pub struct Tokens {
    items: Vec<Token>,
}

impl Model for Tokens {
    ghost use Rattle.std.specs.Prelude.{List, length};
    ghost use Rattle.std.proofs.Common.{arith};
    ghost use Rattle.pp_lexer.specs.Entry.{Entry};

    ghost Value = { List Entry };

    ghost use Rattle.pp_lexer.specs.Preorder.{preorder};

    ghost view = { λ tokens. preorder tokens.items.items };

    ghost size = { length };

    ghost use Rattle.pp_lexer.specs.PreorderSize.{most_le-length-preorder};

    ghost size_decreases = { λ tokens _. omega (arith, most_le-length-preorder tokens.items.items) };
}

impl PartialEq for Tokens {
    ghost use Rattle.std.specs.Cmp.{partial_equiv_from_equiv};
    ghost use Rattle.std.specs.Cmp.Lexicographic.{pointwise};
    ghost use Rattle.pp_lexer.specs.EntryEq.{entry_eq, entries_equiv};

    ghost eq = { pointwise entry_eq };

    ghost laws = { partial_equiv_from_equiv entries_equiv };

    #[cycle(tokens)]
    fn eq(&self, other: &Tokens) -> bool {
        self.items == other.items
    }
}

impl Eq for Tokens {
    ghost use Rattle.pp_lexer.specs.EntryEq.{entries_equiv};

    ghost laws = { entries_equiv };
}

/// A `#version` line.
#[cycle(tokens)]
#[derive(PartialEq, Eq, Debug, Drop)]
pub struct Version {
    /// The tokens after the word `version`, unexpanded.
    pub tokens: Tokens,
    /// Whether no directive and no ordinary token of live text was read before it.
    pub is_first_directive: bool,
    /// Whether a comment was read before its line ended.
    pub has_comments_before: bool,
}

/// An `#extension` line.
#[cycle(tokens)]
#[derive(PartialEq, Eq, Debug, Drop)]
pub struct Extension {
    /// The tokens after the word `extension`, unexpanded.
    pub tokens: Tokens,
    /// Whether an ordinary token of live text was read before it.
    pub has_non_directive_before: bool,
}

/// A `#pragma` line.
#[cycle(tokens)]
#[derive(PartialEq, Eq, Debug, Drop)]
pub struct Pragma {
    /// The tokens after the word `pragma`, unexpanded.
    pub tokens: Tokens,
}

/// The value of a token of preprocessed source: an ordinary token, or a directive that is passed
/// on.
#[cycle(tokens)]
#[derive(PartialEq, Eq, Debug, Drop)]
pub enum TokenValue {
    /// An identifier or a keyword.
    Ident(Text),
    /// An integer literal.
    Integer(Integer),
    /// A float literal.
    Float(Float),
    /// A punctuator.
    Punct(Punct),
    /// A `#version` line.
    Version(Version),
    /// An `#extension` line.
    Extension(Extension),
    /// A `#pragma` line.
    Pragma(Pragma),
}

/// A token of preprocessed source, with its place.
#[cycle(tokens)]
#[derive(PartialEq, Eq, Debug, Drop)]
pub struct Token {
    /// Its value.
    pub value: TokenValue,
    /// Its place: for a directive, the place of its word.
    pub location: Location,
}

impl Token {
    ghost use Rattle.pp_lexer.specs.TokenValue.{is_ordinary};

    /// Returns whether it is an identifier, a literal or a punctuator, and so not a directive.
    pub fn is_ordinary(&self) -> bool
        ensures { result ≡ is_ordinary self.now.value }
    {
        match self.value {
            TokenValue::Ident(_)
            | TokenValue::Integer(_)
            | TokenValue::Float(_)
            | TokenValue::Punct(_) => true,
            TokenValue::Version(_) | TokenValue::Extension(_) | TokenValue::Pragma(_) => false,
        }
    }
}
