//! Expressions of `#if`, `#elif` and `#line` over symbols: their values and first faults.

use pp_expression::evaluator::evaluate;
use pp_expression::laws;
use pp_expression::symbol::{ExpressionFault, Found, Symbol, Value};
use pp_rs::token::Punct;
use std::alloc::{AllocError, Global};
use std::test::Fail;

/// The symbols of a line, how its reading ended, and what the expression at its front gives.
struct Row {
    line: &'static [Symbol],
    ending: Option<ExpressionFault>,
    expected: Result<Value, Found>,
}

const PLUS: Symbol = Symbol::Punct(Punct::Plus);

const MINUS: Symbol = Symbol::Punct(Punct::Minus);

const STAR: Symbol = Symbol::Punct(Punct::Star);

const SLASH: Symbol = Symbol::Punct(Punct::Slash);

const EQUAL: Symbol = Symbol::Punct(Punct::EqualEqual);

const LEFT_SHIFT: Symbol = Symbol::Punct(Punct::LeftShift);

const RIGHT_SHIFT: Symbol = Symbol::Punct(Punct::RightShift);

const OPENING: Symbol = Symbol::Punct(Punct::LeftParen);

const CLOSING: Symbol = Symbol::Punct(Punct::RightParen);

const COMMA: Symbol = Symbol::Punct(Punct::Comma);

const ONE: Symbol = Symbol::Number(1);

const TWO: Symbol = Symbol::Number(2);

const THREE: Symbol = Symbol::Number(3);

const ROWS: [Row; 14] = [
    Row {
        line: &[
            ONE,
            PLUS,
            MINUS,
            TWO,
            STAR,
            THREE,
            EQUAL,
            MINUS,
            Symbol::Number(5),
        ],
        ending: None,
        expected: Ok(Value { value: 1, left: 0 }),
    },
    Row {
        line: &[ONE, MINUS, TWO, MINUS, THREE],
        ending: None,
        expected: Ok(Value { value: -4, left: 0 }),
    },
    Row {
        line: &[Symbol::Number(8), RIGHT_SHIFT, ONE, PLUS, ONE],
        ending: None,
        expected: Ok(Value { value: 2, left: 0 }),
    },
    Row {
        line: &[
            MINUS,
            Symbol::Number(7),
            SLASH,
            TWO,
            Symbol::Number(9),
            COMMA,
        ],
        ending: None,
        expected: Ok(Value { value: -3, left: 2 }),
    },
    Row {
        line: &[ONE, SLASH, Symbol::Number(0), COMMA],
        ending: None,
        expected: Err(Found {
            kind: ExpressionFault::DivisionByZero,
            left: 2,
        }),
    },
    Row {
        line: &[ONE, LEFT_SHIFT, Symbol::Number(64)],
        ending: None,
        expected: Err(Found {
            kind: ExpressionFault::IntegerOverflow,
            left: 0,
        }),
    },
    Row {
        line: &[MINUS, Symbol::Number(9223372036854775808)],
        ending: None,
        expected: Err(Found {
            kind: ExpressionFault::IntegerOverflow,
            left: 1,
        }),
    },
    Row {
        line: &[ONE, PLUS, Symbol::Other, COMMA],
        ending: None,
        expected: Err(Found {
            kind: ExpressionFault::Unexpected,
            left: 2,
        }),
    },
    Row {
        line: &[OPENING, ONE],
        ending: None,
        expected: Err(Found {
            kind: ExpressionFault::UnexpectedEndOfInput,
            left: 0,
        }),
    },
    // Arithmetic, and reading before it.
    Row {
        line: &[Symbol::Number(9223372036854775807), PLUS, ONE],
        ending: None,
        expected: Err(Found {
            kind: ExpressionFault::IntegerOverflow,
            left: 0,
        }),
    },
    Row {
        line: &[Symbol::Number(9223372036854775807), PLUS, ONE],
        ending: Some(ExpressionFault::Unread),
        expected: Err(Found {
            kind: ExpressionFault::Unread,
            left: 0,
        }),
    },
    // A `defined` with a faulty operand.
    Row {
        line: &[ONE, PLUS, Symbol::Fault],
        ending: None,
        expected: Err(Found {
            kind: ExpressionFault::Operand,
            left: 1,
        }),
    },
    Row {
        line: &[ONE, Symbol::Fault],
        ending: None,
        expected: Ok(Value { value: 1, left: 1 }),
    },
    Row {
        line: &[OPENING, ONE, Symbol::Fault],
        ending: None,
        expected: Err(Found {
            kind: ExpressionFault::Unexpected,
            left: 1,
        }),
    },
];

// The first row that gives something else.
fn difference(alloc: Global, rows: &[Row]) -> Result<Option<usize>, AllocError> {
    for (index, row) in rows.iter().enumerate() {
        if evaluate(alloc, row.line, row.ending)? != row.expected {
            return Ok(Some(index));
        }
    }
    Ok(None)
}

#[test]
fn come_to_their_values_and_faults(rt: HostRuntime) -> Result<(), Fail> {
    assert!(rt; difference(rt.alloc(), &ROWS)?.is_none());
    Ok(())
}

// Symbols before a 7, repeated, and others after it.
struct Nested {
    before: &'static [Symbol],
    times: u32,
    after: &'static [Symbol],
    times_after: u32,
    expected: Result<Value, Found>,
}

// Depth takes no native stack: parentheses inside each other, signs before one number, and sums in parentheses.
const DEEP: [Nested; 8] = [
    Nested {
        before: &[OPENING],
        times: 200,
        after: &[CLOSING],
        times_after: 200,
        expected: Ok(Value { value: 7, left: 0 }),
    },
    Nested {
        before: &[OPENING],
        times: 100_000,
        after: &[CLOSING],
        times_after: 100_000,
        expected: Ok(Value { value: 7, left: 0 }),
    },
    Nested {
        before: &[OPENING],
        times: 100_000,
        after: &[CLOSING],
        times_after: 100_001,
        expected: Ok(Value { value: 7, left: 1 }),
    },
    Nested {
        before: &[OPENING],
        times: 100_000,
        after: &[CLOSING],
        times_after: 99_999,
        expected: Err(Found {
            kind: ExpressionFault::UnexpectedEndOfInput,
            left: 0,
        }),
    },
    Nested {
        before: &[MINUS],
        times: 200,
        after: &[],
        times_after: 0,
        expected: Ok(Value { value: 7, left: 0 }),
    },
    Nested {
        before: &[MINUS],
        times: 100_001,
        after: &[],
        times_after: 0,
        expected: Ok(Value { value: -7, left: 0 }),
    },
    Nested {
        before: &[ONE, PLUS, MINUS, OPENING],
        times: 100_000,
        after: &[CLOSING],
        times_after: 100_000,
        expected: Ok(Value { value: 7, left: 0 }),
    },
    Nested {
        before: &[ONE, PLUS, MINUS, OPENING],
        times: 100_001,
        after: &[CLOSING],
        times_after: 100_001,
        expected: Ok(Value { value: -6, left: 0 }),
    },
];

fn add_times(line: &mut Vec<Symbol>, times: u32, symbols: &[Symbol]) -> Result<(), AllocError> {
    for _ in 0..times {
        for symbol in symbols {
            line.push(*symbol)?;
        }
    }
    Ok(())
}

fn line_of(alloc: Global, nested: &Nested) -> Result<Vec<Symbol>, AllocError> {
    let mut line = Vec::new(alloc);
    add_times(&mut line, nested.times, nested.before)?;
    line.push(Symbol::Number(7))?;
    add_times(&mut line, nested.times_after, nested.after)?;
    Ok(line)
}

// The first of these that gives something else.
fn deep_difference(alloc: Global, rows: &[Nested]) -> Result<Option<usize>, AllocError> {
    for (index, row) in rows.iter().enumerate() {
        let line = line_of(alloc, row)?;
        if evaluate(alloc, &line, None)? != row.expected {
            return Ok(Some(index));
        }
    }
    Ok(None)
}

#[test]
fn any_depth_is_evaluated(rt: HostRuntime) -> Result<(), Fail> {
    assert!(rt; deep_difference(rt.alloc(), &DEEP)?.is_none());
    Ok(())
}

// The laws say something by their contracts alone.
#[test]
fn one_outcome(_rt: HostRuntime) {
    laws::one_value();
    laws::one_fault();
    laws::not_both();
    laws::an_evaluation();
}
