//! The value of an expression, computed as it is read. Open parentheses and pending operators are kept in a list, so
//! that their depth takes none of the native stack.

ghost use Rattle.std.specs.Prelude.{◌≡◌, ◌+◌, ◌^◌, ◌<◌, ◌≤◌, [], length, Ok, Some, None, IfOk, IfErr};
ghost use Rattle.pp_expression.specs.Lines.{Line, next, Stops, Reads};
ghost use Rattle.pp_expression.specs.FirstFault.{Evaluates};
ghost use Rattle.pp_expression.specs.FirstFault as spec;
ghost use Rattle.pp_expression.specs.inner.Parsing.{after_next, binary_at, sign_at, atom_at, closing_at, located};
ghost use Rattle.pp_expression.specs.inner.Pending.{computed_at, wanted_in};
ghost use Rattle.pp_expression.specs.inner.Evaluator.{Leads, Computes, GetsOn, IsHalt};

use crate::arithmetic;
use crate::halt::Halt;
use crate::operator::{Binary, Unary, binary_of, level_of, unary_of};
use crate::pending::{Operator, Pending, PendingList};
use crate::symbol::{ExpressionFault, Found, Symbol, Value};
use pp_lexer::token::Punct;
use std::alloc::{AllocError, Global};
use std::marker::Model;

/// The symbols of a line that are not read yet, and the fault that ends their reading.
#[derive(Drop)]
struct Reader<'a> {
    symbols: &'a [Symbol],
    ending: Option<ExpressionFault>,
}

impl<'a> Model for Reader<'a> {
    ghost use Rattle.pp_expression.specs.Lines.{Line};

    ghost Value = { Line };

    ghost view = { λ reader. record { symbols = reader.symbols.now; ending = reader.ending } };
}

/// The level of products. Products, and operators in front of their operand, are computed before the symbol after their
/// right operand is known.
const PRODUCT: u8 = 9;

/// The operand that starts at this symbol: a number, or `None` for `(`. The error of any other symbol, or of the end,
/// if no operand starts there.
fn atom_of(symbol: Option<Symbol>) -> Result<Option<u64>, ExpressionFault>
    ensures { result ≡ spec.atom_of symbol }
{
    match symbol {
        Some(Symbol::Number(number)) => Ok(Some(number)),
        Some(Symbol::Punct(Punct::LeftParen)) => Ok(None),
        Some(Symbol::Fault) => Err(ExpressionFault::Operand),
        Some(_) => Err(ExpressionFault::Unexpected),
        None => Err(ExpressionFault::UnexpectedEndOfInput),
    }
}

/// Fails unless the symbol is `)`.
fn closing(symbol: Option<Symbol>) -> Result<(), ExpressionFault>
    ensures { result ≡ spec.closing symbol }
{
    match symbol {
        Some(Symbol::Punct(Punct::RightParen)) => Ok(()),
        Some(_) => Err(ExpressionFault::Unexpected),
        None => Err(ExpressionFault::UnexpectedEndOfInput),
    }
}

/// The answer, or the fault with the place at which it is found.
fn at<T>(left: usize, answer: Result<T, ExpressionFault>) -> Result<T, Found>
    ensures { result ≡ located left answer }
{
    match answer {
        Ok(found) => Ok(found),
        Err(kind) => Err(Found { kind, left }),
    }
}

impl<'a> Reader<'a> {
    /// How many symbols are left.
    fn left(&self) -> usize
        ensures value { result ≡ length self.now.symbols }
        ensures room { result < 2 ^ 63 }
    {
        self.symbols.len()
    }

    /// The next symbol, or `None` at the end.
    fn peek(&self) -> Result<Option<Symbol>, ExpressionFault>
        ensures { result ≡ next self.now }
    {
        if let Some(symbol) = self.symbols.first() {
            return Ok(Some(*symbol));
        }
        match self.ending {
            Some(fault) => Err(fault),
            None => Ok(None),
        }
    }

    /// Passes the next symbol.
    fn pass(&mut self)
        ensures { self.new ≡ after_next self.old }
    {
        if let Some((_, rest)) = self.symbols.split_first() {
            self.symbols = rest;
        }
    }

    /// The operator in front of an operand that comes next, or `None` if something else comes.
    fn sign(&self) -> Result<Option<Unary>, Found>
        ensures { result ≡ located (length self.now.symbols) (sign_at self.now) }
    {
        match at(self.left(), self.peek())? {
            Some(Symbol::Punct(punct)) => Ok(unary_of(punct)),
            _ => Ok(None),
        }
    }

    /// The operator between operands that comes next, or `None` if something else comes.
    fn operator(&self) -> Result<Option<Binary>, Found>
        ensures { result ≡ located (length self.now.symbols) (binary_at self.now) }
    {
        match at(self.left(), self.peek())? {
            Some(Symbol::Punct(punct)) => Ok(binary_of(punct)),
            _ => Ok(None),
        }
    }

    /// How many symbols are left at the point at which an operator is computed, after its right operand.
    fn left_at(&self, operator: Operator) -> usize
        ensures { result ≡ computed_at operator self.now }
    {
        if operator.level() < PRODUCT {
            self.left()
        } else {
            self.left() + 1
        }
    }

    /// Takes a number, or `(` for `None`.
    fn take_atom(&mut self) -> Result<Option<u64>, Found>
        ensures value { result ≡ located (length self.old.symbols) (atom_at self.old) }
        ensures rest { self.new ≡ after_next self.old }
    {
        let left = self.left();
        let first = self.peek();
        self.pass();
        at(left, atom_of(at(left, first)?))
    }

    /// Takes the `)`.
    fn take_closing(&mut self) -> Result<(), Found>
        ensures value { result ≡ located (length self.old.symbols) (closing_at self.old) }
        ensures rest { self.new ≡ after_next self.old }
    {
        let left = self.left();
        let last = self.peek();
        self.pass();
        at(left, closing(at(left, last)?))
    }
}

/// The state of an evaluation.
#[derive(Clone, Copy)]
enum State {
    /// An operand has to come next.
    OperandWanted,
    /// An operand of this value was read.
    OperandRead(i64),
    /// The expression is over, and has this value.
    Ended(i64),
}

/// The evaluation of an expression: the rest of its line, and what is pending.
#[derive(Drop)]
struct Evaluator<'a> {
    line: Reader<'a>,
    pending: PendingList,
}

impl<'a> Evaluator<'a> {
    /// Computes the pending operators that bind at least as tightly as the level, from the
    /// innermost outwards. `operand` is the right operand of the innermost.
    fn compute_from(&mut self, level: u8, operand: i64) -> Result<i64, Halt>
        requires low { level ≤ 9 }
        requires over { Stops (level + 1) self.old.line }
        ensures computes { Computes level operand self.old result self.new }
        ensures loose { IfOk result (λ number. wanted_in self.new.pending ≤ level) }
        ensures line { self.new.line ≡ self.old.line }
    {
        let mut value = operand;
        while let Some(operator) = self.pending.take_from(level) {
            value = at(self.line.left_at(operator), operator.apply(value))?;
        }
        Ok(value)
    }

    /// Takes the next symbol of an operand: an operator in front of it, a `(`, or a number.
    fn take_operand(&mut self) -> Result<State, Halt>
        ensures leads { Leads State.OperandWanted self.old result self.new }
        ensures gets_on { GetsOn self.old result self.new }
    {
        if let Some(operator) = self.line.sign()? {
            self.line.pass();
            self.pending
                .push(Pending::Operator(Operator::Prefix(operator)))?;
            return Ok(State::OperandWanted);
        }
        match self.line.take_atom()? {
            Some(number) => Ok(State::OperandRead(arithmetic::literal(number))),
            None => {
                self.pending.push(Pending::Group)?;
                Ok(State::OperandWanted)
            }
        }
    }

    /// Takes the operator that comes next. `operand` is the operand just before it.
    fn take_operator(&mut self, operator: Binary, operand: i64) -> Result<State, Halt>
        requires { binary_at self.old.line ≡ Ok (Some operator) }
        ensures leads { Leads (State.OperandRead operand) self.old result self.new }
        ensures gets_on { GetsOn self.old result self.new }
    {
        let left = self.compute_from(level_of(operator), operand)?;
        self.line.pass();
        self.pending
            .push(Pending::Operator(Operator::Infix(operator, left)))?;
        Ok(State::OperandWanted)
    }

    /// Ends the innermost parentheses, or the whole expression. `operand` is the last operand in it.
    fn end_expression(&mut self, operand: i64) -> Result<State, Halt>
        requires { binary_at self.old.line ≡ Ok None }
        ensures leads { Leads (State.OperandRead operand) self.old result self.new }
        ensures gets_on { GetsOn self.old result self.new }
    {
        let value = self.compute_from(0, operand)?;
        match self.pending.pop() {
            None => Ok(State::Ended(value)),
            Some(_) => {
                self.line.take_closing()?;
                Ok(State::OperandRead(value))
            }
        }
    }

    /// Continues after an operand: takes the operator that comes next, or ends the parentheses or the expression.
    fn go_on(&mut self, operand: i64) -> Result<State, Halt>
        ensures leads { Leads (State.OperandRead operand) self.old result self.new }
        ensures gets_on { GetsOn self.old result self.new }
    {
        let value = self.compute_from(PRODUCT, operand)?;
        match self.line.operator()? {
            Some(operator) => self.take_operator(operator, value),
            None => self.end_expression(value),
        }
    }

    /// The value of the expression at the front of the line.
    fn run(&mut self) -> Result<i64, Halt>
        requires { self.old.pending ≡ [] }
        ensures value { IfOk result (Reads 0 0 self.old.line self.new.line) }
        ensures halt { IfErr result (IsHalt self.old.line) }
    {
        let mut state = State::OperandWanted;
        loop {
            state = match state {
                State::OperandWanted => self.take_operand()?,
                State::OperandRead(value) => self.go_on(value)?,
                State::Ended(value) => return Ok(value),
            };
        }
    }
}

/// Returns the value of the expression at the front of a line of `#if`, `#elif` or `#line` (GLSL ES 3.20 section 3.4).
/// Symbols after the expression are no fault: `left` of the result counts them.
///
/// `ending` is the fault that ends the reading of the line's words after `symbols`, or `None` if the line ends there.
/// It is a fault of the expression only if the expression depends on what comes after `symbols`.
///
/// The inner `Err` is the first fault: `Unexpected`, `UnexpectedEndOfInput` or `Operand` if an operand or a `)` has to
/// come, `IntegerOverflow`, `DivisionByZero` or `RemainderByZero` of an operator, or `ending`. An operator in front of
/// its operand, `*`, `/` and `%` are computed once the last symbol of their right operand is read, the others once the
/// symbol after it is known.
///
/// Open parentheses and pending operators are kept in memory of `alloc`. The outer `Err` is that an allocation failed.
#[tactic(auto, using(crate::proofs::PossibleFaults::is_first, crate::proofs::PossibleFaults::is_value))]
pub fn evaluate(
    alloc: Global,
    symbols: &[Symbol],
    ending: Option<ExpressionFault>,
) -> Result<Result<Value, Found>, AllocError>
    ensures { IfOk result (Evaluates (record { symbols = symbols.now; ending = ending })) }
{
    let mut evaluator = Evaluator {
        line: Reader { symbols, ending },
        pending: PendingList::new(alloc),
    };
    match evaluator.run() {
        Ok(value) => Ok(Ok(Value {
            value,
            left: evaluator.line.left(),
        })),
        Err(Halt::Fault(found)) => Ok(Err(found)),
        Err(Halt::Refused(error)) => Err(error),
    }
}
