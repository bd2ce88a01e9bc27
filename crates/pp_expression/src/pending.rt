//! What is pending while an operand is read: open parentheses, and operators that need the operand.

ghost use Rattle.std.specs.Prelude.{◌≡◌, [], ◌∷◌, OnOk, IfNone, IfSome};
ghost use Rattle.pp_expression.specs.inner.Pending as spec;

use crate::arithmetic;
use crate::operator::{Binary, Unary, level_of};
use crate::symbol::ExpressionFault;
use std::alloc::{AllocError, Global};
use std::marker::Model;

/// How tightly an operator in front of its operand binds.
const PREFIX: u8 = 10;

/// An operator whose right operand is not read yet.
#[derive(Clone, Copy)]
pub enum Operator {
    /// One in front of its operand.
    Prefix(Unary),
    /// One between its operands, with the value of the left one.
    Infix(Binary, i64),
}

impl Operator {
    /// How tightly it binds: as `level_of` says between operands, and 10 in front of an operand.
    pub fn level(self) -> u8
        ensures { result ≡ spec.operator_level self }
    {
        match self {
            Operator::Prefix(_) => PREFIX,
            Operator::Infix(operator, _) => level_of(operator),
        }
    }

    /// Its value with this right operand, or its fault.
    pub fn apply(self, right: i64) -> Result<i64, ExpressionFault>
        ensures { result ≡ spec.operation self right }
    {
        match self {
            Operator::Prefix(operator) => arithmetic::unary(operator, right),
            Operator::Infix(operator, left) => arithmetic::binary(operator, left, right),
        }
    }
}

/// What surrounds an operand that is not read yet.
#[derive(Clone, Copy)]
pub enum Pending {
    /// Parentheses that are still open.
    Group,
    /// The right side of an operator.
    Operator(Operator),
}

/// All that is pending. Contracts see it as a list with the innermost first.
#[derive(Drop)]
pub struct PendingList {
    outermost_first: Vec<Pending>,
}

impl Model for PendingList {
    ghost use Rattle.std.specs.Prelude.{List, reverse};
    ghost use Rattle.pp_expression.specs.declared.pending.Pending.{Pending};

    ghost Value = { List Pending };

    ghost view = { λ list. reverse list.outermost_first.items };
}

impl PendingList {
    /// An empty list. It allocates nothing.
    pub fn new(alloc: Global) -> Self
        ensures { result ≡ [] }
    {
        PendingList {
            outermost_first: Vec::new(alloc),
        }
    }

    /// Adds one, inside all that is pending.
    pub fn push(&mut self, inner: Pending) -> Result<(), AllocError>
        ensures { OnOk result (self.new ≡ inner ∷ self.old) }
    {
        self.outermost_first.push(inner)?;
        Ok(())
    }

    /// The innermost one.
    fn innermost(&self) -> Option<Pending>
        ensures { result ≡ spec.innermost self.now }
    {
        self.outermost_first.last().copied()
    }

    /// Takes the innermost one.
    pub fn pop(&mut self) -> Option<Pending>
        ensures is { result ≡ spec.innermost self.old }
        ensures rest { self.new ≡ spec.outer self.old }
    {
        self.outermost_first.pop()
    }

    /// Takes the innermost one, if it is an operator that binds at least as tightly as the level.
    pub fn take_from(&mut self, level: u8) -> Option<Operator>
        ensures none { IfNone result (spec.IsLoose level self.old self.new) }
        ensures some { IfSome result (λ operator. spec.IsTaken level operator self.old self.new) }
    {
        let Some(Pending::Operator(operator)) = self.innermost() else {
            return None;
        };
        if operator.level() < level {
            return None;
        }
        self.pop();
        Some(operator)
    }
}
