//! The value of one operator on 64-bit integers (GLSL ES 3.20 section 3.4).

ghost use Rattle.std.specs.Prelude.{◌≡◌};
ghost use Rattle.pp_expression.specs.Arithmetic as spec;
ghost use Rattle.pp_expression.specs.declared.operator.Binary.TheVariants as spec_operator;

use crate::operator::{Binary, Unary};
use crate::symbol::ExpressionFault;

/// Returns a literal's value: its 64 bits read as two's complement.
pub fn literal(value: u64) -> i64
    ensures { result ≡ spec.literal value }
{
    value.cast_signed()
}

/// Returns the value of an operator in front of an operand: `IntegerOverflow` if it doesn't fit in 64 bits.
pub fn unary(operator: Unary, operand: i64) -> Result<i64, ExpressionFault>
    ensures { result ≡ spec.unary_value operator operand }
{
    match operator {
        Unary::Plus => Ok(operand),
        Unary::Minus => operand
            .checked_neg()
            .ok_or(ExpressionFault::IntegerOverflow),
        Unary::Not => Ok(i64::from(operand == 0)),
        Unary::Complement => Ok(!operand),
    }
}

/// The number of bits of a shift: `IntegerOverflow` if it isn't one of 0 to 63.
fn shift_count(count: i64) -> Result<u32, ExpressionFault>
    ensures { result ≡ spec.shift_count count }
{
    if count < 0 || count > 63 {
        return Err(ExpressionFault::IntegerOverflow);
    }
    Ok(count as u32)
}

/// The quotient: `DivisionByZero` if the divisor is 0, and `IntegerOverflow` for the least number divided by -1, which
/// doesn't fit in 64 bits.
fn quotient(left: i64, right: i64) -> Result<i64, ExpressionFault>
    ensures { result ≡ spec.binary_value spec_operator.Divide left right }
{
    if right == 0 {
        return Err(ExpressionFault::DivisionByZero);
    }
    left.checked_div(right)
        .ok_or(ExpressionFault::IntegerOverflow)
}

/// The remainder: `RemainderByZero` if the divisor is 0, and `IntegerOverflow` if the quotient doesn't fit in 64 bits.
fn remainder(left: i64, right: i64) -> Result<i64, ExpressionFault>
    ensures { result ≡ spec.binary_value spec_operator.Remainder left right }
{
    if right == 0 {
        return Err(ExpressionFault::RemainderByZero);
    }
    left.checked_rem(right)
        .ok_or(ExpressionFault::IntegerOverflow)
}

/// Returns the value of an operator between its operands: `IntegerOverflow` if the value, or the quotient of a
/// remainder, doesn't fit in 64 bits or a shift's count is not one of 0 to 63, and `DivisionByZero` or
/// `RemainderByZero` if the divisor is 0.
pub fn binary(operator: Binary, left: i64, right: i64) -> Result<i64, ExpressionFault>
    ensures { result ≡ spec.binary_value operator left right }
{
    match operator {
        Binary::Multiply => left
            .checked_mul(right)
            .ok_or(ExpressionFault::IntegerOverflow),
        Binary::Divide => quotient(left, right),
        Binary::Remainder => remainder(left, right),
        Binary::Add => left
            .checked_add(right)
            .ok_or(ExpressionFault::IntegerOverflow),
        Binary::Subtract => left
            .checked_sub(right)
            .ok_or(ExpressionFault::IntegerOverflow),
        Binary::ShiftLeft => Ok(left << shift_count(right)?),
        Binary::ShiftRight => Ok(left >> shift_count(right)?),
        Binary::Less => Ok(i64::from(left < right)),
        Binary::Greater => Ok(i64::from(left > right)),
        Binary::LessEqual => Ok(i64::from(left <= right)),
        Binary::GreaterEqual => Ok(i64::from(left >= right)),
        Binary::Equal => Ok(i64::from(left == right)),
        Binary::NotEqual => Ok(i64::from(left != right)),
        Binary::And => Ok(left & right),
        Binary::Xor => Ok(left ^ right),
        Binary::Or => Ok(left | right),
        Binary::LogicalAnd => Ok(i64::from(left != 0 && right != 0)),
        Binary::LogicalOr => Ok(i64::from(left != 0 || right != 0)),
    }
}
