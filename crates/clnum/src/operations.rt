//! The operators of OpenCL C on integers.
#![tactic(auto)]

ghost use Rattle.std.specs.Prelude.{◌≡◌, ◌<◌, ◌≢◌, ◌*ℤ◌, ℤ, pos, int_div};
ghost use Rattle.std.specs.Int.{int_div_euclid};
ghost use Rattle.clnum.specs.Integer.{IsIn, IsWithin, bits, residue, wrap, converted};
ghost use Rattle.clnum.specs.Conversions.{common};
ghost use Rattle.clnum.specs.Operations as operations;

use crate::int_type::IntType;
use crate::operators::{ArithFault, BinaryOperator, UnaryOperator};
use crate::values::{Value, bits_of};

/// A value in another type (OpenCL 1.2, section 6.2.3; C99 6.3.1.3): the number of that type that differs by a multiple
/// of 2 to its width.
pub fn convert(value: Value, kind: IntType) -> Value
    ensures { result ≡ converted value kind }
{
    let number = value.number();
    if value.kind() == kind {
        return value;
    }
    Value::wrapped(kind, number)
}

/// What an operator gives on one integer (OpenCL 1.2, section 6.3).
pub fn unary(operator: UnaryOperator, value: Value) -> Value
    ensures { result ≡ operations.unary_value operator value }
{
    let kind = value.kind().promoted();
    let number = value.number();
    match operator {
        UnaryOperator::Plus => Value::wrapped(kind, number),
        UnaryOperator::Negate => Value::wrapped(kind, -number),
        UnaryOperator::Complement => Value::wrapped(kind, -1 - number),
        UnaryOperator::Not => truth(number == 0),
    }
}

/// The int 1 or 0 (C99 6.5.8, 6.5.9).
pub fn truth(holds: bool) -> Value
    ensures { result ≡ operations.truth holds }
{
    Value::new(IntType::Int, if holds { 1 } else { 0 })
}

/// Two numbers brought to their common type.
#[derive(Clone, Copy)]
struct Pair {
    kind: IntType,
    left: i128,
    right: i128,
}

/// Brings two operands to their common type (C99 6.3.1.8).
fn in_common(left: Value, right: Value) -> Pair
    ensures kind { result.kind ≡ common left.kind right.kind }
    ensures left { result.left ≡ wrap result.kind left.number }
    ensures right { result.right ≡ wrap result.kind right.number }
    ensures left_in { IsIn result.kind result.left }
    ensures right_in { IsIn result.kind result.right }
    ensures left_within { IsWithin result.left }
    ensures right_within { IsWithin result.right }
{
    let kind = left.kind().common(right.kind());
    Pair {
        kind,
        left: convert(left, kind).number(),
        right: convert(right, kind).number(),
    }
}

/// What an operator gives on two integers (OpenCL 1.2, section 6.3), or the fault of a division.
pub fn binary(operator: BinaryOperator, left: Value, right: Value) -> Result<Value, ArithFault>
    ensures { result ≡ operations.binary_value operator left right }
{
    let both = in_common(left, right);
    let kind = both.kind;
    let x = both.left;
    let y = both.right;
    match operator {
        BinaryOperator::Add => Ok(Value::wrapped(kind, x + y)),
        BinaryOperator::Subtract => Ok(Value::wrapped(kind, x - y)),
        BinaryOperator::Multiply => Ok(Value::wrapped(kind, x.wrapping_mul(y))),
        BinaryOperator::Divide => divide(kind, x, y),
        BinaryOperator::Remainder => remainder(kind, x, y),
        BinaryOperator::ShiftLeft => Ok(shift_left(left, right)),
        BinaryOperator::ShiftRight => Ok(shift_right(left, right)),
        BinaryOperator::Less => Ok(truth(x < y)),
        BinaryOperator::Greater => Ok(truth(x > y)),
        BinaryOperator::LessOrEqual => Ok(truth(x <= y)),
        BinaryOperator::GreaterOrEqual => Ok(truth(x >= y)),
        BinaryOperator::Equal => Ok(truth(x == y)),
        BinaryOperator::NotEqual => Ok(truth(x != y)),
        BinaryOperator::BitAnd => Ok(Value::from_bits(kind, bits_of(kind, x) & bits_of(kind, y))),
        BinaryOperator::BitXor => Ok(Value::from_bits(kind, bits_of(kind, x) ^ bits_of(kind, y))),
        BinaryOperator::BitOr => Ok(Value::from_bits(kind, bits_of(kind, x) | bits_of(kind, y))),
    }
}

/// The quotient of two numbers of a type, rounded toward zero.
fn divide(kind: IntType, x: i128, y: i128) -> Result<Value, ArithFault>
    requires left { IsIn kind x }
    requires right { IsIn kind y }
    ensures { result ≡ operations.divided int_div kind x y }
{
    if y == 0 {
        return Err(ArithFault::DivideByZero);
    }
    let quotient = quotient(kind, x, y);
    if !is_in(kind, quotient) {
        return Err(ArithFault::DivideOverflow);
    }
    Ok(Value::wrapped(kind, quotient))
}

/// What is left of x after its quotient by y, with the sign of x.
fn remainder(kind: IntType, x: i128, y: i128) -> Result<Value, ArithFault>
    requires left { IsIn kind x }
    requires right { IsIn kind y }
    ensures { result ≡ operations.divided operations.remainder_of kind x y }
{
    if y == 0 {
        return Err(ArithFault::DivideByZero);
    }
    let quotient = quotient(kind, x, y);
    if !is_in(kind, quotient) {
        return Err(ArithFault::DivideOverflow);
    }
    Ok(Value::wrapped(kind, x.wrapping_sub(quotient.wrapping_mul(y))))
}

/// x / y without 128-bit division: only the quotient by -1 can leave 64 bits.
fn quotient(kind: IntType, x: i128, y: i128) -> i128
    requires left { IsIn kind x }
    requires right { IsIn kind y }
    requires divisor { y ≢ pos 0 }
    ensures { result ≡ int_div x y }
{
    if y == -1 {
        -x
    } else if 0 <= x && 0 < y {
        i128::from(x as u64 / y as u64)
    } else {
        i128::from(x as i64 / y as i64)
    }
}

/// Whether a number is in a type's range.
fn is_in(kind: IntType, number: i128) -> bool
    ensures { result ≡ operations.is_in kind number }
{
    match kind {
        IntType::Char => -0x80 <= number && number <= 0x7f,
        IntType::Uchar => 0 <= number && number <= 0xff,
        IntType::Short => -0x8000 <= number && number <= 0x7fff,
        IntType::Ushort => 0 <= number && number <= 0xffff,
        IntType::Int => -0x8000_0000 <= number && number <= 0x7fff_ffff,
        IntType::Uint => 0 <= number && number <= 0xffff_ffff,
        IntType::Long => -0x8000_0000_0000_0000 <= number && number <= 0x7fff_ffff_ffff_ffff,
        IntType::Ulong => 0 <= number && number <= 0xffff_ffff_ffff_ffff,
    }
}

/// Shifts to the left, by the count modulo the width of the value's promoted type (6.3j).
fn shift_left(value: Value, count: Value) -> Value
    ensures { result ≡ operations.shift (λ x power. x *ℤ pos power) value count }
{
    let kind = value.kind().promoted();
    let count = shift_count(kind, count);
    Value::wrapped(kind, value.number() << count)
}

/// Shifts to the right, by the count modulo the width of the promoted type; the sign fills a signed one (6.3j).
fn shift_right(value: Value, count: Value) -> Value
    ensures { result ≡ operations.shift (λ x power. int_div_euclid x (pos power)) value count }
{
    let kind = value.kind().promoted();
    let count = shift_count(kind, count);
    Value::wrapped(kind, value.number() >> count)
}

/// A count modulo a type's width.
pub(crate) fn shift_count(kind: IntType, count: Value) -> u32
    ensures value { result ≡ residue (bits kind) count.number }
    ensures below { result < bits kind }
{
    let bits = count.to_bits();
    match kind {
        IntType::Char | IntType::Uchar => (bits % 8) as u32,
        IntType::Short | IntType::Ushort => (bits % 16) as u32,
        IntType::Int | IntType::Uint => (bits % 32) as u32,
        IntType::Long | IntType::Ulong => (bits % 64) as u32,
    }
}
