//! Operators on numbers as 64 bits: no 128-bit number is made.
#![tactic(auto)]

ghost use Rattle.std.specs.Prelude.{◌≡◌, ◌≢◌, ℤ, pos, negsuc, ◌+ℤ◌, ◌-ℤ◌, ◌*ℤ◌, bit_and, bit_or, bit_xor, int_div, int_lt, ◌<◌, ◌^◌, FitsSigned};
ghost use Rattle.std.specs.Int.{int_div_euclid, w64};
ghost use Rattle.std.specs.Ordering.{int_eq};
ghost use Rattle.clnum.specs.Integer as integer;
ghost use Rattle.clnum.specs.Integer.{Integer, IsIn, bits_of, wrap, residue, converted};
ghost use Rattle.clnum.specs.Conversions as conversions;
ghost use Rattle.clnum.specs.Operations as operations;
ghost use Rattle.register_values.specs.Words.{word, word_of, fitting, quotient_of, IsWordOf};
ghost use Rattle.clnum.specs.declared.int_type.IntType.TheVariants as int_type;

use clnum::{ArithFault, BinaryOperator, IntType, UnaryOperator, unary_kind};

/// The type that an operand of a type is promoted to (C99 6.3.1.1, paragraph 2).
#[inline(always)]
fn promoted(kind: IntType) -> IntType
    ensures { result ≡ conversions.promoted kind }
{
    unary_kind(UnaryOperator::Plus, kind)
}

/// The number of a type that differs from these bits by a multiple of 2 to the type's width, as its bits.
#[inline(always)]
pub fn wrapped_word(kind: IntType, bits: u64) -> u64
    ensures { result ≡ word (wrap kind (pos bits)) }
{
    match kind {
        IntType::Char => i64::from(((bits % 0x100) as u8).cast_signed()).cast_unsigned(),
        IntType::Uchar => bits % 0x100,
        IntType::Short => i64::from(((bits % 0x1_0000) as u16).cast_signed()).cast_unsigned(),
        IntType::Ushort => bits % 0x1_0000,
        IntType::Int => i64::from(((bits % 0x1_0000_0000) as u32).cast_signed()).cast_unsigned(),
        IntType::Uint => bits % 0x1_0000_0000,
        IntType::Long | IntType::Ulong => bits,
    }
}

/// The sum of two numbers of a type, from the bits of any numbers that wrap to them.
#[inline(always)]
fn added_words(kind: IntType, left: u64, right: u64) -> u64
    ensures { (x y : ℤ) → word x ≡ left → word y ≡ right → result ≡ word (wrap kind (wrap kind x +ℤ wrap kind y)) }
{
    wrapped_word(kind, left.wrapping_add(right))
}

/// The difference.
#[inline(always)]
fn subtracted_words(kind: IntType, left: u64, right: u64) -> u64
    ensures { (x y : ℤ) → word x ≡ left → word y ≡ right → result ≡ word (wrap kind (wrap kind x -ℤ wrap kind y)) }
{
    wrapped_word(kind, left.wrapping_sub(right))
}

/// The product.
#[inline(always)]
fn multiplied_words(kind: IntType, left: u64, right: u64) -> u64
    ensures { (x y : ℤ) → word x ≡ left → word y ≡ right → result ≡ word (wrap kind (wrap kind x *ℤ wrap kind y)) }
{
    wrapped_word(kind, left.wrapping_mul(right))
}

/// The bits that both have.
#[inline(always)]
fn anded_words(kind: IntType, left: u64, right: u64) -> u64
    ensures { (x y : ℤ) → word x ≡ left → word y ≡ right → result ≡ word (wrap kind (pos (bit_and (bits_of kind x) (bits_of kind y)))) }
{
    wrapped_word(kind, left & right)
}

/// The bits that just one of them has.
#[inline(always)]
fn xored_words(kind: IntType, left: u64, right: u64) -> u64
    ensures { (x y : ℤ) → word x ≡ left → word y ≡ right → result ≡ word (wrap kind (pos (bit_xor (bits_of kind x) (bits_of kind y)))) }
{
    wrapped_word(kind, left ^ right)
}

/// The bits that one of them has.
#[inline(always)]
fn ored_words(kind: IntType, left: u64, right: u64) -> u64
    ensures { (x y : ℤ) → word x ≡ left → word y ≡ right → result ≡ word (wrap kind (pos (bit_or (bits_of kind x) (bits_of kind y)))) }
{
    wrapped_word(kind, left | right)
}

/// Whether a number of a type is less than another of it, by their bits.
#[inline(always)]
fn is_less_word(kind: IntType, left: u64, right: u64) -> bool
    ensures { (x y : ℤ) → IsIn kind x → IsIn kind y → word x ≡ left → word y ≡ right → result ≡ int_lt x y }
{
    match kind {
        IntType::Ulong => left < right,
        _ => left.cast_signed() < right.cast_signed(),
    }
}

/// Whether two numbers of a type are equal, by their bits.
#[inline(always)]
fn is_same_word(kind: IntType, left: u64, right: u64) -> bool
    ensures { (x y : ℤ) → IsIn kind x → IsIn kind y → word x ≡ left → word y ≡ right → result ≡ int_eq x y }
{
    let _kind = kind;
    left == right
}

/// Whether one number brought to a type is less than another brought to it.
#[inline(always)]
fn is_less_in(kind: IntType, left: u64, right: u64) -> bool
    ensures { (x y : ℤ) → word x ≡ left → word y ≡ right → result ≡ int_lt (wrap kind x) (wrap kind y) }
{
    is_less_word(kind, wrapped_word(kind, left), wrapped_word(kind, right))
}

/// Whether two numbers brought to a type are equal.
#[inline(always)]
fn is_same_in(kind: IntType, left: u64, right: u64) -> bool
    ensures { (x y : ℤ) → word x ≡ left → word y ≡ right → result ≡ int_eq (wrap kind x) (wrap kind y) }
{
    is_same_word(kind, wrapped_word(kind, left), wrapped_word(kind, right))
}

/// A count modulo a type's width.
#[inline(always)]
fn count_word(kind: IntType, bits: u64) -> u32
    ensures value { (z : ℤ) → word z ≡ bits → result ≡ residue (integer.bits kind) z }
    ensures below { result < 64 }
{
    match kind {
        IntType::Char | IntType::Uchar => (bits % 8) as u32,
        IntType::Short | IntType::Ushort => (bits % 16) as u32,
        IntType::Int | IntType::Uint => (bits % 32) as u32,
        IntType::Long | IntType::Ulong => (bits % 64) as u32,
    }
}

/// A number multiplied by a power of two, in a type.
#[inline(always)]
fn shifted_left_word(kind: IntType, bits: u64, count: u32) -> u64
    requires { count < 64 }
    ensures { (x : ℤ) → word x ≡ bits → result ≡ word (wrap kind (x *ℤ pos (2 ^ count))) }
{
    wrapped_word(kind, bits << count)
}

/// A number of a type divided by a power of two and rounded down, in another.
#[inline(always)]
fn shifted_right_word(from: IntType, kind: IntType, bits: u64, count: u32) -> u64
    requires { count < 64 }
    ensures { (x : ℤ) → IsIn from x → word x ≡ bits → result ≡ word (wrap kind (int_div_euclid x (pos (2 ^ count)))) }
{
    match from {
        IntType::Ulong => wrapped_word(kind, bits >> count),
        _ => wrapped_word(kind, (bits.cast_signed() >> count).cast_unsigned()),
    }
}

/// The bits of the int 1 or 0.
#[inline(always)]
fn truth_word(holds: bool) -> u64
    ensures { result ≡ word (operations.truth holds).number }
{
    u64::from(holds)
}

/// A quotient of two numbers of a type other than ulong, from its bits: it must be in the type's range.
fn fitting_quotient(kind: IntType, bits: u64) -> Result<u64, ArithFault>
    requires { kind ≢ int_type.Ulong }
    ensures { (x y : ℤ) → FitsSigned w64 (int_div x y) → word (int_div x y) ≡ bits → result ≡ fitting kind x y }
{
    if wrapped_word(kind, bits) == bits {
        Ok(bits)
    } else {
        Err(ArithFault::DivideOverflow)
    }
}

/// A number of a type other than ulong divided by -1, which is the one quotient that may be too large for 64 bits.
fn negated_word(kind: IntType, bits: u64) -> Result<u64, ArithFault>
    requires { kind ≢ int_type.Ulong }
    ensures { (x : ℤ) → IsIn kind x → word x ≡ bits → result ≡ fitting kind x (negsuc 0) }
{
    if bits == 0x8000_0000_0000_0000 {
        Err(ArithFault::DivideOverflow)
    } else {
        fitting_quotient(kind, 0_u64.wrapping_sub(bits))
    }
}

/// The quotient of two numbers of a type other than ulong, rounded toward zero.
fn signed_quotient(kind: IntType, left: u64, right: u64) -> Result<u64, ArithFault>
    requires kind { kind ≢ int_type.Ulong }
    requires divisor { 0 < right }
    ensures { (x y : ℤ) → IsIn kind x → IsIn kind y → word x ≡ left → word y ≡ right → result ≡ fitting kind x y }
{
    if right == 0xffff_ffff_ffff_ffff {
        return negated_word(kind, left);
    }
    let quotient = left.cast_signed() / right.cast_signed();
    fitting_quotient(kind, quotient.cast_unsigned())
}

/// The quotient of two numbers of a type, rounded toward zero, or the fault of their division.
fn quotient_word(kind: IntType, left: u64, right: u64) -> Result<u64, ArithFault>
    ensures { (x y : ℤ) → IsIn kind x → IsIn kind y → word x ≡ left → word y ≡ right → result ≡ quotient_of kind x y }
{
    if right == 0 {
        return Err(ArithFault::DivideByZero);
    }
    match kind {
        IntType::Ulong => Ok(left / right),
        _ => signed_quotient(kind, left, right),
    }
}

/// The quotient of two numbers brought to a type.
fn divided_words(kind: IntType, left: u64, right: u64) -> Result<u64, ArithFault>
    ensures { (x y : ℤ) → word x ≡ left → word y ≡ right → result ≡ word_of (operations.divided int_div kind (wrap kind x) (wrap kind y)) }
{
    quotient_word(kind, wrapped_word(kind, left), wrapped_word(kind, right))
}

/// What the quotient of two numbers brought to a type leaves, with the sign of the left one.
fn remainder_words(kind: IntType, left: u64, right: u64) -> Result<u64, ArithFault>
    ensures { (x y : ℤ) → word x ≡ left → word y ≡ right → result ≡ word_of (operations.divided operations.remainder_of kind (wrap kind x) (wrap kind y)) }
{
    let left = wrapped_word(kind, left);
    let right = wrapped_word(kind, right);
    match quotient_word(kind, left, right) {
        Ok(quotient) => {
            let rest = left.wrapping_sub(quotient.wrapping_mul(right));
            Ok(wrapped_word(kind, rest))
        }
        Err(fault) => Err(fault),
    }
}

/// What an operator gives on two numbers, from their types and bits: the bits of the result. `binary_kind` has its
/// type.
#[inline(always)]
pub fn binary_word(
    operator: BinaryOperator,
    left_kind: IntType,
    left: u64,
    right_kind: IntType,
    right: u64,
) -> Result<u64, ArithFault>
    ensures { (a b : Integer) → IsWordOf left_kind left a → IsWordOf right_kind right b → result ≡ word_of (operations.binary_value operator a b) }
{
    let kind = left_kind.common(right_kind);
    match operator {
        BinaryOperator::Add => Ok(added_words(kind, left, right)),
        BinaryOperator::Subtract => Ok(subtracted_words(kind, left, right)),
        BinaryOperator::Multiply => Ok(multiplied_words(kind, left, right)),
        BinaryOperator::Divide => divided_words(kind, left, right),
        BinaryOperator::Remainder => remainder_words(kind, left, right),
        BinaryOperator::ShiftLeft => {
            let kind = promoted(left_kind);
            Ok(shifted_left_word(kind, left, count_word(kind, right)))
        }
        BinaryOperator::ShiftRight => {
            let kind = promoted(left_kind);
            Ok(shifted_right_word(left_kind, kind, left, count_word(kind, right)))
        }
        BinaryOperator::Less => Ok(truth_word(is_less_in(kind, left, right))),
        BinaryOperator::Greater => Ok(truth_word(is_less_in(kind, right, left))),
        BinaryOperator::LessOrEqual => Ok(truth_word(!is_less_in(kind, right, left))),
        BinaryOperator::GreaterOrEqual => Ok(truth_word(!is_less_in(kind, left, right))),
        BinaryOperator::Equal => Ok(truth_word(is_same_in(kind, left, right))),
        BinaryOperator::NotEqual => Ok(truth_word(!is_same_in(kind, left, right))),
        BinaryOperator::BitAnd => Ok(anded_words(kind, left, right)),
        BinaryOperator::BitXor => Ok(xored_words(kind, left, right)),
        BinaryOperator::BitOr => Ok(ored_words(kind, left, right)),
    }
}

/// What an operator gives on one number, from its type and bits.
pub fn unary_word(operator: UnaryOperator, kind: IntType, bits: u64) -> u64
    ensures { (a : Integer) → IsWordOf kind bits a → result ≡ word (operations.unary_value operator a).number }
{
    match operator {
        UnaryOperator::Plus => wrapped_word(promoted(kind), bits),
        UnaryOperator::Negate => wrapped_word(promoted(kind), 0_u64.wrapping_sub(bits)),
        UnaryOperator::Complement => wrapped_word(
            promoted(kind),
            0xffff_ffff_ffff_ffff_u64.wrapping_sub(bits),
        ),
        UnaryOperator::Not => truth_word(is_same_word(kind, bits, 0)),
    }
}

/// A number in another type, from its bits.
pub fn converted_word(bits: u64, kind: IntType) -> u64
    ensures { (a : Integer) → word a.number ≡ bits → result ≡ word (converted a kind).number }
{
    wrapped_word(kind, bits)
}
