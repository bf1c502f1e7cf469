//! Values of the integer types.
#![tactic(auto)]

ghost use Rattle.std.specs.Prelude.{◌≡◌, ◌^◌, ◌<◌, pos, ◌+ℤ◌};
ghost use Rattle.clnum.specs.Integer as integer;
ghost use Rattle.clnum.specs.Integer.{IsIn, IsWithin, residue};
ghost use Rattle.clnum.specs.Operations as operations;
ghost use Rattle.clnum.specs.declared.int_type.IntType.TheVariants as long;

use crate::int_type::IntType;
use std::marker::Model;

/// A value of an integer type: the type and a number in its range.
#[derive(Clone, Copy, PartialEq, Eq)]
pub struct Value {
    kind: IntType,
    number: i128,
}

impl Model for Value {
    ghost use Rattle.clnum.specs.Integer.{Integer, IsIn};

    ghost Value = { Integer };

    ghost view = { λ v. record { kind = v.kind; number = v.number } };

    ghost invariant = { λ v. IsIn v.kind v.number };

    ghost inverse = { λ n. record { kind = n.kind; number = n.number } };
}

impl Value {
    /// A value of a number that its type can hold.
    pub fn new(kind: IntType, number: i128) -> Self
        requires { IsIn kind number }
        ensures kind { result.kind ≡ kind }
        ensures number { result.number ≡ number }
    {
        Value { kind, number }
    }

    /// The value of a type that differs from a number by a multiple of 2 to the type's width.
    pub fn wrapped(kind: IntType, number: i128) -> Self
        ensures { result ≡ operations.wrapped kind number }
    {
        Value {
            kind,
            number: wrapped_number(kind, number),
        }
    }

    /// The value of a type that has these bits, of which those above the type's width are left out.
    pub fn from_bits(kind: IntType, bits: u64) -> Self
        ensures { result ≡ operations.wrapped kind (pos bits) }
    {
        Value::wrapped(kind, i128::from(bits))
    }

    /// Its type.
    pub fn kind(self) -> IntType
        ensures { result ≡ self.kind }
    {
        self.kind
    }

    /// Its number, which lies in its type's range.
    pub fn number(self) -> i128
        ensures value { result ≡ self.number }
        ensures in_range { IsIn self.kind self.number }
        ensures within { IsWithin result }
    {
        self.number
    }

    /// Its number as a count: 0 where it is negative.
    pub fn natural(self) -> u64
        ensures { result ≡ integer.natural self.number }
    {
        let number = self.number();
        if number < 0 { 0 } else { number as u64 }
    }

    /// Its bits, as many as its type is wide.
    pub(crate) fn to_bits(self) -> u64
        ensures value { result ≡ integer.bits_of self.kind self.number }
        ensures below { result < 2 ^ integer.bits self.kind }
    {
        bits_of(self.kind, self.number)
    }

    /// The bits of its number in another type, as many as that type is wide.
    pub fn bits_in(self, kind: IntType) -> u64
        ensures value { result ≡ integer.bits_of kind self.number }
        ensures below { result < 2 ^ integer.bits kind }
    {
        bits_of(kind, self.number)
    }

    /// The low 64 bits of the sum of its number and an offset, read as signed.
    pub fn added_to(self, offset: i64) -> i64
        ensures { result ≡ integer.wrap long.Long (offset +ℤ self.number) }
    {
        let sum = i128::from(offset) + self.number;
        wrapped_number(IntType::Long, sum) as i64
    }
}

/// The lowest 64 bits of a number.
fn lowest_bits(number: i128) -> u64
    ensures { result ≡ residue (2 ^ 64) number }
{
    (number.cast_unsigned() % 0x1_0000_0000_0000_0000) as u64
}

/// The bits of a number in a type, as many as the type is wide.
pub(crate) fn bits_of(kind: IntType, number: i128) -> u64
    ensures value { result ≡ integer.bits_of kind number }
    ensures below { result < 2 ^ integer.bits kind }
{
    let lowest = lowest_bits(number);
    match kind {
        IntType::Char | IntType::Uchar => lowest % 0x100,
        IntType::Short | IntType::Ushort => lowest % 0x1_0000,
        IntType::Int | IntType::Uint => lowest % 0x1_0000_0000,
        IntType::Long | IntType::Ulong => lowest,
    }
}

/// The number of a type that differs from a number by a multiple of 2 to the type's width.
fn wrapped_number(kind: IntType, number: i128) -> i128
    ensures { result ≡ integer.wrap kind number }
{
    let lowest = lowest_bits(number);
    match kind {
        IntType::Char => i128::from(((lowest % 0x100) as u8).cast_signed()),
        IntType::Uchar => i128::from(lowest % 0x100),
        IntType::Short => i128::from(((lowest % 0x1_0000) as u16).cast_signed()),
        IntType::Ushort => i128::from(lowest % 0x1_0000),
        IntType::Int => i128::from(((lowest % 0x1_0000_0000) as u32).cast_signed()),
        IntType::Uint => i128::from(lowest % 0x1_0000_0000),
        IntType::Long => i128::from(lowest.cast_signed()),
        IntType::Ulong => i128::from(lowest),
    }
}
