//! How a number is written, and which type it has (C99 6.4.4.1).
#![tactic(auto)]

ghost use Rattle.std.specs.Prelude.{◌≡◌, ◌<◌, ◌≤◌, ◌^◌, ◌-◌, ◌&&◌, pos, nat_lt, min, length, slice_index};
ghost use Rattle.std.specs.Bool.{OnTrue};
ghost use Rattle.std.specs.List.{AllPass};
ghost use Rattle.clnum.specs.Integer.{IsIn};
ghost use Rattle.std.specs.Char.{is_digit};
ghost use Rattle.clsyntax_lex.specs.Numbers as numbers;

use clnum::{IntType, Value};

/// How the digits of a number are to be read.
#[derive(Clone, Copy, PartialEq)]
pub(crate) enum Base {
    Decimal,
    Octal,
    Hexadecimal,
}

/// The letters behind the n digits.
#[derive(Clone, Copy)]
pub(crate) struct Suffix {
    pub(crate) is_unsigned: bool,
    pub(crate) is_long: bool,
    pub(crate) len: usize,
}

impl Base {
    /// How many digits the base has (C99 6.4.4.1).
    fn radix(self) -> u32
        ensures { result ≡ numbers.radix self }
    {
        match self {
            Base::Decimal => 10,
            Base::Octal => 8,
            Base::Hexadecimal => 16,
        }
    }

    /// How many bytes stand before the digits.
    pub(crate) fn digits_at(self) -> usize
        ensures { result ≡ numbers.digits_at self }
    {
        match self {
            Base::Decimal | Base::Octal => 0,
            Base::Hexadecimal => 2,
        }
    }
}

/// The byte at a place, 0 past the end.
pub(crate) fn byte_at(bytes: &[u8], at: usize) -> u8
    ensures { result ≡ slice_index bytes.now at }
{
    bytes.get(at).copied().unwrap_or(0)
}

/// Whether a byte is a digit of a number in that base.
fn is_digit(byte: u8, base: Base) -> bool
    ensures { result ≡ is_digit byte (numbers.radix base) }
{
    (byte as char).is_digit(base.radix())
}

/// How the number in front is written.
#[tactic(auto, unfolding(crate::specs::Numbers::base_of))]
pub(crate) fn base_of(bytes: &[u8]) -> Base
    ensures value { result ≡ numbers.base_of bytes.now }
    ensures within { numbers.digits_at result ≤ length bytes.now }
{
    let mark = byte_at(bytes, 1);
    if byte_at(bytes, 0) != b'0' {
        Base::Decimal
    } else if (mark == b'x' || mark == b'X') && is_digit(byte_at(bytes, 2), Base::Hexadecimal) {
        Base::Hexadecimal
    } else {
        Base::Octal
    }
}

/// How many digits stand in front.
pub(crate) fn digit_count(bytes: &[u8], base: Base) -> usize
    ensures value { result ≡ numbers.digit_count base bytes.now }
    ensures within { result ≤ length bytes.now }
{
    bytes
        .iter()
        .take_while(|byte| is_digit(**byte, base))
        .count()
}

/// The number that digits stand for, or the greatest of the type where it is too large for that.
pub(crate) fn value_of(digits: &[u8], base: Base) -> u128
    requires { AllPass (λ byte. is_digit byte (numbers.radix base)) digits.now }
    ensures { result ≡ min (numbers.value_of (numbers.radix base) digits.now) (2 ^ 128 - 1) }
{
    let radix = base.radix();
    let mut value = 0u128;
    for byte in digits {
        let digit = (*byte as char).to_digit(radix).unwrap();
        value = value
            .saturating_mul(u128::from(radix))
            .saturating_add(u128::from(digit));
    }
    value
}

/// The suffix in front: one of `u`, `U`, `l`, `L`, `ul`, `UL`, or none.
#[tactic(auto, unfolding(crate::specs::Numbers::suffix_of))]
pub(crate) fn suffix_of(bytes: &[u8]) -> Suffix
    ensures value { result ≡ numbers.suffix_of bytes.now }
    ensures within { result.len ≤ length bytes.now }
{
    if bytes.starts_with(b"ul") || bytes.starts_with(b"UL") {
        Suffix {
            is_unsigned: true,
            is_long: true,
            len: 2,
        }
    } else if bytes.starts_with(b"u") || bytes.starts_with(b"U") {
        Suffix {
            is_unsigned: true,
            is_long: false,
            len: 1,
        }
    } else if bytes.starts_with(b"l") || bytes.starts_with(b"L") {
        Suffix {
            is_unsigned: false,
            is_long: true,
            len: 1,
        }
    } else {
        Suffix {
            is_unsigned: false,
            is_long: false,
            len: 0,
        }
    }
}

/// Whether a number may have this type: with `u` an unsigned one, without it a decimal number a signed one, with `l` a
/// long one.
fn may_have(base: Base, suffix: Suffix, kind: IntType) -> bool
    ensures { result ≡ numbers.may_have base suffix kind }
{
    let fits_sign = if suffix.is_unsigned {
        !kind.is_signed()
    } else {
        kind.is_signed() || base != Base::Decimal
    };
    fits_sign && (!suffix.is_long || kind.bits() == 64)
}

/// The least number that is too large for a type.
fn bound(kind: IntType) -> u128
    ensures { result ≡ numbers.bound kind }
{
    match kind {
        IntType::Char => 1 << 7,
        IntType::Uchar => 1 << 8,
        IntType::Short => 1 << 15,
        IntType::Ushort => 1 << 16,
        IntType::Int => 1 << 31,
        IntType::Uint => 1 << 32,
        IntType::Long => 1 << 63,
        IntType::Ulong => 1 << 64,
    }
}

/// Whether a number may have this type and lies below its bound.
fn is_type_of(base: Base, suffix: Suffix, kind: IntType, number: u128) -> bool
    ensures value { result ≡ (numbers.may_have base suffix kind && nat_lt number (numbers.bound kind)) }
    ensures in_range { OnTrue result (IsIn kind (pos number)) }
{
    may_have(base, suffix, kind) && number < bound(kind)
}

/// The number in the first of these types that it may have and that holds it.
fn first_holding(base: Base, suffix: Suffix, kinds: &[IntType], number: u128) -> Option<Value>
    ensures { result ≡ numbers.first_holding base suffix kinds.now number }
{
    for kind in kinds {
        if is_type_of(base, suffix, *kind, number) {
            return Some(Value::new(*kind, number as i128));
        }
    }
    None
}

/// The number in the first of int, uint, long and ulong that it may have and that holds it.
#[tactic(auto, unfolding(crate::specs::Numbers::typed))]
pub(crate) fn typed(base: Base, suffix: Suffix, number: u128) -> Option<Value>
    ensures { result ≡ numbers.typed base suffix number }
{
    let kinds = [IntType::Int, IntType::Uint, IntType::Long, IntType::Ulong];
    first_holding(base, suffix, &kinds, number)
}
