//! What a register has, in few bytes.
#![tactic(auto)]

ghost use Rattle.std.specs.Prelude.{◌≡◌, ◌↔◌, IsTrue, IfSome, IsSome, None, Some};
ghost use Rattle.clnum.specs.Integer.{IsIn};
ghost use Rattle.clmodel.specs.declared.operand.Operand.TheVariants as operand;
ghost use Rattle.register_values.specs.RegisterValues as kept;

use clmodel::access::Object;
use clmodel::operand::{Operand, Pointer};
use clnum::{IntType, Value};
use std::marker::Model;
use std::mem::size_of;

/// What a register has: a value, or nothing. It takes 16 bytes, where an `Option<Operand>` takes 64: all items of a
/// group have all their registers at once. Its parts are always there, so that it is copied without a look at what it
/// is.
#[derive(Clone, Copy)]
pub struct RegisterValue {
    /// The low 64 bits of the number, or the offset of the pointer
    pub(crate) bits: u64,
    pub(crate) form: Form,
    /// The type of the number, or of the elements that the pointer points to
    pub(crate) kind: IntType,
    /// The number of the pointer's object
    pub(crate) number: u32,
}

/// What the bits of a register are.
#[derive(Clone, Copy)]
pub(crate) enum Form {
    Unset,
    Integral,
    /// A pointer into a buffer
    Buffer,
    /// A pointer into a local object
    Local,
}

const _: () = prove!(size_of::<RegisterValue>() == 16);

impl Model for RegisterValue {
    ghost use Rattle.std.specs.Prelude.{Option};
    ghost use Rattle.clmodel.specs.declared.operand.Operand.{Operand};
    ghost use Rattle.register_values.specs.RegisterValues.{content, IsKept, bits_of, form_of, kind_of, object_of};
    ghost use Rattle.register_values.specs.Kept.{bits_back, form_back, kind_back, object_back};

    ghost Value = { Option Operand };

    ghost view = { λ a. content a.bits a.form a.kind a.number };

    ghost invariant = { λ a. IsKept a.bits a.form a.kind a.number };

    ghost inverse = { λ v. record { bits = bits_of v; form = form_of v; kind = kind_of v; number = object_of v } };

    ghost inverse_ok = { λ a h i. record { bits = bits_back a.bits a.form a.kind a.number h i; form = form_back a.bits a.form a.kind a.number i; kind = kind_back a.bits a.form a.kind a.number h i; number = object_back a.bits a.form a.kind a.number h i } };
}

/// The number of a type that 64 bits stand for.
fn number_of(kind: IntType, bits: u64) -> i128
    ensures { result ≡ kept.number_of kind bits }
{
    match kind {
        IntType::Ulong => i128::from(bits),
        _ => i128::from(bits.cast_signed()),
    }
}

/// A number as a register has it.
fn integral(value: Value) -> RegisterValue
    ensures { result ≡ Some (operand.Integral value) }
{
    // Asked for what it ensures: the number is in its type's range.
    let _number = value.number();
    RegisterValue::of_bits(value.kind(), value.bits_in(IntType::Ulong))
}

/// A pointer as a register has it.
fn pointed(pointer: Pointer) -> RegisterValue
    ensures { result ≡ Some (operand.Pointed pointer) }
{
    let bits = pointer.offset.cast_unsigned();
    let kind = pointer.element;
    match pointer.object {
        Object::Buffer(number) => RegisterValue {
            bits,
            form: Form::Buffer,
            kind,
            number,
        },
        Object::Local(number) => RegisterValue {
            bits,
            form: Form::Local,
            kind,
            number,
        },
    }
}

/// A value as a register has it.
fn set(value: Operand) -> RegisterValue
    ensures { result ≡ Some value }
{
    match value {
        Operand::Integral(value) => integral(value),
        Operand::Pointed(pointer) => pointed(pointer),
    }
}

impl RegisterValue {
    /// What a register has that is unset.
    pub fn unset() -> Self
        ensures { result ≡ None }
    {
        RegisterValue {
            bits: 0,
            form: Form::Unset,
            kind: IntType::Char,
            number: 0,
        }
    }

    /// A value, or nothing, as a register has it.
    pub fn new(value: Option<Operand>) -> Self
        ensures { result ≡ value }
    {
        match value {
            Some(value) => set(value),
            None => RegisterValue::unset(),
        }
    }

    /// A number of a type, from its low 64 bits.
    #[inline(always)]
    pub(crate) fn of_bits(kind: IntType, bits: u64) -> Self
        requires { IsIn kind (kept.number_of kind bits) }
        ensures { result ≡ Some (operand.Integral (kept.integer kind bits)) }
    {
        RegisterValue {
            bits,
            form: Form::Integral,
            kind,
            number: 0,
        }
    }

    /// The low 64 bits of the number of a type that a register has, if it has one.
    #[inline(always)]
    pub(crate) fn bits_as(self, kind: IntType) -> Option<u64>
        ensures { IfSome result (λ bits. (self ≡ Some (operand.Integral (kept.integer kind bits))) × IsIn kind (kept.number_of kind bits)) }
    {
        match self.form {
            Form::Integral => {
                if self.kind == kind {
                    Some(self.bits)
                } else {
                    None
                }
            }
            _ => None,
        }
    }

    /// The number that a register has, if it has one.
    #[inline(always)]
    pub fn as_number(self) -> Option<Value>
        ensures { IfSome result (λ value. self ≡ Some (operand.Integral value)) }
    {
        match self.form {
            Form::Integral => Some(Value::new(self.kind, number_of(self.kind, self.bits))),
            _ => None,
        }
    }

    /// The pointer that a register has, if it has one.
    #[inline(always)]
    pub fn as_pointer(self) -> Option<Pointer>
        ensures { IfSome result (λ pointer. self ≡ Some (operand.Pointed pointer)) }
    {
        let number = self.number;
        let element = self.kind;
        let offset = self.bits.cast_signed();
        match self.form {
            Form::Buffer => Some(Pointer {
                element,
                offset,
                object: Object::Buffer(number),
            }),
            Form::Local => Some(Pointer {
                element,
                offset,
                object: Object::Local(number),
            }),
            _ => None,
        }
    }

    /// Whether a register has a value.
    #[inline(always)]
    pub fn is_set(self) -> bool
        ensures { IsTrue result ↔ IsSome self }
    {
        match self.form {
            Form::Unset => false,
            _ => true,
        }
    }

    /// The value that a register has, if it has one.
    pub fn value(self) -> Option<Operand>
        ensures { result ≡ self }
    {
        match self.form {
            Form::Unset => None,
            Form::Integral => Some(Operand::Integral(Value::new(
                self.kind,
                number_of(self.kind, self.bits),
            ))),
            Form::Buffer => Some(Operand::Pointed(Pointer {
                object: Object::Buffer(self.number),
                element: self.kind,
                offset: self.bits.cast_signed(),
            })),
            Form::Local => Some(Operand::Pointed(Pointer {
                object: Object::Local(self.number),
                element: self.kind,
                offset: self.bits.cast_signed(),
            })),
        }
    }
}
