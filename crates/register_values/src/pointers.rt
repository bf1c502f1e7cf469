//! How pointers move, and which values are numbers or pointers (OpenCL 1.2, section 6.5).
#![tactic(auto)]

ghost use Rattle.std.specs.Prelude.{◌≡◌, ◌+ℤ◌, ◌-ℤ◌, pos};
ghost use Rattle.clnum.specs.Integer.{Integer, wrap};
ghost use Rattle.clnum.specs.declared.int_type.IntType.TheVariants as int_type;
ghost use Rattle.clmodel.specs.Next as next;
ghost use Rattle.clmodel.specs.Next.{Continuation};
ghost use Rattle.clmodel.specs.declared.access.Object.TheVariants as object;
ghost use Rattle.clmodel.specs.declared.operand.Pointer.{Pointer};
ghost use Rattle.register_values.specs.Leading.{RunsOnAs};

use crate::termination::Termination;
use clmodel::access::Object;
use clmodel::operand::{Operand, Pointer};
use clnum::{IntType, Value};

/// A pointer some elements further on: the low 64 bits of the sum, read as signed.
fn forward(pointer: Pointer, by: Value) -> Pointer
    ensures { result ≡ next.at_offset pointer (pointer.offset +ℤ by.number) }
{
    Pointer {
        object: pointer.object,
        element: pointer.element,
        offset: by.added_to(pointer.offset),
    }
}

/// An offset that many elements back: the low 64 bits of the difference, read as signed.
fn offset_back(offset: i64, by: Value) -> i64
    ensures { result ≡ wrap int_type.Long (offset -ℤ by.number) }
{
    let difference = i128::from(offset) - by.number();
    Value::wrapped(IntType::Long, difference).number() as i64
}

/// A pointer some elements back.
fn backward(pointer: Pointer, by: Value) -> Pointer
    ensures { result ≡ next.at_offset pointer (pointer.offset -ℤ by.number) }
{
    Pointer {
        object: pointer.object,
        element: pointer.element,
        offset: offset_back(pointer.offset, by),
    }
}

/// A pointer moved on by a number of elements.
pub(crate) fn moved(pointer: Operand, index: Operand) -> Result<Pointer, Termination>
    ensures { (after : Pointer → Continuation) → RunsOnAs result (next.moved pointer index after) after }
{
    match pointer {
        Operand::Pointed(pointer) => match index {
            Operand::Integral(index) => Ok(forward(pointer, index)),
            Operand::Pointed(_) => Err(Termination::Finish),
        },
        Operand::Integral(_) => Err(Termination::Finish),
    }
}

/// A pointer moved back by a number of elements.
pub(crate) fn moved_back(pointer: Operand, index: Operand) -> Result<Pointer, Termination>
    ensures { (after : Pointer → Continuation) → RunsOnAs result (next.moved_back pointer index after) after }
{
    match pointer {
        Operand::Pointed(pointer) => match index {
            Operand::Integral(index) => Ok(backward(pointer, index)),
            Operand::Pointed(_) => Err(Termination::Finish),
        },
        Operand::Integral(_) => Err(Termination::Finish),
    }
}

/// An index as a signed 64-bit offset.
pub fn index_of(index: Value) -> i64
    ensures { result ≡ next.index_of index }
{
    index.added_to(0)
}

/// A pointer to the start of a local object.
pub fn local_pointer(number: u32, element: IntType) -> Pointer
    ensures { result ≡ record { object = object.Local number; element = element; offset = pos 0 } }
{
    Pointer {
        object: Object::Local(number),
        element,
        offset: 0,
    }
}

/// A value that is a number.
pub fn number(value: Operand) -> Result<Value, Termination>
    ensures { (after : Integer → Continuation) → RunsOnAs result (next.number value after) after }
{
    match value {
        Operand::Integral(number) => Ok(number),
        Operand::Pointed(_) => Err(Termination::Finish),
    }
}

/// A value that is a pointer.
pub fn pointing(value: Operand) -> Result<Pointer, Termination>
    ensures { (after : Pointer → Continuation) → RunsOnAs result (next.pointing value after) after }
{
    match value {
        Operand::Pointed(pointer) => Ok(pointer),
        Operand::Integral(_) => Err(Termination::Finish),
    }
}
