//! The elements of private arrays: how instructions name them, how they are read, and where they are put.
#![tactic(auto)]

ghost use Rattle.std.specs.Prelude.{◌≡◌, ◌<◌, ℕ, [], Option, Some, List, length, slice_set, IfOk};
ghost use Rattle.clnum.specs.Integer.{Integer, bits_of};
ghost use Rattle.clnum.specs.declared.int_type.IntType as int_type;
ghost use Rattle.clmodel.specs.Next as next;
ghost use Rattle.clmodel.specs.Next.{Continuation};
ghost use Rattle.clmodel.specs.declared.operand.Operand.{Operand};
ghost use Rattle.regcode.specs.Machine.{entry_at};
ghost use Rattle.item_value.specs.Arrays.{all_present};
ghost use Rattle.register_values.specs.Leading.{RunsOnAs};

use crate::private_array::PrivateArray;
use clmodel::action::Cause;
use clnum::IntType;
use register_values::kept_values::read_bits;
use register_values::register_value::RegisterValue;
use register_values::termination::Termination;

/// An element of a private array as an instruction names it.
#[derive(Clone, Copy)]
pub struct PrivateElement {
    /// The array's number
    pub array: u32,
    /// The number of the register that has the element's index
    pub index: u32,
    /// The type of the array's elements
    pub kind: IntType,
    /// The place of the array's name in the table of names
    pub name: u32,
}

/// The elements of the private array of a number.
pub fn elements_of(arrays: &[PrivateArray], array: u32) -> &[Option<u64>]
    ensures { result.now ≡ entry_at [] (all_present arrays.now) array }
{
    let place = array as usize;
    if place < arrays.len() {
        arrays[place].as_slice()
    } else {
        &[]
    }
}

/// What is at an index of the elements of an array.
fn at_index(elements: &[Option<u64>], index: i64) -> Option<Option<u64>>
    ensures { result ≡ next.element_at elements.now index }
{
    if index < 0 {
        return None;
    }
    elements.get(index as usize).copied()
}

/// The value of the element at an index of the array of a name.
pub(crate) fn element_value(
    elements: &[Option<u64>],
    name: u32,
    index: i64,
    kind: IntType,
) -> Result<RegisterValue, Termination>
    ensures { (after : Option Operand → Continuation) → RunsOnAs result (next.element_value name index kind (next.element_at elements.now index) (λ v. after (Some v))) after }
{
    match at_index(elements, index) {
        Some(Some(bits)) => Ok(read_bits(kind, bits)),
        Some(None) => Err(Termination::Fail(Cause::UnsetElement {
            array: name,
            element: index,
        })),
        None => Err(Termination::Fail(Cause::PrivateBounds {
            array: name,
            element: index,
        })),
    }
}

/// The place of the element at an index of the array of a name, where a number is put.
pub fn place(elements: &[Option<u64>], name: u32, index: i64) -> Result<usize, Termination>
    ensures put { (kind : int_type.IntType) (v : Integer) (after : List (Option ℕ) → Continuation) → RunsOnAs result (next.element_set name index kind elements.now v after) (λ place. after (slice_set elements.now place (Some (bits_of kind v.number)))) }
    ensures within { IfOk result (λ place. place < length elements.now) }
{
    let fault = Termination::Fail(Cause::PrivateBounds {
        array: name,
        element: index,
    });
    if index < 0 {
        return Err(fault);
    }
    let place = index as usize;
    if place < elements.len() {
        Ok(place)
    } else {
        Err(fault)
    }
}
