//! What work-item functions give (OpenCL 1.2, section 6.12.1).
#![tactic(auto)]

ghost use Rattle.std.specs.Prelude.{◌≡◌, pos, length};
ghost use Rattle.clnum.specs.Operations as operations;
ghost use Rattle.clnum.specs.declared.int_type.IntType.TheVariants as int_type;
ghost use Rattle.clmodel.specs.Next as next;
ghost use Rattle.clmodel.specs.Setup.{work_item_value};
ghost use Rattle.clmodel.specs.declared.operand.Operand.TheVariants as operand;

use crate::position::ItemPosition;
use clmodel::operand::Operand;
use clmodel::setup::WorkItemFunction;
use clnum::{IntType, Value};

/// A dimension: a number as a uint.
fn dimension(value: Operand) -> usize
    ensures { result ≡ next.dimension value }
{
    match value {
        Operand::Integral(value) => value.bits_in(IntType::Uint) as usize,
        Operand::Pointed(_) => 0,
    }
}

/// What a work-item function gives.
pub(crate) fn work_item(
    position: &ItemPosition<'_>,
    function: WorkItemFunction,
    d: Operand,
) -> Operand
    ensures { result ≡ operand.Integral (operations.wrapped int_type.Ulong (pos (work_item_value position.now.range.now position.now.item function (next.dimension d)))) }
{
    Operand::Integral(position.work_item_value(function, dimension(d)))
}

/// The number of dimensions.
pub(crate) fn work_dim(position: &ItemPosition<'_>) -> Operand
    ensures { result ≡ operand.Integral (operations.wrapped int_type.Uint (pos (length position.now.range.now.global))) }
{
    let count = position.range.global.as_slice().len() as u64;
    Operand::Integral(Value::from_bits(IntType::Uint, count))
}
