//! The values of constant expressions, from those of their parts: `None` stands for a part that isn't constant.
#![tactic(auto)]

ghost use Rattle.std.specs.Prelude.{◌≡◌, Some};
ghost use Rattle.clnum.specs.Operations as operations;
ghost use Rattle.clmodel.specs.declared.tree.InfixOperator.TheVariants as infix_operator;
ghost use Rattle.clmodel.specs.Next.{base_type};
ghost use Rattle.folding.specs.Constants as constants;
ghost use Rattle.folding.specs.Known.{constants_in};

use crate::known::Known;
use crate::types::base_type;
use clmodel::setup::BuiltIn;
use clmodel::tree::InfixOperator;
use clnum::{BinaryOperator, IntType, UnaryOperator, Value, binary, builtin, convert, truth};

/// An operator on one integer (OpenCL 1.2, section 6.3).
pub fn unary(operator: UnaryOperator, operand: Option<Value>) -> Option<Value>
    ensures { result ≡ constants.unary_constant operator operand }
{
    match operand {
        Some(value) => Some(clnum::unary(operator, value)),
        None => None,
    }
}

/// A cast (OpenCL 1.2, section 6.2.3).
pub fn cast(target: IntType, operand: Option<Value>) -> Option<Value>
    ensures { result ≡ constants.cast_constant target operand }
{
    match operand {
        Some(value) => Some(convert(value, target)),
        None => None,
    }
}

/// An operator on two integers. One that would fault has no value, and the right operand of `&&` and `||` isn't asked
/// for where the left one settles the value (OpenCL 1.2, section 6.3.g).
pub fn infix(operator: InfixOperator, left: Option<Value>, right: Option<Value>) -> Option<Value>
    ensures { result ≡ constants.infix_constant operator left right }
{
    let left = left?;
    match operator {
        InfixOperator::Arithmetic(operator) => arithmetic(operator, left, right?),
        InfixOperator::LogicalAnd => if holds(left) {
            truth_of(right)
        } else {
            Some(truth(false))
        },
        InfixOperator::LogicalOr => if holds(left) {
            Some(truth(true))
        } else {
            truth_of(right)
        },
    }
}

/// An operator that evaluates both operands, if it has no fault.
fn arithmetic(operator: BinaryOperator, left: Value, right: Value) -> Option<Value>
    ensures { result ≡ constants.infix_constant (infix_operator.Arithmetic operator) (Some left) (Some right) }
{
    match binary(operator, left, right) {
        Ok(value) => Some(value),
        Err(_) => None,
    }
}

/// Whether a number isn't zero.
fn holds(value: Value) -> bool
    ensures { result ≡ constants.holds value }
{
    value.number() != 0
}

/// The int of a condition.
fn truth_of(value: Option<Value>) -> Option<Value>
    ensures { result ≡ constants.truth_constant value }
{
    match value {
        Some(value) => Some(truth(holds(value))),
        None => None,
    }
}

/// A choice: the value of the chosen branch in the common type of both. The other one isn't asked for (OpenCL 1.2,
/// section 6.3.i).
pub fn choice(condition: Option<Value>, chosen: Known, otherwise: Known) -> Option<Value>
    ensures { result ≡ constants.choice_constant condition chosen.constant (base_type chosen.kind) otherwise.constant (base_type otherwise.kind) }
{
    if holds(condition?) {
        in_common(chosen.constant, base_type(otherwise.kind))
    } else {
        in_common(otherwise.constant, base_type(chosen.kind))
    }
}

/// A number in the common type of it and of another type.
fn in_common(value: Option<Value>, other: IntType) -> Option<Value>
    ensures { result ≡ constants.common_constant value other }
{
    match value {
        Some(value) => Some(convert(value, value.kind().common(other))),
        None => None,
    }
}

/// A function of integers on its arguments (OpenCL 1.2, section 6.12.3); another function has no value.
pub fn call(function: Option<BuiltIn>, arguments: &[Known]) -> Option<Value>
    ensures { result ≡ constants.call_constant function (constants_in arguments.now) }
{
    let Some(BuiltIn::Integer(function)) = function else {
        return None;
    };
    match arguments {
        [first] => builtin(function, &[first.constant?]),
        [first, second] => builtin(function, &[first.constant?, second.constant?]),
        _ => None,
    }
}
