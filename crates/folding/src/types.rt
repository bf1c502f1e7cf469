//! The types of values (OpenCL 1.2, sections 6.2.6 and 6.3).
#![tactic(auto)]

ghost use Rattle.std.specs.Prelude.{◌≡◌};
ghost use Rattle.clmodel.specs.Next as next;

use clmodel::setup::BuiltIn;
use clmodel::tree::{InfixOperator, VariableType};
use clnum::{Builtin, IntType, binary_kind};

/// The integer type of a type, or of what it points to.
pub fn base_type(kind: VariableType) -> IntType
    ensures { result ≡ next.base_type kind }
{
    match kind {
        VariableType::Integer(kind) => kind,
        VariableType::Pointer(pointer) => pointer.element,
    }
}

/// The type of an operator's value.
pub fn infix_type(
    operator: InfixOperator,
    first: VariableType,
    second: VariableType,
) -> VariableType
    ensures { result ≡ next.infix_type operator first second }
{
    match operator {
        InfixOperator::Arithmetic(operator) => match first {
            VariableType::Integer(a) => match second {
                VariableType::Integer(b) => VariableType::Integer(binary_kind(operator, a, b)),
                VariableType::Pointer(pointer) => VariableType::Pointer(pointer),
            },
            VariableType::Pointer(pointer) => VariableType::Pointer(pointer),
        },
        InfixOperator::LogicalAnd | InfixOperator::LogicalOr => VariableType::Integer(IntType::Int),
    }
}

/// The type of a built-in function's value, given the type of its arguments.
pub fn call_type(function: Option<BuiltIn>, kind: IntType) -> IntType
    ensures { result ≡ next.call_type function kind }
{
    match function {
        Some(BuiltIn::WorkDim) => IntType::Uint,
        Some(BuiltIn::WorkItem(_)) => IntType::Ulong,
        Some(BuiltIn::Integer(Builtin::Abs)) => kind.unsigned(),
        _ => kind,
    }
}
