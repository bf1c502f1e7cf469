//! The types of expressions from those of their parts, where these have no fault (OpenCL 1.2, sections 6.2.6, 6.3 and
//! 6.12; C99 6.3.1).
#![tactic(auto)]

ghost use Rattle.std.specs.Prelude.{◌≡◌};
ghost use Rattle.clmodel.specs.Typing.Faults.{name_kind, front_kind, element_kind, unary_type, number_kind, binary_type, choice_type, integer_call_kind, result_kind, call_kind};
ghost use Rattle.clmodel.specs.Typing.Context.{value_type, element_type};
ghost use Rattle.cltypes_scope.specs.Names.{meaning_of};

use crate::meaning::Meaning;
use clmodel::declaration::Declaration;
use clmodel::setup::BuiltIn;
use clmodel::tree::{AddressSpace, InfixOperator, PointerType, VariableType};
use clnum::{Builtin, IntType, UnaryOperator, binary_kind, unary_kind};

/// The type of the value of what is declared: of a local array a pointer, and of a private one none.
fn value_type(declared: Declaration) -> Option<VariableType>
    ensures { result ≡ value_type declared }
{
    match declared {
        Declaration::Single(kind) => Some(kind),
        Declaration::LocalArray(element) => Some(VariableType::Pointer(PointerType {
            space: AddressSpace::Local,
            is_const: false,
            element,
        })),
        Declaration::PrivateArray(_) => None,
    }
}

/// The type of the elements of what is declared, where it can stand in front of an index.
pub(crate) fn element_type(declared: Declaration) -> Option<IntType>
    ensures { result ≡ element_type declared }
{
    match declared {
        Declaration::Single(VariableType::Integer(_)) => None,
        Declaration::Single(VariableType::Pointer(pointer)) => Some(pointer.element),
        Declaration::LocalArray(element) | Declaration::PrivateArray(element) => Some(element),
    }
}

/// The type of a name's value.
pub fn name_kind(meaning: Meaning<'_>) -> VariableType
    ensures { result ≡ name_kind (meaning_of meaning.entry) }
{
    match meaning {
        Meaning::Bound(declared) => match value_type(declared) {
            Some(kind) => kind,
            None => VariableType::Integer(IntType::Int),
        },
        _ => VariableType::Integer(IntType::Int),
    }
}

/// The type of an element behind a name.
pub fn front_kind(meaning: Meaning<'_>) -> VariableType
    ensures { result ≡ front_kind (meaning_of meaning.entry) }
{
    match meaning {
        Meaning::Bound(declared) => match element_type(declared) {
            Some(element) => VariableType::Integer(element),
            None => VariableType::Integer(IntType::Int),
        },
        _ => VariableType::Integer(IntType::Int),
    }
}

/// The type of what a pointer of this type points to.
pub fn element_kind(kind: VariableType) -> VariableType
    ensures { result ≡ element_kind kind }
{
    match kind {
        VariableType::Integer(_) => kind,
        VariableType::Pointer(pointer) => VariableType::Integer(pointer.element),
    }
}

/// The type of an operator before an operand of this type.
pub(crate) fn unary_type(operator: UnaryOperator, operand: VariableType) -> VariableType
    ensures { result ≡ unary_type operator operand }
{
    match operand {
        VariableType::Integer(kind) => VariableType::Integer(unary_kind(operator, kind)),
        VariableType::Pointer(_) => operand,
    }
}

/// The type of an operator between two integers.
fn number_kind(operator: InfixOperator, left: IntType, right: IntType) -> IntType
    ensures { result ≡ number_kind operator left right }
{
    match operator {
        InfixOperator::Arithmetic(operator) => binary_kind(operator, left, right),
        InfixOperator::LogicalAnd | InfixOperator::LogicalOr => IntType::Int,
    }
}

/// The type of an operator between two operands: that of a pointer among them, which it moves.
pub(crate) fn binary_type(
    operator: InfixOperator,
    left: VariableType,
    right: VariableType,
) -> VariableType
    ensures { result ≡ binary_type operator left right }
{
    match (left, right) {
        (VariableType::Integer(left), VariableType::Integer(right)) => VariableType::Integer(
            number_kind(operator, left, right),
        ),
        (VariableType::Pointer(_), _) => left,
        (_, VariableType::Pointer(_)) => right,
    }
}

/// The type of `condition ? chosen : otherwise`.
pub(crate) fn choice_type(chosen: VariableType, otherwise: VariableType) -> VariableType
    ensures { result ≡ choice_type chosen otherwise }
{
    match (chosen, otherwise) {
        (VariableType::Integer(chosen), VariableType::Integer(otherwise)) => VariableType::Integer(
            chosen.common(otherwise),
        ),
        _ => chosen,
    }
}

/// The type of a call of a function on integers: that of its arguments, of which `abs` gives the unsigned one.
fn integer_call_kind(function: Builtin, first: VariableType) -> VariableType
    ensures { result ≡ integer_call_kind function first }
{
    match (function, first) {
        (Builtin::Abs, VariableType::Integer(kind)) => VariableType::Integer(kind.unsigned()),
        _ => first,
    }
}

/// The type of a call of a function of the text that gives a value of this type.
fn result_kind(given: Option<IntType>) -> VariableType
    ensures { result ≡ result_kind given }
{
    VariableType::Integer(given.unwrap_or(IntType::Int))
}

/// The type of a call, by that of its first argument: of an atomic function's, the type of what its pointer points to.
pub(crate) fn call_kind(meaning: Meaning<'_>, first: VariableType) -> VariableType
    ensures { result ≡ call_kind (meaning_of meaning.entry) first }
{
    match meaning {
        Meaning::Callable(signature) => result_kind(signature.result),
        Meaning::BuiltInFunction(BuiltIn::WorkDim) => VariableType::Integer(IntType::Uint),
        Meaning::BuiltInFunction(BuiltIn::WorkItem(_)) => VariableType::Integer(IntType::Ulong),
        Meaning::BuiltInFunction(BuiltIn::Integer(function)) => integer_call_kind(function, first),
        Meaning::BuiltInFunction(BuiltIn::Atomic(_)) => element_kind(first),
        _ => VariableType::Integer(IntType::Int),
    }
}
