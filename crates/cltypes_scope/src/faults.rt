//! The faults of one place: of its faults the one of the least number, and of one number the one of the least offset.
#![tactic(auto)]

ghost use Rattle.std.specs.Prelude.{◌≡◌, ◌≤◌, ◌++◌, nat_eq, length, map, option_map};
ghost use Rattle.std.specs.List.{slice_get};
ghost use Rattle.clmodel.specs.Typing.Least.{is_up_to, lesser, least};
ghost use Rattle.clmodel.specs.Typing.Faults.{unless, moves, takes_pointer, is_sum, integer_faults, pointer_faults, passing_faults, name_faults, front_faults, address_faults, operand_faults, wants, helper_faults, callee_faults, wanted, ForParameter, same_faults, atomic_faults, argument_faults, integer_wants, atomic_wants};
ghost use Rattle.clmodel.specs.Typing.Rules.{operands};
ghost use Rattle.clmodel.specs.declared.tree.VariableType.TheVariants.{Pointer};
ghost use Rattle.clmodel.specs.Typing.Context as typing;
ghost use Rattle.cltypes_scope.specs.Names.{signature_of, meaning_of};
ghost use Rattle.cltypes_scope.specs.Views.{want_of, spot_of};

use crate::kinds::element_type;
use crate::meaning::{Meaning, Signature};
use crate::names::Identifier;
use clmodel::declaration::Declaration;
use clmodel::setup::{AtomicFunction, BuiltIn};
use clmodel::tree::{AddressSpace, InfixOperator, PointerType, VariableType};
use clmodel::type_fault::TypeFault;
use clnum::{BinaryOperator, Builtin, IntType};

/// What an argument has to be.
#[derive(Clone, Copy)]
pub enum Want {
    Integer,
    /// An integer of the type of the argument before it
    OfTypeBefore,
    AtomicPointer,
    /// What can be given to a parameter of this type
    ForParameter(VariableType),
}

/// Where a call stands.
#[derive(Clone, Copy, PartialEq, Eq)]
pub enum CallPlace {
    WholeStatement,
    /// All that is assigned, or that initialises a variable
    RightSide,
    /// Part of another expression, a condition, or what is returned
    Inside,
}

/// A part of an expression or a statement that has no fault: its type, and where it begins.
#[derive(Clone, Copy)]
pub struct TypedOperand {
    pub kind: VariableType,
    pub at: u32,
}

/// Arguments that have no fault inside: the least of those that they have as the arguments of what is called, and the
/// type of the first one.
#[derive(Clone, Copy)]
pub struct Arguments {
    pub fault: Option<TypeFault>,
    pub first: VariableType,
}

/// Whether a fault has a lesser number than another, or the same and an offset that is not greater.
fn is_up_to(fault: TypeFault, other: TypeFault) -> bool
    ensures { result ≡ is_up_to fault other }
{
    fault.number() < other.number()
        || fault.number() == other.number() && fault.offset() <= other.offset()
}

/// The lesser of two faults of a place, or the one that there is.
pub fn lesser(fault: Option<TypeFault>, other: Option<TypeFault>) -> Option<TypeFault>
    ensures { result ≡ lesser fault other }
{
    match (fault, other) {
        (Some(first), Some(second)) => Some(if is_up_to(first, second) {
            first
        } else {
            second
        }),
        (Some(first), None) => Some(first),
        (None, second) => second,
    }
}

/// Where an integer is wanted.
pub fn integer_fault(operand: TypedOperand) -> Option<TypeFault>
    ensures { result ≡ least (integer_faults operand.kind operand.at) }
{
    match operand.kind {
        VariableType::Integer(_) => None,
        VariableType::Pointer(_) => Some(TypeFault::TypeMismatch { at: operand.at }),
    }
}

/// Where a pointer is wanted.
pub fn pointer_fault(operand: TypedOperand) -> Option<TypeFault>
    ensures { result ≡ least (pointer_faults operand.kind operand.at) }
{
    match operand.kind {
        VariableType::Integer(_) => Some(TypeFault::TypeMismatch { at: operand.at }),
        VariableType::Pointer(_) => None,
    }
}

/// A pointer given to what has the type of another.
#[tactic(auto, using(clnum::proofs::Sameness::same_type, clmodel::proofs::Sameness::same_space))]
fn pointer_passing_fault(to: PointerType, given: PointerType, at: u32) -> Option<TypeFault>
    ensures { result ≡ least (passing_faults (Pointer to) (Pointer given) at) }
{
    if to.element != given.element {
        Some(TypeFault::TypeMismatch { at })
    } else if given.is_const && !to.is_const {
        Some(TypeFault::NotAssignable { at })
    } else if to.space != given.space {
        Some(TypeFault::WrongSpace { at })
    } else {
        None
    }
}

/// A value given to what has this type.
pub fn passing_fault(to: VariableType, value: TypedOperand) -> Option<TypeFault>
    ensures { result ≡ least (passing_faults to value.kind value.at) }
{
    match (to, value.kind) {
        (VariableType::Integer(_), _) => integer_fault(value),
        (VariableType::Pointer(_), VariableType::Integer(_)) => pointer_fault(value),
        (VariableType::Pointer(to), VariableType::Pointer(given)) => pointer_passing_fault(
            to, given, value.at,
        ),
    }
}

/// A name as a value.
pub fn name_fault(meaning: Meaning<'_>, at: u32) -> Option<TypeFault>
    ensures { result ≡ least (name_faults (meaning_of meaning.entry) at) }
{
    match meaning {
        Meaning::Bound(Declaration::PrivateArray(_)) => Some(TypeFault::WrongSpace { at }),
        Meaning::Bound(_) => None,
        Meaning::Callable(_)
        | Meaning::Current(_)
        | Meaning::BuiltInFunction(_)
        | Meaning::Barrier => Some(TypeFault::TypeMismatch { at }),
        Meaning::Unknown => Some(TypeFault::UnknownName { at }),
    }
}

/// A name in front of an index.
pub fn front_fault(meaning: Meaning<'_>, at: u32) -> Option<TypeFault>
    ensures { result ≡ least (front_faults (meaning_of meaning.entry) at) }
{
    match meaning {
        Meaning::Bound(declared) => if element_type(declared).is_some() {
            None
        } else {
            Some(TypeFault::TypeMismatch { at })
        },
        _ => name_fault(meaning, at),
    }
}

/// A name of this meaning in front of an index, of whose element the address is taken, which begins at `at`.
fn address_fault(meaning: Meaning<'_>, at: u32, array: Identifier) -> Option<TypeFault>
    ensures { result ≡ least (address_faults (meaning_of meaning.entry) at array.at) }
{
    match meaning {
        Meaning::Bound(Declaration::PrivateArray(_)) => Some(TypeFault::WrongSpace { at }),
        _ => front_fault(meaning, array.at),
    }
}

/// The address of an element, which begins at `at`: the name in front, of this meaning, and the index.
#[tactic(auto, using(crate::proofs::Least::least_append))]
pub(crate) fn element_address_fault(
    meaning: Meaning<'_>,
    at: u32,
    array: Identifier,
    index: TypedOperand,
) -> Option<TypeFault>
    ensures { result ≡ least (address_faults (meaning_of meaning.entry) at array.at ++ integer_faults index.kind index.at) }
{
    lesser(address_fault(meaning, at, array), integer_fault(index))
}

/// An element: the name in front, and the index.
#[tactic(auto, using(crate::proofs::Least::least_append))]
pub(crate) fn element_fault(meaning: Meaning<'_>, at: u32, index: TypedOperand) -> Option<TypeFault>
    ensures { result ≡ least (front_faults (meaning_of meaning.entry) at ++ integer_faults index.kind index.at) }
{
    lesser(front_fault(meaning, at), integer_fault(index))
}

/// Whether an operator moves a pointer on its left.
pub fn moves(operator: BinaryOperator) -> bool
    ensures { result ≡ moves operator }
{
    match operator {
        BinaryOperator::Add | BinaryOperator::Subtract => true,
        _ => false,
    }
}

/// Whether an operator takes a pointer on its left.
fn takes_pointer(operator: InfixOperator) -> bool
    ensures { result ≡ takes_pointer operator }
{
    match operator {
        InfixOperator::Arithmetic(operator) => moves(operator),
        _ => false,
    }
}

/// Whether an operator takes a pointer on its right.
fn is_sum(operator: InfixOperator) -> bool
    ensures { result ≡ is_sum operator }
{
    match operator {
        InfixOperator::Arithmetic(BinaryOperator::Add) => true,
        _ => false,
    }
}

/// The two operands of an operator.
pub(crate) fn operand_fault(
    operator: InfixOperator,
    left: TypedOperand,
    right: TypedOperand,
) -> Option<TypeFault>
    ensures { result ≡ least (operand_faults operator left.kind right.kind left.at right.at) }
{
    match left.kind {
        VariableType::Integer(_) if is_sum(operator) => None,
        VariableType::Integer(_) => integer_fault(right),
        VariableType::Pointer(_) if takes_pointer(operator) => integer_fault(right),
        VariableType::Pointer(_) => lesser(
            Some(TypeFault::TypeMismatch { at: left.at }),
            integer_fault(right),
        ),
    }
}

/// The three parts of `condition ? chosen : otherwise`.
#[tactic(auto, using(crate::proofs::Least::least_append))]
pub(crate) fn choice_fault(
    condition: TypedOperand,
    chosen: TypedOperand,
    otherwise: TypedOperand,
) -> Option<TypeFault>
    ensures { result
        ≡ least
        (integer_faults condition.kind condition.at
        ++ integer_faults chosen.kind chosen.at
        ++ integer_faults otherwise.kind otherwise.at) }
{
    lesser(
        lesser(integer_fault(condition), integer_fault(chosen)),
        integer_fault(otherwise),
    )
}

/// How many operands an atomic function has beside its pointer.
fn operands(function: AtomicFunction) -> usize
    ensures exact { result ≡ operands function }
    ensures few { result ≤ 2 }
{
    match function {
        AtomicFunction::Inc | AtomicFunction::Dec => 0,
        AtomicFunction::CompareExchange => 2,
        _ => 1,
    }
}

/// How many arguments a built-in function wants.
fn argument_count(function: BuiltIn) -> usize
    ensures { result ≡ length (wants function) }
{
    match function {
        BuiltIn::WorkDim => 0,
        BuiltIn::WorkItem(_) => 1,
        BuiltIn::Integer(Builtin::Min | Builtin::Max | Builtin::Rotate) => 2,
        BuiltIn::Integer(_) => 1,
        BuiltIn::Atomic(function) => 1 + operands(function),
    }
}

/// A function of the text with this signature, called at `at` with n arguments: no kernel, at a spot that takes it, and
/// an argument for each parameter.
fn helper_fault(
    spot: CallPlace,
    signature: &Signature,
    at: u32,
    arguments: usize,
) -> Option<TypeFault>
    ensures { result ≡ least (helper_faults (spot_of spot) (signature_of signature.now) at arguments) }
{
    if spot == CallPlace::Inside || signature.is_kernel {
        Some(TypeFault::TypeMismatch { at })
    } else if arguments != signature.parameters.len() {
        Some(TypeFault::WrongArgumentCount { at })
    } else {
        None
    }
}

/// A built-in function, called at `at` with n arguments: it may be called at any spot.
fn built_in_fault(function: BuiltIn, at: u32, arguments: usize) -> Option<TypeFault>
    ensures { result ≡ least (unless (nat_eq arguments (length (wants function))) (TypeFault.WrongArgumentCount at)) }
{
    if arguments != argument_count(function) {
        Some(TypeFault::WrongArgumentCount { at })
    } else {
        None
    }
}

/// The barrier, called at `at` with n arguments.
fn barrier_fault(spot: CallPlace, at: u32, arguments: usize) -> Option<TypeFault>
    ensures { result ≡ least (callee_faults (spot_of spot) typing.Barrier at arguments) }
{
    if spot != CallPlace::WholeStatement {
        Some(TypeFault::TypeMismatch { at })
    } else if arguments != 1 {
        Some(TypeFault::WrongArgumentCount { at })
    } else {
        None
    }
}

/// What is called at `at`, with n arguments.
#[tactic(auto, using(crate::proofs::Least::least_append))]
fn callee_fault(
    spot: CallPlace,
    meaning: Meaning<'_>,
    at: u32,
    arguments: usize,
) -> Option<TypeFault>
    ensures { result ≡ least (callee_faults (spot_of spot) (meaning_of meaning.entry) at arguments) }
{
    match meaning {
        Meaning::BuiltInFunction(function) => built_in_fault(function, at, arguments),
        Meaning::Barrier => barrier_fault(spot, at, arguments),
        Meaning::Callable(signature) => helper_fault(spot, signature, at, arguments),
        Meaning::Current(signature) => lesser(
            helper_fault(spot, signature, at, arguments),
            Some(TypeFault::Recursion { at }),
        ),
        Meaning::Bound(_) => Some(TypeFault::TypeMismatch { at }),
        Meaning::Unknown => Some(TypeFault::UnknownName { at }),
    }
}

/// A call: what is called at `at`, n arguments, and what they have against them as flags.
pub(crate) fn call_fault(
    spot: CallPlace,
    meaning: Meaning<'_>,
    at: u32,
    count: usize,
    arguments: Arguments,
    flags: Option<TypeFault>,
) -> Option<TypeFault>
    ensures { result
        ≡ lesser (lesser (least (callee_faults (spot_of spot) (meaning_of meaning.entry) at count)) arguments.fault) flags }
{
    lesser(
        lesser(callee_fault(spot, meaning, at, count), arguments.fault),
        flags,
    )
}

/// What can be given to the parameter of an index, where the function has it.
fn parameter_wanted(signature: &Signature, index: usize) -> Option<Want>
    ensures { option_map want_of result ≡ slice_get (map ForParameter (signature_of signature.now).parameters) index }
{
    match signature.parameters.get(index) {
        Some(kind) => Some(Want::ForParameter(*kind)),
        None => None,
    }
}

/// What the argument of an index has to be, where what is called wants one there.
pub(crate) fn wanted(meaning: Meaning<'_>, index: usize) -> Option<Want>
    ensures { option_map want_of result ≡ slice_get (wanted (meaning_of meaning.entry)) index }
{
    match meaning {
        Meaning::BuiltInFunction(BuiltIn::WorkItem(_)) | Meaning::Barrier if index == 0 => Some(
            Want::Integer,
        ),
        Meaning::BuiltInFunction(BuiltIn::Integer(function)) => integer_wanted(function, index),
        Meaning::BuiltInFunction(BuiltIn::Atomic(function)) => atomic_wanted(function, index),
        Meaning::Callable(signature) | Meaning::Current(signature) => parameter_wanted(
            signature, index,
        ),
        _ => None,
    }
}

/// What a built-in integer function takes as this argument, counted from 0; None past its last (6.12.3).
fn integer_wanted(function: Builtin, index: usize) -> Option<Want>
    ensures { option_map want_of result ≡ slice_get (integer_wants function) index }
{
    match (function, index) {
        (_, 0) => Some(Want::Integer),
        (Builtin::Min | Builtin::Max | Builtin::Rotate, 1) => Some(Want::OfTypeBefore),
        _ => None,
    }
}

/// What an atomic function takes as this argument, counted from 0; None past its last (6.12.11).
fn atomic_wanted(function: AtomicFunction, index: usize) -> Option<Want>
    ensures { option_map want_of result ≡ slice_get (atomic_wants (operands function)) index }
{
    match index {
        0 => Some(Want::AtomicPointer),
        _ if index <= operands(function) => Some(Want::Integer),
        _ => None,
    }
}

/// An integer of the type of the one before it.
#[tactic(auto, using(clnum::proofs::Sameness::same_type))]
fn same_fault(before: VariableType, argument: TypedOperand) -> Option<TypeFault>
    ensures { result ≡ least (same_faults before argument.kind argument.at) }
{
    match (before, argument.kind) {
        (VariableType::Integer(before), VariableType::Integer(kind)) => if before == kind {
            None
        } else {
            Some(TypeFault::TypeMismatch { at: argument.at })
        },
        _ => integer_fault(argument),
    }
}

/// A pointer for an atomic function: to int or uint, not constant, and not to constant memory.
fn atomic_fault(argument: TypedOperand) -> Option<TypeFault>
    ensures { result ≡ least (atomic_faults argument.kind argument.at) }
{
    let at = argument.at;
    match argument.kind {
        VariableType::Integer(_) => Some(TypeFault::TypeMismatch { at }),
        VariableType::Pointer(pointer) => {
            if pointer.element != IntType::Int && pointer.element != IntType::Uint {
                Some(TypeFault::TypeMismatch { at })
            } else if pointer.is_const {
                Some(TypeFault::NotAssignable { at })
            } else if pointer.space == AddressSpace::Constant {
                Some(TypeFault::WrongSpace { at })
            } else {
                None
            }
        }
    }
}

/// An argument: what is wanted in its place, and the type of the one before it.
pub(crate) fn argument_fault(
    want: Option<Want>,
    before: VariableType,
    argument: TypedOperand,
) -> Option<TypeFault>
    ensures { result ≡ least (argument_faults (option_map want_of want) before argument.kind argument.at) }
{
    match want {
        None => None,
        Some(Want::Integer) => integer_fault(argument),
        Some(Want::OfTypeBefore) => same_fault(before, argument),
        Some(Want::AtomicPointer) => atomic_fault(argument),
        Some(Want::ForParameter(kind)) => passing_fault(kind, argument),
    }
}
