//! The types of expressions.
#![tactic(auto)]

ghost use Rattle.std.specs.Prelude.{◌≡◌};
ghost use Rattle.clmodel.specs.Tree.{Element, ElementAddress, Dereference, Unary, Cast, Binary, Choice, term, terms};
ghost use Rattle.clmodel.specs.Typing.Context.{meaning};
ghost use Rattle.clmodel.specs.Typing.Least.{least, first, node};
ghost use Rattle.clmodel.specs.Typing.Faults.{call_kind, first_kind, inside_call, call_faults, term_faults, terms_faults};
ghost use Rattle.cltypes_scope.specs.Names.{meaning_of};
ghost use Rattle.cltypes_scope.specs.Fenced.{names_of};
ghost use Rattle.cltypes_scope.specs.Answers.{Checks};
ghost use Rattle.cltypes_scope.specs.Views.{spot_of, operand_of, arguments_of};

use crate::faults::{
    Arguments, CallPlace, TypedOperand, argument_fault, call_fault, choice_fault,
    element_address_fault, element_fault, integer_fault, lesser, name_fault, operand_fault,
    pointer_fault, wanted,
};
use crate::flags::flags_fault;
use crate::kinds::{
    binary_type, call_kind, choice_type, element_kind, front_kind, name_kind, unary_type,
};
use crate::meaning::Meaning;
use crate::names::{Identifier, Names, meaning_among, names_inside};
use clmodel::tree::{Expression, InfixOperator, VariableType};
use clmodel::type_fault::TypeFault;
use clnum::{IntType, UnaryOperator};

/// What has a type and begins at `at`, where it has no fault.
pub fn checked(
    fault: Option<TypeFault>,
    kind: VariableType,
    at: u32,
) -> Result<TypedOperand, TypeFault>
    ensures { Checks result fault (record { kind = kind; at = at }) }
{
    match fault {
        Some(fault) => Err(fault),
        None => Ok(TypedOperand { kind, at }),
    }
}

/// An expression's type and where it begins, or its first fault, where these names are known.
#[cycle(expressions)]
pub(crate) fn check_in(names: Names<'_>, expression: &Expression) -> Result<TypedOperand, TypeFault>
    ensures { Checks result (first (term_faults (names_of names.entry) (term expression.now))) (operand_of (names_of names.entry) (term expression.now)) }
{
    match expression {
        Expression::Number { at, value } => checked(None, VariableType::Integer(value.kind()), *at),
        Expression::Variable { at, name } => {
            let meaning = meaning_among(names, *name);
            checked(name_fault(meaning, *at), name_kind(meaning), *at)
        }
        Expression::Element { at, name, index } => {
            let array = Identifier {
                at: *at,
                name: *name,
            };
            check_element(names, array, index)
        }
        Expression::ElementAddress {
            at,
            name_at,
            name,
            index,
        } => {
            let array = Identifier {
                at: *name_at,
                name: *name,
            };
            check_address(names, *at, array, index)
        }
        Expression::Dereference { at, pointer } => check_dereference(names, *at, pointer),
        Expression::Call {
            at,
            name,
            arguments,
        } => {
            let called = Identifier {
                at: *at,
                name: *name,
            };
            check_call_in(names, CallPlace::Inside, called, arguments)
        }
        Expression::Unary {
            at,
            operator,
            operand,
        } => check_unary(names, *at, *operator, operand),
        Expression::Cast {
            at,
            target,
            operand,
        } => check_cast(names, *at, *target, operand),
        Expression::Binary {
            at,
            operator,
            left,
            right,
        } => check_binary(names, *at, *operator, left, right),
        Expression::Choice {
            at,
            condition,
            chosen,
            otherwise,
        } => check_choice(names, *at, condition, chosen, otherwise),
    }
}

/// An element, `name[index]`.
#[cycle(expressions)]
fn check_element(
    names: Names<'_>,
    array: Identifier,
    index: &Expression,
) -> Result<TypedOperand, TypeFault>
    ensures { let e = Element array.at array.name (term index.now) in Checks result (first (term_faults (names_of names.entry) e)) (operand_of (names_of names.entry) e) }
{
    let index = check_in(names, index)?;
    let meaning = meaning_among(names, array.name);
    checked(
        element_fault(meaning, array.at, index),
        front_kind(meaning),
        array.at,
    )
}

/// An element's address, `&name[index]`.
#[cycle(expressions)]
fn check_address(
    names: Names<'_>,
    at: u32,
    array: Identifier,
    index: &Expression,
) -> Result<TypedOperand, TypeFault>
    ensures { let e = ElementAddress at array.at array.name (term index.now) in Checks result (first (term_faults (names_of names.entry) e)) (operand_of (names_of names.entry) e) }
{
    let index = check_in(names, index)?;
    let meaning = meaning_among(names, array.name);
    checked(
        element_address_fault(meaning, at, array, index),
        name_kind(meaning),
        at,
    )
}

/// What a pointer points to.
#[cycle(expressions)]
fn check_dereference(
    names: Names<'_>,
    at: u32,
    pointer: &Expression,
) -> Result<TypedOperand, TypeFault>
    ensures { let e = Dereference at (term pointer.now) in Checks result (first (term_faults (names_of names.entry) e)) (operand_of (names_of names.entry) e) }
{
    let pointer = check_in(names, pointer)?;
    checked(pointer_fault(pointer), element_kind(pointer.kind), at)
}

/// A call at a spot.
#[cycle(expressions)]
pub(crate) fn check_call_in(
    names: Names<'_>,
    spot: CallPlace,
    called: Identifier,
    arguments: &[Expression],
) -> Result<TypedOperand, TypeFault>
    ensures { let c = names_of names.entry in
        let m = meaning c called.name in
        let es = terms arguments.now in
        Checks
        result
        (first (node (terms_faults (inside_call m c) es) (call_faults c (spot_of spot) m called.at es)))
        (record { kind = call_kind m (first_kind c es); at = called.at }) }
{
    let meaning = meaning_among(names, called.name);
    let given = check_arguments(names_inside(names, meaning), meaning, arguments)?;
    checked(
        call_fault(
            spot,
            meaning,
            called.at,
            arguments.len(),
            given,
            flags_fault(meaning, arguments),
        ),
        call_kind(meaning, given.first),
        called.at,
    )
}

/// An operator before an operand.
#[cycle(expressions)]
fn check_unary(
    names: Names<'_>,
    at: u32,
    operator: UnaryOperator,
    operand: &Expression,
) -> Result<TypedOperand, TypeFault>
    ensures { let e = Unary at operator (term operand.now) in Checks result (first (term_faults (names_of names.entry) e)) (operand_of (names_of names.entry) e) }
{
    let operand = check_in(names, operand)?;
    checked(
        integer_fault(operand),
        unary_type(operator, operand.kind),
        at,
    )
}

/// A cast.
#[cycle(expressions)]
fn check_cast(
    names: Names<'_>,
    at: u32,
    target: IntType,
    operand: &Expression,
) -> Result<TypedOperand, TypeFault>
    ensures { let e = Cast at target (term operand.now) in Checks result (first (term_faults (names_of names.entry) e)) (operand_of (names_of names.entry) e) }
{
    let operand = check_in(names, operand)?;
    checked(integer_fault(operand), VariableType::Integer(target), at)
}

/// An operator between two operands.
#[cycle(expressions)]
fn check_binary(
    names: Names<'_>,
    at: u32,
    operator: InfixOperator,
    left: &Expression,
    right: &Expression,
) -> Result<TypedOperand, TypeFault>
    ensures { let e = Binary at operator (term left.now) (term right.now) in Checks result (first (term_faults (names_of names.entry) e)) (operand_of (names_of names.entry) e) }
{
    let left = check_in(names, left)?;
    let right = check_in(names, right)?;
    checked(
        operand_fault(operator, left, right),
        binary_type(operator, left.kind, right.kind),
        at,
    )
}

/// `condition ? chosen : otherwise`.
#[cycle(expressions)]
fn check_choice(
    names: Names<'_>,
    at: u32,
    condition: &Expression,
    chosen: &Expression,
    otherwise: &Expression,
) -> Result<TypedOperand, TypeFault>
    ensures { let e = Choice at (term condition.now) (term chosen.now) (term otherwise.now) in
        Checks result (first (term_faults (names_of names.entry) e)) (operand_of (names_of names.entry) e) }
{
    let condition = check_in(names, condition)?;
    let chosen = check_in(names, chosen)?;
    let otherwise = check_in(names, otherwise)?;
    checked(
        choice_fault(condition, chosen, otherwise),
        choice_type(chosen.kind, otherwise.kind),
        at,
    )
}

/// The least of the faults that the arguments of a call have as such, and the type of the first one; or the first fault
/// inside them.
#[cycle(expressions)]
fn check_arguments(
    names: Names<'_>,
    meaning: Meaning<'_>,
    arguments: &[Expression],
) -> Result<Arguments, TypeFault>
    ensures { Checks
        result
        (first (terms_faults (names_of names.entry) (terms arguments.now)))
        (arguments_of (names_of names.entry) (meaning_of meaning.entry) (terms arguments.now)) }
{
    let mut least = None;
    let mut first = VariableType::Integer(IntType::Int);
    let mut last = first;
    for (index, argument) in arguments.iter().enumerate() {
        let argument = check_in(names, argument)?;
        least = lesser(
            least,
            argument_fault(wanted(meaning, index), last, argument),
        );
        last = argument.kind;
        if index == 0 {
            first = last;
        }
    }
    Ok(Arguments {
        fault: least,
        first,
    })
}
