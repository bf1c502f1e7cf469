//! The faults of targets, and of assignments and initialisers.
#![tactic(auto)]

ghost use Rattle.std.specs.Prelude.{◌≡◌, ◌++◌};
ghost use Rattle.clmodel.specs.Tree.{term, tree_target};
ghost use Rattle.clmodel.specs.Typing.Least.{least, first, node};
ghost use Rattle.clmodel.specs.Typing.Faults.{integer_faults, pointer_faults, assigning_faults, whole_faults, store_faults, stored_faults, element_target_faults, target_faults, value_faults, initial_faults, assignment_faults};
ghost use Rattle.cltypes_scope.specs.Answers.{Checks};
ghost use Rattle.cltypes_scope.specs.Names.{meaning_of};
ghost use Rattle.cltypes.specs.Views.{target_of};

use clmodel::declaration::Declaration;
use clmodel::tree::{AddressSpace, Expression, Target, VariableType};
use clmodel::type_fault::TypeFault;
use clnum::BinaryOperator;
use cltypes_scope::kinds::{element_kind, front_kind, name_kind};
use cltypes_scope::{
    Context, Meaning, TypedOperand, check_expression, check_value, checked, front_fault,
    integer_fault, lesser, moves, name_fault, passing_fault, pointer_fault, void_fault,
};

/// What an operator assigns to, and the value.
fn assigning_fault(
    operator: BinaryOperator,
    to: TypedOperand,
    value: TypedOperand,
) -> Option<TypeFault>
    ensures { result ≡ least (assigning_faults operator to.kind value.kind to.at value.at) }
{
    match to.kind {
        VariableType::Pointer(_) if !moves(operator) => lesser(
            Some(TypeFault::TypeMismatch { at: to.at }),
            integer_fault(value),
        ),
        _ => integer_fault(value),
    }
}

/// What a pointer of this type points to, stored to at `at`.
fn store_fault(kind: VariableType, at: u32) -> Option<TypeFault>
    ensures { result ≡ least (store_faults kind at) }
{
    match kind {
        VariableType::Pointer(pointer)
            if pointer.is_const || pointer.space == AddressSpace::Constant => Some(
            TypeFault::NotAssignable { at },
        ),
        _ => None,
    }
}

/// A name that is a target.
fn whole_fault(meaning: Meaning<'_>, at: u32) -> Option<TypeFault>
    ensures { result ≡ least (whole_faults (meaning_of meaning.entry) at) }
{
    match meaning {
        Meaning::Bound(Declaration::LocalArray(_) | Declaration::PrivateArray(_)) => Some(
            TypeFault::NotAssignable { at },
        ),
        _ => name_fault(meaning, at),
    }
}

/// What a name in front of an index is declared as, stored to.
fn stored_fault(meaning: Meaning<'_>, at: u32) -> Option<TypeFault>
    ensures { result ≡ least (stored_faults (meaning_of meaning.entry) at) }
{
    match meaning {
        Meaning::Bound(Declaration::Single(kind)) => store_fault(kind, at),
        _ => None,
    }
}

/// An element that is a target: the name in front, and the index.
#[tactic(auto, using(cltypes_scope::proofs::Least::least_append))]
fn target_fault(meaning: Meaning<'_>, at: u32, index: TypedOperand) -> Option<TypeFault>
    ensures { result ≡ least (element_target_faults (meaning_of meaning.entry) at ++ integer_faults index.kind index.at) }
{
    lesser(
        lesser(front_fault(meaning, at), stored_fault(meaning, at)),
        integer_fault(index),
    )
}

/// What a pointer points to, a target at `at`.
#[tactic(auto, using(cltypes_scope::proofs::Least::least_append))]
fn behind_fault(pointer: TypedOperand, at: u32) -> Option<TypeFault>
    ensures { result ≡ least (pointer_faults pointer.kind pointer.at ++ store_faults pointer.kind at) }
{
    lesser(pointer_fault(pointer), store_fault(pointer.kind, at))
}

/// The type of the target and where it begins, or its first fault.
pub(crate) fn check_target(context: &Context, target: &Target) -> Result<TypedOperand, TypeFault>
    ensures { Checks result (first (target_faults context.now (tree_target target.now))) (target_of context.now (tree_target target.now)) }
{
    match target {
        Target::Variable { at, name } => {
            let meaning = context.meaning(*name);
            checked(whole_fault(meaning, *at), name_kind(meaning), *at)
        }
        Target::Element { at, name, index } => {
            let index = check_expression(context, index)?;
            let meaning = context.meaning(*name);
            checked(target_fault(meaning, *at, index), front_kind(meaning), *at)
        }
        Target::Dereference { at, pointer } => {
            let pointer = check_expression(context, pointer)?;
            checked(behind_fault(pointer, *at), element_kind(pointer.kind), *at)
        }
    }
}

/// The first fault of an assignment.
pub(crate) fn assignment_fault(
    context: &Context,
    target: &Target,
    operator: Option<BinaryOperator>,
    value: &Expression,
) -> Option<TypeFault>
    ensures { let c = context.now in
        let p = tree_target target.now in
        let e = term value.now in
        result ≡ first (node (target_faults c p ++ value_faults c e) (assignment_faults c p operator e)) }
{
    match check_target(context, target) {
        Err(fault) => Some(fault),
        Ok(to) => match check_value(context, value) {
            Err(fault) => Some(fault),
            Ok(given) => match operator {
                None => lesser(void_fault(context, value), passing_fault(to.kind, given)),
                Some(operator) => lesser(
                    void_fault(context, value),
                    assigning_fault(operator, to, given),
                ),
            },
        },
    }
}

/// The first fault of the initialiser of a variable of this type.
pub(crate) fn initial_fault(
    context: &Context,
    kind: VariableType,
    value: &Expression,
) -> Option<TypeFault>
    ensures { result ≡ first (initial_faults context.now kind (term value.now)) }
{
    match check_value(context, value) {
        Err(fault) => Some(fault),
        Ok(given) => lesser(void_fault(context, value), passing_fault(kind, given)),
    }
}
