//! The types of expressions, calls and values at a place of a program.
#![tactic(auto)]

ghost use Rattle.std.specs.Prelude.{◌≡◌};
ghost use Rattle.clmodel.specs.Tree.{term, terms};
ghost use Rattle.clmodel.specs.Typing.Context.{meaning};
ghost use Rattle.clmodel.specs.Typing.Least.{least, first, node};
ghost use Rattle.clmodel.specs.Typing.Faults.{call_kind, first_kind, inside_call, call_faults, term_faults, terms_faults, value_faults, gives_value, void_faults};
ghost use Rattle.cltypes_scope.specs.Names.{meaning_of};
ghost use Rattle.cltypes_scope.specs.Fenced.{names_of};
ghost use Rattle.cltypes_scope.specs.Answers.{Checks};
ghost use Rattle.cltypes_scope.specs.Views.{spot_of, operand_of};

use crate::context::Context;
use crate::expressions::{check_call_in, check_in};
use crate::faults::{CallPlace, TypedOperand};
use crate::meaning::Meaning;
use crate::names::{Identifier, Names};
use clmodel::tree::Expression;
use clmodel::type_fault::TypeFault;

/// What is known at a place outside the arguments of a barrier.
fn names(context: &Context) -> Names<'_>
    ensures { names_of result ≡ context.now }
{
    Names {
        context,
        in_barrier: false,
    }
}

/// An expression's type and where it begins, or its first fault.
pub fn check_expression(
    context: &Context,
    expression: &Expression,
) -> Result<TypedOperand, TypeFault>
    ensures { Checks result (first (term_faults context.now (term expression.now))) (operand_of context.now (term expression.now)) }
{
    check_in(names(context), expression)
}

/// A call at a spot.
pub fn check_call(
    context: &Context,
    spot: CallPlace,
    called: Identifier,
    arguments: &[Expression],
) -> Result<TypedOperand, TypeFault>
    ensures { let c = context.now in
        let m = meaning c called.name in
        let es = terms arguments.now in
        Checks
        result
        (first (node (terms_faults (inside_call m c) es) (call_faults c (spot_of spot) m called.at es)))
        (record { kind = call_kind m (first_kind c es); at = called.at }) }
{
    check_call_in(names(context), spot, called, arguments)
}

/// The type of what is assigned, or initialises a variable, and where it begins; or its first fault. A function of the
/// text can be called there.
pub fn check_value(context: &Context, value: &Expression) -> Result<TypedOperand, TypeFault>
    ensures { Checks result (first (value_faults context.now (term value.now))) (operand_of context.now (term value.now)) }
{
    match value {
        Expression::Call {
            at,
            name,
            arguments,
        } => {
            let called = Identifier {
                at: *at,
                name: *name,
            };
            check_call(context, CallPlace::RightSide, called, arguments)
        }
        _ => check_expression(context, value),
    }
}

/// Whether what is called has a value.
fn gives_value(meaning: Meaning<'_>) -> bool
    ensures { result ≡ gives_value (meaning_of meaning.entry) }
{
    match meaning {
        Meaning::Callable(signature) => signature.result.is_some(),
        _ => true,
    }
}

/// What is assigned, or initialises a variable, where it is the call of a function that gives no value.
pub fn void_fault(context: &Context, value: &Expression) -> Option<TypeFault>
    ensures { result ≡ least (void_faults context.now (term value.now)) }
{
    match value {
        Expression::Call { at, name, .. } => if gives_value(context.meaning(*name)) {
            None
        } else {
            Some(TypeFault::TypeMismatch { at: *at })
        },
        _ => None,
    }
}
