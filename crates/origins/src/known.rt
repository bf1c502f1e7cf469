//! What is known of an expression before it runs.
#![tactic(auto)]

ghost use Rattle.std.specs.Prelude.{◌≡◌};
ghost use Rattle.clmodel.specs.BuiltIns.{built_in};
ghost use Rattle.clmodel.specs.Next.{type_of, call_type, argument_type};
ghost use Rattle.clmodel.specs.Tree.{term, terms};
ghost use Rattle.clmodel.specs.declared.tree.VariableType.TheVariants.{Integer};
ghost use Rattle.folding.specs.Constants.{constant_of, constants_of, call_constant};
ghost use Rattle.origins.specs.Names.{variables_of};

use crate::names::{NamedVariable, kind_of};
use clmodel::setup::built_in_named;
use clmodel::tree::{Expression, VariableType};
use clnum::{IntType, unary_kind};
use folding::{Known, base_type, call_type, constants, infix_type};

/// The type of an expression and its value where it is constant. Each node of it is asked once.
#[cycle(known)]
pub fn known_of(names: &[NamedVariable], expression: &Expression) -> Known
    ensures kind { result.kind ≡ type_of (variables_of names.now) (term expression.now) }
    ensures constant { result.constant ≡ constant_of (variables_of names.now) (term expression.now) }
{
    match expression {
        Expression::Number { value, .. } => Known::number(*value),
        Expression::Variable { name, .. } => Known::varying(kind_of(names, *name)),
        Expression::Element { name, .. } => Known::varying(VariableType::Integer(base_type(kind_of(
            names, *name,
        )))),
        Expression::ElementAddress { name, .. } => Known::varying(kind_of(names, *name)),
        Expression::Dereference { pointer, .. } => {
            let pointer = known_of(names, pointer);
            Known::varying(VariableType::Integer(base_type(pointer.kind)))
        }
        Expression::Call {
            name,
            arguments,
            ..
        } => known_call(names, *name, arguments.as_slice()),
        Expression::Unary {
            operator,
            operand,
            ..
        } => {
            let operand = known_of(names, operand);
            Known {
                kind: VariableType::Integer(unary_kind(*operator, base_type(operand.kind))),
                constant: constants::unary(*operator, operand.constant),
            }
        }
        Expression::Cast {
            target,
            operand,
            ..
        } => {
            let operand = known_of(names, operand);
            Known {
                kind: VariableType::Integer(*target),
                constant: constants::cast(*target, operand.constant),
            }
        }
        Expression::Binary {
            operator,
            left,
            right,
            ..
        } => {
            let first = known_of(names, left);
            let second = known_of(names, right);
            Known {
                kind: infix_type(*operator, first.kind, second.kind),
                constant: constants::infix(*operator, first.constant, second.constant),
            }
        }
        Expression::Choice {
            condition,
            chosen,
            otherwise,
            ..
        } => {
            let condition = known_of(names, condition);
            let chosen = known_of(names, chosen);
            let otherwise = known_of(names, otherwise);
            Known {
                kind: VariableType::Integer(base_type(chosen.kind).common(base_type(
                    otherwise.kind,
                ))),
                constant: constants::choice(condition.constant, chosen, otherwise),
            }
        }
    }
}

/// The same of a call: the type comes from that of the first argument, and no function of integers has more than two.
#[cycle(known)]
fn known_call(names: &[NamedVariable], name: u32, arguments: &[Expression]) -> Known
    ensures kind { result.kind ≡ Integer (call_type (built_in name) (argument_type (variables_of names.now) (terms arguments.now))) }
    ensures constant { result.constant ≡ call_constant (built_in name) (constants_of (variables_of names.now) (terms arguments.now)) }
{
    let function = built_in_named(name);
    if arguments.len() == 0 {
        return Known {
            kind: VariableType::Integer(call_type(function, IntType::Int)),
            constant: constants::call(function, &[]),
        };
    }
    let first = known_of(names, &arguments[0]);
    let kind = VariableType::Integer(call_type(function, base_type(first.kind)));
    if arguments.len() == 1 {
        return Known {
            kind,
            constant: constants::call(function, &[first]),
        };
    }
    if arguments.len() == 2 {
        let second = known_of(names, &arguments[1]);
        return Known {
            kind,
            constant: constants::call(function, &[first, second]),
        };
    }
    Known::varying(kind)
}
