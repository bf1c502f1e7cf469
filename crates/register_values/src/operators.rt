//! Operators and built-in functions on values (OpenCL 1.2, sections 6.3 and 6.12.3).
#![tactic(auto)]

ghost use Rattle.std.specs.Prelude.{[], ◌∷◌};
ghost use Rattle.clmodel.specs.Next as next;
ghost use Rattle.clmodel.specs.Next.{Continuation};
ghost use Rattle.clmodel.specs.declared.operand.Operand.{Operand};
ghost use Rattle.clmodel.specs.declared.operand.Operand.TheVariants as operand;
ghost use Rattle.register_values.specs.Leading.{RunsOnAs};

use crate::pointers::{moved, moved_back, number};
use crate::termination::Termination;
use clmodel::action::Cause;
use clmodel::operand::Operand;
use clnum::{ArithFault, BinaryOperator, Builtin, Value, binary, builtin};

/// What an operator on integers gave.
fn arithmetic(outcome: Result<Value, ArithFault>) -> Result<Operand, Termination>
    ensures { (after : Operand → Continuation) → RunsOnAs result (next.arithmetic outcome after) after }
{
    match outcome {
        Ok(value) => Ok(Operand::Integral(value)),
        Err(ArithFault::DivideByZero) => Err(Termination::Fail(Cause::DivideByZero)),
        Err(ArithFault::DivideOverflow) => Err(Termination::Fail(Cause::DivideOverflow)),
    }
}

/// A pointer moved on, as a value.
fn advanced(pointer: Operand, by: Operand) -> Result<Operand, Termination>
    ensures { (after : Operand → Continuation) → RunsOnAs result (next.moved pointer by (λ q. after (operand.Pointed q))) after }
{
    let pointer = moved(pointer, by)?;
    Ok(Operand::Pointed(pointer))
}

/// A pointer moved back, as a value.
fn withdrawn(pointer: Operand, by: Operand) -> Result<Operand, Termination>
    ensures { (after : Operand → Continuation) → RunsOnAs result (next.moved_back pointer by (λ q. after (operand.Pointed q))) after }
{
    let pointer = moved_back(pointer, by)?;
    Ok(Operand::Pointed(pointer))
}

/// An operator on two values: integers, or a pointer and an integer that is added to it or taken from it.
pub(crate) fn binary_operation(
    operator: BinaryOperator,
    first: Operand,
    second: Operand,
) -> Result<Operand, Termination>
    ensures { (after : Operand → Continuation) → RunsOnAs result (next.binary_operation operator first second after) after }
{
    // One match in another, and values made whole again: so each arm is the definition at values that are known.
    match first {
        Operand::Integral(v) => match second {
            Operand::Integral(w) => arithmetic(binary(operator, v, w)),
            Operand::Pointed(p) => match operator {
                BinaryOperator::Add => advanced(Operand::Pointed(p), Operand::Integral(v)),
                _ => Err(Termination::Finish),
            },
        },
        Operand::Pointed(p) => match operator {
            BinaryOperator::Add => advanced(Operand::Pointed(p), second),
            BinaryOperator::Subtract => withdrawn(Operand::Pointed(p), second),
            _ => Err(Termination::Finish),
        },
    }
}

/// The value of a function of integers.
fn given_value(value: Option<Value>) -> Result<Operand, Termination>
    ensures { (after : Operand → Continuation) → RunsOnAs result (next.given_value value after) after }
{
    match value {
        Some(value) => Ok(Operand::Integral(value)),
        None => Err(Termination::Finish),
    }
}

/// A function of one integer.
pub fn of_one(function: Builtin, a: Operand) -> Result<Operand, Termination>
    ensures { (after : Operand → Continuation) → RunsOnAs result (next.integer_call function (a ∷ []) after) after }
{
    let a = number(a)?;
    given_value(builtin(function, &[a]))
}

/// A function of two integers.
pub fn of_two(function: Builtin, a: Operand, b: Operand) -> Result<Operand, Termination>
    ensures { (after : Operand → Continuation) → RunsOnAs result (next.integer_call function (a ∷ b ∷ []) after) after }
{
    let a = number(a)?;
    let b = number(b)?;
    given_value(builtin(function, &[a, b]))
}
