//! The operators on the values of registers, in all cases (OpenCL 1.2, sections 6.2 and 6.3). Numbers stay 64 bits.
#![tactic(auto)]

ghost use Rattle.std.specs.Prelude.{◌≡◌, Bool, Option, Some, pos};
ghost use Rattle.clnum.specs.Integer.{IsIn, converted};
ghost use Rattle.clnum.specs.Operations.{binary_value, unary_value, wrapped};
ghost use Rattle.clmodel.specs.Next as next;
ghost use Rattle.clmodel.specs.Next.{Continuation};
ghost use Rattle.clmodel.specs.declared.operand.Operand.{Operand};
ghost use Rattle.clmodel.specs.declared.operand.Operand.TheVariants as operand;
ghost use Rattle.clmodel.specs.declared.tree.VariableType.TheVariants as variable_type;
ghost use Rattle.register_values.specs.RegisterValues as kept;
ghost use Rattle.register_values.specs.Leading.{RunsOnAs};

use crate::operators::binary_operation;
use crate::register_value::{Form, RegisterValue};
use crate::termination::Termination;
use crate::{binary_word, converted_word, unary_word, wrapped_word};
use clmodel::action::Cause;
use clmodel::tree::VariableType;
use clnum::{ArithFault, BinaryOperator, IntType, UnaryOperator, binary_kind, unary_kind};

/// The number of a type that differs from these bits by a multiple of 2 to the type's width.
#[inline(always)]
pub fn read_bits(kind: IntType, bits: u64) -> RegisterValue
    ensures { result ≡ Some (operand.Integral (wrapped kind (pos bits))) }
{
    RegisterValue::of_bits(kind, wrapped_word(kind, bits))
}

/// A number of a type in another.
#[inline(always)]
pub(crate) fn converted_bits(from: IntType, bits: u64, kind: IntType) -> RegisterValue
    requires { IsIn from (kept.number_of from bits) }
    ensures { result ≡ Some (operand.Integral (converted (kept.integer from bits) kind)) }
{
    let _from = from;
    RegisterValue::of_bits(kind, converted_word(bits, kind))
}

/// What a register has, as a variable of a type holds it (C99 6.5.16.1).
pub fn held(kind: VariableType, value: RegisterValue) -> RegisterValue
    ensures { (v : Operand) → value ≡ Some v → result ≡ Some (next.held kind v) }
{
    match kind {
        VariableType::Integer(kind) => match value.form {
            Form::Integral => converted_bits(value.kind, value.bits, kind),
            _ => value,
        },
        VariableType::Pointer(_) => value,
    }
}

/// What a register has, which must be a number, in another type.
pub fn converted_value(value: RegisterValue, kind: IntType) -> Result<RegisterValue, Termination>
    ensures { (v : Operand) (after : Option Operand → Continuation) → value ≡ Some v → RunsOnAs result (next.number v (λ n. after (Some (operand.Integral (converted n kind))))) after }
{
    match value.form {
        Form::Integral => Ok(converted_bits(value.kind, value.bits, kind)),
        _ => Err(Termination::Finish),
    }
}

/// What a register has, which must be a number, in the common type of its own and another type (C99 6.3.1.8).
pub fn common_value(value: RegisterValue, other: IntType) -> Result<RegisterValue, Termination>
    ensures { (v : Operand) (after : Option Operand → Continuation) → value ≡ Some v → RunsOnAs result (next.chosen_value v (variable_type.Integer other) (λ w. after (Some w))) after }
{
    match value.form {
        Form::Integral => {
            let kind = value.kind.common(other);
            Ok(converted_bits(value.kind, value.bits, kind))
        }
        _ => Err(Termination::Finish),
    }
}

/// An operator on a number of a type.
fn unary_bits(operator: UnaryOperator, kind: IntType, bits: u64) -> RegisterValue
    requires { IsIn kind (kept.number_of kind bits) }
    ensures { result ≡ Some (operand.Integral (unary_value operator (kept.integer kind bits))) }
{
    let result = unary_word(operator, kind, bits);
    RegisterValue::of_bits(unary_kind(operator, kind), result)
}

/// An operator on what a register has, which must be a number.
pub fn unary_of(operator: UnaryOperator, value: RegisterValue) -> Result<RegisterValue, Termination>
    ensures { (v : Operand) (after : Option Operand → Continuation) → value ≡ Some v → RunsOnAs result (next.number v (λ n. after (Some (operand.Integral (unary_value operator n))))) after }
{
    match value.form {
        Form::Integral => Ok(unary_bits(operator, value.kind, value.bits)),
        _ => Err(Termination::Finish),
    }
}

/// What an operator gives on two numbers of types.
#[inline(always)]
pub(crate) fn binary_result(
    operator: BinaryOperator,
    left_kind: IntType,
    left: u64,
    right_kind: IntType,
    right: u64,
) -> Result<RegisterValue, Termination>
    requires left { IsIn left_kind (kept.number_of left_kind left) }
    requires right { IsIn right_kind (kept.number_of right_kind right) }
    ensures { (after : Option Operand → Continuation) → RunsOnAs result (next.arithmetic (binary_value operator (kept.integer left_kind left) (kept.integer right_kind right)) (λ x. after (Some x))) after }
{
    match binary_word(operator, left_kind, left, right_kind, right) {
        Ok(bits) => Ok(RegisterValue::of_bits(binary_kind(operator, left_kind, right_kind), bits)),
        Err(ArithFault::DivideByZero) => Err(Termination::Fail(Cause::DivideByZero)),
        Err(ArithFault::DivideOverflow) => Err(Termination::Fail(Cause::DivideOverflow)),
    }
}

/// An operator on what two registers have, of which one is a pointer.
fn binary_operation_by_value(
    operator: BinaryOperator,
    left: RegisterValue,
    right: RegisterValue,
) -> Result<RegisterValue, Termination>
    ensures { (v w : Operand) (after : Option Operand → Continuation) → left ≡ Some v → right ≡ Some w → RunsOnAs result (next.binary_operation operator v w (λ x. after (Some x))) after }
{
    match left.value() {
        Some(v) => match right.value() {
            Some(w) => match binary_operation(operator, v, w) {
                Ok(x) => Ok(RegisterValue::new(Some(x))),
                Err(termination) => Err(termination),
            },
            None => Err(Termination::Finish),
        },
        None => Err(Termination::Finish),
    }
}

/// An operator on what two registers have: integers, or a pointer and an integer that is added to it or taken from it.
pub fn binary_operation_on_values(
    operator: BinaryOperator,
    left: RegisterValue,
    right: RegisterValue,
) -> Result<RegisterValue, Termination>
    ensures { (v w : Operand) (after : Option Operand → Continuation) → left ≡ Some v → right ≡ Some w → RunsOnAs result (next.binary_operation operator v w (λ x. after (Some x))) after }
{
    match left.form {
        Form::Integral => match right.form {
            Form::Integral => binary_result(operator, left.kind, left.bits, right.kind, right.bits),
            _ => binary_operation_by_value(operator, left, right),
        },
        _ => binary_operation_by_value(operator, left, right),
    }
}

/// What a register has, which must be a pointer.
pub fn pointer_of(value: RegisterValue) -> Result<RegisterValue, Termination>
    ensures { (v : Operand) (after : Option Operand → Continuation) → value ≡ Some v → RunsOnAs result (next.pointing v (λ p. after (Some (operand.Pointed p)))) after }
{
    match value.form {
        Form::Buffer => Ok(value),
        Form::Local => Ok(value),
        _ => Err(Termination::Finish),
    }
}

/// What a register has, which must be a pointer, moved by a number of elements: the low 64 bits of the sum, read as
/// signed.
#[inline(always)]
pub fn moved_value(
    pointer: RegisterValue,
    index: RegisterValue,
) -> Result<RegisterValue, Termination>
    ensures { (v w : Operand) (after : Option Operand → Continuation) → pointer ≡ Some v → index ≡ Some w → RunsOnAs result (next.moved v w (λ q. after (Some (operand.Pointed q)))) after }
{
    let bits = pointer.bits.wrapping_add(index.bits);
    match index.form {
        Form::Integral => match pointer.form {
            Form::Buffer => Ok(RegisterValue {
                bits,
                form: Form::Buffer,
                kind: pointer.kind,
                number: pointer.number,
            }),
            Form::Local => Ok(RegisterValue {
                bits,
                form: Form::Local,
                kind: pointer.kind,
                number: pointer.number,
            }),
            _ => Err(Termination::Finish),
        },
        _ => Err(Termination::Finish),
    }
}

/// Whether what a register has, which must be a number, isn't zero.
#[inline(always)]
pub fn tested_value(value: RegisterValue) -> Result<bool, Termination>
    ensures { (v : Operand) (after : Bool → Continuation) → value ≡ Some v → RunsOnAs result (next.test v after) after }
{
    match value.form {
        Form::Integral => Ok(value.bits != 0),
        _ => Err(Termination::Finish),
    }
}
