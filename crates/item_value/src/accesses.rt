//! The accesses that items make, and the numbers that they are answered (OpenCL 1.2, sections 6.5 and 6.12.11).
#![tactic(auto)]

ghost use Rattle.std.specs.Prelude.{◌≡◌, Some, pos};
ghost use Rattle.clnum.specs.Integer.{bits_of};
ghost use Rattle.clnum.specs.Operations.{wrapped};
ghost use Rattle.clnum.specs.declared.int_type.IntType.TheVariants as int_type;
ghost use Rattle.clmodel.specs.Next as next;
ghost use Rattle.clmodel.specs.Next.{element_width, answered};
ghost use Rattle.clmodel.specs.declared.access.Operation.TheVariants as operation;
ghost use Rattle.clmodel.specs.declared.operand.Operand.TheVariants as operand;

use clmodel::access::{Class, FetchOp, Operation, Width};
use clmodel::action::Answer;
use clmodel::setup::AtomicFunction;
use clnum::{IntType, UnaryOperator, Value, unary};
use register_values::kept_values::read_bits;
use register_values::register_value::RegisterValue;

/// The width of an integer type.
fn width(kind: IntType) -> Width
    ensures { result ≡ element_width kind }
{
    match kind {
        IntType::Char | IntType::Uchar => Width::One,
        IntType::Short | IntType::Ushort => Width::Two,
        IntType::Int | IntType::Uint => Width::Four,
        IntType::Long | IntType::Ulong => Width::Eight,
    }
}

/// The number of an answer, 0 of one that carries none.
fn number_of(answer: Answer) -> u64
    ensures { result ≡ answered answer }
{
    match answer {
        Answer::Value(number) => number,
        Answer::Done => 0,
    }
}

/// A load of an element.
pub fn load_of(element: IntType) -> Operation
    ensures { result ≡ operation.Load (element_width element) }
{
    Operation::Load(width(element))
}

/// The value of an element that an access was answered.
pub fn loaded(element: IntType, answer: Answer) -> RegisterValue
    ensures { result ≡ Some (operand.Integral (wrapped element (pos (answered answer)))) }
{
    read_bits(element, number_of(answer))
}

/// A store of an element.
pub fn store_of(element: IntType, value: Value) -> Operation
    ensures { result ≡ operation.Store (element_width element) (bits_of element value.number) }
{
    Operation::Store(width(element), value.bits_in(element))
}

/// The class of an atomic function at an element type. (Exchange and compare-exchange have none: they are no updates.)
fn class_of(function: AtomicFunction, kind: IntType) -> Class
    ensures { result ≡ next.class_of function kind }
{
    match function {
        AtomicFunction::Add
        | AtomicFunction::Sub
        | AtomicFunction::Inc
        | AtomicFunction::Dec
        | AtomicFunction::Exchange
        | AtomicFunction::CompareExchange => Class::Add,
        AtomicFunction::Min if kind.is_signed() => Class::SignedMin,
        AtomicFunction::Min => Class::UnsignedMin,
        AtomicFunction::Max if kind.is_signed() => Class::SignedMax,
        AtomicFunction::Max => Class::UnsignedMax,
        AtomicFunction::And => Class::And,
        AtomicFunction::Or => Class::Or,
        AtomicFunction::Xor => Class::Xor,
    }
}

/// What an atomic function brings to its element, given a number of the element's type.
fn amount(function: AtomicFunction, number: Value) -> Value
    ensures { result ≡ next.amount function number }
{
    match function {
        AtomicFunction::Sub | AtomicFunction::Dec => unary(UnaryOperator::Negate, number),
        _ => number,
    }
}

/// An atomic update of 32 bits.
pub fn update_of(function: AtomicFunction, element: IntType, number: Value) -> Operation
    ensures { result ≡ operation.Update (next.class_of function element) (bits_of int_type.Uint (next.amount function number).number) }
{
    let bits = amount(function, number).bits_in(IntType::Uint);
    Operation::Update(class_of(function, element), bits as u32)
}

/// What an atomic function whose old number is used leaves, where the number that it compares with has these bits.
fn fetch_op_of(function: AtomicFunction, kind: IntType, expected: u32) -> FetchOp
    ensures { result ≡ next.fetch_op_of function kind expected }
{
    match function {
        AtomicFunction::Exchange => FetchOp::Exchange,
        AtomicFunction::CompareExchange => FetchOp::CompareExchange(expected),
        _ => FetchOp::Class(class_of(function, kind)),
    }
}

/// An atomic operation on 32 bits whose old number is used.
pub fn fetch_of(
    function: AtomicFunction,
    element: IntType,
    expected: Value,
    number: Value,
) -> Operation
    ensures { result ≡ operation.Fetch (next.fetch_op_of function element (bits_of int_type.Uint expected.number)) (bits_of int_type.Uint (next.amount function number).number) }
{
    let expected = expected.bits_in(IntType::Uint);
    let bits = amount(function, number).bits_in(IntType::Uint);
    Operation::Fetch(fetch_op_of(function, element, expected as u32), bits as u32)
}
