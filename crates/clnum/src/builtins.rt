//! The built-in functions of OpenCL C on integers.
#![tactic(auto)]

ghost use Rattle.std.specs.Prelude.{◌≡◌, pos};
ghost use Rattle.std.specs.Int.Count.{count_leading_zeros};
ghost use Rattle.clnum.specs.Integer.{bits, bits_of, residue};
ghost use Rattle.clnum.specs.Operations.{wrapped};
ghost use Rattle.clnum.specs.Builtins as builtins;

use crate::operations::shift_count;
use crate::operators::Builtin;
use crate::values::Value;

/// What a built-in function gives on its arguments (OpenCL 1.2, section 6.12.3), which are not promoted. None where
/// they do not fit it: `abs`, `clz` and `popcount` take one, and `min`, `max` and `rotate` two of one type.
pub fn builtin(function: Builtin, arguments: &[Value]) -> Option<Value>
    ensures { result ≡ builtins.builtin_value function arguments.now }
{
    match arguments {
        [] => None,
        [a] => of_one(function, *a),
        [a, b] => {
            if a.kind() == b.kind() {
                of_two(function, *a, *b)
            } else {
                None
            }
        }
        [_, _, _, ..] => None,
    }
}

/// What a function gives of one argument, or None where it takes more (6.12.3).
fn of_one(function: Builtin, a: Value) -> Option<Value>
    ensures { result ≡ builtins.of_one function a }
{
    let kind = a.kind();
    match function {
        Builtin::Abs => Some(Value::wrapped(kind.unsigned(), a.number().abs())),
        Builtin::Clz => Some(Value::from_bits(kind, u64::from(leading_zeros(a)))),
        Builtin::Popcount => Some(Value::from_bits(kind, u64::from(a.to_bits().count_ones()))),
        Builtin::Min | Builtin::Max | Builtin::Rotate => None,
    }
}

/// What a function gives of two arguments of one type, or None where it takes one (6.12.3).
fn of_two(function: Builtin, a: Value, b: Value) -> Option<Value>
    requires { a.kind ≡ b.kind }
    ensures { result ≡ builtins.of_two function a b }
{
    match function {
        Builtin::Min => Some(if b.number() < a.number() { b } else { a }),
        Builtin::Max => Some(if a.number() < b.number() { b } else { a }),
        Builtin::Rotate => Some(rotate(a, b)),
        Builtin::Abs | Builtin::Clz | Builtin::Popcount => None,
    }
}

/// How many of a value's highest bits are zero.
fn leading_zeros(value: Value) -> u32
    ensures { result ≡ count_leading_zeros (bits value.kind) (bits_of value.kind value.number) }
{
    value.to_bits().leading_zeros() - (64 - value.kind().bits())
}

/// The bits of a value turned left by a count modulo its width.
fn rotate(value: Value, count: Value) -> Value
    ensures { let kind = value.kind in
        let by = residue (bits kind) count.number in
        result ≡ wrapped kind (pos (builtins.turned (bits kind) (bits_of kind value.number) by)) }
{
    let kind = value.kind();
    let bits = u128::from(value.to_bits());
    let count = shift_count(kind, count);
    let turned = (bits << count) + (bits >> (kind.bits() - count));
    Value::wrapped(kind, turned as i128)
}
