//! Operations of work-items, done on spaces.

ghost use Rattle.std.specs.Prelude.{◌≡◌, ◌+◌, ◌<◌, ◌≤◌, false, IfSome};
ghost use Rattle.clmodel.specs.Launch.{first_byte};
ghost use Rattle.spaces.specs.Operations.{IsPerformed};

use crate::space::{Space, SpaceFault};
use clmodel::access::Operation;
use clmodel::action::Answer;

/// Does an operation at the bytes of a space from `first` on, whole (OpenCL 1.2, section 6.12.11), and answers the
/// item: a load and a fetch get the number that they read. An error says why nothing is done, and leaves the space: a
/// byte of it is out of range, or a byte that it reads is unset, or no memory is left to keep what it stores.
pub fn perform<S: Space>(
    space: &mut S,
    first: u64,
    operation: Operation,
) -> Result<Answer, SpaceFault>
    requires { S.read_only ≡ false }
    ensures { IsPerformed S.may_want (S.bytes space.old) first operation (S.bytes space.new) result }
{
    match operation {
        Operation::Load(width) => Ok(Answer::Value(space.load(first, width)?)),
        Operation::Store(width, value) => {
            space.store(first, width, value)?;
            Ok(Answer::Done)
        }
        Operation::Update(class, operand) => {
            space.update(first, class, operand)?;
            Ok(Answer::Done)
        }
        Operation::Fetch(op, operand) => {
            Ok(Answer::Value(space.fetch(first, op, operand)? as u64))
        }
    }
}

/// The first byte of an element of `count` bytes of an object of `bytes` bytes, or `None` where one of the element's
/// bytes is out of range (C99 6.5.2.1, 6.5.6).
pub fn first_byte(bytes: u64, element: i64, count: u64) -> Option<u64>
    requires { 0 < count }
    ensures value { result ≡ first_byte bytes element count }
    ensures inside { IfSome result (λ first. first + count ≤ bytes) }
{
    if element < 0 {
        return None;
    }
    let element = element as u64;
    if element < bytes / count {
        Some(element * count)
    } else {
        None
    }
}
