//! What the parameters of a kernel hold (OpenCL 1.2, section 6.9).
#![tactic(auto)]

ghost use Rattle.std.specs.Prelude.{◌≡◌, ◌<◌, ◌≤◌, ◌^◌, ℕ, List, length, map, IfOk};
ghost use Rattle.clmodel.specs.Setup.{place_of};
ghost use Rattle.clmodel.specs.Next as next;
ghost use Rattle.regcode.specs.Machine.{argument_at};
ghost use Rattle.item_value.specs.Arguments.{buffer_place};
ghost use Rattle.item_value.specs.ItemContext.{item_context};

use crate::item_context::ItemContext;
use clmodel::access::Object;
use clmodel::operand::{Operand, Pointer};
use clmodel::setup::Argument;
use clmodel::text::Name;
use clmodel::tree::VariableType;
use clnum::Value;
use std::alloc::{AllocError, Global};

/// The place of a name among others, or their count where it isn't there.
fn place(names: &[Name], name: &Name) -> usize
    ensures value { result ≡ place_of names.now name.now }
    ensures within { result ≤ length names.now }
{
    for (i, other) in names.iter().enumerate() {
        if name == other {
            return i;
        }
    }
    names.len()
}

/// The place of the buffer that an argument names, 0 of an argument that names none.
fn buffer_place(buffers: &[Name], argument: &Option<Argument>) -> u32
    requires { length buffers.now < 2 ^ 32 }
    ensures { result ≡ buffer_place buffers.now argument.now }
{
    match argument {
        Some(Argument::Buffer(name)) => place(buffers, name) as u32,
        _ => 0,
    }
}

/// The places of the buffers that arguments name. They are made once for each launch, so that no item compares names:
/// a walk over the names for each argument. An error is out of memory.
pub fn buffer_places(
    alloc: Global,
    buffers: &[Name],
    arguments: &[Option<Argument>],
) -> Result<Vec<u32>, AllocError>
    requires { length buffers.now < 2 ^ 32 }
    ensures { IfOk result (λ places. places.items ≡ map (buffer_place buffers.now) arguments.now) }
{
    let mut places = Vec::new(alloc);
    for argument in arguments {
        places.push(buffer_place(buffers, argument))?;
    }
    Ok(places)
}

/// What the parameter of this number and type holds, given its argument with the place of the buffer that it names.
fn content(
    place: u32,
    number: u32,
    kind: VariableType,
    argument: &Option<Argument>,
) -> Option<Operand>
    ensures { (buffers : List (List ℕ)) → place ≡ buffer_place buffers argument.now → result ≡ next.content buffers number kind argument.now }
{
    // One match in another: so each arm is one case of the definition.
    match kind {
        VariableType::Pointer(pointer) => match argument {
            Some(Argument::Buffer(_)) => Some(Operand::Pointed(Pointer {
                object: Object::Buffer(place),
                element: pointer.element,
                offset: 0,
            })),
            Some(Argument::Local(_)) => Some(Operand::Pointed(Pointer {
                object: Object::Local(number),
                element: pointer.element,
                offset: 0,
            })),
            _ => None,
        },
        VariableType::Integer(kind) => match argument {
            Some(Argument::Value(number)) => {
                Some(Operand::Integral(Value::wrapped(kind, *number)))
            }
            _ => None,
        },
    }
}

/// What a parameter of a type holds, given the kernel's arguments; nothing where its argument isn't set.
pub fn parameter(context: &ItemContext<'_>, number: u32, kind: VariableType) -> Option<Operand>
    ensures { result ≡ next.content (item_context context.now).buffers number kind (argument_at (item_context context.now).arguments number) }
{
    let place = number as usize;
    if place < context.arguments.len() {
        content(
            context.places[place],
            number,
            kind,
            &context.arguments[place],
        )
    } else {
        None
    }
}
