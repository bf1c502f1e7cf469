//! The origin of an instruction of a kernel.
#![tactic(auto)]

ghost use Rattle.std.specs.Prelude.{◌≡◌, None, IfOk};
ghost use Rattle.clmodel.specs.Setup.{kernel_in};
ghost use Rattle.clmodel.specs.Tree.{program, func};
ghost use Rattle.lower_code.specs.Emission.{functions_of};
ghost use Rattle.origins.specs.Helpers.{LengthsKnown};
ghost use Rattle.origins.specs.Origins.{origins_at, kernel_origins};
ghost use Rattle.origins.specs.Finding.{HasOrigin, IsFound, IsFoundInside, IsOriginIn};

use crate::expressions::then_own;
use crate::functions::{lengths_of, pass_function};
use crate::node::{Entered, Node, WalkEnd};
use clmodel::tree::{Function, Tree};
use std::alloc::{AllocError, Global};

/// Where an instruction comes from: its node, and where the calls of helpers begin in whose bodies it stands, the
/// outermost first.
#[derive(Drop)]
pub struct Origin<'a> {
    pub node: Node<'a>,
    pub through: Vec<u32>,
}

/// The origin of an instruction in the body of a helper: a walk over that body, and over that of each helper called
/// there in whose body the instruction stands. None where the body has 2^64 - 1 instructions or more. An error is out
/// of memory.
fn origin_inside<'a>(
    alloc: Global,
    functions: &'a [Function],
    lengths: &[Option<usize>],
    entered: Entered,
) -> Result<Option<Origin<'a>>, AllocError>
    requires known { LengthsKnown functions.now lengths.now }
    requires there { HasOrigin (origins_at functions.now entered.place) entered.left }
    ensures { IfOk result (IsFoundInside functions.now entered) }
{
    let mut through = Vec::new(alloc);
    through.push(entered.call)?;
    let mut end = entered.place;
    let mut left = entered.left;
    loop {
        let function = &functions[end];
        match pass_function(alloc, &functions[..end], &lengths[..end], function, left) {
            Ok(_) => unreachable!(),
            Err(WalkEnd::Found(node)) => return Ok(Some(Origin { node, through })),
            Err(WalkEnd::Inside(further)) => {
                through.push(further.call)?;
                end = further.place;
                left = further.left;
            }
            Err(WalkEnd::Lost) => return Ok(None),
            Err(WalkEnd::OutOfMemory) => return Err(AllocError),
        }
    }
}

/// The origin of the instruction at a place of a kernel's code, with the functions before it. None where there is no
/// such instruction, or the code has 2^64 - 1 instructions or more. An error is out of memory.
fn kernel_origin<'a>(
    alloc: Global,
    functions: &'a [Function],
    kernel: &'a Function,
    place: usize,
) -> Result<Option<Origin<'a>>, AllocError>
    ensures { IfOk result (IsFound (kernel_origins (functions_of functions.now) (func kernel.now)) place) }
{
    let lengths = lengths_of(alloc, functions)?;
    let passed = pass_function(alloc, functions, lengths.as_slice(), kernel, place);
    match then_own(passed, Node::Function(kernel), 1) {
        Ok(_) => Ok(None),
        Err(WalkEnd::Found(node)) => Ok(Some(Origin {
            node,
            through: Vec::new(alloc),
        })),
        Err(WalkEnd::Inside(entered)) => origin_inside(
            alloc,
            functions,
            lengths.as_slice(),
            entered,
        ),
        Err(WalkEnd::Lost) => Ok(None),
        Err(WalkEnd::OutOfMemory) => Err(AllocError),
    }
}

/// The origin of the instruction at a place of the code of the kernel of a name's number. None where there is no such
/// kernel or no such instruction; or where the kernel's code has 2^64 - 1 instructions or more, as that of no checked
/// program. An error is out of memory. It takes one walk over each function before the kernel, for its length, and one
/// over each function in whose code the instruction stands.
pub fn origin_of<'a>(
    alloc: Global,
    tree: &'a Tree,
    number: u32,
    place: usize,
) -> Result<Option<Origin<'a>>, AllocError>
    ensures origin { IfOk result (IsOriginIn (program tree.now).functions number place) }
    ensures none { IfOk result (λ found. kernel_in (program tree.now).functions number ≡ None → found ≡ None) }
{
    match tree.kernel(number as usize) {
        None => Ok(None),
        Some(kernel) => {
            let functions = tree.functions.as_slice();
            kernel_origin(alloc, &functions[..kernel.place], kernel.function, place)
        }
    }
}
