//! Walks over the code of functions, and how long it is.
#![tactic(auto)]

ghost use Rattle.std.specs.Prelude.{◌≡◌, ◌≤◌, ◌-◌, ◌^◌, ℕ, length, IfOk, MatchOption};
ghost use Rattle.clmodel.specs.Tree.{func};
ghost use Rattle.origins.specs.Helpers.{LengthsKnown, IsLength};
ghost use Rattle.origins.specs.Origins.{function_origins, origins_at};
ghost use Rattle.origins.specs.Walks.{Walks};

use crate::expressions::then_own;
use crate::names::declare_parameters;
use crate::node::{Node, WalkEnd, pass_own};
use crate::setting::Setting;
use crate::statements::{then_statements, value_count};
use clmodel::tree::Function;
use std::alloc::{AllocError, Global};

/// Passes the parameters of a function and its body.
pub fn pass_function<'a>(
    alloc: Global,
    functions: &[Function],
    lengths: &[Option<usize>],
    function: &'a Function,
    left: usize,
) -> Result<usize, WalkEnd<'a>>
    requires { LengthsKnown functions.now lengths.now }
    ensures { Walks (origins_at functions.now) (function_origins functions.now (func function.now)) left result }
{
    let node = Node::Function(function);
    let setting = Setting {
        functions,
        lengths,
        result: function.result,
    };
    let mut names = Vec::new(alloc);
    let parameters = function.parameters.as_slice();
    match declare_parameters(&mut names, parameters) {
        Ok(()) => {
            let given = pass_own(node, parameters.len(), left);
            let passed = then_statements(given, setting, &mut names, function.body.as_slice());
            then_own(passed, node, value_count(function.result))
        }
        Err(_) => Err(WalkEnd::OutOfMemory),
    }
}

/// How many instructions a function has as a helper, where they are fewer than 2^64 - 1. An error is out of memory.
fn length_of(
    alloc: Global,
    functions: &[Function],
    lengths: &[Option<usize>],
    function: &Function,
) -> Result<Option<usize>, AllocError>
    requires { LengthsKnown functions.now lengths.now }
    ensures { IfOk result (IsLength (function_origins functions.now (func function.now))) }
{
    match pass_function(alloc, functions, lengths, function, usize::MAX) {
        Ok(left) => Ok(Some(usize::MAX - left)),
        Err(WalkEnd::Found(_)) => Ok(None),
        Err(WalkEnd::Inside(_)) => Ok(None),
        Err(WalkEnd::Lost) => Ok(None),
        Err(WalkEnd::OutOfMemory) => Err(AllocError),
    }
}

/// How many each of these functions has, behind one another. Each is passed once. An error is out of memory.
pub fn lengths_of(alloc: Global, functions: &[Function]) -> Result<Vec<Option<usize>>, AllocError>
    ensures { IfOk result (λ lengths. LengthsKnown functions.now lengths.items) }
{
    let mut lengths = Vec::new(alloc);
    for i in 0..functions.len() {
        let length = length_of(alloc, &functions[..i], lengths.as_slice(), &functions[i])?;
        lengths.push(length)?;
    }
    Ok(lengths)
}
