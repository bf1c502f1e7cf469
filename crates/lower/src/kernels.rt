//! The code of kernels.
#![tactic(auto)]

ghost use Rattle.std.specs.Prelude.{◌≡◌, ◌≤◌, length, take, IfOk};
ghost use Rattle.clmodel.specs.Tree.{func};
ghost use Rattle.lower_code.specs.Code.{kernel_code};
ghost use Rattle.lower_code.specs.Helpers.{NodesCounted, WidthsCounted, AreNarrow};
ghost use Rattle.lower_code.specs.Emission.{functions_of};
ghost use Rattle.lower_code.specs.Room.{FewParameters, FewElements};
ghost use Rattle.lower.specs.Bounds.{IsWithinLimits};

use crate::expansion::expand;
use crate::known_functions::known_of_all;
use crate::statements::emit_body;
use clmodel::lookup::PlacedFunction;
use clmodel::tree::{Function, Tree};
use lower_code::draft::Draft;
use lower_code::functions::ends_of;
use lower_code::holes::Helpers;
use lower_code::positions::BodyPosition;
use lower_code::variables::put_arguments;
use regcode::Instruction;
use std::alloc::{AllocError, Global};

/// The code of a kernel that stands behind these functions. Err if out of memory.
fn emit_function(
    alloc: Global,
    helpers: Helpers<'_>,
    kernel: &Function,
) -> Result<Vec<Instruction>, AllocError>
    requires { IsWithinLimits helpers.functions.now kernel.now }
    ensures { IfOk result (λ code. code.items ≡ kernel_code (functions_of helpers.entry.functions.now) (func kernel.now)) }
{
    let mut code = Draft::new(alloc);
    code.put(Instruction::End)?;
    emit_body(helpers, kernel, BodyPosition::default(), &mut code)?;
    put_arguments(kernel.parameters.as_slice(), &mut code)?;
    expand(alloc, code.into_parts())
}

/// The code of a kernel at a place among the functions of a tree. Err if out of memory.
pub fn emit_kernel(
    alloc: Global,
    tree: &Tree,
    kernel: PlacedFunction<'_>,
) -> Result<Vec<Instruction>, AllocError>
    requires within { kernel.place ≤ length tree.now.functions.items }
    requires limited { IsWithinLimits (take kernel.place tree.now.functions.items) kernel.function.now }
    requires nodes { NodesCounted tree.now.functions.items }
    requires widths { WidthsCounted tree.now.functions.items }
    requires narrow { AreNarrow tree.now.functions.items }
    requires parameters { FewParameters tree.now.functions.items }
    requires elements { FewElements tree.now.functions.items }
    ensures { IfOk result (λ code. code.items ≡ kernel_code (functions_of (take kernel.entry.place tree.now.functions.items)) (func kernel.entry.function.now)) }
{
    let functions = tree.functions.as_slice();
    let before = &functions[..kernel.place];
    let ends = ends_of(alloc, before)?;
    let known = known_of_all(alloc, before, ends.as_slice())?;
    let helpers = Helpers {
        functions: before,
        known: known.as_slice(),
        ends: ends.as_slice(),
    };
    emit_function(alloc, helpers, kernel.function)
}
