//! The type checker: which programs are typed, and the fault of one that isn't (OpenCL 1.2, sections 6.1 to 6.12).
//!
//! `check` succeeds only on programs that are typed within the limits of the device, and then hands back the same tree
//! inside `Checked`. It answers a fault only where that is the least fault of the program within them. On a program
//! that is typed within them its only error is out of memory.
//!
//! What the bodies of functions hold, with the bodies of the functions that they call in place of the calls, is counted
//! up to one above the greatest limits that a device may have (this project's own): the depth of loops, the bytes of
//! private arrays, the number of nodes.
#![tactic(auto)]

ghost use Rattle.std.specs.Prelude.{◌≡◌, IfOk, IfErr};
ghost use Rattle.clmodel.specs.Tree.{program};
ghost use Rattle.clmodel.specs.Typing.{IsTypedWithin};
ghost use Rattle.clmodel.specs.Typing.Functions.{names, functions_faults};
ghost use Rattle.clmodel.specs.Typing.Least.{first};
ghost use Rattle.cltypes.specs.Answers.{IsFaultOf, Ends};
ghost use Rattle.cltypes.specs.Views.{functions_of, known};

mod assignments;
pub mod checked;
mod ends;
mod expression_sizes;
mod functions;
pub mod laws;
mod returns;
mod size;
mod statement_sizes;
mod statements;
mod summaries;

pub use checked::Checked;
use clmodel::tree::{Function, Tree};
pub use clmodel::type_fault::TypeFault;
use cltypes_scope::Context;
use functions::check_function;
use limits::Limits;
pub use size::NODE_LIMIT;
use std::alloc::{AllocError, Global};
pub use summaries::Summaries;

/// What is known before the first function: the limits of the device, and the names of all functions.
fn context_before(
    alloc: Global,
    limits: Limits,
    functions: &[Function],
) -> Result<Context, AllocError>
    ensures { IfOk result (λ context. context ≡ known limits (names (functions_of functions.now))) }
{
    let mut context = Context::new(alloc, limits);
    for function in functions {
        context.add_function(function.name)?;
    }
    Ok(context)
}

/// The first fault of functions within these limits, in the order of their text; Err(OutOfMemory) may come at any time.
fn check_functions(alloc: Global, limits: Limits, functions: &[Function]) -> Result<(), TypeFault>
    ensures { Ends result (first (functions_faults limits (names (functions_of functions.now)) (functions_of functions.now))) }
{
    let mut context = context_before(alloc, limits, functions)?;
    let mut summaries = Summaries::new(alloc);
    for function in functions {
        check_function(alloc, &mut context, &mut summaries, function)?;
    }
    Ok(())
}

/// Checks the types of a tree within the limits of a device. The fault is the first one in the order of the text,
/// children before parents, and of one place the one of the least number; Err(OutOfMemory) may come at any time, and
/// nothing else for a program that is typed within these limits.
pub fn check(alloc: Global, limits: Limits, tree: Tree) -> Result<Checked, TypeFault>
    ensures typed { IfOk result (λ checked. (checked.tree ≡ tree) × IsTypedWithin limits (program tree)) }
    ensures fault { IfErr result (IsFaultOf limits (program tree)) }
    ensures typed_only { IsTypedWithin limits (program tree) → IfErr result (λ f. f ≡ TypeFault.OutOfMemory) }
{
    check_functions(alloc, limits, &tree.functions)?;
    Ok(Checked { tree })
}
