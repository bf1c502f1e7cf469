//! From a row to its launch.
#![tactic(auto)]

ghost use Rattle.std.specs.Prelude.{◌≤◌, length};
ghost use Rattle.clmodel.specs.Tree.{program};
ghost use Rattle.host_commands.specs.Ranges.{IsLaunchable};
ghost use Rattle.lower.specs.Lowers.{IsLowered};

use crate::comparing::{Compared, compare};
use crate::failing::NotRun;
use crate::inputs::Inputs;
use crate::row::{Row, number_of};
use cltypes::Checked;
use host_commands::build::build;
use host_commands::ranges::{group_items, is_bad_dimension, is_bad_group, is_too_many};
use item_step::{Launch, Setup, is_local_too_large};
use limits::Limits;
use lower::lower_kernel;
use regcode::Code;
use std::alloc::Global;

/// The most arguments that a row has.
const MOST_ARGUMENTS: usize = 4;

/// The most ticks that an item may make.
const MOST_TICKS: u64 = 1_000_000;

/// Compares the runs of code with inputs.
#[tactic(auto, using(crate::proofs::Names::few_names))]
fn compare_code(
    alloc: Global,
    inputs: &Inputs,
    checked: &Checked,
    kernel: u32,
    code: &Code,
    budget: u32,
) -> Result<Compared, NotRun>
    requires lowered { IsLowered (program checked.now.tree) kernel code.now }
    requires limited { budget ≤ 1000000 }
{
    let Inputs {
        range,
        arguments,
        buffers,
    } = inputs;
    let setup = Setup {
        tree: &checked.tree,
        kernel,
        range,
        arguments: arguments.as_slice(),
        budget,
    };
    let limits = Limits::profile();
    if is_bad_dimension(range)
        || is_bad_group(&limits, range)
        || is_too_many(&limits, range)
        || arguments.len() > MOST_ARGUMENTS
        || is_local_too_large(
            limits.local_bytes,
            &checked.tree,
            kernel,
            arguments.as_slice(),
        )
    {
        return Err(NotRun);
    }
    let launch = Launch::new(alloc, setup, group_items(&limits, range), code)?;
    compare(alloc, &launch, buffers)
}

/// Compares the runs of a program's kernel `f`.
fn compare_program(
    alloc: Global,
    inputs: &Inputs,
    checked: &Checked,
    budget: u32,
) -> Result<Compared, NotRun>
    requires { budget ≤ 1000000 }
{
    let Some(found) = checked.kernel(b"f") else {
        return Err(NotRun);
    };
    let code = lower_kernel(alloc, checked, found)?;
    compare_code(alloc, inputs, checked, found.function.name, &code, budget)
}

/// Compares the runs of a row's source.
fn compare_source(alloc: Global, inputs: &Inputs, row: &Row<'_>) -> Result<Compared, NotRun> {
    let budget = number_of(row.budget).min(MOST_TICKS) as u32;
    let checked = build(alloc, Limits::profile(), row.source)?;
    compare_program(alloc, inputs, &checked, budget)
}

/// Runs a row with each log.
pub fn compare_row(alloc: Global, row: &Row<'_>) -> Result<Compared, NotRun> {
    let inputs = Inputs::of(alloc, row)?;
    compare_source(alloc, &inputs, row)
}
