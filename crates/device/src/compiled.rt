//! Kernels with their code.
#![tactic(auto)]

ghost use Rattle.std.specs.Prelude.{◌≡◌, IfOk, MatchOption};
ghost use Rattle.std.specs.List.{list_any};
ghost use Rattle.std.specs.Map.{set_value, values_of};
ghost use Rattle.clmodel.specs.Tree.{program};
ghost use Rattle.cltypes.specs.Kernels.{IsKernel};
ghost use Rattle.host_commands.specs.Kernels.{names_buffer};
ghost use Rattle.spaces.specs.Tables.{is, find};
ghost use Rattle.lower.specs.Lowers.{IsLowered};
ghost use Rattle.device.specs.Kept.{IsCodeOf, with_argument_set};

use clmodel::lookup::PlacedFunction;
use clmodel::setup::Argument;
use clmodel::text::Name;
use cltypes::Checked;
use host_commands::kernel::Kernel;
use lower::kernel_laws::typed_kernels_fit;
use lower::lower_kernel;
use regcode::Code;
use renumbering::renumber;
use spaces::Table;
use std::alloc::{AllocError, Global};

/// A kernel with its code, which is made once, with the kernel.
#[derive(Drop)]
pub(crate) struct CompiledKernel {
    pub(crate) kernel: Kernel,
    pub(crate) code: Code,
}

/// The code of a program's kernel, with the registers that its instructions name. An error is out of memory.
pub(crate) fn code_of(
    alloc: Global,
    checked: &Checked,
    kernel: PlacedFunction<'_>,
) -> Result<Code, AllocError>
    requires { IsKernel checked.now.tree kernel.place kernel.function.now }
    ensures lowered { IfOk result (IsLowered (program checked.now.tree) kernel.entry.function.now.name) }
    ensures code { IfOk result (IsCodeOf (program checked.now.tree) kernel.entry.function.now.name) }
{
    typed_kernels_fit();
    let code = lower_kernel(alloc, checked, kernel)?;
    renumber(alloc, code)
}

/// Whether an argument of a kernel names a buffer.
pub(crate) fn holds_buffer(kernels: &Table<CompiledKernel>, buffer: &Name) -> bool
    ensures { result ≡ list_any (λ compiled. list_any (names_buffer buffer.now) compiled.kernel.arguments) (values_of kernels.now) }
{
    kernels
        .values()
        .any(|compiled| compiled.kernel.uses(buffer))
}

/// Whether a kernel is of a program.
pub(crate) fn has_program(kernels: &Table<CompiledKernel>, program: &Name) -> bool
    ensures { result ≡ list_any (λ compiled. is program.now compiled.kernel.program) (values_of kernels.now) }
{
    kernels
        .values()
        .any(|compiled| program == compiled.kernel.program())
}

/// Sets the argument of an index of the kernel of a name, over an earlier one, if there are such a kernel and such a
/// parameter (OpenCL 1.2, section 5.7.2). Its code stays.
pub(crate) fn set_argument(
    kernels: &mut Table<CompiledKernel>,
    name: &Name,
    index: usize,
    argument: Argument,
)
    ensures { MatchOption (find kernels.old name.now) (kernels.new ≡ kernels.old) (λ compiled. kernels.new ≡ set_value (is name.now) kernels.old (with_argument_set compiled index argument)) }
{
    if let Some(compiled) = kernels.get_mut(name) {
        compiled.kernel.set_argument(index, argument);
    }
}
