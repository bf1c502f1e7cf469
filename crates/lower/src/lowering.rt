//! Lowering: from checked trees to verified code.
#![tactic(auto)]

ghost use Rattle.std.specs.Prelude.{◌≡◌, ◌↔◌, take, map, None, IfOk, IfErr};
ghost use Rattle.clmodel.specs.Setup.{kernel_number};
ghost use Rattle.clmodel.specs.Tree.{program};
ghost use Rattle.cltypes.specs.Kernels.{IsKernel};
ghost use Rattle.regcode.specs.Listed.{listing};
ghost use Rattle.lower_code.specs.Helpers.{NodesCounted, WidthsCounted, AreNarrow};
ghost use Rattle.lower_code.specs.Room.{FewParameters, FewElements};
ghost use Rattle.lower.specs.Bounds.{IsWithinLimits};
ghost use Rattle.lower.specs.Lists.{Lists};
ghost use Rattle.lower.specs.Lowers.{IsLowered};
ghost use Rattle.lower.specs.Names.{LowersNamed, ListsNamed};

use crate::code_laws::acts_as_the_tree;
use crate::kernel_laws::{
    typed_kernels_are_short, typed_kernels_are_verified, typed_kernels_have_few_barriers,
};
use crate::kernels::emit_kernel;
use clmodel::lookup::PlacedFunction;
use clmodel::tree::{Parameter, Tree, VariableType};
use cltypes::Checked;
use code_tables::tables_of;
use regcode::{Code, Instruction, Tables, VerifyFault, verify};
use std::alloc::{AllocError, Global};
use thiserror::Error;

/// Why a kernel isn't lowered.
#[derive(Clone, Copy, Debug, PartialEq, Eq, Error)]
pub enum LowerFault {
    /// 1: no kernel has the name
    #[error("no such kernel")]
    NoSuchKernel,
    /// 2: out of memory
    #[error("out of memory")]
    OutOfMemory,
}

impl From<AllocError> for LowerFault {
    ghost use Rattle.lower.specs.declared.lowering.LowerFault.TheVariants as fault;

    ghost from_gives = { λ _ made. made ≡ fault.OutOfMemory };

    fn from(_: AllocError) -> Self {
        LowerFault::OutOfMemory
    }
}

/// The types of parameters.
fn types_of(alloc: Global, parameters: &[Parameter]) -> Result<Vec<VariableType>, AllocError>
    ensures { IfOk result (λ types. types.items ≡ map (λ p. p.kind) parameters.now) }
{
    parameters
        .iter()
        .map(|parameter| parameter.kind)
        .collect(alloc)
}

/// Code with its tables.
#[derive(Drop)]
struct Listed {
    instructions: Vec<Instruction>,
    tables: Tables,
}

/// The code of a kernel of a tree with its tables. Err if out of memory.
fn list_kernel(alloc: Global, tree: &Tree, kernel: PlacedFunction<'_>) -> Result<Listed, AllocError>
    requires placed { IsKernel tree.now kernel.place kernel.function.now }
    requires limited { IsWithinLimits (take kernel.place tree.now.functions.items) kernel.function.now }
    requires nodes { NodesCounted tree.now.functions.items }
    requires widths { WidthsCounted tree.now.functions.items }
    requires narrow { AreNarrow tree.now.functions.items }
    requires parameters { FewParameters tree.now.functions.items }
    requires elements { FewElements tree.now.functions.items }
    ensures { IfOk result (λ code. Lists (program tree.now).functions kernel.entry.function.now.name (listing code.instructions.items code.tables)) }
{
    let parameters = types_of(alloc, &kernel.function.parameters)?;
    let instructions = emit_kernel(alloc, tree, kernel)?;
    let tables = tables_of(alloc, &instructions, parameters)?;
    Ok(Listed {
        instructions,
        tables,
    })
}

/// The code of a kernel that was found in a tree, as by `Checked::kernel`. An error is out of memory. No count is
/// tested: by the limits of nodes, of parameters and of the length of an array, the length of each jump and of each
/// private array, the number of each barrier and register and the depth of each loop have 32 bits, and the length of
/// each helper that is called is known.
pub fn lower_kernel(
    alloc: Global,
    checked: &Checked,
    kernel: PlacedFunction<'_>,
) -> Result<Code, AllocError>
    requires { IsKernel checked.now.tree kernel.place kernel.function.now }
    ensures code { IfOk result (λ code. IsLowered (program checked.now.tree) kernel.entry.function.now.name code) }
    ensures listed { IfOk result (λ code. Lists (program checked.now.tree).functions kernel.entry.function.now.name code) }
{
    acts_as_the_tree();
    typed_kernels_are_verified();
    typed_kernels_have_few_barriers();
    typed_kernels_are_short();
    let listed = list_kernel(alloc, &checked.tree, kernel)?;
    match verify(listed.instructions, listed.tables) {
        Ok(code) => Ok(code),
        Err(VerifyFault::Rejected) => unreachable!(),
    }
}

/// The code of the kernel of a name. Err(OutOfMemory) comes where memory is refused.
pub fn lower(alloc: Global, checked: &Checked, kernel: &str) -> Result<Code, LowerFault>
    ensures code { IfOk result (LowersNamed (program checked.now.tree) kernel.now) }
    ensures listed { IfOk result (ListsNamed (program checked.now.tree) kernel.now) }
    ensures none { IfErr result (λ fault. (fault ≡ LowerFault.NoSuchKernel) ↔ (kernel_number (program checked.now.tree) kernel.now ≡ None)) }
{
    match checked.kernel(kernel.as_bytes()) {
        Some(found) => Ok(lower_kernel(alloc, checked, found)?),
        None => Err(LowerFault::NoSuchKernel),
    }
}
