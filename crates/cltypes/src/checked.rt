//! Trees that were checked, and their kernels by name.
#![tactic(auto)]

ghost use Rattle.std.specs.Prelude.{◌≡◌, IfSome};
ghost use Rattle.std.specs.Option.{option_map};
ghost use Rattle.clmodel.specs.Setup.{kernel_number};
ghost use Rattle.clmodel.specs.Tree.{program};
ghost use Rattle.clmodel.specs.Typing.{IsTypedProgram};
ghost use Rattle.cltypes.specs.Kernels.{IsKernel};

use clmodel::lookup::PlacedFunction;
use clmodel::tree::Tree;

/// A tree whose types were checked.
#[derive(Drop)]
pub struct Checked {
    pub tree: Tree,
    pub ghost typed: { ∥ IsTypedProgram (program tree) ∥₁ },
}

impl Checked {
    /// The kernel of a name, with its place: the last function of the name that is one (OpenCL 1.2, section 6.7.1).
    /// None where the program has no such kernel. Whoever needs more of the kernel hands on what was found.
    pub fn kernel(&self, name: &[u8]) -> Option<PlacedFunction<'_>>
        ensures named { option_map (λ found. found.function.now.name) result ≡ kernel_number (program self.now.tree) name.now }
        ensures placed { IfSome result (λ found. IsKernel self.now.tree found.place found.function.now) }
    {
        let number = self.tree.name_number(name)?;
        self.tree.kernel(number)
    }
}
