//! The names of a program, and its kernels by them.
#![tactic(auto)]

ghost use Rattle.std.specs.Prelude.{◌≡◌, ◌<◌, ◌==◌, ◌&&◌, length, take, position, IfSome};
ghost use Rattle.std.specs.Option.{option_map};
ghost use Rattle.clmodel.specs.Setup as setup;
ghost use Rattle.clmodel.specs.Tree.{program, func, funcs};

use crate::tree::{Function, Tree};

/// A function of a program, with its place among the functions.
#[derive(Clone, Copy)]
pub struct PlacedFunction<'a> {
    pub place: usize,
    pub function: &'a Function,
}

/// Whether a function is the kernel of a name's number.
fn is_kernel_of(function: &Function, number: usize) -> bool
    ensures { result ≡ (function.now.is_kernel && (function.now.name == number)) }
{
    function.is_kernel && function.name as usize == number
}

/// The kernel of a name's number among functions.
fn kernel_among(functions: &[Function], number: usize) -> Option<PlacedFunction<'_>>
    ensures kernel { option_map (λ found. func found.function.now) result ≡ setup.kernel_in (funcs functions.now) number }
    ensures before { IfSome result (λ found. funcs (take found.place functions.now) ≡ setup.functions_before (funcs functions.now) number) }
    ensures within { IfSome result (λ found. found.place < length functions.now) }
{
    for i in 0..functions.len() {
        let place = functions.len() - 1 - i;
        let function = &functions[place];
        if is_kernel_of(function, number) {
            return Some(PlacedFunction { place, function });
        }
    }
    None
}

impl Tree {
    /// The kernel of a name's number, with its place: the last function of the name that is one (OpenCL 1.2, section
    /// 6.7.1). None where the program has no such kernel.
    pub fn kernel(&self, number: usize) -> Option<PlacedFunction<'_>>
        ensures kernel { option_map (λ found. func found.function.now) result ≡ setup.kernel_in (program self.now).functions number }
        ensures before { IfSome result (λ found. funcs (take found.place self.now.functions.items) ≡ setup.functions_before (program self.now).functions number) }
        ensures within { IfSome result (λ found. found.place < length self.now.functions.items) }
    {
        kernel_among(self.functions.as_slice(), number)
    }

    /// The number of a name: its place among the names of the program. None where no name of the program is these
    /// bytes.
    pub fn name_number(&self, name: &[u8]) -> Option<usize>
        ensures { result ≡ position (setup.same_text name.now) (program self.now).names }
    {
        self.names.iter().position(|other| name == other.as_slice())
    }
}
