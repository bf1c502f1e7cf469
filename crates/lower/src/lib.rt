//! The register code of kernels: from checked trees to verified code.
//!
//! `lower` gives the defined code of the kernel of a name, with the bodies of its helpers in place of their calls;
//! `lower_kernel` that of a kernel that was found. The law `acts_as_the_tree`: for every program, launch, item and list
//! of answers the code acts as the tree, whatever its tables are. So it never reads an unset register but as a
//! variable: another name would show. Kernels of typed programs are verified, short, and have few registers and
//! barriers, so that no count needs a test: besides what its parameters take, a kernel has at most 7,000,002
//! instructions, 16,000,016 registers and 1,000,000 barriers, whatever the limits of the device. `lower` answers that
//! there is no such kernel exactly where there is none. The only other error is out of memory.
#![tactic(auto)]

pub mod code_laws;
mod expansion;
pub mod kernel_laws;
mod kernels;
mod known_functions;
mod lowering;
mod simple;
mod sites;
mod statements;

pub use lowering::{LowerFault, lower, lower_kernel};
