//! Where in the source the instructions of a kernel's code come from: for each place of the code that `lower` makes of
//! a kernel, the node of the tree whose own instruction stands there, and the calls of helpers round it. The definition
//! (`specs/Origins`) follows the tree alone, as the code's does; `code_is_marked` says that the two fit: as many
//! instructions as origins, and each instruction that acts or can fail is one that its node makes. `origin_of` finds
//! the defined origin of a place by walks over the tree that count down, so that nothing is kept of it while kernels
//! run. The crate knows no text, line or column, no work-item and no launch.
#![tactic(auto)]

mod assignments;
mod expressions;
mod functions;
mod helpers;
mod known;
mod names;
mod node;
mod origin;
mod origin_laws;
mod setting;
mod statements;
mod targets;

pub use node::Node;
pub use origin::{Origin, origin_of};
pub use origin_laws::code_is_marked;
