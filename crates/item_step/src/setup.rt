//! What a launch runs.
#![tactic(auto)]

use clmodel::setup::{Argument, Range};
use clmodel::tree::Tree;

/// A kernel of a program with its range, its arguments and a budget (OpenCL 1.2, section 3.2).
#[derive(Clone, Copy)]
pub struct Setup<'a> {
    /// The tree of the program
    pub tree: &'a Tree,
    /// The number of the kernel's name
    pub kernel: u32,
    pub range: &'a Range,
    /// An argument for each parameter of the kernel; None is one that isn't set
    pub arguments: &'a [Option<Argument>],
    /// The ticks that an item may make
    pub budget: u32,
}
