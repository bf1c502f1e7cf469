//! What is known of code beside its instructions.
#![tactic(auto)]

use clmodel::tree::VariableType;
use clnum::IntType;

/// What a register may hold: a number of a type, or a pointer to elements of a type.
#[derive(Clone, Copy, PartialEq, Eq)]
pub enum RegisterKind {
    Integer(IntType),
    Pointer(IntType),
}

/// A register: what it may hold, and its name, which is a place in the tree's table of names. To read it unset is the
/// fault with that name.
#[derive(Clone, Copy, PartialEq, Eq)]
pub struct Register {
    pub kind: RegisterKind,
    pub name: u32,
}

/// The tables of code: registers, private arrays, local objects, names and parameters are named by their places here.
#[derive(Drop)]
pub struct Tables {
    /// What each register may hold, and its name
    pub registers: Vec<Register>,
    /// How many elements each private array has at most
    pub arrays: Vec<u32>,
    /// How many local objects the launch has
    pub objects: usize,
    /// How many names the tree's table of names has
    pub names: usize,
    /// The types of the kernel's parameters
    pub parameters: Vec<VariableType>,
    /// How many loops are entered where each instruction stands
    pub loops: Vec<usize>,
}
