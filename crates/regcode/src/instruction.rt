//! The instructions of register code.
#![tactic(auto)]

use clmodel::action::Fences;
use clmodel::setup::{AtomicFunction, WorkItemFunction};
use clmodel::tree::VariableType;
use clnum::{BinaryOperator, Builtin, IntType, UnaryOperator, Value};

/// The registers of what an atomic operation is given beside its pointer (OpenCL 1.2, section 6.12.11).
#[derive(Clone, Copy)]
pub enum FetchOperands {
    /// Nothing: it adds or takes 1
    Alone,
    /// A number
    Number(u32),
    /// The number to compare with, and the one to put where the old number equals it
    Pair { expected: u32, value: u32 },
}

/// An instruction. Registers and private arrays are named by their numbers, variables by their names' places in the
/// tree's table of names, loops by their depth: 0 is the outermost. `to` is the register that is written.
#[derive(Clone, Copy)]
pub enum Instruction {
    /// A number
    Constant {
        to: u32,
        value: Value,
    },
    /// A variable is declared: it has no value
    Unset {
        to: u32,
    },
    /// A variable's value; the fault unset, with its name, if it has none
    Move {
        to: u32,
        from: u32,
        name: u32,
    },
    /// A value as a variable of a type holds it (C99 6.5.16.1)
    AssignConversion {
        to: u32,
        from: u32,
        kind: VariableType,
    },
    /// A cast (OpenCL 1.2, section 6.2.3)
    Convert {
        to: u32,
        from: u32,
        kind: IntType,
    },
    /// A number in the common type of its own and another type (C99 6.3.1.8), as `?:` gives it
    UsualConversion {
        to: u32,
        from: u32,
        other: IntType,
    },
    Unary {
        to: u32,
        operator: UnaryOperator,
        operand: u32,
    },
    /// An operator on two integers, or `+` and `-` on a pointer and an integer
    Binary {
        to: u32,
        operator: BinaryOperator,
        left: u32,
        right: u32,
    },
    /// A function of one integer or of two
    Builtin {
        to: u32,
        function: Builtin,
        first: u32,
        second: Option<u32>,
    },
    /// `get_work_dim()`
    Dimensions {
        to: u32,
    },
    /// What a work-item function gives in a dimension
    Query {
        to: u32,
        function: WorkItemFunction,
        dimension: u32,
    },
    /// The kernel's argument of a number, for a parameter of a type
    Argument {
        to: u32,
        number: u32,
        kind: VariableType,
    },
    /// A pointer to the start of the local object of a number
    Local {
        to: u32,
        number: u32,
        element: IntType,
    },
    /// A private array is declared: it has n elements, and none is set
    UnsetArray {
        array: u32,
        length: u32,
    },
    /// An element of a private array; a fault with its name where there is none, or none that is set
    PrivateLoad {
        to: u32,
        array: u32,
        index: u32,
        element: IntType,
        name: u32,
    },
    /// An element of a private array is set; a fault with its name where there is none
    PrivateStore {
        array: u32,
        index: u32,
        value: u32,
        element: IntType,
        name: u32,
    },
    /// A pointer as it is
    MovePointer {
        to: u32,
        from: u32,
    },
    /// A pointer moved by a number of elements
    Offset {
        to: u32,
        pointer: u32,
        index: u32,
    },
    Load {
        to: u32,
        pointer: u32,
    },
    Store {
        pointer: u32,
        value: u32,
    },
    /// An atomic update, by no exchange and no compare-exchange; without a value the function adds or takes 1
    Update {
        function: AtomicFunction,
        pointer: u32,
        value: Option<u32>,
    },
    /// An atomic operation whose old number is used
    Fetch {
        to: u32,
        function: AtomicFunction,
        pointer: u32,
        operands: FetchOperands,
    },
    /// A barrier: its site, and the number of loops round it
    Barrier {
        site: u32,
        depth: u32,
        fences: Fences,
    },
    /// A loop is entered: it has made no turns
    Enter {
        depth: u32,
    },
    /// A turn of a loop begins
    Turn {
        depth: u32,
    },
    /// Past n further instructions
    Jump {
        by: u32,
    },
    /// Past n further instructions, if a number is zero
    JumpIfZero {
        test: u32,
        by: u32,
    },
    /// Back by n instructions
    Back {
        by: u32,
    },
    /// The item has ended
    End,
}
