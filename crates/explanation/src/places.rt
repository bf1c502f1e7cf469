//! Places in the source. Lines and columns count from 1, columns and lengths in bytes.
#![tactic(auto)]

/// What stands at a place in the source.
#[derive(Clone, Copy, Debug, PartialEq, Eq)]
pub enum NodeKind {
    /// A number or a variable
    Operand,
    /// `name[index]`
    Element,
    /// `*pointer`
    Dereference,
    /// A call of a function
    Call,
    /// An operator with its operands, a cast or a choice
    Operation,
    Declaration,
    /// An assignment, or a step such as `i++`
    Assignment,
    /// A `while`, a `do` or a `for`
    Loop,
    /// Another statement
    Statement,
    /// A function as a whole
    Function,
}

/// The call of a helper round a place.
#[derive(Drop)]
pub struct CallSite {
    /// The byte of the source at which the call begins, from 0
    pub offset: usize,
    /// The line of the source, and that of the script
    pub line: usize,
    pub script_line: usize,
    pub column: usize,
    /// The text of its line, in which its column is the same
    pub text: String,
}

/// A loop round a place, with the number of its turn, where it is known: from 1, as a barrier there tells it. In a test
/// before the first turn it is 0.
#[derive(Drop)]
pub struct LoopSite {
    pub offset: usize,
    pub line: usize,
    pub script_line: usize,
    pub column: usize,
    pub turn: Option<u32>,
}

/// A place in the source of a launch's program.
#[derive(Drop)]
pub struct Spot {
    /// The byte of the source at which it begins, from 0, and how many bytes it has
    pub offset: usize,
    pub length: usize,
    /// The line of the source, and that of the script
    pub line: usize,
    pub script_line: usize,
    pub column: usize,
    pub node: NodeKind,
    /// The text of its line, in which its column is the same
    pub text: String,
    /// The calls of helpers round it, the outermost first
    pub calls: Vec<CallSite>,
    /// The loops round it, the outermost first
    pub loops: Vec<LoopSite>,
}
