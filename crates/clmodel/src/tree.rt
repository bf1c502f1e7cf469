//! The syntax tree of a program. Offsets are byte numbers in the source, names are places in the tree's table of names.
#![tactic(auto)]

ghost use Rattle.std.specs.Prelude.{◌≡◌};
ghost use Rattle.clmodel.specs.Tree.{level};

use crate::text::Name;
use clnum::{BinaryOperator, IntType, UnaryOperator, Value};

/// The address space that a pointer points to (OpenCL 1.2, section 6.5).
#[derive(Clone, Copy, PartialEq, Eq)]
pub enum AddressSpace {
    Global,
    Local,
    Constant,
}

/// The type of a pointer to integers.
#[derive(Clone, Copy, PartialEq, Eq)]
pub struct PointerType {
    pub space: AddressSpace,
    pub is_const: bool,
    pub element: IntType,
}

/// The type of a variable or a parameter.
#[derive(Clone, Copy, PartialEq, Eq)]
pub enum VariableType {
    Integer(IntType),
    Pointer(PointerType),
}

/// An operator between two expressions (OpenCL 1.2, section 6.3).
#[derive(Clone, Copy)]
pub enum InfixOperator {
    Arithmetic(BinaryOperator),
    LogicalAnd,
    LogicalOr,
}

impl InfixOperator {
    /// How tightly it binds, from 2, the loosest, to 11 (C99 6.5.5 to 6.5.14).
    pub fn level(self) -> u32
        ensures { result ≡ level self }
    {
        match self {
            InfixOperator::LogicalOr => 2,
            InfixOperator::LogicalAnd => 3,
            InfixOperator::Arithmetic(arithmetic) => match arithmetic {
                BinaryOperator::BitOr => 4,
                BinaryOperator::BitXor => 5,
                BinaryOperator::BitAnd => 6,
                BinaryOperator::Equal | BinaryOperator::NotEqual => 7,
                BinaryOperator::Less
                | BinaryOperator::Greater
                | BinaryOperator::LessOrEqual
                | BinaryOperator::GreaterOrEqual => 8,
                BinaryOperator::ShiftLeft | BinaryOperator::ShiftRight => 9,
                BinaryOperator::Add | BinaryOperator::Subtract => 10,
                BinaryOperator::Multiply | BinaryOperator::Divide | BinaryOperator::Remainder => 11,
            },
        }
    }
}

/// An expression. `at` is where its first token begins, parentheses round the whole left out.
#[derive(Drop)]
pub enum Expression {
    Number {
        at: u32,
        value: Value,
    },
    Variable {
        at: u32,
        name: u32,
    },
    /// `name[index]`
    Element {
        at: u32,
        name: u32,
        index: Box<Expression>,
    },
    /// `&name[index]`
    ElementAddress {
        at: u32,
        name_at: u32,
        name: u32,
        index: Box<Expression>,
    },
    /// `*pointer`
    Dereference {
        at: u32,
        pointer: Box<Expression>,
    },
    Call {
        at: u32,
        name: u32,
        arguments: Vec<Expression>,
    },
    Unary {
        at: u32,
        operator: UnaryOperator,
        operand: Box<Expression>,
    },
    Cast {
        at: u32,
        target: IntType,
        operand: Box<Expression>,
    },
    Binary {
        at: u32,
        operator: InfixOperator,
        left: Box<Expression>,
        right: Box<Expression>,
    },
    /// `condition ? chosen : otherwise`
    Choice {
        at: u32,
        condition: Box<Expression>,
        chosen: Box<Expression>,
        otherwise: Box<Expression>,
    },
}

/// The target of an assignment.
#[derive(Drop)]
pub enum Target {
    Variable {
        at: u32,
        name: u32,
    },
    /// `name[index]`
    Element {
        at: u32,
        name: u32,
        index: Box<Expression>,
    },
    /// `*pointer`
    Dereference {
        at: u32,
        pointer: Box<Expression>,
    },
}

/// A statement or a declaration.
#[derive(Drop)]
pub enum Statement {
    Empty {
        at: u32,
    },
    Block {
        at: u32,
        body: Vec<Statement>,
    },
    Declare {
        at: u32,
        kind: VariableType,
        name_at: u32,
        name: u32,
        value: Option<Box<Expression>>,
    },
    DeclareArray {
        at: u32,
        is_local: bool,
        element: IntType,
        name_at: u32,
        name: u32,
        length_at: u32,
        length: Value,
    },
    /// `target = value`, or with an operator `target operator= value`
    Assign {
        at: u32,
        target: Box<Target>,
        operator: Option<BinaryOperator>,
        value: Box<Expression>,
    },
    /// `target++` or `++target`, or with `--`
    Step {
        at: u32,
        target: Box<Target>,
        is_increment: bool,
    },
    Call {
        at: u32,
        name: u32,
        arguments: Vec<Expression>,
    },
    If {
        at: u32,
        condition: Box<Expression>,
        chosen: Box<Statement>,
    },
    IfElse {
        at: u32,
        condition: Box<Expression>,
        chosen: Box<Statement>,
        otherwise: Box<Statement>,
    },
    While {
        at: u32,
        condition: Box<Expression>,
        body: Box<Statement>,
    },
    DoWhile {
        at: u32,
        body: Box<Statement>,
        condition: Box<Expression>,
    },
    /// `for (first; condition; third) body`
    For {
        at: u32,
        first: Option<Box<Statement>>,
        condition: Option<Box<Expression>>,
        third: Option<Box<Statement>>,
        body: Box<Statement>,
    },
    Break {
        at: u32,
    },
    Continue {
        at: u32,
    },
    Return {
        at: u32,
        value: Option<Box<Expression>>,
    },
}

/// A parameter of a function.
#[derive(Clone, Copy)]
pub struct Parameter {
    pub name_at: u32,
    pub name: u32,
    pub kind: VariableType,
}

/// A function: a kernel, or a helper with its result's type, if it has one.
#[derive(Drop)]
pub struct Function {
    pub is_kernel: bool,
    pub result: Option<IntType>,
    pub name_at: u32,
    pub name: u32,
    pub parameters: Vec<Parameter>,
    pub body_at: u32,
    pub body: Vec<Statement>,
}

/// A program: its functions in text order, and the names that it uses.
#[derive(Drop)]
pub struct Tree {
    pub functions: Vec<Function>,
    pub names: Vec<Name>,
}
