//! Nodes of the tree, and what a walk over the code of them comes to.
#![tactic(auto)]

ghost use Rattle.std.specs.Prelude.{◌≡◌, ℕ, List};
ghost use Rattle.clmodel.specs.Tree.{term, tree_target, stmt};
ghost use Rattle.clmodel.specs.Typing.Faults.{start, target_start};
ghost use Rattle.origins.specs.Origins.{Origin, node_of, times, node_at, stmt_at};
ghost use Rattle.origins.specs.Walks.{Walks};

use clmodel::tree::{Expression, Function, Statement, Target};
use std::alloc::AllocError;

/// A node of the tree.
#[derive(Clone, Copy)]
pub enum Node<'a> {
    Expression(&'a Expression),
    Target(&'a Target),
    Statement(&'a Statement),
    Function(&'a Function),
}

/// An instruction in the body of a helper: where its call begins in the source, the helper's place among the functions
/// before the caller, and how many instructions of the helper, those that pass its arguments first, stand before it.
#[derive(Clone, Copy)]
pub struct Entered {
    pub call: u32,
    pub place: usize,
    pub left: usize,
}

/// Why a walk ends before the end of code: the wanted instruction is a node's own, or stands in the body of a helper,
/// or it isn't known how long the code of a helper is, or memory was refused.
#[derive(Clone, Copy)]
pub enum WalkEnd<'a> {
    Found(Node<'a>),
    Inside(Entered),
    Lost,
    OutOfMemory,
}

impl<'a> From<AllocError> for WalkEnd<'a> {
    ghost use Rattle.std.specs.Prelude.{◌≡◌};
    ghost use Rattle.origins.specs.declared.node.WalkEnd.TheVariants.{OutOfMemory};

    ghost from_gives = { λ _ h. h ≡ OutOfMemory };

    fn from(_: AllocError) -> Self {
        WalkEnd::OutOfMemory
    }
}

/// Where an expression begins in the source.
fn expression_at(expression: &Expression) -> u32
    ensures { result ≡ start (term expression.now) }
{
    match expression {
        Expression::Number { at, .. }
        | Expression::Variable { at, .. }
        | Expression::Element { at, .. }
        | Expression::ElementAddress { at, .. }
        | Expression::Dereference { at, .. }
        | Expression::Call { at, .. }
        | Expression::Unary { at, .. }
        | Expression::Cast { at, .. }
        | Expression::Binary { at, .. }
        | Expression::Choice { at, .. } => *at,
    }
}

/// Where a target begins.
fn target_at(target: &Target) -> u32
    ensures { result ≡ target_start (tree_target target.now) }
{
    match target {
        Target::Variable { at, .. } | Target::Element { at, .. } | Target::Dereference { at, .. } =>
            *at,
    }
}

/// Where a statement begins.
fn statement_at(statement: &Statement) -> u32
    ensures { result ≡ stmt_at (stmt statement.now) }
{
    match statement {
        Statement::Empty { at }
        | Statement::Block { at, .. }
        | Statement::Declare { at, .. }
        | Statement::DeclareArray { at, .. }
        | Statement::Assign { at, .. }
        | Statement::Step { at, .. }
        | Statement::Call { at, .. }
        | Statement::If { at, .. }
        | Statement::IfElse { at, .. }
        | Statement::While { at, .. }
        | Statement::DoWhile { at, .. }
        | Statement::For { at, .. }
        | Statement::Break { at }
        | Statement::Continue { at }
        | Statement::Return { at, .. } => *at,
    }
}

impl<'a> Node<'a> {
    /// Where it begins in the source: a function by its name.
    pub fn at(self) -> u32
        ensures { result ≡ node_at (node_of self.entry) }
    {
        match self {
            Node::Expression(expression) => expression_at(expression),
            Node::Target(target) => target_at(target),
            Node::Statement(statement) => statement_at(statement),
            Node::Function(function) => function.name_at,
        }
    }
}

/// Passes `count` instructions of a node itself.
pub fn pass_own<'a>(node: Node<'a>, count: usize, left: usize) -> Result<usize, WalkEnd<'a>>
    ensures { (inside : ℕ → List Origin) → Walks inside (times count (node_of node.entry)) left result }
{
    if left < count {
        return Err(WalkEnd::Found(node));
    }
    Ok(left - count)
}
