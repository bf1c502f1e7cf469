//! Walks over the code of expressions and targets.
#![tactic(auto, using(crate::proofs::Walking::stops, crate::proofs::Walking::goes_on))]

ghost use Rattle.std.specs.Prelude.{◌≡◌, ℕ, None, List, ◌++◌};
ghost use Rattle.clmodel.specs.Tree.{term, terms};
ghost use Rattle.folding.specs.Constants.{constant_of};
ghost use Rattle.origins.specs.Names.{variables_of};
ghost use Rattle.origins.specs.Origins.{Origin, node_of, variable_origins, address_origins, expr_origins, terms_origins, times};
ghost use Rattle.origins.specs.Origins as origins;
ghost use Rattle.origins.specs.Walks.{Walks};

use crate::known::known_of;
use crate::names::{Meaning, NamedVariable, meaning_of};
use crate::node::{Node, WalkEnd, pass_own};
use clmodel::tree::{Expression, InfixOperator};

/// How many instructions stand between the operands of an operator.
fn infix_before(operator: InfixOperator) -> usize
    ensures { result ≡ origins.infix_before operator }
{
    match operator {
        InfixOperator::Arithmetic(_) => 0,
        InfixOperator::LogicalAnd => 1,
        InfixOperator::LogicalOr => 2,
    }
}

/// How many stand behind the right one.
fn infix_behind(operator: InfixOperator) -> usize
    ensures { result ≡ origins.infix_behind operator }
{
    match operator {
        InfixOperator::Arithmetic(_) => 1,
        InfixOperator::LogicalAnd | InfixOperator::LogicalOr => 4,
    }
}

/// Passes a variable's value, which a node asks for.
pub fn pass_variable<'a>(
    meaning: Meaning,
    node: Node<'a>,
    left: usize,
) -> Result<usize, WalkEnd<'a>>
    ensures { (inside : ℕ → List Origin) → Walks inside (variable_origins meaning (node_of node.entry)) left result }
{
    match meaning {
        Meaning::Unknown => pass_own(node, 2, left),
        Meaning::Array => pass_own(node, 1, left),
        Meaning::Plain => pass_own(node, 1, left),
    }
}

/// What a walk passed, and then instructions of a node itself.
pub fn then_own<'a>(
    passed: Result<usize, WalkEnd<'a>>,
    node: Node<'a>,
    count: usize,
) -> Result<usize, WalkEnd<'a>>
    ensures { (inside : ℕ → List Origin) (xs : List Origin) (n : ℕ) → Walks inside xs n passed.entry → Walks inside (xs ++ times count (node_of node.entry)) n result }
{
    match passed {
        Ok(left) => pass_own(node, count, left),
        Err(halt) => Err(halt),
    }
}

/// What a walk passed, and then an expression.
#[cycle(walk)]
pub fn then_expression<'a>(
    passed: Result<usize, WalkEnd<'a>>,
    names: &[NamedVariable],
    expression: &'a Expression,
) -> Result<usize, WalkEnd<'a>>
    ensures { (inside : ℕ → List Origin) (xs : List Origin) (n : ℕ) → Walks inside xs n passed.entry → Walks inside (xs ++ expr_origins names.now (term expression.now)) n result }
{
    match passed {
        Ok(left) => pass_expression(names, expression, left),
        Err(halt) => Err(halt),
    }
}

/// Passes an expression. Each node down to a constant one asks all nodes below it, so that a walk asks as many as the
/// expression has, once for each node above them.
#[cycle(walk)]
pub fn pass_expression<'a>(
    names: &[NamedVariable],
    expression: &'a Expression,
    left: usize,
) -> Result<usize, WalkEnd<'a>>
    ensures { (inside : ℕ → List Origin) → Walks inside (expr_origins names.now (term expression.now)) left result }
{
    match known_of(names, expression).constant {
        Some(_) => pass_own(Node::Expression(expression), 1, left),
        None => pass_parts(names, expression, left),
    }
}

/// Passes an expression that isn't constant.
#[cycle(walk)]
fn pass_parts<'a>(
    names: &[NamedVariable],
    expression: &'a Expression,
    left: usize,
) -> Result<usize, WalkEnd<'a>>
    requires { constant_of (variables_of names.now) (term expression.now) ≡ None }
    ensures { (inside : ℕ → List Origin) → Walks inside (expr_origins names.now (term expression.now)) left result }
{
    let node = Node::Expression(expression);
    match expression {
        Expression::Number { .. } => pass_own(node, 1, left),
        Expression::Variable { name, .. } => pass_variable(meaning_of(names, *name), node, left),
        Expression::Element { name, index, .. } => match meaning_of(names, *name) {
            Meaning::Array => then_own(pass_expression(names, index, left), node, 1),
            Meaning::Unknown => then_own(
                pass_address(names, Meaning::Unknown, node, index, left),
                node,
                1,
            ),
            Meaning::Plain => then_own(
                pass_address(names, Meaning::Plain, node, index, left),
                node,
                1,
            ),
        },
        Expression::ElementAddress { name, index, .. } => {
            pass_address(names, meaning_of(names, *name), node, index, left)
        }
        Expression::Dereference { pointer, .. } => {
            then_own(pass_expression(names, pointer, left), node, 1)
        }
        Expression::Call { arguments, .. } => {
            then_own(pass_arguments(names, arguments.as_slice(), left), node, 1)
        }
        Expression::Unary { operand, .. } => {
            then_own(pass_expression(names, operand, left), node, 1)
        }
        Expression::Cast { operand, .. } => {
            then_own(pass_expression(names, operand, left), node, 1)
        }
        Expression::Binary {
            operator,
            left: first,
            right: second,
            ..
        } => {
            let before = then_own(
                pass_expression(names, first, left),
                node,
                infix_before(*operator),
            );
            then_own(
                then_expression(before, names, second),
                node,
                infix_behind(*operator),
            )
        }
        Expression::Choice {
            condition,
            chosen,
            otherwise,
            ..
        } => {
            let tested = then_own(pass_expression(names, condition, left), node, 1);
            let first = then_own(then_expression(tested, names, chosen), node, 2);
            then_own(then_expression(first, names, otherwise), node, 1)
        }
    }
}

/// Passes the value of a pointer variable moved by an index, which a node asks for.
#[cycle(walk)]
pub fn pass_address<'a>(
    names: &[NamedVariable],
    meaning: Meaning,
    node: Node<'a>,
    index: &'a Expression,
    left: usize,
) -> Result<usize, WalkEnd<'a>>
    ensures { (inside : ℕ → List Origin) → Walks inside (address_origins meaning (node_of node.entry) (expr_origins names.now (term index.now))) left result }
{
    let pointer = pass_variable(meaning, node, left);
    then_own(then_expression(pointer, names, index), node, 1)
}

/// Passes arguments, from left to right.
#[cycle(walk)]
pub fn pass_arguments<'a>(
    names: &[NamedVariable],
    arguments: &'a [Expression],
    left: usize,
) -> Result<usize, WalkEnd<'a>>
    ensures { (inside : ℕ → List Origin) → Walks inside (terms_origins names.now (terms arguments.now)) left result }
{
    let mut passed = Ok(left);
    for i in 0..arguments.len() {
        passed = then_expression(passed, names, &arguments[i]);
    }
    passed
}
