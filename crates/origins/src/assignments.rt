//! Walks over the code of assignments, declarations and calls.
#![tactic(auto)]

ghost use Rattle.std.specs.Prelude.{◌≡◌, ◌++◌, ℕ, List};
ghost use Rattle.clmodel.specs.Tree.{term, terms, tree_target};
ghost use Rattle.origins.specs.Origins.{Origin, node_of};
ghost use Rattle.origins.specs.Settings.{inside_in, right_in, assign_in, step_in, call_in, declare_in};
ghost use Rattle.origins.specs.Walks.{Walks};

use crate::expressions::{pass_arguments, pass_expression, then_own};
use crate::helpers::{needed_count, then_call};
use crate::names::{Meaning, NamedVariable};
use crate::node::{Node, WalkEnd, pass_own};
use crate::setting::Setting;
use crate::targets::{pass_target, then_fetch};
use clmodel::barrier::is_barrier;
use clmodel::setup::built_in_named;
use clmodel::tree::{Expression, Target, VariableType};
use clnum::BinaryOperator;
use lower_code::assignments::helper_call;

/// Passes the right side of an assignment: the call of a helper, or another expression.
fn pass_right<'a>(
    setting: Setting<'_>,
    names: &[NamedVariable],
    value: &'a Expression,
    left: usize,
) -> Result<usize, WalkEnd<'a>>
    ensures { Walks (inside_in setting.entry) (right_in setting.entry names.now (term value.now)) left result }
{
    match helper_call(value) {
        None => pass_expression(names, value, left),
        Some(call) => {
            let node = Node::Expression(value);
            let given = pass_arguments(names, call.arguments, left);
            let called = then_call(given, setting, node, call.name);
            then_own(called, node, needed_count(setting, call.name))
        }
    }
}

/// What a walk passed, and then the right side of an assignment.
fn then_right<'a>(
    passed: Result<usize, WalkEnd<'a>>,
    setting: Setting<'_>,
    names: &[NamedVariable],
    value: &'a Expression,
) -> Result<usize, WalkEnd<'a>>
    ensures { (xs : List Origin) (n : ℕ) → Walks (inside_in setting.entry) xs n passed.entry → Walks (inside_in setting.entry) (xs ++ right_in setting.entry names.now (term value.now)) n result }
{
    match passed {
        Ok(left) => pass_right(setting, names, value, left),
        Err(halt) => Err(halt),
    }
}

/// Passes an assignment. What is fetched for an operator stands before the right side.
pub fn pass_assignment<'a>(
    setting: Setting<'_>,
    names: &[NamedVariable],
    node: Node<'a>,
    target: &'a Target,
    operator: Option<BinaryOperator>,
    value: &'a Expression,
    left: usize,
) -> Result<usize, WalkEnd<'a>>
    ensures { Walks (inside_in setting.entry) (assign_in setting.entry names.now (tree_target target.now) operator (term value.now) (node_of node.entry)) left result }
{
    let reached = pass_target(names, target, left);
    match operator {
        None => then_own(then_right(reached, setting, names, value), node, 1),
        Some(_) => {
            let fetched = then_fetch(reached, names, target, node);
            then_own(then_right(fetched, setting, names, value), node, 2)
        }
    }
}

/// Passes an increment or a decrement.
pub fn pass_step<'a>(
    names: &[NamedVariable],
    node: Node<'a>,
    target: &'a Target,
    left: usize,
) -> Result<usize, WalkEnd<'a>>
    ensures { (inside : ℕ → List Origin) → Walks inside (step_in names.now (tree_target target.now) (node_of node.entry)) left result }
{
    let reached = pass_target(names, target, left);
    then_own(then_fetch(reached, names, target, node), node, 3)
}

/// Passes a call that is a whole statement.
pub fn pass_call_statement<'a>(
    setting: Setting<'_>,
    names: &[NamedVariable],
    node: Node<'a>,
    name: u32,
    arguments: &'a [Expression],
    left: usize,
) -> Result<usize, WalkEnd<'a>>
    ensures { Walks (inside_in setting.entry) (call_in setting.entry names.now name (terms arguments.now) (node_of node.entry)) left result }
{
    if is_barrier(name) {
        return pass_own(node, 1, left);
    }
    let given = pass_arguments(names, arguments, left);
    match built_in_named(name) {
        Some(_) => then_own(given, node, 1),
        None => then_call(given, setting, node, name),
    }
}

/// Passes a declaration with an initialiser, which sees the variable.
pub fn pass_declaration<'a>(
    setting: Setting<'_>,
    names: &mut Vec<NamedVariable>,
    node: Node<'a>,
    kind: VariableType,
    name: u32,
    value: &'a Expression,
    left: usize,
) -> Result<usize, WalkEnd<'a>>
    ensures walks { Walks (inside_in setting.entry) (declare_in setting.entry names.old.items kind name (term value.now) (node_of node.entry)) left result }
    ensures names { names.new.items ≡ names.old.items }
{
    let count = names.len();
    let named = NamedVariable {
        name,
        kind,
        meaning: Meaning::Plain,
    };
    match names.push(named) {
        Ok(()) => {
            let begun = pass_own(node, 1, left);
            let valued = then_right(begun, setting, names.as_slice(), value);
            names.truncate(count);
            then_own(valued, node, 1)
        }
        Err(_) => Err(WalkEnd::OutOfMemory),
    }
}
