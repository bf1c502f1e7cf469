//! Walks over the code of targets of assignments.
#![tactic(auto)]

ghost use Rattle.std.specs.Prelude.{ℕ, List, ◌++◌};
ghost use Rattle.clmodel.specs.Tree.{tree_target};
ghost use Rattle.origins.specs.Origins.{Origin, node_of, target_origins, fetch_origins};
ghost use Rattle.origins.specs.Walks.{Walks};

use crate::expressions::{pass_address, pass_expression, pass_variable, then_own};
use crate::names::{Meaning, NamedVariable, meaning_of};
use crate::node::{Node, WalkEnd, pass_own};
use clmodel::tree::Target;

/// Passes the code of a target: its index, or the pointer to it.
pub fn pass_target<'a>(
    names: &[NamedVariable],
    target: &'a Target,
    left: usize,
) -> Result<usize, WalkEnd<'a>>
    ensures { (inside : ℕ → List Origin) → Walks inside (target_origins names.now (tree_target target.now)) left result }
{
    let node = Node::Target(target);
    match target {
        Target::Variable { .. } => Ok(left),
        Target::Element { name, index, .. } => match meaning_of(names, *name) {
            Meaning::Array => pass_expression(names, index, left),
            Meaning::Unknown => pass_address(names, Meaning::Unknown, node, index, left),
            Meaning::Plain => pass_address(names, Meaning::Plain, node, index, left),
        },
        Target::Dereference { pointer, .. } => {
            then_own(pass_expression(names, pointer, left), node, 1)
        }
    }
}

/// Passes the fetch of what a target has, which a node asks for.
pub fn pass_fetch<'a>(
    names: &[NamedVariable],
    target: &Target,
    node: Node<'a>,
    left: usize,
) -> Result<usize, WalkEnd<'a>>
    ensures { (inside : ℕ → List Origin) → Walks inside (fetch_origins names.now (tree_target target.now) (node_of node.entry)) left result }
{
    match target {
        Target::Variable { name, .. } => pass_variable(meaning_of(names, *name), node, left),
        Target::Element { .. } => pass_own(node, 1, left),
        Target::Dereference { .. } => pass_own(node, 1, left),
    }
}

/// What a walk passed, and then that fetch.
pub fn then_fetch<'a>(
    passed: Result<usize, WalkEnd<'a>>,
    names: &[NamedVariable],
    target: &Target,
    node: Node<'a>,
) -> Result<usize, WalkEnd<'a>>
    ensures { (inside : ℕ → List Origin) (xs : List Origin) (n : ℕ) → Walks inside xs n passed.entry → Walks inside (xs ++ fetch_origins names.now (tree_target target.now) (node_of node.entry)) n result }
{
    match passed {
        Ok(left) => pass_fetch(names, target, node, left),
        Err(halt) => Err(halt),
    }
}
