//! Walks over the code of statements. The variables in scope are the same behind a statement as before it.
#![tactic(auto)]

ghost use Rattle.std.specs.Prelude.{◌≡◌, ◌++◌, ℕ, List, OnErr, OnOk};
ghost use Rattle.clmodel.specs.Tree.{term, stmt};
ghost use Rattle.lower_code.specs.Emission.{test_of};
ghost use Rattle.lower_code.specs.Trees.{all_of, part_of};
ghost use Rattle.origins.specs.Names.{names_after_part};
ghost use Rattle.origins.specs.Origins as origins;
ghost use Rattle.origins.specs.Origins.{Origin, node_of};
ghost use Rattle.origins.specs.Settings.{inside_in, return_in, stmt_in, part_in, row_in, for_in};
ghost use Rattle.origins.specs.Walks.{Walks};

use crate::assignments::{pass_assignment, pass_call_statement, pass_declaration, pass_step};
use crate::expressions::{pass_expression, then_expression, then_own};
use crate::names::{NamedVariable, declare};
use crate::node::{Node, WalkEnd, pass_own};
use crate::setting::Setting;
use clmodel::tree::{Expression, Statement};
use clnum::IntType;
use lower_code::loops::{condition_of, statement_of};
use std::alloc::AllocError;

/// What stands in the parentheses of a `for`, and its body.
#[derive(Clone, Copy)]
struct ForParts<'a> {
    first: Option<&'a Statement>,
    condition: Option<&'a Expression>,
    third: Option<&'a Statement>,
    body: &'a Statement,
}

/// How many instructions end the item where a value of this type is to be returned and none is.
pub fn value_count(kind: Option<IntType>) -> usize
    ensures { result ≡ origins.value_count kind }
{
    match kind {
        Some(_) => 1,
        None => 0,
    }
}

/// How many declare an array.
fn array_count(is_local: bool) -> usize
    ensures { result ≡ origins.array_count is_local }
{
    if is_local { 1 } else { 2 }
}

/// Passes the return of a value, or without one.
fn pass_return<'a>(
    setting: Setting<'_>,
    names: &[NamedVariable],
    node: Node<'a>,
    value: Option<&'a Expression>,
    left: usize,
) -> Result<usize, WalkEnd<'a>>
    ensures { (inside : ℕ → List Origin) → Walks inside (return_in setting.entry names.now (test_of value.entry) (node_of node.entry)) left result }
{
    match value {
        None => then_own(pass_own(node, value_count(setting.result), left), node, 1),
        Some(value) => {
            let valued = pass_expression(names, value, left);
            then_own(then_own(valued, node, value_count(setting.result)), node, 1)
        }
    }
}

/// What a walk passed, and then the condition of a `for`, if there is one.
fn then_condition<'a>(
    passed: Result<usize, WalkEnd<'a>>,
    names: &[NamedVariable],
    node: Node<'a>,
    condition: Option<&'a Expression>,
) -> Result<usize, WalkEnd<'a>>
    ensures { (inside : ℕ → List Origin) (xs : List Origin) (n : ℕ) → Walks inside xs n passed.entry → Walks inside (xs ++ origins.condition_origins names.now (test_of condition.entry) (node_of node.entry)) n result }
{
    match condition {
        None => passed,
        Some(condition) => then_own(then_expression(passed, names, condition), node, 1),
    }
}

/// Adds the variable of the first part of a `for`. An error is out of memory.
fn declare_part(names: &mut Vec<NamedVariable>, part: Option<&Statement>) -> Result<(), AllocError>
    ensures declared { OnOk result (names.new.items ≡ names_after_part names.old.items (part_of part.entry)) }
    ensures same { OnErr result (names.new.items ≡ names.old.items) }
{
    match part {
        None => Ok(()),
        Some(part) => declare(names, part),
    }
}

/// Passes a statement.
#[cycle(walk)]
fn pass_statement<'a>(
    setting: Setting<'_>,
    names: &mut Vec<NamedVariable>,
    statement: &'a Statement,
    left: usize,
) -> Result<usize, WalkEnd<'a>>
    ensures walks { Walks (inside_in setting.entry) (stmt_in setting.entry names.old.items (stmt statement.now)) left result }
    ensures names { names.new.items ≡ names.old.items }
{
    let node = Node::Statement(statement);
    match statement {
        Statement::Empty { .. } => Ok(left),
        Statement::Block { body, .. } => pass_statements(setting, names, body.as_slice(), left),
        Statement::Declare {
            kind,
            name,
            value,
            ..
        } => match value {
            None => pass_own(node, 1, left),
            Some(value) => pass_declaration(setting, names, node, *kind, *name, value, left),
        },
        Statement::DeclareArray { is_local, .. } => pass_own(node, array_count(*is_local), left),
        Statement::Assign {
            target,
            operator,
            value,
            ..
        } => pass_assignment(
            setting,
            names.as_slice(),
            node,
            target,
            *operator,
            value,
            left,
        ),
        Statement::Step { target, .. } => pass_step(names.as_slice(), node, target, left),
        Statement::Call {
            name,
            arguments,
            ..
        } => pass_call_statement(
            setting,
            names.as_slice(),
            node,
            *name,
            arguments.as_slice(),
            left,
        ),
        Statement::If {
            condition,
            chosen,
            ..
        } => pass_branch(setting, names, node, condition, chosen, left),
        Statement::IfElse {
            condition,
            chosen,
            otherwise,
            ..
        } => {
            let first = pass_branch(setting, names, node, condition, chosen, left);
            then_statement(then_own(first, node, 1), setting, names, otherwise)
        }
        Statement::While {
            condition,
            body,
            ..
        } => pass_loop(setting, names, node, 3, body, condition, left),
        Statement::DoWhile {
            body,
            condition,
            ..
        } => pass_loop(setting, names, node, 2, body, condition, left),
        Statement::For {
            first,
            condition,
            third,
            body,
            ..
        } => {
            let parts = ForParts {
                first: statement_of(first),
                condition: condition_of(condition),
                third: statement_of(third),
                body,
            };
            pass_for(setting, names, node, parts, left)
        }
        Statement::Break { .. } => pass_own(node, 1, left),
        Statement::Continue { .. } => pass_own(node, 1, left),
        Statement::Return { value, .. } => {
            pass_return(setting, names.as_slice(), node, condition_of(value), left)
        }
    }
}

/// What a walk passed, and then a statement.
#[cycle(walk)]
fn then_statement<'a>(
    passed: Result<usize, WalkEnd<'a>>,
    setting: Setting<'_>,
    names: &mut Vec<NamedVariable>,
    statement: &'a Statement,
) -> Result<usize, WalkEnd<'a>>
    ensures walks { (xs : List Origin) (n : ℕ) → Walks (inside_in setting.entry) xs n passed.entry → Walks (inside_in setting.entry) (xs ++ stmt_in setting.entry names.old.items (stmt statement.now)) n result }
    ensures names { names.new.items ≡ names.old.items }
{
    match passed {
        Ok(left) => pass_statement(setting, names, statement, left),
        Err(halt) => Err(halt),
    }
}

/// What a walk passed, and then the first or the third part of a `for`, if there is one.
#[cycle(walk)]
fn then_part<'a>(
    passed: Result<usize, WalkEnd<'a>>,
    setting: Setting<'_>,
    names: &mut Vec<NamedVariable>,
    part: Option<&'a Statement>,
) -> Result<usize, WalkEnd<'a>>
    ensures walks { (xs : List Origin) (n : ℕ) → Walks (inside_in setting.entry) xs n passed.entry → Walks (inside_in setting.entry) (xs ++ part_in setting.entry names.old.items (part_of part.entry)) n result }
    ensures names { names.new.items ≡ names.old.items }
{
    match part {
        None => passed,
        Some(part) => then_statement(passed, setting, names, part),
    }
}

/// Passes the test of a choice, and the branch behind it.
#[cycle(walk)]
fn pass_branch<'a>(
    setting: Setting<'_>,
    names: &mut Vec<NamedVariable>,
    node: Node<'a>,
    condition: &'a Expression,
    chosen: &'a Statement,
    left: usize,
) -> Result<usize, WalkEnd<'a>>
    ensures walks { Walks (inside_in setting.entry)
        ((origins.expr_origins names.old.items (term condition.now) ++ origins.times 1 (node_of node.entry)) ++ stmt_in setting.entry names.old.items (stmt chosen.now)) left result }
    ensures names { names.new.items ≡ names.old.items }
{
    let tested = then_own(pass_expression(names.as_slice(), condition, left), node, 1);
    then_statement(tested, setting, names, chosen)
}

/// Passes a loop whose condition stands behind its body, with `count` instructions before the body.
#[cycle(walk)]
fn pass_loop<'a>(
    setting: Setting<'_>,
    names: &mut Vec<NamedVariable>,
    node: Node<'a>,
    count: usize,
    body: &'a Statement,
    condition: &'a Expression,
    left: usize,
) -> Result<usize, WalkEnd<'a>>
    ensures walks { Walks (inside_in setting.entry)
        ((((origins.times count (node_of node.entry) ++ stmt_in setting.entry names.old.items (stmt body.now)) ++ origins.expr_origins names.old.items (term condition.now))
        ++ origins.times 1 (node_of node.entry)) ++ origins.times 1 (node_of node.entry)) left result }
    ensures names { names.new.items ≡ names.old.items }
{
    let inner = then_statement(pass_own(node, count, left), setting, names, body);
    let tested = then_expression(inner, names.as_slice(), condition);
    then_own(then_own(tested, node, 1), node, 1)
}

/// Passes a `for`. Its third part stands behind the body.
#[cycle(walk)]
fn pass_for<'a>(
    setting: Setting<'_>,
    names: &mut Vec<NamedVariable>,
    node: Node<'a>,
    parts: ForParts<'a>,
    left: usize,
) -> Result<usize, WalkEnd<'a>>
    ensures walks { Walks (inside_in setting.entry) (for_in setting.entry names.old.items (part_of parts.entry.first) (test_of parts.entry.condition) (part_of parts.entry.third) (stmt parts.entry.body.now) (node_of node.entry)) left result }
    ensures names { names.new.items ≡ names.old.items }
{
    let count = names.len();
    let begun = then_part(Ok(left), setting, names, parts.first);
    match declare_part(names, parts.first) {
        Ok(()) => {
            let entered = then_own(begun, node, 3);
            let inner = then_statement(entered, setting, names, parts.body);
            let stepped = then_part(inner, setting, names, parts.third);
            let tested = then_condition(stepped, names.as_slice(), node, parts.condition);
            names.truncate(count);
            then_own(tested, node, 1)
        }
        Err(_) => Err(WalkEnd::OutOfMemory),
    }
}

/// Passes statements, each of which sees the variables of those before it.
#[cycle(walk)]
fn pass_statements<'a>(
    setting: Setting<'_>,
    names: &mut Vec<NamedVariable>,
    statements: &'a [Statement],
    left: usize,
) -> Result<usize, WalkEnd<'a>>
    ensures walks { Walks (inside_in setting.entry) (row_in setting.entry names.old.items (all_of statements.now)) left result }
    ensures names { names.new.items ≡ names.old.items }
{
    let count = names.len();
    let mut passed = Ok(left);
    for i in 0..statements.len() {
        let statement = &statements[i];
        passed = then_statement(passed, setting, names, statement);
        match declare(names, statement) {
            Ok(()) => {}
            Err(_) => {
                names.truncate(count);
                return Err(WalkEnd::OutOfMemory);
            }
        }
    }
    names.truncate(count);
    passed
}

/// What a walk passed, and then statements.
pub fn then_statements<'a>(
    passed: Result<usize, WalkEnd<'a>>,
    setting: Setting<'_>,
    names: &mut Vec<NamedVariable>,
    statements: &'a [Statement],
) -> Result<usize, WalkEnd<'a>>
    ensures { (xs : List Origin) (n : ℕ) → Walks (inside_in setting.entry) xs n passed.entry → Walks (inside_in setting.entry) (xs ++ row_in setting.entry names.old.items (all_of statements.now)) n result }
{
    match passed {
        Ok(left) => pass_statements(setting, names, statements, left),
        Err(halt) => Err(halt),
    }
}
