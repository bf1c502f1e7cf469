//! Assignments, declarations and calls, with the body of the helper that they call left out (C99 6.5.16 and 6.7).
#![tactic(auto)]

ghost use Rattle.std.specs.Prelude.{◌≡◌, ℕ, ◌+◌, ◌<◌, ◌≤◌, ◌^◌, ◌++◌, ◌∷◌, [], Some, None, Option, false, IfOk, OnOk, OnErr};
ghost use Rattle.std.specs.Option.{option_map};
ghost use Rattle.clmodel.specs.Barrier as barrier;
ghost use Rattle.clmodel.specs.BuiltIns.{built_in};
ghost use Rattle.clmodel.specs.Next as next;
ghost use Rattle.clmodel.specs.Tree as tree;
ghost use Rattle.clmodel.specs.Tree.{tree_target, term, terms};
ghost use Rattle.clmodel.specs.Typing.Sizes.{target_size, term_size, terms_size};
ghost use Rattle.lower_expr.specs.Scope.{free_level};
ghost use Rattle.lower_expr.specs.Growth.{IsLonger};
ghost use Rattle.lower_code.specs.Code as spec;
ghost use Rattle.lower_code.specs.Code.{Calls, result_in};
ghost use Rattle.lower_code.specs.Emission.{functions_of, called_sites, split_code};
ghost use Rattle.lower_code.specs.Growth.{GrowsBefore};
ghost use Rattle.lower_code.specs.Room.{called_level};

use crate::draft::Draft;
use crate::functions::find;
use crate::holes::Helpers;
use crate::positions::Position;
use clmodel::action::Fences;
use clmodel::barrier::{fences, is_barrier};
use clmodel::setup::{BuiltIn, built_in_named};
use clmodel::tree::{Expression, Target, VariableType};
use clnum::{BinaryOperator, IntType, Value};
use folding::call_type;
use lower_expr::destinations::{combine, destination_type, fetch, put, reach};
use lower_expr::emission::{emit_arguments, emit_expression};
use lower_expr::instructions::{add, call_only};
use lower_expr::scope::{Level, RegisterNumber, Scope, level_at, register_at};
use regcode::Instruction;
use smallvec::SmallVec;
use std::alloc::AllocError;

/// A call of a helper function in the tree.
#[derive(Clone, Copy)]
pub struct HelperCall<'a> {
    pub name: u32,
    pub arguments: &'a [Expression],
}

/// A call of a helper whose arguments are at hand: their registers, and the level of the first.
#[derive(Drop)]
pub struct Call {
    pub name: u32,
    pub arguments: SmallVec<RegisterNumber, 2>,
    pub level: Level,
}

/// The code before the body of the helper that a statement calls, if it calls one, and the code behind it.
#[derive(Drop)]
pub struct Split {
    pub front: Vec<Instruction>,
    pub call: Option<Call>,
    pub back: Vec<Instruction>,
}

/// The right side of an assignment, and the type of its value.
#[derive(Drop)]
struct Right {
    kind: VariableType,
    split: Split,
}

/// The call of a helper function that an expression is.
pub fn helper_call(value: &Expression) -> Option<HelperCall<'_>>
    ensures { next.helper_call (term value.now) ≡ option_map (λ c. record { name = c.name; arguments = terms c.arguments.now }) result }
{
    match value {
        Expression::Call {
            name,
            arguments,
            ..
        } => match built_in_named(*name) {
            Some(_) => None,
            None => Some(HelperCall {
                name: *name,
                arguments: arguments.as_slice(),
            }),
        },
        _ => None,
    }
}

/// The type of the value of a helper.
fn result_of(helpers: Helpers<'_>, name: u32) -> Option<IntType>
    ensures { result ≡ result_in (functions_of helpers.entry.functions.now) name }
{
    let found = find(helpers, name)?;
    found.function.result
}

/// The type of a call's value.
fn result_type(kind: Option<IntType>) -> VariableType
    ensures { result ≡ spec.result_type kind }
{
    match kind {
        Some(kind) => VariableType::Integer(kind),
        None => VariableType::Integer(IntType::Int),
    }
}

/// Adds the end of the item, where a call has no value.
#[tactic(auto, using(lower_expr::proofs::Growth::unchanged, lower_expr::proofs::Growth::behind))]
fn add_needed(kind: Option<IntType>, code: &mut Vec<Instruction>) -> Result<(), AllocError>
    ensures code { OnOk result (code.new.items ≡ code.old.items ++ spec.needed_code kind) }
    ensures longer { OnErr result (IsLonger code.old.items code.new.items) }
{
    match kind {
        Some(_) => Ok(()),
        None => add(code, Instruction::End),
    }
}

/// The right side of an assignment at a level, behind other code.
fn right_side(
    helpers: Helpers<'_>,
    scope: &Scope,
    level: Level,
    value: &Expression,
    front: Vec<Instruction>,
) -> Result<Right, AllocError>
    requires free { free_level scope.now ≤ level.0 }
    requires low { level.0 + (term_size [] (term value.now)).nodes < 2 ^ 28 }
    ensures code { IfOk result (λ right. (calls : Calls) (inside : ℕ → ℕ) (kind : Option IntType) (depth site : ℕ)
        → split_code calls right.split depth site
        ≡ front.items ++ spec.right_code calls (result_in (functions_of helpers.entry.functions.now)) inside kind scope.now level.0 (next.helper_call (term value.now)) (term value.now) depth site) }
    ensures sites { IfOk result (λ right. (inside : ℕ → ℕ) → called_sites inside right.split.call ≡ next.call_sites inside (next.helper_call (term value.now))) }
    ensures level { IfOk result (λ right. called_level right.split.call ≤ level.0) }
    ensures kind { IfOk result (λ right. (calls : Calls) (inside : ℕ → ℕ) (kind : Option IntType)
        → right.kind ≡ spec.right_type calls (result_in (functions_of helpers.entry.functions.now)) inside kind scope.now (next.helper_call (term value.now)) (term value.now)) }
{
    let mut front = front;
    let mut back = Vec::new(scope.allocator());
    match helper_call(value) {
        None => {
            let kind = emit_expression(scope, level, value, &mut front)?;
            let split = Split {
                front,
                call: None,
                back,
            };
            Ok(Right { kind, split })
        }
        Some(call) => {
            let arguments = emit_arguments(scope, level, call.arguments, &mut front)?;
            let result = result_of(helpers, call.name);
            add_needed(result, &mut back)?;
            let call = Call {
                name: call.name,
                arguments: arguments.registers,
                level,
            };
            let split = Split {
                front,
                call: Some(call),
                back,
            };
            Ok(Right {
                kind: result_type(result),
                split,
            })
        }
    }
}

/// An assignment by `=`.
fn assign(
    helpers: Helpers<'_>,
    scope: &Scope,
    target: &Target,
    value: &Expression,
) -> Result<Split, AllocError>
    requires { free_level scope.now + (target_size [] (tree_target target.now)).nodes + (term_size [] (term value.now)).nodes + 1 < 2 ^ 28 }
    ensures code { IfOk result (λ split. (calls : Calls) (inside : ℕ → ℕ) (kind : Option IntType) (depth site : ℕ)
        → split_code calls split depth site
        ≡ spec.assign_code calls (result_in (functions_of helpers.entry.functions.now)) inside kind scope.now (free_level scope.now) (tree_target target.now) (next.helper_call (term value.now)) (term value.now) depth site) }
    ensures sites { IfOk result (λ split. (inside : ℕ → ℕ) → called_sites inside split.call ≡ next.call_sites inside (next.helper_call (term value.now))) }
    ensures level { IfOk result (λ split. called_level split.call ≤ free_level scope.now + 2) }
{
    let level = scope.free_level();
    let above = level_at(level, 1);
    let mut front = Vec::new(scope.allocator());
    let destination = reach(scope, level, target, &mut front)?;
    let mut right = right_side(helpers, scope, above, value, front)?;
    let from = register_at(above, right.kind);
    put(scope, level, destination, from, &mut right.split.back)?;
    Ok(right.split)
}

/// An assignment by another operator: the old value is fetched before the right side.
fn compound(
    helpers: Helpers<'_>,
    scope: &Scope,
    target: &Target,
    operator: BinaryOperator,
    value: &Expression,
) -> Result<Split, AllocError>
    requires { free_level scope.now + (target_size [] (tree_target target.now)).nodes + (term_size [] (term value.now)).nodes + 2 < 2 ^ 28 }
    ensures code { IfOk result (λ split. (calls : Calls) (inside : ℕ → ℕ) (kind : Option IntType) (depth site : ℕ)
        → split_code calls split depth site
        ≡ spec.compound_code calls (result_in (functions_of helpers.entry.functions.now)) inside kind scope.now (free_level scope.now) (tree_target target.now) operator (next.helper_call (term value.now)) (term value.now) depth site) }
    ensures sites { IfOk result (λ split. (inside : ℕ → ℕ) → called_sites inside split.call ≡ next.call_sites inside (next.helper_call (term value.now))) }
    ensures level { IfOk result (λ split. called_level split.call ≤ free_level scope.now + 2) }
{
    let level = scope.free_level();
    let above = level_at(level, 1);
    let top = level_at(level, 2);
    let mut front = Vec::new(scope.allocator());
    let destination = reach(scope, level, target, &mut front)?;
    let old = register_at(above, destination_type(scope, destination));
    fetch(scope, level, destination, old, &mut front)?;
    let mut right = right_side(helpers, scope, top, value, front)?;
    let kind = right.kind;
    let operand = register_at(top, kind);
    combine(
        scope,
        level,
        destination,
        operator,
        kind,
        old,
        operand,
        &mut right.split.back,
    )?;
    Ok(right.split)
}

/// An assignment, by `=` or by another operator.
pub fn assignment(
    helpers: Helpers<'_>,
    scope: &Scope,
    target: &Target,
    operator: Option<BinaryOperator>,
    value: &Expression,
) -> Result<Split, AllocError>
    requires { free_level scope.now + (target_size [] (tree_target target.now)).nodes + (term_size [] (term value.now)).nodes + 2 < 2 ^ 28 }
    ensures code { IfOk result (λ split. (calls : Calls) (inside : ℕ → ℕ) (kind : Option IntType) (depth site : ℕ) (exits : spec.Exits)
        → split_code calls split depth site
        ≡ spec.stmt_code calls (result_in (functions_of helpers.entry.functions.now)) inside kind scope.now (tree.Assign 0 (tree_target target.now) operator (term value.now)) depth site exits) }
    ensures sites { IfOk result (λ split. (inside : ℕ → ℕ) → called_sites inside split.call ≡ next.call_sites inside (next.helper_call (term value.now))) }
    ensures level { IfOk result (λ split. called_level split.call ≤ free_level scope.now + 2) }
{
    match operator {
        None => assign(helpers, scope, target, value),
        Some(operator) => compound(helpers, scope, target, operator, value),
    }
}

/// The operator of `++` or `--`.
fn step_operator(is_increment: bool) -> BinaryOperator
    ensures { result ≡ next.step_operator is_increment }
{
    if is_increment {
        BinaryOperator::Add
    } else {
        BinaryOperator::Subtract
    }
}

/// Puts `++` or `--` before the code.
#[tactic(auto, using(crate::proofs::Growth::unchanged, crate::proofs::Growth::before, crate::proofs::Growth::one_before))]
pub fn put_step(
    scope: &Scope,
    target: &Target,
    is_increment: bool,
    code: &mut Draft<'_>,
) -> Result<(), AllocError>
    requires { free_level scope.now + (target_size [] (tree_target target.now)).nodes + 2 < 2 ^ 28 }
    ensures code { OnOk result ((calls : Calls) (results : ℕ → Option IntType) (inside : ℕ → ℕ) (kind : Option IntType)
        → code.new ≡ spec.step_code calls results inside kind scope.now (free_level scope.now) (tree_target target.now) (next.step_operator is_increment) ++ code.old) }
    ensures longer { OnErr result (GrowsBefore code.old code.new) }
{
    let level = scope.free_level();
    let above = level_at(level, 1);
    let top = level_at(level, 2);
    let int = VariableType::Integer(IntType::Int);
    let mut front = Vec::new(scope.allocator());
    let destination = reach(scope, level, target, &mut front)?;
    let old = register_at(above, destination_type(scope, destination));
    fetch(scope, level, destination, old, &mut front)?;
    let one = register_at(top, int);
    add(
        &mut front,
        Instruction::Constant {
            to: one.0,
            value: Value::new(IntType::Int, 1),
        },
    )?;
    combine(
        scope,
        level,
        destination,
        step_operator(is_increment),
        int,
        old,
        one,
        &mut front,
    )?;
    code.put_all(front)
}

/// A declaration with an initialiser, which sees the variable, unset. The variable is left again.
pub fn declare_as(
    helpers: Helpers<'_>,
    scope: &mut Scope,
    kind: VariableType,
    name: u32,
    value: &Expression,
) -> Result<Split, AllocError>
    requires { free_level scope.old + (term_size [] (term value.now)).nodes + 1 < 2 ^ 28 }
    ensures code { IfOk result (λ split. (calls : Calls) (inside : ℕ → ℕ) (result_kind : Option IntType) (depth site : ℕ) (exits : spec.Exits)
        → split_code calls split depth site
        ≡ spec.stmt_code calls (result_in (functions_of helpers.entry.functions.now)) inside result_kind scope.old (tree.DeclareAs 0 kind 0 name (term value.now)) depth site exits) }
    ensures sites { IfOk result (λ split. (inside : ℕ → ℕ) → called_sites inside split.call ≡ next.call_sites inside (next.helper_call (term value.now))) }
    ensures level { IfOk result (λ split. called_level split.call ≤ free_level scope.old + 2) }
    ensures scope { scope.new ≡ scope.old }
{
    let level = scope.free_level();
    let above = level_at(level, 1);
    let to = register_at(level, kind).0;
    let mut front = Vec::new(scope.allocator());
    add(&mut front, Instruction::Unset { to })?;
    let count = scope.len();
    scope.declare(name, kind)?;
    let right = right_side(helpers, scope, above, value, front);
    scope.leave(count);
    let mut right = right?;
    let from = register_at(above, right.kind).0;
    add(
        &mut right.split.back,
        Instruction::AssignConversion { to, from, kind },
    )?;
    Ok(right.split)
}

/// The wait at a barrier with these fences, at a position; the item ends where its argument names none.
fn wait(fences: Option<Fences>, position: Position) -> Instruction
    ensures { result ∷ [] ≡ spec.wait_code fences position.site position.depth }
{
    match fences {
        Some(fences) => Instruction::Barrier {
            site: position.site,
            depth: position.depth,
            fences,
        },
        None => Instruction::End,
    }
}

/// A call of a built-in function that is a whole statement.
fn call_built_in(
    scope: &Scope,
    function: BuiltIn,
    arguments: &[Expression],
) -> Result<Split, AllocError>
    requires { free_level scope.now + (terms_size [] (terms arguments.now)).nodes < 2 ^ 28 }
    ensures code { IfOk result (λ split. (calls : Calls) (results : ℕ → Option IntType) (inside : ℕ → ℕ) (kind : Option IntType) (name depth site : ℕ)
        → split_code calls split depth site ≡ spec.call_only_statement calls results inside kind scope.now false (Some function) name (terms arguments.now) depth site) }
    ensures sites { IfOk result (λ split. (inside : ℕ → ℕ) → called_sites inside split.call ≡ 0) }
    ensures level { IfOk result (λ split. called_level split.call ≤ free_level scope.now) }
{
    let level = scope.free_level();
    let mut front = Vec::new(scope.allocator());
    let found = emit_arguments(scope, level, arguments, &mut front)?;
    let kind = VariableType::Integer(call_type(Some(function), found.kind));
    let to = register_at(level, kind);
    call_only(function, to, found.registers.as_slice(), &mut front)?;
    Ok(Split {
        front,
        call: None,
        back: Vec::new(scope.allocator()),
    })
}

/// A call of a helper that is a whole statement.
fn call_helper(scope: &Scope, name: u32, arguments: &[Expression]) -> Result<Split, AllocError>
    requires { free_level scope.now + (terms_size [] (terms arguments.now)).nodes < 2 ^ 28 }
    ensures code { IfOk result (λ split. (calls : Calls) (results : ℕ → Option IntType) (inside : ℕ → ℕ) (kind : Option IntType) (depth site : ℕ)
        → split_code calls split depth site ≡ spec.call_only_statement calls results inside kind scope.now false None name (terms arguments.now) depth site) }
    ensures sites { IfOk result (λ split. (inside : ℕ → ℕ) → called_sites inside split.call ≡ inside name) }
    ensures level { IfOk result (λ split. called_level split.call ≤ free_level scope.now) }
{
    let level = scope.free_level();
    let mut front = Vec::new(scope.allocator());
    let found = emit_arguments(scope, level, arguments, &mut front)?;
    let call = Call {
        name,
        arguments: found.registers,
        level,
    };
    Ok(Split {
        front,
        call: Some(call),
        back: Vec::new(scope.allocator()),
    })
}

/// A call that is a whole statement, at a position.
pub fn call_statement(
    scope: &Scope,
    name: u32,
    arguments: &[Expression],
    position: Position,
) -> Result<Split, AllocError>
    requires { free_level scope.now + (terms_size [] (terms arguments.now)).nodes < 2 ^ 28 }
    ensures code { IfOk result (λ split. (calls : Calls) (results : ℕ → Option IntType) (inside : ℕ → ℕ) (kind : Option IntType)
        → split_code calls split position.depth position.site ≡ spec.call_only_statement calls results inside kind scope.now (barrier.is_barrier name) (built_in name) name (terms arguments.now) position.depth position.site) }
    ensures sites { IfOk result (λ split. (inside : ℕ → ℕ) → called_sites inside split.call ≤ next.statement_sites inside (barrier.is_barrier name) (built_in name) name) }
    ensures called { IfOk result (λ split. (inside : ℕ → ℕ) → called_sites inside split.call ≤ inside name) }
    ensures level { IfOk result (λ split. called_level split.call ≤ free_level scope.now) }
{
    if is_barrier(name) {
        let mut front = Vec::new(scope.allocator());
        add(&mut front, wait(fences(arguments), position))?;
        return Ok(Split {
            front,
            call: None,
            back: Vec::new(scope.allocator()),
        });
    }
    match built_in_named(name) {
        Some(function) => call_built_in(scope, function, arguments),
        None => call_helper(scope, name, arguments),
    }
}
