//! The targets of assignments (C99 6.5.16).
#![tactic(auto, using(crate::proofs::Growth::unchanged, crate::proofs::Growth::behind))]

ghost use Rattle.std.specs.Prelude.{◌≡◌, ℕ, ◌+◌, ◌<◌, ◌≤◌, ◌^◌, [], ◌++◌, IfOk, OnOk, OnErr};
ghost use Rattle.clmodel.specs.Tree.{Target as TreeTarget, tree_target};
ghost use Rattle.clmodel.specs.Typing.Sizes.{target_size};
ghost use Rattle.lower_expr.specs.Scope.{free_level, register_of};
ghost use Rattle.lower_expr.specs.Expressions.{kind_named, target_code, target_register};
ghost use Rattle.lower_expr.specs.Growth.{IsLonger};
ghost use Rattle.lower_expr.specs.Targets as spec;
ghost use Rattle.lower_expr.specs.Targets.{target_name, destination_of};

use crate::emission::{TargetKind, emit_target};
use crate::instructions::{add, arithmetic, fetch_variable, private_load, private_store};
use crate::scope::{Level, RegisterNumber, Scope, level_at, register_at};
use clmodel::tree::{InfixOperator, Target, VariableType};
use clnum::BinaryOperator;
use folding::{base_type, infix_type};
use regcode::Instruction;
use std::alloc::AllocError;

/// The target of an assignment: a variable of a name, an element of its array by an index of a type, or what a pointer
/// of a type points to.
#[derive(Clone, Copy)]
pub struct Destination {
    name: u32,
    kind: TargetKind,
}

/// The name of a target's variable; 0 where there is none.
fn target_name(target: &Target) -> u32
    ensures { result ≡ target_name (tree_target target.now) }
{
    match target {
        Target::Variable { name, .. } => *name,
        Target::Element { name, .. } => *name,
        Target::Dereference { .. } => 0,
    }
}

/// Adds the code of a target, which leaves its index or a pointer to it at a level.
pub fn reach(
    scope: &Scope,
    level: Level,
    target: &Target,
    code: &mut Vec<Instruction>,
) -> Result<Destination, AllocError>
    requires free { free_level scope.now ≤ level.0 }
    requires low { level.0 + (target_size [] (tree_target target.now)).nodes < 2 ^ 28 }
    ensures code { IfOk result (λ _. code.new.items ≡ code.old.items ++ target_code scope.now level.0 (tree_target target.now)) }
    ensures found { IfOk result (λ destination. destination ≡ destination_of scope.now (tree_target target.now)) }
    ensures longer { OnErr result (IsLonger code.old.items code.new.items) }
{
    let kind = emit_target(scope, level, target, code)?;
    Ok(Destination {
        name: target_name(target),
        kind,
    })
}

/// The type of the target.
pub fn destination_type(scope: &Scope, destination: Destination) -> VariableType
    ensures { (to : TreeTarget) → destination ≡ destination_of scope.now to → result ≡ spec.type_of_target scope.now to }
{
    match destination.kind {
        TargetKind::Variable => scope.kind(destination.name),
        TargetKind::Index(_) => VariableType::Integer(base_type(scope.kind(destination.name))),
        TargetKind::Pointer(pointer) => VariableType::Integer(base_type(pointer)),
    }
}

/// Adds the code that fetches the value which is there.
pub fn fetch(
    scope: &Scope,
    level: Level,
    destination: Destination,
    to: RegisterNumber,
    code: &mut Vec<Instruction>,
) -> Result<(), AllocError>
    requires free { free_level scope.now ≤ level.0 }
    requires low { level.0 < 2 ^ 28 }
    ensures code { OnOk result ((target : TreeTarget) → destination ≡ destination_of scope.now target
        → code.new.items ≡ code.old.items ++ spec.fetch_code scope.now target (target_register scope.now level.0 target) to.0) }
    ensures longer { OnErr result (IsLonger code.old.items code.new.items) }
{
    match destination.kind {
        TargetKind::Variable => fetch_variable(scope, destination.name, to, code),
        TargetKind::Index(index) => {
            let index = register_at(level, index);
            private_load(scope, to, destination.name, index, code)
        }
        TargetKind::Pointer(pointer) => {
            let pointer = register_at(level, pointer).0;
            let to = to.0;
            add(code, Instruction::Load { to, pointer })
        }
    }
}

/// Adds the code that puts a register's value there.
pub fn put(
    scope: &Scope,
    level: Level,
    destination: Destination,
    from: RegisterNumber,
    code: &mut Vec<Instruction>,
) -> Result<(), AllocError>
    requires free { free_level scope.now ≤ level.0 }
    requires low { level.0 < 2 ^ 28 }
    ensures code { OnOk result ((target : TreeTarget) → destination ≡ destination_of scope.now target
        → code.new.items ≡ code.old.items ++ spec.put_code scope.now target (target_register scope.now level.0 target) from.0) }
    ensures longer { OnErr result (IsLonger code.old.items code.new.items) }
{
    match destination.kind {
        TargetKind::Variable => set_variable(scope, destination.name, from, code),
        TargetKind::Index(index) => {
            let index = register_at(level, index);
            private_store(scope, destination.name, index, from, code)
        }
        TargetKind::Pointer(pointer) => {
            let pointer = register_at(level, pointer).0;
            let value = from.0;
            add(code, Instruction::Store { pointer, value })
        }
    }
}

/// Adds the code that gives a variable a register's value.
fn set_variable(
    scope: &Scope,
    name: u32,
    from: RegisterNumber,
    code: &mut Vec<Instruction>,
) -> Result<(), AllocError>
    requires { free_level scope.now ≤ 2 ^ 28 }
    ensures code { OnOk result (code.new.items ≡ code.old.items ++ spec.set_variable_code (register_of scope.now name) from.0 (kind_named scope.now name)) }
    ensures longer { OnErr result (IsLonger code.old.items code.new.items) }
{
    let kind = scope.kind(name);
    let from = from.0;
    let to = match scope.register(name) {
        Some(to) => to.0,
        None => from,
    };
    add(code, Instruction::AssignConversion { to, from, kind })
}

/// Adds the code of an operator on the value that was there and on a right operand of a type, whose value is put there.
pub fn combine(
    scope: &Scope,
    level: Level,
    destination: Destination,
    operator: BinaryOperator,
    kind: VariableType,
    old: RegisterNumber,
    right: RegisterNumber,
    code: &mut Vec<Instruction>,
) -> Result<(), AllocError>
    requires free { free_level scope.now ≤ level.0 }
    requires low { level.0 + 1 < 2 ^ 28 }
    ensures code { OnOk result ((target : TreeTarget) → destination ≡ destination_of scope.now target
        → code.new.items ≡ code.old.items ++ spec.combine_code scope.now target level.0 operator kind old.0 right.0) }
    ensures longer { OnErr result (IsLonger code.old.items code.new.items) }
{
    let first = destination_type(scope, destination);
    let above = level_at(level, 1);
    let to = register_at(
        above,
        infix_type(InfixOperator::Arithmetic(operator), first, kind),
    );
    arithmetic(operator, to, old, right, code)?;
    put(scope, level, destination, to, code)
}
