//! The variables of blocks and of functions, and the registers that they are given.
#![tactic(auto, using(crate::proofs::Growth::unchanged, crate::proofs::Growth::before, crate::proofs::Growth::one_before))]

ghost use Rattle.std.specs.Prelude.{◌≡◌, ◌+◌, ◌<◌, ◌≤◌, ◌^◌, ◌++◌, [], ◌∷◌, drop, length, OnOk, OnErr};
ghost use Rattle.clmodel.specs.Tree as tree;
ghost use Rattle.clmodel.specs.Tree.{stmt};
ghost use Rattle.clmodel.specs.Typing.Rules.{length_limit};
ghost use Rattle.regcode.specs.declared.instruction.Instruction.TheVariants as instruction;
ghost use Rattle.lower_expr.specs.Scope.{Scope, free_level, register_at};
ghost use Rattle.lower_expr.specs.Registers.{numbers};
ghost use Rattle.lower_code.specs.Variables as spec;
ghost use Rattle.lower_code.specs.Trees.{all_of, part_of};
ghost use Rattle.lower_code.specs.Growth.{GrowsBefore, KeepsOuter};

use crate::draft::Draft;
use clmodel::tree::{AddressSpace, Parameter, PointerType, Statement, VariableType};
use clnum::{IntType, Value};
use lower_expr::scope::{Level, PrivateArray, RegisterNumber, Scope, level_at, register_at};
use regcode::Instruction;
use std::alloc::AllocError;

/// The type of the variable that points to a local array.
fn local_pointer(element: IntType) -> VariableType
    ensures { result ≡ spec.local_pointer element }
{
    VariableType::Pointer(PointerType {
        space: AddressSpace::Local,
        is_const: false,
        element,
    })
}

/// Declares an array.
fn declare_array(
    scope: &mut Scope,
    is_local: bool,
    element: IntType,
    name: u32,
    length: Value,
) -> Result<(), AllocError>
    requires { tree.array_length length ≤ length_limit }
    ensures declared { OnOk result (scope.new ≡ record scope.old { variables = spec.array_variable is_local element (tree.array_length length) name ∷ scope.old.variables }) }
    ensures err { OnErr result (scope.new ≡ scope.old) }
{
    if is_local {
        return scope.declare(name, local_pointer(element));
    }
    scope.declare_array(PrivateArray {
        name,
        element,
        length: length.natural() as u32,
    })
}

/// Declares the variable of a declaration.
fn declare(scope: &mut Scope, statement: &Statement) -> Result<(), AllocError>
    requires { spec.elements (stmt statement.now) ≤ length_limit }
    ensures declared { OnOk result (scope.new ≡ spec.scope_after scope.old (stmt statement.now)) }
    ensures err { OnErr result (scope.new ≡ scope.old) }
{
    match statement {
        Statement::Declare { kind, name, .. } => scope.declare(*name, *kind),
        Statement::DeclareArray {
            is_local,
            element,
            name,
            length,
            ..
        } => declare_array(scope, *is_local, *element, *name, *length),
        _ => Ok(()),
    }
}

/// Declares the variable of a part of a `for`.
pub fn declare_part(scope: &mut Scope, part: Option<&Statement>) -> Result<(), AllocError>
    requires { spec.part_elements (part_of part) ≤ length_limit }
    ensures declared { OnOk result (scope.new ≡ spec.scope_after_part scope.old (part_of part.entry)) }
    ensures err { OnErr result (scope.new ≡ scope.old) }
{
    match part {
        None => Ok(()),
        Some(statement) => declare(scope, statement),
    }
}

/// Declares the variables of statements.
#[tactic(auto, using(crate::proofs::Growth::after_statements))]
pub fn declare_all(scope: &mut Scope, statements: &[Statement]) -> Result<(), AllocError>
    requires { spec.row_elements (all_of statements.now) ≤ length_limit }
    ensures declared { OnOk result (scope.new ≡ spec.scope_after_all scope.old (all_of statements.now)) }
    ensures kept { OnErr result (KeepsOuter scope.old scope.new) }
{
    for i in 0..statements.len() {
        declare(scope, &statements[i])?;
    }
    Ok(())
}

/// Leaves the variable of a declaration.
pub fn leave(scope: &mut Scope, statement: &Statement)
    ensures { (before : Scope) → scope.old ≡ spec.scope_after before (stmt statement.now) → scope.new ≡ before }
{
    match statement {
        Statement::Declare { .. } | Statement::DeclareArray { .. } => {
            scope.leave(scope.len().saturating_sub(1));
        }
        _ => {}
    }
}

/// Leaves the variable of a part of a `for`.
pub fn leave_part(scope: &mut Scope, part: Option<&Statement>)
    ensures { (before : Scope) → scope.old ≡ spec.scope_after_part before (part_of part.entry) → scope.new ≡ before }
{
    if let Some(statement) = part {
        leave(scope, statement);
    }
}

/// Declares the parameters of a function.
#[tactic(auto, using(crate::proofs::Growth::same_scope, crate::proofs::Growth::inner_scope))]
pub fn declare_parameters(scope: &mut Scope, parameters: &[Parameter]) -> Result<(), AllocError>
    ensures declared { OnOk result (scope.new ≡ record scope.old { variables = spec.parameter_variables parameters.now scope.old.variables }) }
    ensures kept { OnErr result (KeepsOuter scope.old scope.new) }
{
    for i in 0..parameters.len() {
        let parameter = parameters[i];
        scope.declare(parameter.name, parameter.kind)?;
    }
    Ok(())
}

/// The instruction that gives a parameter its argument at a level; one without an argument is unset.
fn pass_one(
    parameter: Parameter,
    arguments: &[RegisterNumber],
    place: usize,
    level: Level,
) -> Instruction
    requires { level.0 < 2 ^ 28 }
    ensures { result ∷ [] ≡ spec.pass_code (parameter ∷ []) (numbers (drop place arguments.now)) level.0 }
{
    let to = register_at(level, parameter.kind).0;
    if place < arguments.len() {
        let from = arguments[place].0;
        let kind = parameter.kind;
        return Instruction::AssignConversion { to, from, kind };
    }
    Instruction::Unset { to }
}

/// Puts before the code what gives the parameters of a helper from a level on the arguments of a call.
pub fn put_passed(
    parameters: &[Parameter],
    arguments: &[RegisterNumber],
    level: Level,
    code: &mut Draft<'_>,
) -> Result<(), AllocError>
    requires { level.0 + length parameters.now ≤ 2 ^ 28 }
    ensures code { OnOk result (code.new ≡ spec.pass_code parameters.now (numbers arguments.now) level.0 ++ code.old) }
    ensures longer { OnErr result (GrowsBefore code.old code.new) }
{
    for i in 0..parameters.len() {
        let place = parameters.len() - 1 - i;
        let at = level_at(level, place);
        code.put(pass_one(parameters[place], arguments, place, at))?;
    }
    Ok(())
}

/// Puts before the code what gives the parameters of a kernel the arguments of the launch.
pub fn put_arguments(parameters: &[Parameter], code: &mut Draft<'_>) -> Result<(), AllocError>
    requires { length parameters.now ≤ 2 ^ 28 }
    ensures code { OnOk result (code.new ≡ spec.arguments_code parameters.now 0 ++ code.old) }
    ensures longer { OnErr result (GrowsBefore code.old code.new) }
{
    for i in 0..parameters.len() {
        let place = parameters.len() - 1 - i;
        let kind = parameters[place].kind;
        let at = level_at(Level(0), place);
        let to = register_at(at, kind).0;
        let number = at.0;
        code.put(Instruction::Argument { to, number, kind })?;
    }
    Ok(())
}

/// Puts a declaration without an initialiser before the code.
pub fn put_unset(scope: &Scope, kind: VariableType, code: &mut Draft<'_>) -> Result<(), AllocError>
    requires { free_level scope.now < 2 ^ 28 }
    ensures code { OnOk result (code.new ≡ instruction.Unset (register_at (free_level scope.now) kind) ∷ code.old) }
    ensures longer { OnErr result (GrowsBefore code.old code.new) }
{
    let level = scope.free_level();
    let to = register_at(level, kind).0;
    code.put(Instruction::Unset { to })
}

/// Puts the declaration of an array before the code.
pub fn put_array(
    scope: &Scope,
    is_local: bool,
    element: IntType,
    size: Value,
    code: &mut Draft<'_>,
) -> Result<(), AllocError>
    requires low { free_level scope.now < 2 ^ 28 }
    requires arrays { tree.array_length size ≤ length_limit }
    ensures code { OnOk result (code.new ≡ spec.array_code is_local element (tree.array_length size) (length scope.now.variables) (free_level scope.now) ++ code.old) }
    ensures longer { OnErr result (GrowsBefore code.old code.new) }
{
    let level = scope.free_level();
    if is_local {
        let to = register_at(level, local_pointer(element)).0;
        let number = scope.len() as u32;
        return code.put(Instruction::Local {
            to,
            number,
            element,
        });
    }
    let to = register_at(level, VariableType::Integer(element)).0;
    let array = level.0;
    let length = size.natural() as u32;
    code.put(Instruction::UnsetArray { array, length })?;
    code.put(Instruction::Unset { to })
}
