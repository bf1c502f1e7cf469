//! The emission of the code of expressions.
#![tactic(auto, using(crate::proofs::Growth::unchanged, crate::proofs::Growth::behind))]

ghost use Rattle.std.specs.Prelude.{◌≡◌, ◌+◌, ◌<◌, ◌≤◌, ◌^◌, [], ◌++◌, IfOk, OnOk, OnErr};
ghost use Rattle.clmodel.specs.Next.{argument_type};
ghost use Rattle.clmodel.specs.Tree.{Element, term, terms, tree_target};
ghost use Rattle.clmodel.specs.Typing.Sizes.{term_size, terms_size, target_size};
ghost use Rattle.folding.specs.Constants.{constants_of};
ghost use Rattle.folding.specs.Known.{constants_in};
ghost use Rattle.lower_expr.specs.Scope.{free_level};
ghost use Rattle.lower_expr.specs.Forms.{known_of, form_code};
ghost use Rattle.lower_expr.specs.Expressions.{kind_of, kind_named, expr_code, address_code, terms_code, registers_for, target_code, target_kind};
ghost use Rattle.lower_expr.specs.Growth.{IsLonger};
ghost use Rattle.lower_expr.specs.Registers.{numbers};

use crate::instructions::{
    Arguments, array_element, end_call, end_cast, end_unary, load, offset, point, settle, variable,
};
use crate::jumps::{begin_choice, begin_infix, between_branches, end_choice, end_infix};
use crate::scope::{Level, Scope, level_at, register_at};
use clmodel::setup::built_in_named;
use clmodel::tree::{Expression, Target, VariableType};
use clnum::{IntType, Value};
use folding::{Known, base_type};
use regcode::Instruction;
use smallvec::SmallVec;
use std::alloc::AllocError;

/// The levels that an expression needs have registers. This is the contract of a function that does nothing: what it
/// asks is shown at its call.
fn level_suffices(level: Level, expression: &Expression)
    requires { level.0 + (term_size [] (term expression.now)).nodes < 2 ^ 28 }
    ensures { level.0 + (term_size [] (term expression.now)).nodes < 2 ^ 28 }
{}

/// The same of arguments.
fn levels_suffice(level: Level, arguments: &[Expression])
    requires { level.0 + (terms_size [] (terms arguments.now)).nodes < 2 ^ 28 }
    ensures { level.0 + (terms_size [] (terms arguments.now)).nodes < 2 ^ 28 }
{}

/// Adds the code of an expression, which leaves its value in the register of its type at a level, and gives its type
/// (OpenCL 1.2, section 6.3). The level is at least the first that is free. Err if out of memory.
pub fn emit_expression(
    scope: &Scope,
    level: Level,
    expression: &Expression,
    code: &mut Vec<Instruction>,
) -> Result<VariableType, AllocError>
    requires free { free_level scope.now ≤ level.0 }
    requires low { level.0 + (term_size [] (term expression.now)).nodes < 2 ^ 28 }
    ensures code { IfOk result (λ kind. code.new.items ≡ code.old.items ++ expr_code scope.now level.0 (term expression.now)) }
    ensures kind { IfOk result (λ kind. kind ≡ kind_of scope.now (term expression.now)) }
    ensures longer { OnErr result (IsLonger code.old.items code.new.items) }
{
    let found = emit(scope, level, expression, code)?;
    let _constant: Option<Value> = found.constant; // tells the borrow checker of this type
    Ok(found.kind)
}

/// The same, which gives what is known of the expression. Each node is worked out once, from its parts; where it is
/// constant, its value takes the place of the code of its form.
#[cycle(emission)]
fn emit(
    scope: &Scope,
    level: Level,
    expression: &Expression,
    code: &mut Vec<Instruction>,
) -> Result<Known, AllocError>
    requires free { free_level scope.now ≤ level.0 }
    requires low { level.0 + (term_size [] (term expression.now)).nodes < 2 ^ 28 }
    ensures code { OnOk result (code.new.items ≡ code.old.items ++ expr_code scope.now level.0 (term expression.now)) }
    ensures known { IfOk result (λ found. found ≡ known_of scope.now (term expression.now)) }
    ensures longer { OnErr result (IsLonger code.old.items code.new.items) }
{
    let start = code.len();
    let known = emit_form(scope, level, expression, code)?;
    settle(level, start, known.kind, known.constant, code)
}

/// Adds the code of an expression's form, whose parts are settled, and gives what is known of the expression.
#[cycle(emission)]
fn emit_form(
    scope: &Scope,
    level: Level,
    expression: &Expression,
    code: &mut Vec<Instruction>,
) -> Result<Known, AllocError>
    requires free { free_level scope.now ≤ level.0 }
    requires low { level.0 + (term_size [] (term expression.now)).nodes < 2 ^ 28 }
    ensures code { OnOk result (code.new.items ≡ code.old.items ++ form_code scope.now level.0 (term expression.now)) }
    ensures known { IfOk result (λ found. found ≡ known_of scope.now (term expression.now)) }
    ensures longer { OnErr result (IsLonger code.old.items code.new.items) }
{
    match expression {
        Expression::Number { value, .. } => Ok(Known::number(*value)),
        Expression::Variable { name, .. } => variable(scope, level, *name, code),
        Expression::Element { name, index, .. } => emit_element(scope, level, *name, index, code),
        Expression::ElementAddress { name, index, .. } => {
            let kind = emit_address(scope, level, *name, index, code)?;
            Ok(Known::varying(kind))
        }
        Expression::Dereference { pointer, .. } => {
            let pointer = emit(scope, level, pointer, code)?;
            load(level, pointer.kind, code)
        }
        Expression::Call {
            name,
            arguments,
            ..
        } => {
            let given = arguments.as_slice();
            levels_suffice(level, given);
            let arguments = emit_arguments(scope, level, given, code)?;
            end_call(level, built_in_named(*name), &arguments, code)
        }
        Expression::Unary {
            operator,
            operand,
            ..
        } => {
            let operand = emit(scope, level, operand, code)?;
            end_unary(level, *operator, operand, code)
        }
        Expression::Cast {
            target,
            operand,
            ..
        } => {
            let operand = emit(scope, level, operand, code)?;
            end_cast(level, *target, operand, code)
        }
        Expression::Binary {
            operator,
            left,
            right,
            ..
        } => {
            let first = emit(scope, level, left, code)?;
            let place = begin_infix(level, *operator, first.kind, code)?;
            let second = emit(scope, level_at(level, 1), right, code)?;
            end_infix(level, *operator, first, second, place, code)
        }
        Expression::Choice {
            condition,
            chosen,
            otherwise,
            ..
        } => {
            let condition = emit(scope, level, condition, code)?;
            let first = begin_choice(level, condition.kind, code)?;
            let chosen = emit(scope, level, chosen, code)?;
            let second = between_branches(code)?;
            let otherwise = emit(scope, level, otherwise, code)?;
            end_choice(level, condition, chosen, otherwise, first, second, code)
        }
    }
}

/// Adds the code of an element of the private array of a name, or of one that its pointer leads to, and gives what is
/// known of it.
#[cycle(emission)]
fn emit_element(
    scope: &Scope,
    level: Level,
    name: u32,
    index: &Expression,
    code: &mut Vec<Instruction>,
) -> Result<Known, AllocError>
    requires free { free_level scope.now ≤ level.0 }
    requires low { level.0 + 1 + (term_size [] (term index.now)).nodes < 2 ^ 28 }
    ensures code { OnOk result (code.new.items ≡ code.old.items ++ expr_code scope.now level.0 (Element 0 name (term index.now))) }
    ensures known { IfOk result (λ found. found ≡ known_of scope.now (Element 0 name (term index.now))) }
    ensures longer { OnErr result (IsLonger code.old.items code.new.items) }
{
    if scope.is_private_array(name) {
        let index = emit(scope, level, index, code)?;
        let _constant: Option<Value> = index.constant; // tells the borrow checker of this type
        return array_element(scope, level, name, index.kind, code);
    }
    let pointer = emit_address(scope, level, name, index, code)?;
    load(level, pointer, code)
}

/// Adds the code of a pointer variable's value moved by an index, left at a level, and gives its type. Err if out of
/// memory.
#[cycle(emission)]
fn emit_address(
    scope: &Scope,
    level: Level,
    name: u32,
    index: &Expression,
    code: &mut Vec<Instruction>,
) -> Result<VariableType, AllocError>
    requires free { free_level scope.now ≤ level.0 }
    requires low { level.0 + 1 + (term_size [] (term index.now)).nodes < 2 ^ 28 }
    ensures code { IfOk result (λ pointer. code.new.items ≡ code.old.items ++ address_code scope.now level.0 name (term index.now)) }
    ensures kind { IfOk result (λ pointer. pointer ≡ kind_named scope.now name) }
    ensures longer { OnErr result (IsLonger code.old.items code.new.items) }
{
    let pointer = variable(scope, level, name, code)?;
    let index = emit(scope, level_at(level, 1), index, code)?;
    let _constant: Option<Value> = index.constant; // tells the borrow checker of this type
    offset(level, pointer.kind, index.kind, code)?;
    Ok(pointer.kind)
}

/// Adds the code of arguments, from left to right, and gives the registers where their values are, the first at a
/// level, and each further one a level above, with the integer type of the first, or of what it points to, and each
/// constant value. Err if out of memory.
#[cycle(emission)]
pub fn emit_arguments(
    scope: &Scope,
    level: Level,
    arguments: &[Expression],
    code: &mut Vec<Instruction>,
) -> Result<Arguments, AllocError>
    requires free { free_level scope.now ≤ level.0 }
    requires low { level.0 + (terms_size [] (terms arguments.now)).nodes < 2 ^ 28 }
    ensures code { IfOk result (λ found. code.new.items ≡ code.old.items ++ terms_code scope.now level.0 (terms arguments.now)) }
    ensures registers { IfOk result (λ found. numbers found.registers.items ≡ registers_for scope.now level.0 (terms arguments.now)) }
    ensures kind { IfOk result (λ found. found.kind ≡ argument_type scope.now.variables (terms arguments.now)) }
    ensures constants { IfOk result (λ found. constants_in found.known.items ≡ constants_of scope.now.variables (terms arguments.now)) }
    ensures longer { OnErr result (IsLonger code.old.items code.new.items) }
{
    let mut registers = SmallVec::new(scope.allocator());
    let mut known = SmallVec::new(scope.allocator());
    let mut kind = IntType::Int;
    for i in 0..arguments.len() {
        let argument = &arguments[i];
        let above = level_at(level, i);
        level_suffices(above, argument);
        let found = emit(scope, above, argument, code)?;
        let type_found = found.kind;
        known.push(found)?;
        registers.push(register_at(above, type_found))?;
        if i == 0 {
            kind = base_type(type_found);
        }
    }
    Ok(Arguments {
        registers,
        kind,
        known,
    })
}

/// What is left at a level for a target.
#[derive(Clone, Copy)]
pub enum TargetKind {
    /// Nothing: it is a variable as a whole
    Variable,
    /// The index of an element of a private array, of this type
    Index(VariableType),
    /// A pointer of this type
    Pointer(VariableType),
}

/// Adds the code of a target, which leaves its index or a pointer to it at a level, and gives which of them, and its
/// type; nothing where it is a variable as a whole (C99 6.5.16). Err if out of memory.
pub fn emit_target(
    scope: &Scope,
    level: Level,
    target: &Target,
    code: &mut Vec<Instruction>,
) -> Result<TargetKind, AllocError>
    requires free { free_level scope.now ≤ level.0 }
    requires low { level.0 + (target_size [] (tree_target target.now)).nodes < 2 ^ 28 }
    ensures code { IfOk result (λ found. code.new.items ≡ code.old.items ++ target_code scope.now level.0 (tree_target target.now)) }
    ensures kind { IfOk result (λ found. found ≡ target_kind scope.now (tree_target target.now)) }
    ensures longer { OnErr result (IsLonger code.old.items code.new.items) }
{
    match target {
        Target::Variable { .. } => Ok(TargetKind::Variable),
        Target::Element { name, index, .. } => {
            if scope.is_private_array(*name) {
                let index = emit_expression(scope, level, index, code)?;
                return Ok(TargetKind::Index(index));
            }
            let pointer = emit_address(scope, level, *name, index, code)?;
            Ok(TargetKind::Pointer(pointer))
        }
        Target::Dereference { pointer, .. } => {
            let pointer = emit_expression(scope, level, pointer, code)?;
            point(level, pointer, code)?;
            Ok(TargetKind::Pointer(pointer))
        }
    }
}
