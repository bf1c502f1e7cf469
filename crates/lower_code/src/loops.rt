//! Tests, loops and returns, with the statements in them left out (OpenCL 1.2, section 6.9; C99 6.8.4 to 6.8.6).
#![tactic(auto, using(crate::proofs::Growth::unchanged, crate::proofs::Growth::before, crate::proofs::Growth::one_before))]

ghost use Rattle.std.specs.Prelude.{◌≡◌, ◌+◌, ◌<◌, ◌^◌, [], ◌∷◌, ◌++◌, List, length, OnOk, OnErr};
ghost use Rattle.std.specs.Option.{option_map};
ghost use Rattle.clmodel.specs.Tree.{term, maybe_term};
ghost use Rattle.clmodel.specs.Typing.Sizes.{term_size, condition_size};
ghost use Rattle.regcode.specs.declared.instruction.Instruction.{Instruction};
ghost use Rattle.regcode.specs.declared.instruction.Instruction.TheVariants as instruction;
ghost use Rattle.lower_expr.specs.Scope.{free_level};
ghost use Rattle.lower_expr.specs.Expressions.{expr_code, register_for};
ghost use Rattle.lower_expr.specs.Growth.{IsLonger};
ghost use Rattle.lower_code.specs.Code as spec;
ghost use Rattle.lower_code.specs.Emission.{test_of};
ghost use Rattle.lower_code.specs.Growth.{GrowsBefore};

use crate::draft::Draft;
use clmodel::tree::{Expression, Statement, VariableType};
use clnum::IntType;
use lower_expr::emission::emit_expression;
use lower_expr::instructions::add;
use lower_expr::scope::{Level, RegisterNumber, Scope, register_at};
use regcode::Instruction;
use std::alloc::AllocError;

/// The condition of a `for`.
pub fn condition_of(condition: &Option<Box<Expression>>) -> Option<&Expression>
    ensures { test_of result ≡ maybe_term condition.now }
{
    match condition {
        Some(condition) => Some(condition),
        None => None,
    }
}

/// The first or the third part of a `for`.
pub fn statement_of(part: &Option<Box<Statement>>) -> Option<&Statement>
    ensures { option_map (λ s. s.now) result ≡ option_map (λ s. s.value) part.now }
{
    match part {
        Some(part) => Some(part),
        None => None,
    }
}

/// Puts a test before the code, and a jump past `by` instructions where it doesn't hold.
pub fn put_test(
    scope: &Scope,
    test: &Expression,
    by: u32,
    code: &mut Draft<'_>,
) -> Result<(), AllocError>
    requires { free_level scope.now + (term_size [] (term test.now)).nodes < 2 ^ 28 }
    ensures code { OnOk result (code.new
        ≡ expr_code scope.now (free_level scope.now) (term test.now) ++ (instruction.JumpIfZero (register_for scope.now (free_level scope.now) (term test.now)) by ∷ code.old)) }
    ensures longer { OnErr result (GrowsBefore code.old code.new) }
{
    let level = scope.free_level();
    let mut front = Vec::new(scope.allocator());
    let kind = emit_expression(scope, level, test, &mut front)?;
    let test = register_at(level, kind).0;
    code.put(Instruction::JumpIfZero { test, by })?;
    code.put_all(front)
}

/// Puts the condition of a loop before the code, with a jump past its way back where it doesn't hold.
pub fn put_condition(
    scope: &Scope,
    condition: Option<&Expression>,
    code: &mut Draft<'_>,
) -> Result<(), AllocError>
    requires { free_level scope.now + (condition_size [] (test_of condition)).nodes < 2 ^ 28 }
    ensures code { OnOk result (code.new ≡ spec.condition_code scope.now (test_of condition.entry) ++ code.old) }
    ensures longer { OnErr result (GrowsBefore code.old code.new) }
{
    match condition {
        None => Ok(()),
        Some(condition) => put_test(scope, condition, 1, code),
    }
}

/// Puts a loop's turn before the code: its body and condition, and the way back.
fn end_turn<'a>(depth: u32, turn: Draft<'a>, code: &mut Draft<'a>) -> Result<(), AllocError>
    requires { length turn + 1 < 2 ^ 32 }
    ensures code { OnOk result ((body condition : List Instruction) → turn.entry ≡ body ++ condition → code.new ≡ spec.turn_code depth body condition ++ code.old) }
    ensures longer { OnErr result (GrowsBefore code.old code.new) }
{
    let by = turn.past(0);
    code.put(Instruction::Back { by })?;
    code.put_draft(turn)?;
    code.put(Instruction::Turn { depth })
}

/// Puts a loop that begins with its body before the code.
pub fn end_do<'a>(depth: u32, turn: Draft<'a>, code: &mut Draft<'a>) -> Result<(), AllocError>
    requires { length turn + 1 < 2 ^ 32 }
    ensures code { OnOk result ((body condition : List Instruction) → turn.entry ≡ body ++ condition → code.new ≡ spec.do_code depth body condition ++ code.old) }
    ensures longer { OnErr result (GrowsBefore code.old code.new) }
{
    end_turn(depth, turn, code)?;
    code.put(Instruction::Enter { depth })
}

/// Puts a loop that begins with its condition, of `start` instructions, before the code.
pub fn end_while<'a>(
    depth: u32,
    start: usize,
    turn: Draft<'a>,
    code: &mut Draft<'a>,
) -> Result<(), AllocError>
    requires { length turn + 1 < 2 ^ 32 }
    ensures code { OnOk result ((body condition : List Instruction) → turn.entry ≡ body ++ condition → start ≡ length condition
        → code.new ≡ spec.while_code depth body condition ++ code.old) }
    ensures longer { OnErr result (GrowsBefore code.old code.new) }
{
    let by = turn.past(start);
    end_turn(depth, turn, code)?;
    code.put(Instruction::Jump { by })?;
    code.put(Instruction::Enter { depth })
}

/// Puts before the code that a function returns no value: one that gives a value ends the item there.
pub fn put_no_value(kind: Option<IntType>, code: &mut Draft<'_>) -> Result<(), AllocError>
    ensures code { OnOk result (code.new ≡ spec.no_value_code kind ++ code.old) }
    ensures longer { OnErr result (GrowsBefore code.old code.new) }
{
    match kind {
        None => Ok(()),
        Some(_) => code.put(Instruction::End),
    }
}

/// Puts a return without a value before the code, with a jump past `by` instructions.
pub fn put_return(kind: Option<IntType>, by: u32, code: &mut Draft<'_>) -> Result<(), AllocError>
    ensures code { OnOk result (code.new ≡ spec.no_value_code kind ++ (instruction.Jump by ∷ code.old)) }
    ensures longer { OnErr result (GrowsBefore code.old code.new) }
{
    code.put(Instruction::Jump { by })?;
    put_no_value(kind, code)
}

/// Adds that a function returns a register's value, in its type.
#[tactic(auto, using(lower_expr::proofs::Growth::unchanged, lower_expr::proofs::Growth::behind))]
fn add_value(
    kind: Option<IntType>,
    level: Level,
    from: RegisterNumber,
    code: &mut Vec<Instruction>,
) -> Result<(), AllocError>
    requires { level.0 < 2 ^ 28 }
    ensures code { OnOk result (code.new.items ≡ code.old.items ++ spec.value_code kind level.0 from.0) }
    ensures longer { OnErr result (IsLonger code.old.items code.new.items) }
{
    match kind {
        None => Ok(()),
        Some(kind) => {
            let kind = VariableType::Integer(kind);
            let to = register_at(level, kind).0;
            let from = from.0;
            add(code, Instruction::AssignConversion { to, from, kind })
        }
    }
}

/// Puts a return of a value before the code, with a jump past `by` instructions.
pub fn put_return_value(
    kind: Option<IntType>,
    scope: &Scope,
    value: &Expression,
    by: u32,
    code: &mut Draft<'_>,
) -> Result<(), AllocError>
    requires { free_level scope.now + (term_size [] (term value.now)).nodes < 2 ^ 28 }
    ensures code { OnOk result (code.new
        ≡ expr_code scope.now (free_level scope.now) (term value.now)
        ++ (spec.value_code kind scope.now.base (register_for scope.now (free_level scope.now) (term value.now)) ++ (instruction.Jump by ∷ code.old))) }
    ensures longer { OnErr result (GrowsBefore code.old code.new) }
{
    let level = scope.free_level();
    let mut front = Vec::new(scope.allocator());
    let found = emit_expression(scope, level, value, &mut front)?;
    let from = register_at(level, found);
    add_value(kind, scope.base(), from, &mut front)?;
    code.put(Instruction::Jump { by })?;
    code.put_all(front)
}
