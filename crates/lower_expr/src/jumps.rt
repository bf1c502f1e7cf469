//! The jumps of the operators that evaluate only what they choose (OpenCL 1.2, sections 6.3.g and 6.3.i).
#![tactic(auto, using(crate::proofs::Growth::unchanged, crate::proofs::Growth::behind))]

ghost use Rattle.std.specs.Prelude.{◌≡◌, ◌+◌, ◌-◌, ◌<◌, ◌≤◌, ◌^◌, [], ◌∷◌, ◌++◌, List, length, IfOk, OnOk, OnErr};
ghost use Rattle.clnum.specs.Conversions.{common};
ghost use Rattle.clnum.specs.declared.int_type.IntType.TheVariants as integer;
ghost use Rattle.clmodel.specs.Next.{infix_type, base_type};
ghost use Rattle.clmodel.specs.declared.tree.VariableType.TheVariants as kinds;
ghost use Rattle.folding.specs.Constants.{infix_constant, choice_constant};
ghost use Rattle.regcode.specs.declared.instruction.Instruction.{Instruction};
ghost use Rattle.regcode.specs.declared.instruction.Instruction.TheVariants as instruction;
ghost use Rattle.lower_expr.specs.Scope.{register_at};
ghost use Rattle.lower_expr.specs.Expressions.{truth_code, infix_begun, infix_code, branch_code, choice_code};
ghost use Rattle.lower_expr.specs.Growth.{IsLonger};

use crate::instructions::{add, arithmetic};
use crate::scope::{Level, RegisterNumber, level_at, register_at};
use clmodel::tree::{InfixOperator, VariableType};
use clnum::{IntType, Value};
use folding::{Known, base_type, constants, infix_type};
use regcode::Instruction;
use std::alloc::AllocError;

/// Begins an operator behind its left operand of this type, and gives the place where the right one's code begins.
pub fn begin_infix(
    level: Level,
    operator: InfixOperator,
    first: VariableType,
    code: &mut Vec<Instruction>,
) -> Result<usize, AllocError>
    requires { level.0 < 2 ^ 28 }
    ensures code { OnOk result (code.new.items ≡ code.old.items ++ infix_begun operator (register_at level.0 first)) }
    ensures place { IfOk result (λ place. place ≡ length code.new.items) }
    ensures longer { OnErr result (IsLonger code.old.items code.new.items) }
{
    let test = register_at(level, first).0;
    match operator {
        InfixOperator::Arithmetic(_) => {}
        InfixOperator::LogicalAnd => add(code, Instruction::JumpIfZero { test, by: 0 })?,
        InfixOperator::LogicalOr => {
            add(code, Instruction::JumpIfZero { test, by: 1 })?;
            add(code, Instruction::Jump { by: 0 })?;
        }
    }
    Ok(code.len())
}

/// Ends a logical operator behind its right operand, whose code begins at a place: sets the jump before that place, and
/// adds the int 1, or the int 0 where the right operand is 0, or where it is jumped to the last instruction.
fn logical(
    to: RegisterNumber,
    second: RegisterNumber,
    place: usize,
    jump: Instruction,
    code: &mut Vec<Instruction>,
) -> Result<(), AllocError>
    requires begun { 0 < place }
    requires inside { place ≤ length code.old.items }
    ensures code { OnOk result ((before right : List Instruction) (unset : Instruction) → code.old.items ≡ before ++ (unset ∷ right) → place ≡ length before + 1
        → code.new.items ≡ before ++ (jump ∷ (right ++ instruction.JumpIfZero second.0 2 ∷ truth_code to.0))) }
    ensures longer { OnErr result (IsLonger code.old.items code.new.items) }
{
    let to = to.0;
    let test = second.0;
    add(code, Instruction::JumpIfZero { test, by: 2 })?;
    let value = Value::new(IntType::Int, 1);
    add(code, Instruction::Constant { to, value })?;
    add(code, Instruction::Jump { by: 1 })?;
    let value = Value::new(IntType::Int, 0);
    add(code, Instruction::Constant { to, value })?;
    code[place - 1] = jump;
    Ok(())
}

/// Ends an operator behind its right operand, whose code begins at a place, and gives what is known of the whole.
pub(crate) fn end_infix(
    level: Level,
    operator: InfixOperator,
    first: Known,
    second: Known,
    place: usize,
    code: &mut Vec<Instruction>,
) -> Result<Known, AllocError>
    requires low { level.0 + 1 < 2 ^ 28 }
    requires begun { length (infix_begun operator 0) ≤ place }
    requires inside { place ≤ length code.old.items }
    requires near { length code.old.items - place + 3 < 2 ^ 32 }
    ensures code { OnOk result ((before right : List Instruction) → code.old.items ≡ before ++ (infix_begun operator (register_at level.0 first.kind) ++ right)
        → place ≡ length before + length (infix_begun operator 0) → code.new.items ≡ before ++ infix_code operator
        (register_at level.0 (infix_type operator first.kind second.kind)) (register_at level.0 first.kind) (register_at (level.0 + 1) second.kind) right) }
    ensures known { IfOk result (λ found. found
        ≡ record { kind = infix_type operator first.kind second.kind; constant = infix_constant operator first.constant second.constant }) }
    ensures longer { OnErr result (IsLonger code.old.items code.new.items) }
{
    let kind = infix_type(operator, first.kind, second.kind);
    let constant = constants::infix(operator, first.constant, second.constant);
    let to = register_at(level, kind);
    let left = register_at(level, first.kind);
    let right = register_at(level_at(level, 1), second.kind);
    let count = code.len() - place;
    match operator {
        InfixOperator::Arithmetic(operator) => arithmetic(operator, to, left, right, code)?,
        InfixOperator::LogicalAnd => {
            let by = (count + 3) as u32;
            let jump = Instruction::JumpIfZero { test: left.0, by };
            logical(to, right, place, jump, code)?;
        }
        InfixOperator::LogicalOr => {
            let by = (count + 1) as u32;
            logical(to, right, place, Instruction::Jump { by }, code)?;
        }
    }
    Ok(Known { kind, constant })
}

/// Begins a choice behind its condition of this type, and gives the place where the chosen branch begins.
pub fn begin_choice(
    level: Level,
    condition: VariableType,
    code: &mut Vec<Instruction>,
) -> Result<usize, AllocError>
    requires { level.0 < 2 ^ 28 }
    ensures code { OnOk result (code.new.items ≡ code.old.items ++ instruction.JumpIfZero (register_at level.0 condition) 0 ∷ []) }
    ensures place { IfOk result (λ place. place ≡ length code.new.items) }
    ensures longer { OnErr result (IsLonger code.old.items code.new.items) }
{
    let test = register_at(level, condition).0;
    add(code, Instruction::JumpIfZero { test, by: 0 })?;
    Ok(code.len())
}

/// Makes room for what stands between the two branches of a choice, and gives the place where the other branch begins.
pub fn between_branches(code: &mut Vec<Instruction>) -> Result<usize, AllocError>
    ensures code { OnOk result (code.new.items ≡ code.old.items ++ instruction.UsualConversion 0 0 integer.Int ∷ instruction.Jump 0 ∷ []) }
    ensures place { IfOk result (λ place. place ≡ length code.new.items) }
    ensures longer { OnErr result (IsLonger code.old.items code.new.items) }
{
    add(
        code,
        Instruction::UsualConversion {
            to: 0,
            from: 0,
            other: IntType::Int,
        },
    )?;
    add(code, Instruction::Jump { by: 0 })?;
    Ok(code.len())
}

/// Ends a choice behind both branches, which begin at these places, and gives what is known of the whole.
pub(crate) fn end_choice(
    level: Level,
    condition: Known,
    chosen: Known,
    otherwise: Known,
    first: usize,
    second: usize,
    code: &mut Vec<Instruction>,
) -> Result<Known, AllocError>
    requires low { level.0 < 2 ^ 28 }
    requires begun { 0 < first }
    requires between { first + 2 ≤ second }
    requires inside { second ≤ length code.old.items }
    requires near { length code.old.items - first + 1 < 2 ^ 32 }
    ensures code { OnOk result ((before one other : List Instruction) → code.old.items
        ≡ before ++ (instruction.JumpIfZero (register_at level.0 condition.kind) 0 ∷ (one ++ (instruction.UsualConversion 0 0 integer.Int ∷ instruction.Jump 0 ∷ other)))
        → first ≡ length before + 1 → second ≡ first + length one + 2
        → code.new.items ≡ before ++ choice_code (register_at level.0 condition.kind)
        (branch_code (register_at level.0 (kinds.Integer (common (base_type chosen.kind) (base_type otherwise.kind)))) one (register_at level.0 chosen.kind) otherwise.kind)
        (branch_code (register_at level.0 (kinds.Integer (common (base_type chosen.kind) (base_type otherwise.kind)))) other (register_at level.0 otherwise.kind) chosen.kind)) }
    ensures known { IfOk result (λ found. found ≡ record {
      kind = kinds.Integer (common (base_type chosen.kind) (base_type otherwise.kind));
      constant = choice_constant condition.constant chosen.constant (base_type chosen.kind) otherwise.constant (base_type otherwise.kind);
    }) }
    ensures longer { OnErr result (IsLonger code.old.items code.new.items) }
{
    let one = base_type(chosen.kind);
    let other = base_type(otherwise.kind);
    let kind = VariableType::Integer(one.common(other));
    let to = register_at(level, kind).0;
    let test = register_at(level, condition.kind).0;
    let from_one = register_at(level, chosen.kind).0;
    let from = register_at(level, otherwise.kind).0;
    let constant = constants::choice(condition.constant, chosen, otherwise);
    add(
        code,
        Instruction::UsualConversion {
            to,
            from,
            other: one,
        },
    )?;
    let past = (code.len() - second) as u32;
    let by = (second - first) as u32;
    code[second - 2] = Instruction::UsualConversion {
        to,
        from: from_one,
        other,
    };
    code[second - 1] = Instruction::Jump { by: past };
    code[first - 1] = Instruction::JumpIfZero { test, by };
    Ok(Known { kind, constant })
}
