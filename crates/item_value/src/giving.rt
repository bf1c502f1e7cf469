//! What instructions give to registers.
#![tactic(auto)]

ghost use Rattle.std.specs.Prelude.{ℕ, List, IsTrue};
ghost use Rattle.clmodel.specs.Next.{Continuation};
ghost use Rattle.regcode.specs.Machine.{State, act, with_put};
ghost use Rattle.item_value.specs.Arrays.{registers_with};
ghost use Rattle.item_value.specs.ItemContext.{item_context};
ghost use Rattle.register_values.specs.Leading.{RunsOnAs};
ghost use Rattle.item_value.specs.Giving.{gives, target};

use crate::elements::PrivateElement;
use crate::item_context::ItemContext;
use crate::parameters::parameter;
use crate::private_array::PrivateArray;
use crate::queries::work_dim;
use crate::registers::RegisterFile;
use crate::values::{
    VariableRead, apply_binary, apply_unary, assign, call_builtin, call_builtin_of_two, cast,
    load_private, load_variable, move_pointer, pointer_operand, query_work_item, to_common_type,
};
use clmodel::operand::Operand;
use regcode::Instruction;
use register_values::pointers::local_pointer;
use register_values::register_value::RegisterValue;
use register_values::termination::Termination;

/// The value that an instruction with a target gives it without an answer.
pub fn value_of(
    context: &ItemContext<'_>,
    values: &[RegisterValue],
    arrays: &[PrivateArray],
    instruction: &Instruction,
) -> Result<RegisterValue, Termination>
    requires { IsTrue (gives instruction.now) }
    ensures { (place : ℕ) (counters : List ℕ) (on after : State → Continuation) →
        let state : State = record { place = place; registers = registers_with values.now arrays.now; counters = counters } in
        RunsOnAs result (act (item_context context.now) (Some instruction.now) on after state) (λ v. on (with_put state (target instruction.now) v)) }
{
    let registers = RegisterFile {
        table: context.registers,
        values,
    };
    match instruction {
        Instruction::Constant { value, .. } => Ok(RegisterValue::new(Some(Operand::Integral(
            *value,
        )))),
        Instruction::Unset { .. } => Ok(RegisterValue::unset()),
        Instruction::Move { from, name, .. } => load_variable(
            registers,
            VariableRead {
                register: *from,
                name: *name,
            },
        ),
        Instruction::AssignConversion { from, kind, .. } => assign(registers, *from, *kind),
        Instruction::Convert { from, kind, .. } => cast(registers, *from, *kind),
        Instruction::UsualConversion { from, other, .. } => to_common_type(
            registers, *from, *other,
        ),
        Instruction::Unary {
            operator,
            operand,
            ..
        } => apply_unary(registers, *operand, *operator),
        Instruction::Binary {
            operator,
            left,
            right,
            ..
        } => apply_binary(registers, *operator, *left, *right),
        Instruction::Builtin {
            function,
            first,
            second,
            ..
        } => match second {
            None => call_builtin(registers, *function, *first),
            Some(second) => call_builtin_of_two(registers, *function, *first, *second),
        },
        Instruction::Dimensions { .. } => {
            Ok(RegisterValue::new(Some(work_dim(&context.position))))
        },
        Instruction::Query {
            function,
            dimension,
            ..
        } => query_work_item(registers, &context.position, *function, *dimension),
        Instruction::Argument { number, kind, .. } => {
            let value = parameter(context, *number, *kind);
            Ok(RegisterValue::new(value))
        }
        Instruction::Local {
            number,
            element,
            ..
        } => {
            let pointer = local_pointer(*number, *element);
            Ok(RegisterValue::new(Some(Operand::Pointed(pointer))))
        }
        Instruction::PrivateLoad {
            array,
            index,
            element,
            name,
            ..
        } => load_private(
            registers,
            arrays,
            PrivateElement {
                array: *array,
                index: *index,
                kind: *element,
                name: *name,
            },
        ),
        Instruction::MovePointer { from, .. } => pointer_operand(registers, *from),
        Instruction::Offset { pointer, index, .. } => { move_pointer(registers, *pointer, *index) }
        // No other instruction comes here, as `requires` says.
        _ => Err(Termination::Finish),
    }
}
