//! The left operand of a division, for those who say why one fails.
#![tactic(auto)]

ghost use Rattle.std.specs.Prelude.{◌≡◌};
ghost use Rattle.item_step.specs.Dividing.{dividend_of, number_in};

use clmodel::operand::Operand;
use clnum::{BinaryOperator, Value};
use item_state::Machine;
use regcode::Instruction;
use register_values::register_value::RegisterValue;

/// The number that a register has, if it has one.
fn number(value: RegisterValue) -> Option<Value>
    ensures { result ≡ number_in value }
{
    let operand = value.value()?;
    match operand {
        Operand::Integral(number) => Some(number),
        Operand::Pointed(_) => None,
    }
}

/// The number that the left operand has of the `/` or `%` where an item stands (C99 6.5.5); None at another
/// instruction, or where that register has no number. An item that fails at a division stands there, whichever step it
/// tried first: a step that finds a fault changes nothing.
pub(crate) fn dividend(machine: &Machine<'_>) -> Option<Value>
    ensures { result ≡ dividend_of machine.now }
{
    match machine.instruction() {
        Some(Instruction::Binary { operator, left, .. }) => match operator {
            BinaryOperator::Divide | BinaryOperator::Remainder => number(machine.kept(*left)),
            _ => None,
        },
        _ => None,
    }
}
