//! What an item asks, and how it goes on with the answer.
#![tactic(auto)]

ghost use Rattle.std.specs.Prelude.{ℕ, IsTrue};
ghost use Rattle.clnum.specs.Integer.{Integer};
ghost use Rattle.clmodel.specs.Next as next;
ghost use Rattle.clmodel.specs.Next.{Continuation};
ghost use Rattle.clmodel.specs.declared.operand.Pointer.{Pointer};
ghost use Rattle.regcode.specs.Machine.{State, act, read};
ghost use Rattle.regcode.specs.declared.instruction.FetchOperands.TheVariants as operands;
ghost use Rattle.regcode.specs.declared.instruction.Instruction.TheVariants as instruction;
ghost use Rattle.item_step.specs.Asking.{asks};
ghost use Rattle.register_values.specs.Leading.{RunsOnAs};
ghost use Rattle.item_state.specs.Running.{is_asking};

use crate::rest::AskedAction;
use clmodel::operand::Pointer;
use clmodel::setup::AtomicFunction;
use clnum::{Value, convert};
use item_state::Machine;
use item_value::accesses::{fetch_of, load_of, store_of, update_of};
use regcode::{FetchOperands, Instruction};
use register_values::pointers::{number, pointing};
use register_values::termination::Termination;

/// The registers of a compare-exchange: of a pointer, of the number to compare with, and of the one to put.
#[derive(Clone, Copy)]
struct ComparedRegisters {
    pointer: u32,
    expected: u32,
    value: u32,
}

/// An operand that is a pointer.
fn pointer_in(machine: &Machine<'_>, register: u32) -> Result<Pointer, Termination>
    ensures { (after : Pointer → Continuation) → RunsOnAs result (read machine.now.given machine.now.state register (λ v. next.pointing v after)) after }
{
    let value = machine.operand(register)?;
    pointing(value)
}

/// Operands that are a pointer and a number.
fn pointer_and_number(
    machine: &Machine<'_>,
    pointer: u32,
    value: u32,
) -> Result<(Pointer, Value), Termination>
    ensures { (after : Pointer → Integer → Continuation) → RunsOnAs result (read machine.now.given machine.now.state pointer (λ v. read machine.now.given machine.now.state value (λ w. next.pointing v (λ q. next.number w (λ n. after q n))))) (λ pair. after pair.0 pair.1) }
{
    let pointer = machine.operand(pointer)?;
    let value = machine.operand(value)?;
    let pointer = pointing(pointer)?;
    let value = number(value)?;
    Ok((pointer, value))
}

/// Operands that are a pointer, the number to compare with, and the one to put.
fn compared(
    machine: &Machine<'_>,
    registers: ComparedRegisters,
) -> Result<(Pointer, Value, Value), Termination>
    ensures { (after : Pointer → Integer → Integer → Continuation) → RunsOnAs result (read machine.now.given machine.now.state registers.pointer (λ v. read machine.now.given machine.now.state registers.expected (λ w. read machine.now.given machine.now.state registers.value (λ x. next.pointing v (λ q. next.number w (λ m. next.number x (λ n. after q m n))))))) (λ three. after three.0 three.1 three.2) }
{
    let pointer = machine.operand(registers.pointer)?;
    let expected = machine.operand(registers.expected)?;
    let value = machine.operand(registers.value)?;
    let pointer = pointing(pointer)?;
    let expected = number(expected)?;
    let value = number(value)?;
    Ok((pointer, expected, value))
}

/// What a load asks.
fn load(machine: &Machine<'_>, pointer: u32) -> Result<AskedAction, Termination>
    ensures { (to : ℕ) (on after : State → Continuation) → RunsOnAs result (act machine.now.given (Some (instruction.Load to pointer)) on after machine.now.state) (asks (instruction.Load to pointer) machine.now.state after) }
{
    let pointer = pointer_in(machine, pointer)?;
    let operation = load_of(pointer.element);
    Ok(AskedAction::Access { pointer, operation })
}

/// What a store asks.
fn store(machine: &Machine<'_>, pointer: u32, value: u32) -> Result<AskedAction, Termination>
    ensures { (on after : State → Continuation) → RunsOnAs result (act machine.now.given (Some (instruction.Store pointer value)) on after machine.now.state) (asks (instruction.Store pointer value) machine.now.state after) }
{
    let pair = pointer_and_number(machine, pointer, value)?;
    Ok(AskedAction::Access {
        pointer: pair.0,
        operation: store_of(pair.0.element, pair.1),
    })
}

/// What an atomic update by 1 asks.
fn update_by_one(
    machine: &Machine<'_>,
    function: AtomicFunction,
    pointer: u32,
) -> Result<AskedAction, Termination>
    ensures { (on after : State → Continuation) → RunsOnAs result (act machine.now.given (Some (instruction.Update function pointer None)) on after machine.now.state) (asks (instruction.Update function pointer None) machine.now.state after) }
{
    let pointer = pointer_in(machine, pointer)?;
    let one = Value::wrapped(pointer.element, 1);
    let operation = update_of(function, pointer.element, one);
    Ok(AskedAction::Access { pointer, operation })
}

/// What an atomic update asks.
fn update(
    machine: &Machine<'_>,
    function: AtomicFunction,
    pointer: u32,
    value: u32,
) -> Result<AskedAction, Termination>
    ensures { (on after : State → Continuation) → RunsOnAs result (act machine.now.given (Some (instruction.Update function pointer (Some value))) on after machine.now.state) (asks (instruction.Update function pointer (Some value)) machine.now.state after) }
{
    let pair = pointer_and_number(machine, pointer, value)?;
    let amount = convert(pair.1, pair.0.element);
    Ok(AskedAction::Access {
        pointer: pair.0,
        operation: update_of(function, pair.0.element, amount),
    })
}

/// What an atomic operation by 1 asks whose old number is used.
fn fetch_by_one(
    machine: &Machine<'_>,
    function: AtomicFunction,
    pointer: u32,
) -> Result<AskedAction, Termination>
    ensures { (to : ℕ) (on after : State → Continuation) → RunsOnAs result (act machine.now.given (Some (instruction.Fetch to function pointer operands.Alone)) on after machine.now.state) (asks (instruction.Fetch to function pointer operands.Alone) machine.now.state after) }
{
    let pointer = pointer_in(machine, pointer)?;
    let none = Value::wrapped(pointer.element, 0);
    let one = Value::wrapped(pointer.element, 1);
    let operation = fetch_of(function, pointer.element, none, one);
    Ok(AskedAction::Access { pointer, operation })
}

/// What an atomic operation asks whose old number is used.
fn fetch(
    machine: &Machine<'_>,
    function: AtomicFunction,
    pointer: u32,
    value: u32,
) -> Result<AskedAction, Termination>
    ensures { (to : ℕ) (on after : State → Continuation) → RunsOnAs result (act machine.now.given (Some (instruction.Fetch to function pointer (operands.Number value))) on after machine.now.state) (asks (instruction.Fetch to function pointer (operands.Number value)) machine.now.state after) }
{
    let pair = pointer_and_number(machine, pointer, value)?;
    let none = Value::wrapped(pair.0.element, 0);
    let amount = convert(pair.1, pair.0.element);
    Ok(AskedAction::Access {
        pointer: pair.0,
        operation: fetch_of(function, pair.0.element, none, amount),
    })
}

/// What an atomic operation asks that compares.
fn fetch_if_equal(
    machine: &Machine<'_>,
    function: AtomicFunction,
    registers: ComparedRegisters,
) -> Result<AskedAction, Termination>
    ensures { (to : ℕ) (on after : State → Continuation) → RunsOnAs result (act machine.now.given (Some (instruction.Fetch to function registers.pointer (operands.Pair registers.expected registers.value))) on after machine.now.state) (asks (instruction.Fetch to function registers.pointer (operands.Pair registers.expected registers.value)) machine.now.state after) }
{
    let three = compared(machine, registers)?;
    let element = three.0.element;
    let wanted = convert(three.1, element);
    let amount = convert(three.2, element);
    Ok(AskedAction::Access {
        pointer: three.0,
        operation: fetch_of(function, element, wanted, amount),
    })
}

/// What the instruction asks at which an item rests; `Finish` at the kernel's end, and where an operand is of a wrong
/// kind.
pub(crate) fn wanted(
    machine: &Machine<'_>,
    instruction: &Instruction,
) -> Result<AskedAction, Termination>
    requires { IsTrue (is_asking instruction.now) }
    ensures { (on after : State → Continuation) → RunsOnAs result (act machine.now.given (Some instruction.now) on after machine.now.state) (asks instruction.now machine.now.state after) }
{
    match instruction {
        Instruction::Load { pointer, .. } => load(machine, *pointer),
        Instruction::Store { pointer, value } => store(machine, *pointer, *value),
        Instruction::Update {
            function,
            pointer,
            value,
        } => match value {
            None => update_by_one(machine, *function, *pointer),
            Some(value) => update(machine, *function, *pointer, *value),
        },
        Instruction::Fetch {
            function,
            pointer,
            operands,
            ..
        } => match operands {
            FetchOperands::Alone => fetch_by_one(machine, *function, *pointer),
            FetchOperands::Number(value) => fetch(machine, *function, *pointer, *value),
            FetchOperands::Pair { expected, value } => {
                let registers = ComparedRegisters {
                    pointer: *pointer,
                    expected: *expected,
                    value: *value,
                };
                fetch_if_equal(machine, *function, registers)
            }
        },
        Instruction::Barrier {
            site,
            depth,
            fences,
        } => Ok(AskedAction::Barrier {
            site: *site,
            depth: *depth,
            fences: *fences,
        }),
        _ => Err(Termination::Finish),
    }
}
