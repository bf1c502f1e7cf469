//! The words of instructions.
#![tactic(auto)]

ghost use Rattle.std.specs.Prelude.{◌≡◌};
ghost use Rattle.code_text.specs.Text as text;

use clmodel::action::Fences;
use clmodel::setup::{AtomicFunction, WorkItemFunction};
use clmodel::tree::AddressSpace;
use clnum::{BinaryOperator, Builtin, UnaryOperator};
use regcode::Instruction;

/// The qualifier of an address space (OpenCL 1.2, section 6.5), with a space behind it.
pub(crate) fn space_word(space: AddressSpace) -> &'static str
    ensures { result.now ≡ text.space_word space }
{
    match space {
        AddressSpace::Global => "__global ",
        AddressSpace::Local => "__local ",
        AddressSpace::Constant => "__constant ",
    }
}

/// The flags of a barrier (OpenCL 1.2, section 6.12.8).
pub(crate) fn fences_word(fences: Fences) -> &'static str
    ensures { result.now ≡ text.fences_word fences }
{
    match (fences.local, fences.global) {
        (true, true) => "local and global",
        (true, false) => "local",
        (false, true) => "global",
        (false, false) => "none",
    }
}

/// The word of an operator on one operand.
fn unary_word(operator: UnaryOperator) -> &'static str
    ensures { result.now ≡ text.unary_word operator }
{
    match operator {
        UnaryOperator::Plus => "plus",
        UnaryOperator::Negate => "negate",
        UnaryOperator::Complement => "complement",
        UnaryOperator::Not => "not",
    }
}

/// The word of an operator between two operands.
fn binary_word(operator: BinaryOperator) -> &'static str
    ensures { result.now ≡ text.binary_word operator }
{
    match operator {
        BinaryOperator::Add => "add",
        BinaryOperator::Subtract => "subtract",
        BinaryOperator::Multiply => "multiply",
        BinaryOperator::Divide => "divide",
        BinaryOperator::Remainder => "remainder",
        BinaryOperator::ShiftLeft => "shift_left",
        BinaryOperator::ShiftRight => "shift_right",
        BinaryOperator::Less => "less",
        BinaryOperator::Greater => "greater",
        BinaryOperator::LessOrEqual => "less_or_equal",
        BinaryOperator::GreaterOrEqual => "greater_or_equal",
        BinaryOperator::Equal => "equal",
        BinaryOperator::NotEqual => "not_equal",
        BinaryOperator::BitAnd => "bit_and",
        BinaryOperator::BitXor => "bit_xor",
        BinaryOperator::BitOr => "bit_or",
    }
}

/// The word of a built-in integer function, which is its name in OpenCL C (6.12.3).
fn builtin_word(function: Builtin) -> &'static str
    ensures { result.now ≡ text.builtin_word function }
{
    match function {
        Builtin::Min => "min",
        Builtin::Max => "max",
        Builtin::Abs => "abs",
        Builtin::Clz => "clz",
        Builtin::Popcount => "popcount",
        Builtin::Rotate => "rotate",
    }
}

/// The name of a work-item function in OpenCL C (OpenCL 1.2, section 6.12.1).
fn query_word(function: WorkItemFunction) -> &'static str
    ensures { result.now ≡ text.query_word function }
{
    match function {
        WorkItemFunction::GlobalId => "get_global_id",
        WorkItemFunction::LocalId => "get_local_id",
        WorkItemFunction::GroupId => "get_group_id",
        WorkItemFunction::GlobalOffset => "get_global_offset",
        WorkItemFunction::GlobalSize => "get_global_size",
        WorkItemFunction::LocalSize => "get_local_size",
        WorkItemFunction::NumGroups => "get_num_groups",
    }
}

/// The name of an atomic function in OpenCL C (OpenCL 1.2, section 6.12.11).
fn atomic_word(function: AtomicFunction) -> &'static str
    ensures { result.now ≡ text.atomic_word function }
{
    match function {
        AtomicFunction::Add => "atomic_add",
        AtomicFunction::Sub => "atomic_sub",
        AtomicFunction::Min => "atomic_min",
        AtomicFunction::Max => "atomic_max",
        AtomicFunction::And => "atomic_and",
        AtomicFunction::Or => "atomic_or",
        AtomicFunction::Xor => "atomic_xor",
        AtomicFunction::Inc => "atomic_inc",
        AtomicFunction::Dec => "atomic_dec",
        AtomicFunction::Exchange => "atomic_xchg",
        AtomicFunction::CompareExchange => "atomic_cmpxchg",
    }
}

/// The name of an instruction: that of its operator or its function, if it has one.
pub(crate) fn instruction_word(instruction: &Instruction) -> &'static str
    ensures { result.now ≡ text.word_of instruction.now }
{
    match instruction {
        Instruction::Constant { .. } => "constant",
        Instruction::Unset { .. } => "unset",
        Instruction::Move { .. } => "move",
        Instruction::AssignConversion { .. } => "assign",
        Instruction::Convert { .. } => "convert",
        Instruction::UsualConversion { .. } => "usual",
        Instruction::Unary { operator, .. } => unary_word(*operator),
        Instruction::Binary { operator, .. } => binary_word(*operator),
        Instruction::Builtin { function, .. } => builtin_word(*function),
        Instruction::Dimensions { .. } => "get_work_dim",
        Instruction::Query { function, .. } => query_word(*function),
        Instruction::Argument { .. } => "argument",
        Instruction::Local { .. } => "local",
        Instruction::UnsetArray { .. } => "unset_array",
        Instruction::PrivateLoad { .. } => "private_load",
        Instruction::PrivateStore { .. } => "private_store",
        Instruction::MovePointer { .. } => "move_pointer",
        Instruction::Offset { .. } => "offset",
        Instruction::Load { .. } => "load",
        Instruction::Store { .. } => "store",
        Instruction::Update { function, .. } | Instruction::Fetch { function, .. } => atomic_word(
            *function,
        ),
        Instruction::Barrier { .. } => "barrier",
        Instruction::Enter { .. } => "enter",
        Instruction::Turn { .. } => "turn",
        Instruction::Jump { .. } => "jump",
        Instruction::JumpIfZero { .. } => "jump_if_zero",
        Instruction::Back { .. } => "back",
        Instruction::End => "end",
    }
}
