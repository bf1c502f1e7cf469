//! The instructions of an expression behind those of its operands (OpenCL 1.2, section 6.3).
#![tactic(auto, using(crate::proofs::Growth::unchanged, crate::proofs::Growth::behind))]

ghost use Rattle.std.specs.Prelude.{◌≡◌, ◌+◌, ◌<◌, ◌≤◌, ◌^◌, [], ◌∷◌, ◌++◌, Some, take, drop, IfOk, OnOk, OnErr};
ghost use Rattle.clnum.specs.Operations as operations;
ghost use Rattle.clmodel.specs.Next as next;
ghost use Rattle.clmodel.specs.declared.setup.BuiltIn.TheVariants as built_in_function;
ghost use Rattle.clmodel.specs.declared.tree.VariableType.TheVariants as kinds;
ghost use Rattle.folding.specs.Constants.{unary_constant, cast_constant, call_constant};
ghost use Rattle.folding.specs.Known.{constants_in};
ghost use Rattle.regcode.specs.declared.instruction.Instruction.{Instruction};
ghost use Rattle.regcode.specs.declared.instruction.Instruction.TheVariants as instruction;
ghost use Rattle.lower_expr.specs.Scope.{free_level, register_at, register_of};
ghost use Rattle.lower_expr.specs.Expressions as expressions;
ghost use Rattle.lower_expr.specs.Forms as forms;
ghost use Rattle.lower_expr.specs.Growth.{IsLonger};
ghost use Rattle.lower_expr.specs.Registers.{numbers};

use crate::scope::{Level, RegisterNumber, Scope, level_at, register_at};
use clmodel::setup::{AtomicFunction, BuiltIn, WorkItemFunction};
use clmodel::tree::{InfixOperator, VariableType};
use clnum::{BinaryOperator, Builtin, IntType, UnaryOperator, Value, unary_kind};
use folding::{Known, base_type, call_type, constants};
use regcode::{FetchOperands, Instruction};
use smallvec::SmallVec;
use std::alloc::AllocError;

/// Adds an instruction.
pub fn add(code: &mut Vec<Instruction>, instruction: Instruction) -> Result<(), AllocError>
    ensures code { OnOk result (code.new.items ≡ code.old.items ++ instruction ∷ []) }
    ensures longer { OnErr result (IsLonger code.old.items code.new.items) }
{
    code.push(instruction)?;
    Ok(())
}

/// Puts a constant expression's value in place of the code from a place on, which is that of its form; the code of
/// another one stays.
pub(crate) fn settle(
    level: Level,
    start: usize,
    kind: VariableType,
    constant: Option<Value>,
    code: &mut Vec<Instruction>,
) -> Result<Known, AllocError>
    requires { level.0 < 2 ^ 28 }
    ensures code { OnOk result (code.new.items ≡ take start code.old.items ++ expressions.folded constant level.0 (drop start code.old.items)) }
    ensures known { IfOk result (λ found. found ≡ record { kind = kind; constant = constant }) }
    ensures cut { OnErr result (code.new.items ≡ take start code.old.items) }
{
    if let Some(value) = constant {
        code.truncate(start);
        let to = register_at(level, VariableType::Integer(value.kind())).0;
        code.push(Instruction::Constant { to, value })?;
    }
    Ok(Known { kind, constant })
}

/// Adds the code of a variable's value, which is left in a register.
pub(crate) fn fetch_variable(
    scope: &Scope,
    name: u32,
    to: RegisterNumber,
    code: &mut Vec<Instruction>,
) -> Result<(), AllocError>
    requires { free_level scope.now ≤ 2 ^ 28 }
    ensures code { OnOk result (code.new.items ≡ code.old.items ++ expressions.variable_code to.0 (register_of scope.now name) name) }
    ensures longer { OnErr result (IsLonger code.old.items code.new.items) }
{
    let to = to.0;
    match scope.register(name) {
        Some(RegisterNumber(from)) => add(code, Instruction::Move { to, from, name }),
        None => {
            add(code, Instruction::Unset { to })?;
            add(code, Instruction::Move { to, from: to, name })
        }
    }
}

/// Adds the code of a variable's value, and gives what is known of it.
pub(crate) fn variable(
    scope: &Scope,
    level: Level,
    name: u32,
    code: &mut Vec<Instruction>,
) -> Result<Known, AllocError>
    requires free { free_level scope.now ≤ level.0 }
    requires low { level.0 < 2 ^ 28 }
    ensures code { OnOk result (code.new.items
        ≡ code.old.items ++ expressions.variable_code (register_at level.0 (expressions.kind_named scope.now name)) (register_of scope.now name) name) }
    ensures known { IfOk result (λ found. found ≡ forms.varying (expressions.kind_named scope.now name)) }
    ensures longer { OnErr result (IsLonger code.old.items code.new.items) }
{
    let kind = scope.kind(name);
    let to = register_at(level, kind);
    fetch_variable(scope, name, to, code)?;
    Ok(Known::varying(kind))
}

/// Adds the move of a pointer of this type at a level by an index of that type at the level above.
pub(crate) fn offset(
    level: Level,
    pointer: VariableType,
    index: VariableType,
    code: &mut Vec<Instruction>,
) -> Result<(), AllocError>
    requires { level.0 + 1 < 2 ^ 28 }
    ensures code { OnOk result (code.new.items
        ≡ code.old.items ++ instruction.Offset (register_at level.0 pointer) (register_at level.0 pointer) (register_at (level.0 + 1) index) ∷ []) }
    ensures longer { OnErr result (IsLonger code.old.items code.new.items) }
{
    let pointer = register_at(level, pointer);
    let index = register_at(level_at(level, 1), index);
    add(
        code,
        Instruction::Offset {
            to: pointer.0,
            pointer: pointer.0,
            index: index.0,
        },
    )
}

/// Adds the load of what a pointer of this type points to, and gives what is known of it.
pub(crate) fn load(
    level: Level,
    pointer: VariableType,
    code: &mut Vec<Instruction>,
) -> Result<Known, AllocError>
    requires { level.0 < 2 ^ 28 }
    ensures code { OnOk result (code.new.items
        ≡ code.old.items ++ instruction.Load (register_at level.0 (kinds.Integer (next.base_type pointer))) (register_at level.0 pointer) ∷ []) }
    ensures known { IfOk result (λ found. found ≡ forms.varying (kinds.Integer (next.base_type pointer))) }
    ensures longer { OnErr result (IsLonger code.old.items code.new.items) }
{
    let kind = VariableType::Integer(base_type(pointer));
    let to = register_at(level, kind).0;
    let pointer = register_at(level, pointer).0;
    add(code, Instruction::Load { to, pointer })?;
    Ok(Known::varying(kind))
}

/// Adds the load of an element of the private array of a name, by the index that a register holds.
pub fn private_load(
    scope: &Scope,
    to: RegisterNumber,
    name: u32,
    index: RegisterNumber,
    code: &mut Vec<Instruction>,
) -> Result<(), AllocError>
    requires { free_level scope.now ≤ 2 ^ 28 }
    ensures code { OnOk result (code.new.items ≡ code.old.items ++ expressions.private_load scope.now to.0 name index.0 ∷ []) }
    ensures longer { OnErr result (IsLonger code.old.items code.new.items) }
{
    let array = scope.level(name);
    let element = base_type(scope.kind(name));
    add(
        code,
        Instruction::PrivateLoad {
            to: to.0,
            array: array.0,
            index: index.0,
            element,
            name,
        },
    )
}

/// Adds the load of an element of the private array of a name at a level, by its index of this type there, and gives
/// what is known of it.
pub(crate) fn array_element(
    scope: &Scope,
    level: Level,
    name: u32,
    index: VariableType,
    code: &mut Vec<Instruction>,
) -> Result<Known, AllocError>
    requires free { free_level scope.now ≤ level.0 }
    requires low { level.0 < 2 ^ 28 }
    ensures code { OnOk result (code.new.items ≡ code.old.items
        ++ expressions.private_load scope.now (register_at level.0 (kinds.Integer (expressions.type_of_elements scope.now name))) name (register_at level.0 index) ∷ []) }
    ensures known { IfOk result (λ found. found ≡ forms.varying (kinds.Integer (expressions.type_of_elements scope.now name))) }
    ensures longer { OnErr result (IsLonger code.old.items code.new.items) }
{
    let kind = VariableType::Integer(base_type(scope.kind(name)));
    let to = register_at(level, kind);
    let index = register_at(level, index);
    private_load(scope, to, name, index, code)?;
    Ok(Known::varying(kind))
}

/// Adds the store of what a register holds in an element of the private array of a name, by the index that another
/// holds.
pub fn private_store(
    scope: &Scope,
    name: u32,
    index: RegisterNumber,
    value: RegisterNumber,
    code: &mut Vec<Instruction>,
) -> Result<(), AllocError>
    requires { free_level scope.now ≤ 2 ^ 28 }
    ensures code { OnOk result (code.new.items ≡ code.old.items ++ expressions.private_store scope.now name index.0 value.0 ∷ []) }
    ensures longer { OnErr result (IsLonger code.old.items code.new.items) }
{
    let array = scope.level(name);
    let kind = scope.kind(name);
    let element = base_type(kind);
    add(
        code,
        Instruction::PrivateStore {
            array: array.0,
            index: index.0,
            value: value.0,
            element,
            name,
        },
    )
}

/// Adds the test that a value of this type at a level is a pointer.
pub(crate) fn point(
    level: Level,
    pointer: VariableType,
    code: &mut Vec<Instruction>,
) -> Result<(), AllocError>
    requires { level.0 < 2 ^ 28 }
    ensures code { OnOk result (code.new.items ≡ code.old.items ++ instruction.MovePointer (register_at level.0 pointer) (register_at level.0 pointer) ∷ []) }
    ensures longer { OnErr result (IsLonger code.old.items code.new.items) }
{
    let from = register_at(level, pointer).0;
    add(code, Instruction::MovePointer { to: from, from })
}

/// Adds an operator on integers or pointers.
pub(crate) fn arithmetic(
    operator: BinaryOperator,
    to: RegisterNumber,
    left: RegisterNumber,
    right: RegisterNumber,
    code: &mut Vec<Instruction>,
) -> Result<(), AllocError>
    ensures code { OnOk result (code.new.items ≡ code.old.items ++ instruction.Binary to.0 operator left.0 right.0 ∷ []) }
    ensures longer { OnErr result (IsLonger code.old.items code.new.items) }
{
    add(
        code,
        Instruction::Binary {
            to: to.0,
            operator,
            left: left.0,
            right: right.0,
        },
    )
}

/// Adds the instruction of an operator behind its operand, and gives what is known of the whole.
pub(crate) fn end_unary(
    level: Level,
    operator: UnaryOperator,
    operand: Known,
    code: &mut Vec<Instruction>,
) -> Result<Known, AllocError>
    requires { level.0 < 2 ^ 28 }
    ensures code { OnOk result (code.new.items ≡ code.old.items
        ++ instruction.Unary (register_at level.0 (kinds.Integer (operations.unary_kind operator (next.base_type operand.kind)))) operator (register_at level.0 operand.kind) ∷ []) }
    ensures known { IfOk result (λ found. found
        ≡ record { kind = kinds.Integer (operations.unary_kind operator (next.base_type operand.kind)); constant = unary_constant operator operand.constant }) }
    ensures longer { OnErr result (IsLonger code.old.items code.new.items) }
{
    let kind = VariableType::Integer(unary_kind(operator, base_type(operand.kind)));
    let constant = constants::unary(operator, operand.constant);
    let to = register_at(level, kind).0;
    let operand = register_at(level, operand.kind).0;
    add(
        code,
        Instruction::Unary {
            to,
            operator,
            operand,
        },
    )?;
    Ok(Known { kind, constant })
}

/// Adds the instruction of a cast behind its operand, and gives what is known of the whole.
pub(crate) fn end_cast(
    level: Level,
    kind: IntType,
    operand: Known,
    code: &mut Vec<Instruction>,
) -> Result<Known, AllocError>
    requires { level.0 < 2 ^ 28 }
    ensures code { OnOk result (code.new.items
        ≡ code.old.items ++ instruction.Convert (register_at level.0 (kinds.Integer kind)) (register_at level.0 operand.kind) kind ∷ []) }
    ensures known { IfOk result (λ found. found ≡ record { kind = kinds.Integer kind; constant = cast_constant kind operand.constant }) }
    ensures longer { OnErr result (IsLonger code.old.items code.new.items) }
{
    let to = register_at(level, VariableType::Integer(kind)).0;
    let from = register_at(level, operand.kind).0;
    let constant = constants::cast(kind, operand.constant);
    add(code, Instruction::Convert { to, from, kind })?;
    let kind = VariableType::Integer(kind);
    Ok(Known { kind, constant })
}

/// The registers of arguments, what is known of each, and the integer type of the first, or of what it points to; int
/// where there is none.
#[derive(Drop)]
pub struct Arguments {
    pub registers: SmallVec<RegisterNumber, 2>,
    pub kind: IntType,
    pub(crate) known: SmallVec<Known, 2>,
}

/// Adds the instruction of the call of a built-in function that gives a value, behind its arguments, and gives what is
/// known of the whole. Where there is no such function with that many arguments, the item ends.
pub(crate) fn end_call(
    level: Level,
    function: Option<BuiltIn>,
    arguments: &Arguments,
    code: &mut Vec<Instruction>,
) -> Result<Known, AllocError>
    requires { level.0 < 2 ^ 28 }
    ensures code { OnOk result (code.new.items
        ≡ code.old.items ++ expressions.call_code function (register_at level.0 (kinds.Integer (next.call_type function arguments.now.kind))) (numbers arguments.now.registers.items)) }
    ensures known { IfOk result (λ found. found
        ≡ record { kind = kinds.Integer (next.call_type function arguments.now.kind); constant = call_constant function (constants_in arguments.now.known.items) }) }
    ensures longer { OnErr result (IsLonger code.old.items code.new.items) }
{
    let kind = VariableType::Integer(call_type(function, arguments.kind));
    let to = register_at(level, kind);
    let constant = constants::call(function, arguments.known.as_slice());
    let instruction = value_call(function, to, arguments.registers.as_slice());
    add(code, instruction)?;
    Ok(Known { kind, constant })
}

/// Adds the call of a built-in function whose value, if it gives one, is left in a register that nothing reads. Where
/// there is no such function with that many arguments, the item ends.
pub fn call_only(
    function: BuiltIn,
    to: RegisterNumber,
    arguments: &[RegisterNumber],
    code: &mut Vec<Instruction>,
) -> Result<(), AllocError>
    ensures code { OnOk result (code.new.items ≡ code.old.items ++ expressions.call_only_code (Some function) to.0 (numbers arguments.now)) }
    ensures longer { OnErr result (IsLonger code.old.items code.new.items) }
{
    let instruction = match function {
        BuiltIn::Atomic(function) if function.is_update() => update(function, arguments),
        function => value_call(Some(function), to, arguments),
    };
    add(code, instruction)
}

/// The call of a built-in function that gives a value.
fn value_call(
    function: Option<BuiltIn>,
    to: RegisterNumber,
    arguments: &[RegisterNumber],
) -> Instruction
    ensures { result ∷ [] ≡ expressions.call_code function to.0 (numbers arguments.now) }
{
    match function {
        Some(BuiltIn::WorkDim) => dimensions(to, arguments),
        Some(BuiltIn::WorkItem(function)) => query(to, function, arguments),
        Some(BuiltIn::Integer(function)) => builtin(to, function, arguments),
        Some(BuiltIn::Atomic(function)) => fetch(to, function, arguments),
        None => Instruction::End,
    }
}

/// The call of an atomic function whose value is used.
fn fetch(to: RegisterNumber, function: AtomicFunction, arguments: &[RegisterNumber]) -> Instruction
    ensures { result ∷ [] ≡ expressions.call_code (Some (built_in_function.Atomic function)) to.0 (numbers arguments.now) }
{
    match arguments {
        [pointer] => Instruction::Fetch {
            to: to.0,
            function,
            pointer: pointer.0,
            operands: FetchOperands::Alone,
        },
        [pointer, value] => Instruction::Fetch {
            to: to.0,
            function,
            pointer: pointer.0,
            operands: FetchOperands::Number(value.0),
        },
        [pointer, expected, value] => Instruction::Fetch {
            to: to.0,
            function,
            pointer: pointer.0,
            operands: FetchOperands::Pair {
                expected: expected.0,
                value: value.0,
            },
        },
        _ => Instruction::End,
    }
}

/// An atomic update.
fn update(function: AtomicFunction, arguments: &[RegisterNumber]) -> Instruction
    ensures { result ∷ [] ≡ expressions.update_code function (numbers arguments.now) }
{
    match arguments {
        [pointer] => Instruction::Update {
            function,
            pointer: pointer.0,
            value: None,
        },
        [pointer, value] => Instruction::Update {
            function,
            pointer: pointer.0,
            value: Some(value.0),
        },
        _ => Instruction::End,
    }
}

/// The call of `get_work_dim`.
fn dimensions(to: RegisterNumber, arguments: &[RegisterNumber]) -> Instruction
    ensures { result ∷ [] ≡ expressions.call_code (Some built_in_function.WorkDim) to.0 (numbers arguments.now) }
{
    match arguments {
        [] => Instruction::Dimensions { to: to.0 },
        _ => Instruction::End,
    }
}

/// The call of a work-item function.
fn query(
    to: RegisterNumber,
    function: WorkItemFunction,
    arguments: &[RegisterNumber],
) -> Instruction
    ensures { result ∷ [] ≡ expressions.call_code (Some (built_in_function.WorkItem function)) to.0 (numbers arguments.now) }
{
    match arguments {
        [dimension] => Instruction::Query {
            to: to.0,
            function,
            dimension: dimension.0,
        },
        _ => Instruction::End,
    }
}

/// The call of a function of integers.
fn builtin(to: RegisterNumber, function: Builtin, arguments: &[RegisterNumber]) -> Instruction
    ensures { result ∷ [] ≡ expressions.call_code (Some (built_in_function.Integer function)) to.0 (numbers arguments.now) }
{
    match arguments {
        [first] => Instruction::Builtin {
            to: to.0,
            function,
            first: first.0,
            second: None,
        },
        [first, second] => Instruction::Builtin {
            to: to.0,
            function,
            first: first.0,
            second: Some(second.0),
        },
        _ => Instruction::End,
    }
}
