//! The faults of statements and declarations.
#![tactic(auto)]

ghost use Rattle.std.specs.Prelude.{◌≡◌, ℕ, true, None, Some, IfOk, IfErr};
ghost use Rattle.clmodel.specs.Tree.{If, IfElse, While, DoWhile, For, Break, term, stmt, maybe_term, declared, returned};
ghost use Rattle.clmodel.specs.declared.declaration.Declaration.TheVariants.{Single};
ghost use Rattle.clmodel.specs.Typing.Context.{array, is_free, bind, enter, turning, after, after_part, after_all};
ghost use Rattle.clmodel.specs.Typing.Least.{least, first, node};
ghost use Rattle.clmodel.specs.Typing.Faults.{term_faults, condition_parts, condition_faults, return_faults, array_faults, faults, part_faults, row_faults};
ghost use Rattle.cltypes_scope.specs.Answers.{Checks};
ghost use Rattle.cltypes.specs.Limits.{statements};
ghost use Rattle.cltypes.specs.Answers.{Ends};
ghost use Rattle.cltypes.specs.Views.{held, turns_faults};

use crate::assignments::{assignment_fault, check_target, initial_fault};
use clmodel::declaration::Declaration;
use clmodel::tree::{Expression, Statement, VariableType};
use clmodel::type_fault::TypeFault;
use clnum::{IntType, Value};
use cltypes_scope::{
    CallPlace, Context, Identifier, check_call, check_expression, integer_fault, lesser,
};

/// What the statement of a condition that may be left out has against it, or the first fault inside.
fn check_condition(
    context: &Context,
    condition: &Option<Box<Expression>>,
) -> Result<Option<TypeFault>, TypeFault>
    ensures { Checks
        result
        (first (condition_parts context.now (maybe_term condition.now)))
        (least (condition_faults context.now (maybe_term condition.now))) }
{
    match condition {
        None => Ok(None),
        Some(condition) => {
            let condition = check_expression(context, condition)?;
            Ok(integer_fault(condition))
        }
    }
}

/// A `break` or a `continue`.
fn loop_fault(context: &Context, at: u32) -> Option<TypeFault>
    ensures { result ≡ first (faults context.now (Break at)) }
{
    if context.is_in_loop() {
        None
    } else {
        Some(TypeFault::TypeMismatch { at })
    }
}

/// A `return` with a value.
fn value_return_fault(context: &Context, at: u32, value: &Expression) -> Option<TypeFault>
    ensures { let e = term value.now in result ≡ first (node (term_faults context.now e) (return_faults context.now at e)) }
{
    match check_expression(context, value) {
        Err(fault) => Some(fault),
        Ok(value) => if context.result().is_some() {
            integer_fault(value)
        } else {
            lesser(Some(TypeFault::TypeMismatch { at }), integer_fault(value))
        },
    }
}

/// A `return`.
fn return_fault(context: &Context, at: u32, value: &Option<Box<Expression>>) -> Option<TypeFault>
    ensures { result ≡ first (faults context.now (returned at value.now)) }
{
    match value {
        None => if context.result().is_some() {
            Some(TypeFault::TypeMismatch { at })
        } else {
            None
        },
        Some(value) => value_return_fault(context, at, value),
    }
}

/// The end of what has this fault.
pub(crate) fn ended(fault: Option<TypeFault>) -> Result<(), TypeFault>
    ensures none { IfOk result (λ _. fault ≡ None) }
    ensures fault { IfErr result (λ f. fault ≡ Some f) }
{
    match fault {
        Some(fault) => Err(fault),
        None => Ok(()),
    }
}

/// Declares a variable, with its initialiser if it has one, or answers the first fault. Err(OutOfMemory) may come at
/// any time.
fn check_declaration(
    context: &mut Context,
    kind: VariableType,
    variable: Identifier,
    value: &Option<Box<Expression>>,
) -> Result<(), TypeFault>
    ensures first { (at : ℕ) → Ends result (first (faults context.old (declared at kind variable.at variable.name value.now))) }
    ensures bound { IfOk result (λ _. context.new ≡ bind context.old variable.name (Single kind)) }
{
    if !context.is_free(variable.name) {
        return Err(TypeFault::Redeclared { at: variable.at });
    }
    context.bind(variable.name, Declaration::Single(kind))?;
    match value {
        None => Ok(()),
        Some(value) => ended(initial_fault(context, kind, value)),
    }
}

/// What an array is declared as.
fn array(is_local: bool, element: IntType) -> Declaration
    ensures { result ≡ array is_local element }
{
    if is_local {
        Declaration::LocalArray(element)
    } else {
        Declaration::PrivateArray(element)
    }
}

/// The declaration of an array: its name, where it is local the block that it stands in, and how many elements it has,
/// by the limits of the device.
fn array_fault(
    context: &Context,
    is_local: bool,
    array: Identifier,
    length_at: u32,
    length: Value,
) -> Option<TypeFault>
    ensures { result ≡ least (array_faults context.now is_local array.at array.name length_at length) }
{
    let count = length.natural();
    if !context.is_free(array.name) {
        Some(TypeFault::Redeclared { at: array.at })
    } else if is_local && !context.is_outermost() {
        Some(TypeFault::WrongSpace { at: array.at })
    } else if count < 1 || count > context.limits().elements {
        Some(TypeFault::TooLarge { at: length_at })
    } else {
        None
    }
}

/// Declares what has no fault, or answers its fault. Err(OutOfMemory) may come at any time.
fn declare(
    context: &mut Context,
    name: u32,
    declared: Declaration,
    fault: Option<TypeFault>,
) -> Result<(), TypeFault>
    requires { fault ≡ None → is_free context.old name ≡ true }
    ensures first { Ends result fault }
    ensures bound { IfOk result (λ _. context.new ≡ bind context.old name declared) }
{
    if let Some(fault) = fault {
        return Err(fault);
    }
    context.bind(name, declared)?;
    Ok(())
}

/// Checks a statement or a declaration, which what follows it sees, or answers its first fault. Err(OutOfMemory) may
/// come at any time.
#[cycle(statements)]
fn check_statement(context: &mut Context, statement: &Statement) -> Result<(), TypeFault>
    ensures first { Ends result (first (faults context.old (stmt statement.now))) }
    ensures after { IfOk result (λ _. context.new ≡ after context.old (stmt statement.now)) }
{
    match statement {
        Statement::Empty { .. } => Ok(()),
        Statement::Block { body, .. } => check_block(context, body),
        Statement::Declare {
            kind,
            name_at,
            name,
            value,
            ..
        } => {
            let variable = Identifier {
                at: *name_at,
                name: *name,
            };
            check_declaration(context, *kind, variable, value)
        }
        Statement::DeclareArray {
            is_local,
            element,
            name_at,
            name,
            length_at,
            length,
            ..
        } => {
            let identifier = Identifier {
                at: *name_at,
                name: *name,
            };
            let fault = array_fault(context, *is_local, identifier, *length_at, *length);
            let declared = array(*is_local, *element);
            declare(context, *name, declared, fault)
        }
        Statement::Assign {
            target,
            operator,
            value,
            ..
        } => ended(assignment_fault(context, target, *operator, value)),
        Statement::Step { target, .. } => {
            check_target(context, target)?;
            Ok(())
        }
        Statement::Call {
            at,
            name,
            arguments,
        } => {
            let called = Identifier {
                at: *at,
                name: *name,
            };
            check_call(context, CallPlace::WholeStatement, called, arguments)?;
            Ok(())
        }
        Statement::If {
            condition,
            chosen,
            ..
        } => check_if(context, condition, chosen),
        Statement::IfElse {
            condition,
            chosen,
            otherwise,
            ..
        } => check_if_else(context, condition, chosen, otherwise),
        Statement::While {
            condition,
            body,
            ..
        } => check_while(context, condition, body),
        Statement::DoWhile {
            body,
            condition,
            ..
        } => check_do(context, body, condition),
        Statement::For {
            first,
            condition,
            third,
            body,
            ..
        } => check_for(context, first, condition, third, body),
        Statement::Break { at } | Statement::Continue { at } => ended(loop_fault(context, *at)),
        Statement::Return { at, value } => ended(return_fault(context, *at, value)),
    }
}

/// Checks what is controlled, in a scope of its own, which is left behind it. Err(OutOfMemory) may come at any time.
#[cycle(statements)]
fn check_controlled(context: &mut Context, statement: &Statement) -> Result<(), TypeFault>
    ensures first { Ends result (first (faults (enter context.old) (stmt statement.now))) }
    ensures left { IfOk result (λ _. context.new ≡ context.old) }
{
    context.enter()?;
    check_statement(context, statement)?;
    context.leave();
    Ok(())
}

/// Checks the body of a loop, in a scope of its own, which is left behind it. Err(OutOfMemory) may come at any time.
#[cycle(statements)]
fn check_turn(context: &mut Context, body: &Statement) -> Result<(), TypeFault>
    ensures first { Ends result (first (faults (turning context.old) (stmt body.now))) }
    ensures left { IfOk result (λ _. context.new ≡ context.old) }
{
    let was_in_loop = context.is_in_loop();
    context.enter()?;
    context.set_in_loop(true);
    check_statement(context, body)?;
    context.leave();
    context.set_in_loop(was_in_loop);
    Ok(())
}

/// Checks an `if` with no `else`. Err(OutOfMemory) may come at any time.
#[cycle(statements)]
fn check_if(
    context: &mut Context,
    condition: &Expression,
    chosen: &Statement,
) -> Result<(), TypeFault>
    ensures first { (at : ℕ) → Ends result (first (faults context.old (If at (term condition.now) (stmt chosen.now)))) }
    ensures left { IfOk result (λ _. context.new ≡ context.old) }
{
    let condition = check_expression(context, condition)?;
    check_controlled(context, chosen)?;
    ended(integer_fault(condition))
}

/// Checks an `if` with its `else`. Err(OutOfMemory) may come at any time.
#[cycle(statements)]
fn check_if_else(
    context: &mut Context,
    condition: &Expression,
    chosen: &Statement,
    otherwise: &Statement,
) -> Result<(), TypeFault>
    ensures first { (at : ℕ) → Ends result (first (faults context.old (IfElse at (term condition.now) (stmt chosen.now) (stmt otherwise.now)))) }
    ensures left { IfOk result (λ _. context.new ≡ context.old) }
{
    let condition = check_expression(context, condition)?;
    check_controlled(context, chosen)?;
    check_controlled(context, otherwise)?;
    ended(integer_fault(condition))
}

/// Checks a `while`. Err(OutOfMemory) may come at any time.
#[cycle(statements)]
fn check_while(
    context: &mut Context,
    condition: &Expression,
    body: &Statement,
) -> Result<(), TypeFault>
    ensures first { (at : ℕ) → Ends result (first (faults context.old (While at (term condition.now) (stmt body.now)))) }
    ensures left { IfOk result (λ _. context.new ≡ context.old) }
{
    let condition = check_expression(context, condition)?;
    check_turn(context, body)?;
    ended(integer_fault(condition))
}

/// Checks a `do`. Err(OutOfMemory) may come at any time.
#[cycle(statements)]
fn check_do(
    context: &mut Context,
    body: &Statement,
    condition: &Expression,
) -> Result<(), TypeFault>
    ensures first { (at : ℕ) → Ends result (first (faults context.old (DoWhile at (stmt body.now) (term condition.now)))) }
    ensures left { IfOk result (λ _. context.new ≡ context.old) }
{
    check_turn(context, body)?;
    let condition = check_expression(context, condition)?;
    ended(integer_fault(condition))
}

/// Checks a part of a `for` that may be left out, and that what follows sees. Err(OutOfMemory) may come at any time.
#[cycle(statements)]
fn check_part(context: &mut Context, part: &Option<Box<Statement>>) -> Result<(), TypeFault>
    ensures first { Ends result (first (part_faults context.old (held part.now))) }
    ensures after { IfOk result (λ _. context.new ≡ after_part context.old (held part.now)) }
{
    match part {
        None => Ok(()),
        Some(part) => check_statement(context, part),
    }
}

/// Checks the third part of a `for`, in a scope of its own, which is left behind it. Err(OutOfMemory) may come at any
/// time.
#[cycle(statements)]
fn check_third(context: &mut Context, part: &Option<Box<Statement>>) -> Result<(), TypeFault>
    ensures first { Ends result (first (part_faults (enter context.old) (held part.now))) }
    ensures left { IfOk result (λ _. context.new ≡ context.old) }
{
    match part {
        None => Ok(()),
        Some(part) => check_controlled(context, part),
    }
}

/// Checks the parts of a `for` behind its first one, in the scope of the `for`. Err(OutOfMemory) may come at any time.
#[cycle(statements)]
fn check_turns(
    context: &mut Context,
    condition: &Option<Box<Expression>>,
    third: &Option<Box<Statement>>,
    body: &Statement,
) -> Result<(), TypeFault>
    ensures first { Ends result (first (turns_faults context.old (maybe_term condition.now) (held third.now) (stmt body.now))) }
    ensures left { IfOk result (λ _. context.new ≡ context.old) }
{
    let fault = check_condition(context, condition)?;
    check_third(context, third)?;
    check_turn(context, body)?;
    ended(fault)
}

/// Checks a `for`, in a scope of its own, which is left behind it. Err(OutOfMemory) may come at any time.
#[cycle(statements)]
fn check_for(
    context: &mut Context,
    start: &Option<Box<Statement>>,
    condition: &Option<Box<Expression>>,
    third: &Option<Box<Statement>>,
    body: &Statement,
) -> Result<(), TypeFault>
    ensures first { (at : ℕ) → Ends result (first (faults context.old (For at (held start.now) (maybe_term condition.now) (held third.now) (stmt body.now)))) }
    ensures left { IfOk result (λ _. context.new ≡ context.old) }
{
    context.enter()?;
    check_part(context, start)?;
    check_turns(context, condition, third, body)?;
    context.leave();
    Ok(())
}

/// Checks the statements of a block in a scope of their own, which is left behind them. Err(OutOfMemory) may come at
/// any time.
#[cycle(statements)]
fn check_block(context: &mut Context, body: &[Statement]) -> Result<(), TypeFault>
    ensures first { Ends result (first (row_faults (enter context.old) (statements body.now))) }
    ensures left { IfOk result (λ _. context.new ≡ context.old) }
{
    context.enter()?;
    check_statements(context, body)?;
    context.leave();
    Ok(())
}

/// Checks statements one after the other, or answers the first fault. Err(OutOfMemory) may come at any time.
#[cycle(statements)]
pub(crate) fn check_statements(context: &mut Context, body: &[Statement]) -> Result<(), TypeFault>
    ensures first { Ends result (first (row_faults context.old (statements body.now))) }
    ensures after { IfOk result (λ _. context.new ≡ after_all context.old (statements body.now)) }
{
    for statement in body {
        check_statement(context, statement)?;
    }
    Ok(())
}
