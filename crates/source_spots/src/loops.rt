//! The loops round a byte of a source.
#![tactic(auto)]

use clmodel::tree::{Expression, Function, Statement};
use std::alloc::{AllocError, Global};

/// How deep statements are looked into: no source is nested so deep.
pub const DEPTH: u32 = 256;

/// Where an expression begins.
fn expression_at(expression: &Expression) -> u32 {
    match expression {
        Expression::Number { at, .. }
        | Expression::Variable { at, .. }
        | Expression::Element { at, .. }
        | Expression::ElementAddress { at, .. }
        | Expression::Dereference { at, .. }
        | Expression::Call { at, .. }
        | Expression::Unary { at, .. }
        | Expression::Cast { at, .. }
        | Expression::Binary { at, .. }
        | Expression::Choice { at, .. } => *at,
    }
}

/// Where a statement begins.
pub fn statement_at(statement: &Statement) -> u32 {
    match statement {
        Statement::Empty { at }
        | Statement::Block { at, .. }
        | Statement::Declare { at, .. }
        | Statement::DeclareArray { at, .. }
        | Statement::Assign { at, .. }
        | Statement::Step { at, .. }
        | Statement::Call { at, .. }
        | Statement::If { at, .. }
        | Statement::IfElse { at, .. }
        | Statement::While { at, .. }
        | Statement::DoWhile { at, .. }
        | Statement::For { at, .. }
        | Statement::Break { at }
        | Statement::Continue { at }
        | Statement::Return { at, .. } => *at,
    }
}

/// Where what each turn of a `for` does begins.
fn turns_begin(
    condition: &Option<Box<Expression>>,
    third: &Option<Box<Statement>>,
    body: &Statement,
) -> u32 {
    if let Some(condition) = condition {
        return expression_at(condition);
    }
    match third {
        Some(third) => statement_at(third),
        None => statement_at(body),
    }
}

/// Where the loop begins that a statement is, if it is one and this byte stands in what its turns do.
fn loop_round(statement: &Statement, at: u32) -> Option<u32> {
    match statement {
        Statement::While { at: begin, .. } | Statement::DoWhile { at: begin, .. } => {
            if *begin < at { Some(*begin) } else { None }
        }
        Statement::For {
            at: begin,
            condition,
            third,
            body,
            ..
        } => {
            if turns_begin(condition, third, body) <= at {
                Some(*begin)
            } else {
                None
            }
        }
        _ => None,
    }
}

/// A statement, if it begins at this byte or before it.
fn begun(statement: &Statement, at: u32) -> Option<&Statement> {
    if statement_at(statement) <= at {
        Some(statement)
    } else {
        None
    }
}

/// The last statement of a list that begins at this byte or before it.
pub fn last_begun(body: &[Statement], at: u32) -> Option<&Statement> {
    let mut last = None;
    for statement in body {
        if statement_at(statement) > at {
            return last;
        }
        last = Some(statement);
    }
    last
}

/// The statement in another one in which this byte stands, if there is one.
pub fn inside(statement: &Statement, at: u32) -> Option<&Statement> {
    match statement {
        Statement::Block { body, .. } => last_begun(body.as_slice(), at),
        Statement::If { chosen, .. } => begun(chosen, at),
        Statement::IfElse {
            chosen,
            otherwise,
            ..
        } => {
            if statement_at(otherwise) <= at {
                return Some(otherwise);
            }
            begun(chosen, at)
        }
        Statement::While { body, .. } | Statement::For { body, .. } => begun(body, at),
        Statement::DoWhile {
            body,
            condition,
            ..
        } => {
            if expression_at(condition) <= at {
                return None;
            }
            begun(body, at)
        }
        _ => None,
    }
}

/// The last function whose body begins at this byte or before it.
pub fn function_at(functions: &[Function], at: u32) -> Option<&Function> {
    let mut last = None;
    for function in functions {
        if function.body_at <= at {
            last = Some(function);
        }
    }
    last
}

/// Adds where the loops of a function begin in whose turns this byte stands, the outermost first. It takes the time of
/// the statements beside those round it.
pub(crate) fn push_loops(
    functions: &[Function],
    at: u32,
    found: &mut Vec<u32>,
) -> Result<(), AllocError> {
    let Some(function) = function_at(functions, at) else {
        return Ok(());
    };
    let mut next = last_begun(function.body.as_slice(), at);
    for _ in 0..DEPTH {
        let Some(statement) = next else {
            return Ok(());
        };
        if let Some(begin) = loop_round(statement, at) {
            found.push(begin)?;
        }
        next = inside(statement, at);
    }
    Ok(())
}

/// Where the loops begin round a byte, and round the calls that lead there, the outermost first.
pub(crate) fn loops_of(
    alloc: Global,
    functions: &[Function],
    through: &[u32],
    at: u32,
) -> Result<Vec<u32>, AllocError> {
    let mut found = Vec::new(alloc);
    for call in through {
        push_loops(functions, *call, &mut found)?;
    }
    push_loops(functions, at, &mut found)?;
    Ok(found)
}
