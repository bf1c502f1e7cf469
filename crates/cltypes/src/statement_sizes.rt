//! The sizes of statements, with the bodies of the functions that they call.
#![tactic(auto)]

ghost use Rattle.std.specs.Prelude.{◌≡◌};
ghost use Rattle.clmodel.specs.Tree.{stmt};
ghost use Rattle.clmodel.specs.Typing.Sizes.{size, row_size};
ghost use Rattle.cltypes.specs.Limits.{capped, held_size, statements};

use crate::expression_sizes::{arguments_size, condition_size, expression_size, target_size};
use crate::size::Size;
use crate::summaries::Summaries;
use clmodel::tree::Statement;

/// The size of a statement or a declaration.
#[cycle(statements)]
fn statement_size(table: &Summaries, statement: &Statement) -> Size
    ensures { result ≡ capped (size table.now (stmt statement.now)) }
{
    match statement {
        Statement::Empty { .. }
        | Statement::Declare { value: None, .. }
        | Statement::Break { .. }
        | Statement::Continue { .. }
        | Statement::Return { value: None, .. } => Size::leaf(),
        Statement::DeclareArray {
            is_local,
            element,
            length,
            ..
        } => Size::array(*is_local, *element, *length),
        Statement::Block { body, .. } => row_size(table, body).in_node(),
        Statement::Declare {
            value: Some(value),
            ..
        } => expression_size(table, value).in_node(),
        Statement::Assign { target, value, .. } => target_size(table, target)
            .beside(expression_size(table, value))
            .in_node(),
        Statement::Step { target, .. } => target_size(table, target).in_node(),
        Statement::Call {
            name,
            arguments,
            ..
        } => arguments_size(table, arguments)
            .beside(table.size_in(*name))
            .in_node(),
        Statement::If {
            condition,
            chosen,
            ..
        } => expression_size(table, condition)
            .beside(statement_size(table, chosen))
            .in_node(),
        Statement::IfElse {
            condition,
            chosen,
            otherwise,
            ..
        } => expression_size(table, condition)
            .beside(statement_size(table, chosen))
            .beside(statement_size(table, otherwise))
            .in_node(),
        Statement::While {
            condition,
            body,
            ..
        } => expression_size(table, condition)
            .beside(statement_size(table, body))
            .in_loop(),
        Statement::DoWhile {
            body,
            condition,
            ..
        } => statement_size(table, body)
            .beside(expression_size(table, condition))
            .in_loop(),
        Statement::For {
            first,
            condition,
            third,
            body,
            ..
        } => part_size(table, first).beside(
            condition_size(table, condition)
                .beside(part_size(table, third))
                .beside(statement_size(table, body))
                .in_loop(),
        ),
        Statement::Return {
            value: Some(value),
            ..
        } => expression_size(table, value).in_node(),
    }
}

/// The size of a part of a `for` that may be left out.
#[cycle(statements)]
fn part_size(table: &Summaries, part: &Option<Box<Statement>>) -> Size
    ensures { result ≡ capped (held_size table.now part.now) }
{
    match part {
        None => Size::nothing(),
        Some(part) => statement_size(table, part),
    }
}

/// The size of statements one after the other.
#[cycle(statements)]
pub(crate) fn row_size(table: &Summaries, body: &[Statement]) -> Size
    ensures { result ≡ capped (row_size table.now (statements body.now)) }
{
    let mut size = Size::nothing();
    for statement in body {
        size = size.beside(statement_size(table, statement));
    }
    size
}
