//! The sizes of expressions, with the bodies of the functions that they call.
#![tactic(auto)]

ghost use Rattle.std.specs.Prelude.{◌≡◌};
ghost use Rattle.clmodel.specs.Tree.{term, terms, tree_target, maybe_term};
ghost use Rattle.clmodel.specs.Typing.Sizes.{term_size, terms_size, target_size, condition_size};
ghost use Rattle.cltypes.specs.Limits.{capped};

use crate::size::Size;
use crate::summaries::Summaries;
use clmodel::tree::{Expression, Target};

/// The size of an expression.
#[cycle(expressions)]
pub(crate) fn expression_size(table: &Summaries, expression: &Expression) -> Size
    ensures { result ≡ capped (term_size table.now (term expression.now)) }
{
    match expression {
        Expression::Number { .. } | Expression::Variable { .. } => Size::leaf(),
        Expression::Element { index, .. } => expression_size(table, index).in_node(),
        Expression::ElementAddress { index, .. } => expression_size(table, index).in_node(),
        Expression::Dereference { pointer, .. } => expression_size(table, pointer).in_node(),
        Expression::Call {
            name,
            arguments,
            ..
        } => arguments_size(table, arguments)
            .beside(table.size_in(*name))
            .in_node(),
        Expression::Unary { operand, .. } => expression_size(table, operand).in_node(),
        Expression::Cast { operand, .. } => expression_size(table, operand).in_node(),
        Expression::Binary { left, right, .. } => expression_size(table, left)
            .beside(expression_size(table, right))
            .in_node(),
        Expression::Choice {
            condition,
            chosen,
            otherwise,
            ..
        } => expression_size(table, condition)
            .beside(expression_size(table, chosen))
            .beside(expression_size(table, otherwise))
            .in_node(),
    }
}

/// The size of arguments.
#[cycle(expressions)]
pub(crate) fn arguments_size(table: &Summaries, arguments: &[Expression]) -> Size
    ensures { result ≡ capped (terms_size table.now (terms arguments.now)) }
{
    let mut size = Size::nothing();
    for argument in arguments {
        size = size.beside(expression_size(table, argument));
    }
    size
}

/// The size of a target.
pub(crate) fn target_size(table: &Summaries, target: &Target) -> Size
    ensures { result ≡ capped (target_size table.now (tree_target target.now)) }
{
    match target {
        Target::Variable { .. } => Size::leaf(),
        Target::Element { index, .. } => expression_size(table, index).in_node(),
        Target::Dereference { pointer, .. } => expression_size(table, pointer).in_node(),
    }
}

/// The size of an expression that may be left out.
pub(crate) fn condition_size(table: &Summaries, condition: &Option<Box<Expression>>) -> Size
    ensures { result ≡ capped (condition_size table.now (maybe_term condition.now)) }
{
    match condition {
        None => Size::nothing(),
        Some(condition) => expression_size(table, condition),
    }
}
