//! What kind of node stands at a place, as a spot of an explanation names it. Which kind it is is only tested.

use clmodel::tree::{Expression, Statement, Target};
use explanation::NodeKind;

/// What kind of node an expression is.
pub fn expression_kind(expression: &Expression) -> NodeKind {
    match expression {
        Expression::Number { .. } | Expression::Variable { .. } => NodeKind::Operand,
        Expression::Element { .. } => NodeKind::Element,
        Expression::Dereference { .. } | Expression::ElementAddress { .. } => NodeKind::Dereference,
        Expression::Call { .. } => NodeKind::Call,
        Expression::Unary { .. }
        | Expression::Cast { .. }
        | Expression::Binary { .. }
        | Expression::Choice { .. } => NodeKind::Operation,
    }
}

/// What kind of node a target is.
pub fn target_kind(target: &Target) -> NodeKind {
    match target {
        Target::Variable { .. } => NodeKind::Operand,
        Target::Element { .. } => NodeKind::Element,
        Target::Dereference { .. } => NodeKind::Dereference,
    }
}

/// What kind of node a statement is.
pub fn statement_kind(statement: &Statement) -> NodeKind {
    match statement {
        Statement::Declare { .. } | Statement::DeclareArray { .. } => NodeKind::Declaration,
        Statement::Assign { .. } | Statement::Step { .. } => NodeKind::Assignment,
        Statement::Call { .. } => NodeKind::Call,
        Statement::While { .. } | Statement::DoWhile { .. } | Statement::For { .. } => {
            NodeKind::Loop
        }
        _ => NodeKind::Statement,
    }
}
