//! Whether a body always gives a value.
#![tactic(auto)]

ghost use Rattle.std.specs.Prelude.{◌≡◌};
ghost use Rattle.clmodel.specs.Tree.{stmt};
ghost use Rattle.clmodel.specs.Typing.Sizes.{always_returns, row_returns};
ghost use Rattle.cltypes.specs.Limits.{statements};

use clmodel::tree::Statement;

/// Whether a statement always returns.
#[cycle(returns)]
fn returns(statement: &Statement) -> bool
    ensures { result ≡ always_returns (stmt statement.now) }
{
    match statement {
        Statement::Return { .. } => true,
        Statement::Block { body, .. } => always_returns(body),
        Statement::IfElse {
            chosen,
            otherwise,
            ..
        } => returns(chosen) && returns(otherwise),
        Statement::Empty { .. }
        | Statement::Declare { .. }
        | Statement::DeclareArray { .. }
        | Statement::Assign { .. }
        | Statement::Step { .. }
        | Statement::Call { .. }
        | Statement::If { .. }
        | Statement::While { .. }
        | Statement::DoWhile { .. }
        | Statement::For { .. }
        | Statement::Break { .. }
        | Statement::Continue { .. } => false,
    }
}

/// Whether statements one after the other always return: whether one of them is `return`, a block that always returns,
/// or an `if` with an `else` both of whose parts do.
#[cycle(returns)]
pub(crate) fn always_returns(body: &[Statement]) -> bool
    ensures { result ≡ row_returns (statements body.now) }
{
    for statement in body {
        if returns(statement) {
            return true;
        }
    }
    false
}
