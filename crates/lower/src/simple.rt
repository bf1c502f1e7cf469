//! Statements that may call a helper and hold no other: declarations, assignments and calls (C99 6.5.16 and 6.7).
#![tactic(auto, using(lower_code::proofs::Growth::unchanged, lower_code::proofs::Growth::before, lower_code::proofs::Growth::one_before))]

ghost use Rattle.std.specs.Prelude.{◌≡◌, ◌+◌, ◌++◌, IfOk, OnErr};
ghost use Rattle.clmodel.specs.Next.{sites};
ghost use Rattle.clmodel.specs.Tree as tree;
ghost use Rattle.clmodel.specs.Tree.{tree_target, term, terms};
ghost use Rattle.lower_code.specs.Emission.{inside, statement_code};
ghost use Rattle.lower_code.specs.Growth.{GrowsBefore};
ghost use Rattle.lower.specs.Statements.{begun_at, demand_of, HasRoom};

use crate::sites::site_before_call;
use crate::statements::Ending;
use clmodel::tree::{Expression, Target, VariableType};
use clnum::BinaryOperator;
use lower_code::assignments::{assignment, call_statement, declare_as};
use lower_code::callees::{callee_in, callee_of};
use lower_code::calls::emit_split;
use lower_code::draft::Draft;
use lower_code::holes::StatementContext;
use lower_code::positions::Position;
use lower_expr::scope::Scope;
use std::alloc::AllocError;

/// Puts a declaration with an initialiser before the code, and gives the number of its first barrier.
pub fn emit_declaration<'a>(
    context: &StatementContext<'a>,
    scope: &mut Scope,
    kind: VariableType,
    name: u32,
    value: &Expression,
    ending: Ending,
    code: &mut Draft<'a>,
) -> Result<u32, AllocError>
    requires { HasRoom (demand_of context.now (tree.DeclareAs 0 kind 0 name (term value.now))) scope.old ending code.old }
    ensures code { IfOk result (λ site. code.new ≡ statement_code context.now scope.old (tree.DeclareAs 0 kind 0 name (term value.now)) (begun_at ending site) ++ code.old) }
    ensures site { IfOk result (λ site. site + sites (inside context.now.helpers.functions.now) (tree.DeclareAs 0 kind 0 name (term value.now)) ≡ ending.behind) }
    ensures scope { scope.new ≡ scope.old }
    ensures longer { OnErr result (GrowsBefore code.old code.new) }
{
    let site = site_before_call(context.helpers, ending.behind, callee_in(value));
    let split = declare_as(context.helpers, scope, kind, name, value)?;
    let position = Position {
        depth: ending.depth,
        site,
        exits: ending.exits,
    };
    emit_split(context.helpers, split, position, code)?;
    Ok(site)
}

/// Puts an assignment before the code, and gives the number of its first barrier.
pub fn emit_assignment<'a>(
    context: &StatementContext<'a>,
    scope: &Scope,
    target: &Target,
    operator: Option<BinaryOperator>,
    value: &Expression,
    ending: Ending,
    code: &mut Draft<'a>,
) -> Result<u32, AllocError>
    requires { HasRoom (demand_of context.now (tree.Assign 0 (tree_target target.now) operator (term value.now))) scope.now ending code.old }
    ensures code { IfOk result (λ site. code.new ≡ statement_code context.now scope.now (tree.Assign 0 (tree_target target.now) operator (term value.now)) (begun_at ending site) ++ code.old) }
    ensures site { IfOk result (λ site. site + sites (inside context.now.helpers.functions.now) (tree.Assign 0 (tree_target target.now) operator (term value.now)) ≡ ending.behind) }
    ensures longer { OnErr result (GrowsBefore code.old code.new) }
{
    let site = site_before_call(context.helpers, ending.behind, callee_in(value));
    let split = assignment(context.helpers, scope, target, operator, value)?;
    let position = Position {
        depth: ending.depth,
        site,
        exits: ending.exits,
    };
    emit_split(context.helpers, split, position, code)?;
    Ok(site)
}

/// Puts a call that is a whole statement before the code, and gives the number of its first barrier.
pub fn emit_call<'a>(
    context: &StatementContext<'a>,
    scope: &Scope,
    name: u32,
    arguments: &[Expression],
    ending: Ending,
    code: &mut Draft<'a>,
) -> Result<u32, AllocError>
    requires { HasRoom (demand_of context.now (tree.CallOnly 0 name (terms arguments.now))) scope.now ending code.old }
    ensures code { IfOk result (λ site. code.new ≡ statement_code context.now scope.now (tree.CallOnly 0 name (terms arguments.now)) (begun_at ending site) ++ code.old) }
    ensures site { IfOk result (λ site. site + sites (inside context.now.helpers.functions.now) (tree.CallOnly 0 name (terms arguments.now)) ≡ ending.behind) }
    ensures longer { OnErr result (GrowsBefore code.old code.new) }
{
    let site = site_before_call(context.helpers, ending.behind, callee_of(name));
    let position = Position {
        depth: ending.depth,
        site,
        exits: ending.exits,
    };
    let split = call_statement(scope, name, arguments, position)?;
    emit_split(context.helpers, split, position, code)?;
    Ok(site)
}
