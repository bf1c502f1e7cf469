//! The code of statements and of the helper functions that they call (OpenCL 1.2, section 6.9; C99 6.5.2.2 and 6.8).
//!
//! Code is written from its end, so that the length of what a jump passes is known when the jump is written, and
//! barriers are numbered from the last one. The body of a helper that is called is left out, and only its length and
//! its barriers are counted, so nothing here goes into another function: the time is that of the function's own
//! statements. But the body of a `for` with a third part is counted before it is written, since its barriers have the
//! higher numbers and its code stands first, and the turns of a loop are put together before the loop is; a statement
//! inside n such loops is so gone through n times more (8 at most in a checked kernel).
#![tactic(auto, using(lower_code::proofs::Growth::unchanged, lower_code::proofs::Growth::before, lower_code::proofs::Growth::one_before, lower_code::proofs::Growth::same_scope, lower_code::proofs::Growth::inner_scope))]

ghost use Rattle.std.specs.Prelude.{◌≡◌, ◌+◌, ◌<◌, ◌≤◌, ◌^◌, ◌++◌, max, true, length, IfOk, OnOk, OnErr};
ghost use Rattle.clmodel.specs.Next.{sites, part_sites, all_sites};
ghost use Rattle.clmodel.specs.Tree as tree;
ghost use Rattle.clmodel.specs.Tree.{stmt, term};
ghost use Rattle.clmodel.specs.Typing.Rules.{length_limit};
ghost use Rattle.clmodel.specs.Typing.Sizes.{size, condition_size, part_size, row_size, node_limit};
ghost use Rattle.lower_expr.specs.Scope.{free_level};
ghost use Rattle.lower_code.specs.Trees.{all_of, part_of};
ghost use Rattle.lower_code.specs.Code.{condition_code, while_code};
ghost use Rattle.lower_code.specs.Emission.{inside, sizes_in, widths_in, body_of, statement_code, row_code, maybe_code, test_of};
ghost use Rattle.lower_code.specs.Growth.{GrowsBefore, KeepsOuter};
ghost use Rattle.lower_code.specs.Room.{levels, reach, turn_reach};
ghost use Rattle.lower_code.specs.Variables.{elements, part_elements, row_elements};
ghost use Rattle.lower.specs.Statements.{begun_at, demand_of, row_demand, part_demand, round_demand, turns_demand, HasRoom, HasRoomInLoop, once_code, round_code};

use crate::simple::{emit_assignment, emit_call, emit_declaration};
use crate::sites::{site_before, site_behind_all};
use clmodel::tree::{Expression, Function, Statement};
use lower_code::assignments::put_step;
use lower_code::draft::Draft;
use lower_code::holes::{Helpers, StatementContext};
use lower_code::loops::{
    condition_of, end_do, end_while, put_condition, put_no_value, put_return, put_return_value,
    put_test, statement_of,
};
use lower_code::positions::{BodyPosition, Exits};
use lower_code::variables::{
    declare_all, declare_parameters, declare_part, leave, leave_part, put_array, put_unset,
};
use lower_expr::scope::Scope;
use regcode::Instruction;
use std::alloc::AllocError;

/// Where a statement ends: how many loops are round it, the number of the first barrier behind it, and its exits.
#[derive(Clone, Copy)]
pub struct Ending {
    pub depth: u32,
    pub behind: u32,
    pub exits: Exits,
}

/// Puts a statement before the code, and gives the number of the first barrier in it, or behind it if it has none.
#[cycle(emission)]
fn emit_statement<'a>(
    context: &StatementContext<'a>,
    scope: &mut Scope,
    statement: &Statement,
    ending: Ending,
    code: &mut Draft<'a>,
) -> Result<u32, AllocError>
    requires { HasRoom (demand_of context.now (stmt statement.now)) scope.old ending code.old }
    ensures code { IfOk result (λ site. code.new ≡ statement_code context.now scope.old (stmt statement.now) (begun_at ending site) ++ code.old) }
    ensures site { IfOk result (λ site. site + sites (inside context.now.helpers.functions.now) (stmt statement.now) ≡ ending.behind) }
    ensures scope { OnOk result (scope.new ≡ scope.old) }
    ensures longer { OnErr result (GrowsBefore code.old code.new) }
    ensures kept { OnErr result (KeepsOuter scope.old scope.new) }
{
    match statement {
        Statement::Empty { .. } => Ok(ending.behind),
        Statement::Declare {
            kind,
            name,
            value,
            ..
        } => match value {
            None => {
                put_unset(scope, *kind, code)?;
                Ok(ending.behind)
            }
            Some(value) => emit_declaration(context, scope, *kind, *name, value, ending, code),
        },
        Statement::DeclareArray {
            is_local,
            element,
            length,
            ..
        } => {
            put_array(scope, *is_local, *element, *length, code)?;
            Ok(ending.behind)
        }
        Statement::Assign {
            target,
            operator,
            value,
            ..
        } => emit_assignment(context, scope, target, *operator, value, ending, code),
        Statement::Step {
            target,
            is_increment,
            ..
        } => {
            put_step(scope, target, *is_increment, code)?;
            Ok(ending.behind)
        }
        Statement::Call {
            name,
            arguments,
            ..
        } => emit_call(context, scope, *name, arguments.as_slice(), ending, code),
        Statement::Block { body, .. } => { emit_all(context, scope, body.as_slice(), ending, code) }
        Statement::If {
            condition,
            chosen,
            ..
        } => emit_if(context, scope, condition, chosen, ending, code),
        Statement::IfElse {
            condition,
            chosen,
            otherwise,
            ..
        } => emit_choice(context, scope, condition, chosen, otherwise, ending, code),
        Statement::While {
            condition,
            body,
            ..
        } => emit_for(
            context,
            scope,
            None,
            Some(condition),
            None,
            body,
            ending,
            code,
        ),
        Statement::DoWhile {
            body,
            condition,
            ..
        } => emit_do(context, scope, body, condition, ending, code),
        Statement::For {
            first,
            condition,
            third,
            body,
            ..
        } => emit_for(
            context,
            scope,
            statement_of(first),
            condition_of(condition),
            statement_of(third),
            body,
            ending,
            code,
        ),
        Statement::Break { .. } => {
            let by = ending.exits.broken;
            code.put(Instruction::Jump { by })?;
            Ok(ending.behind)
        }
        Statement::Continue { .. } => {
            let by = ending.exits.continued;
            code.put(Instruction::Jump { by })?;
            Ok(ending.behind)
        }
        Statement::Return { value, .. } => match value {
            None => {
                put_return(context.result, ending.exits.returned, code)?;
                Ok(ending.behind)
            }
            Some(value) => {
                put_return_value(context.result, scope, value, ending.exits.returned, code)?;
                Ok(ending.behind)
            }
        },
    }
}

/// Puts the code of statements, in order, before the code.
#[cycle(emission)]
fn emit_all<'a>(
    context: &StatementContext<'a>,
    scope: &mut Scope,
    statements: &[Statement],
    ending: Ending,
    code: &mut Draft<'a>,
) -> Result<u32, AllocError>
    requires { HasRoom (row_demand context.now (all_of statements.now)) scope.old ending code.old }
    ensures code { IfOk result (λ site. code.new ≡ row_code context.now scope.old (all_of statements.now) (begun_at ending site) ++ code.old) }
    ensures site { IfOk result (λ site. site + all_sites (inside context.now.helpers.functions.now) (all_of statements.now) ≡ ending.behind) }
    ensures scope { OnOk result (scope.new ≡ scope.old) }
    ensures longer { OnErr result (GrowsBefore code.old code.new) }
    ensures kept { OnErr result (KeepsOuter scope.old scope.new) }
{
    declare_all(scope, statements)?;
    let end = code.len();
    let mut behind = ending.behind;
    for i in 0..statements.len() {
        let statement = &statements[statements.len() - 1 - i];
        leave(scope, statement);
        let here = Ending {
            depth: ending.depth,
            behind,
            exits: ending.exits.past(code.added(end)),
        };
        behind = emit_statement(context, scope, statement, here, code)?;
    }
    Ok(behind)
}

/// Puts the body of a function at a position before the code.
pub fn emit_body<'a>(
    helpers: Helpers<'a>,
    function: &Function,
    position: BodyPosition,
    code: &mut Draft<'a>,
) -> Result<(), AllocError>
    requires few { position.site + all_sites (inside helpers.functions.now) (all_of function.now.body.items) < 2 ^ 32 }
    requires small { position.depth + (row_size (sizes_in helpers.functions.now) (all_of function.now.body.items)).nodes ≤ node_limit }
    requires low { position.level.0 + length function.now.parameters.items + levels (row_size (widths_in helpers.functions.now) (all_of function.now.body.items)).nodes < 2 ^ 28 }
    requires short { length code.old < 2 ^ 31 }
    requires arrays { row_elements (all_of function.now.body.items) ≤ length_limit }
    ensures code { OnOk result (code.new ≡ body_of helpers.entry.functions.now function.now position.level.0 position.depth position.site ++ code.old) }
    ensures longer { OnErr result (GrowsBefore code.old code.new) }
{
    let end = code.len();
    put_no_value(function.result, code)?;
    let exits = Exits {
        broken: 0,
        continued: 0,
        returned: code.added(end),
    };
    let mut scope = Scope::new(code.allocator(), position.level);
    declare_parameters(&mut scope, function.parameters.as_slice())?;
    let context = StatementContext {
        helpers,
        result: function.result,
    };
    let body = function.body.as_slice();
    let behind = site_behind_all(helpers, position.site, body);
    let ending = Ending {
        depth: position.depth,
        behind,
        exits,
    };
    emit_all(&context, &mut scope, body, ending, code)?;
    Ok(())
}

/// Puts an `if` without `else` before the code.
#[cycle(emission)]
fn emit_if<'a>(
    context: &StatementContext<'a>,
    scope: &mut Scope,
    condition: &Expression,
    chosen: &Statement,
    ending: Ending,
    code: &mut Draft<'a>,
) -> Result<u32, AllocError>
    requires { HasRoom (demand_of context.now (tree.If 0 (term condition.now) (stmt chosen.now))) scope.old ending code.old }
    ensures code { IfOk result (λ site. code.new ≡ statement_code context.now scope.old (tree.If 0 (term condition.now) (stmt chosen.now)) (begun_at ending site) ++ code.old) }
    ensures site { IfOk result (λ site. site + sites (inside context.now.helpers.functions.now) (stmt chosen.now) ≡ ending.behind) }
    ensures scope { OnOk result (scope.new ≡ scope.old) }
    ensures longer { OnErr result (GrowsBefore code.old code.new) }
    ensures kept { OnErr result (KeepsOuter scope.old scope.new) }
{
    let end = code.len();
    let site = emit_statement(context, scope, chosen, ending, code)?;
    put_test(scope, condition, code.added(end), code)?;
    Ok(site)
}

/// Puts a choice between two statements before the code.
#[cycle(emission)]
fn emit_choice<'a>(
    context: &StatementContext<'a>,
    scope: &mut Scope,
    condition: &Expression,
    chosen: &Statement,
    otherwise: &Statement,
    ending: Ending,
    code: &mut Draft<'a>,
) -> Result<u32, AllocError>
    requires { HasRoom (demand_of context.now (tree.IfElse 0 (term condition.now) (stmt chosen.now) (stmt otherwise.now))) scope.old ending code.old }
    ensures code { IfOk result (λ site. code.new ≡ statement_code context.now scope.old (tree.IfElse 0 (term condition.now) (stmt chosen.now) (stmt otherwise.now)) (begun_at ending site) ++ code.old) }
    ensures site { IfOk result (λ site. site + (sites (inside context.now.helpers.functions.now) (stmt chosen.now) + sites (inside context.now.helpers.functions.now) (stmt otherwise.now)) ≡ ending.behind) }
    ensures scope { OnOk result (scope.new ≡ scope.old) }
    ensures longer { OnErr result (GrowsBefore code.old code.new) }
    ensures kept { OnErr result (KeepsOuter scope.old scope.new) }
{
    let end = code.len();
    let between = emit_statement(context, scope, otherwise, ending, code)?;
    let middle = code.len();
    let by = code.added(end);
    code.put(Instruction::Jump { by })?;
    let first = Ending {
        depth: ending.depth,
        behind: between,
        exits: ending.exits.past(code.added(end)),
    };
    let site = emit_statement(context, scope, chosen, first, code)?;
    put_test(scope, condition, code.added(middle), code)?;
    Ok(site)
}

/// Puts the first part of a `for` before the code.
#[cycle(emission)]
fn emit_part<'a>(
    context: &StatementContext<'a>,
    scope: &mut Scope,
    part: Option<&Statement>,
    ending: Ending,
    code: &mut Draft<'a>,
) -> Result<u32, AllocError>
    requires { HasRoom (part_demand context.now (part_of part)) scope.old ending code.old }
    ensures code { IfOk result (λ site. code.new ≡ maybe_code context.now scope.old (part_of part.entry) (begun_at ending site) ++ code.old) }
    ensures site { IfOk result (λ site. site + part_sites (inside context.now.helpers.functions.now) (part_of part.entry) ≡ ending.behind) }
    ensures scope { OnOk result (scope.new ≡ scope.old) }
    ensures longer { OnErr result (GrowsBefore code.old code.new) }
    ensures kept { OnErr result (KeepsOuter scope.old scope.new) }
{
    match part {
        None => Ok(ending.behind),
        Some(statement) => emit_statement(context, scope, statement, ending, code),
    }
}

/// Puts a loop whose condition stands behind its body before the code.
#[cycle(emission)]
fn emit_do<'a>(
    context: &StatementContext<'a>,
    scope: &mut Scope,
    body: &Statement,
    condition: &Expression,
    ending: Ending,
    code: &mut Draft<'a>,
) -> Result<u32, AllocError>
    requires { HasRoom (demand_of context.now (tree.DoWhile 0 (stmt body.now) (term condition.now))) scope.old ending code.old }
    ensures code { IfOk result (λ site. code.new ≡ statement_code context.now scope.old (tree.DoWhile 0 (stmt body.now) (term condition.now)) (begun_at ending site) ++ code.old) }
    ensures site { IfOk result (λ site. site + sites (inside context.now.helpers.functions.now) (stmt body.now) ≡ ending.behind) }
    ensures scope { OnOk result (scope.new ≡ scope.old) }
    ensures longer { OnErr result (GrowsBefore code.old code.new) }
    ensures kept { OnErr result (KeepsOuter scope.old scope.new) }
{
    let mut turn = Draft::new(code.allocator());
    put_condition(scope, Some(condition), &mut turn)?;
    let site = emit_once(context, scope, body, ending, &mut turn)?;
    end_do(ending.depth, turn, code)?;
    Ok(site)
}

/// Puts the body of a loop before the rest of its turn. The ending is that of the loop.
#[cycle(emission)]
fn emit_once<'a>(
    context: &StatementContext<'a>,
    scope: &mut Scope,
    body: &Statement,
    ending: Ending,
    turn: &mut Draft<'a>,
) -> Result<u32, AllocError>
    requires { HasRoomInLoop (demand_of context.now (stmt body.now)) scope.old ending turn.old }
    ensures code { IfOk result (λ site. turn.new ≡ once_code context.now scope.old (stmt body.now) (begun_at ending site) (length turn.old) ++ turn.old) }
    ensures site { IfOk result (λ site. site + sites (inside context.now.helpers.functions.now) (stmt body.now) ≡ ending.behind) }
    ensures scope { OnOk result (scope.new ≡ scope.old) }
    ensures longer { OnErr result (GrowsBefore turn.old turn.new) }
    ensures kept { OnErr result (KeepsOuter scope.old scope.new) }
{
    let here = Ending {
        depth: ending.depth + 1,
        behind: ending.behind,
        exits: ending.exits.in_loop(turn.past(0)),
    };
    let site = emit_statement(context, scope, body, here, turn)?;
    Ok(site)
}

/// Puts the third part of a `for` before the rest of its turn, and its body before that. The ending is the loop's.
#[cycle(emission)]
fn emit_stepped<'a>(
    context: &StatementContext<'a>,
    scope: &mut Scope,
    third: &Statement,
    body: &Statement,
    ending: Ending,
    turn: &mut Draft<'a>,
) -> Result<u32, AllocError>
    requires { HasRoomInLoop (round_demand context.now (tree.With (stmt third.now)) (stmt body.now)) scope.old ending turn.old }
    ensures code { IfOk result (λ site. turn.new ≡ round_code context.now scope.old (tree.With (stmt third.now)) (stmt body.now) (begun_at ending site) (length turn.old) ++ turn.old) }
    ensures site { IfOk result (λ site. site + (sites (inside context.now.helpers.functions.now) (stmt third.now) + sites (inside context.now.helpers.functions.now) (stmt body.now)) ≡ ending.behind) }
    ensures scope { OnOk result (scope.new ≡ scope.old) }
    ensures longer { OnErr result (GrowsBefore turn.old turn.new) }
    ensures kept { OnErr result (KeepsOuter scope.old scope.new) }
{
    let between = site_before(context.helpers, ending.behind, body);
    let last = Ending {
        depth: ending.depth + 1,
        behind: between,
        exits: ending.exits.in_loop(turn.past(0)),
    };
    let site = emit_statement(context, scope, third, last, turn)?;
    emit_once(context, scope, body, ending, turn)?;
    Ok(site)
}

/// Puts the body of a `for` and its third part, if it has one, before the rest of its turn. The ending is the loop's.
#[cycle(emission)]
fn emit_round<'a>(
    context: &StatementContext<'a>,
    scope: &mut Scope,
    third: Option<&Statement>,
    body: &Statement,
    ending: Ending,
    turn: &mut Draft<'a>,
) -> Result<u32, AllocError>
    requires { HasRoomInLoop (round_demand context.now (part_of third) (stmt body.now)) scope.old ending turn.old }
    ensures code { IfOk result (λ site. turn.new ≡ round_code context.now scope.old (part_of third.entry) (stmt body.now) (begun_at ending site) (length turn.old) ++ turn.old) }
    ensures site { IfOk result (λ site. site + (part_sites (inside context.now.helpers.functions.now) (part_of third.entry) + sites (inside context.now.helpers.functions.now) (stmt body.now)) ≡ ending.behind) }
    ensures scope { OnOk result (scope.new ≡ scope.old) }
    ensures longer { OnErr result (GrowsBefore turn.old turn.new) }
    ensures kept { OnErr result (KeepsOuter scope.old scope.new) }
{
    match third {
        None => emit_once(context, scope, body, ending, turn),
        Some(third) => emit_stepped(context, scope, third, body, ending, turn),
    }
}

/// Puts a `for` before the code.
#[cycle(emission)]
fn emit_for<'a>(
    context: &StatementContext<'a>,
    scope: &mut Scope,
    first: Option<&Statement>,
    condition: Option<&Expression>,
    third: Option<&Statement>,
    body: &Statement,
    ending: Ending,
    code: &mut Draft<'a>,
) -> Result<u32, AllocError>
    requires { HasRoom (demand_of context.now (tree.For 0 (part_of first) (test_of condition) (part_of third) (stmt body.now))) scope.old ending code.old }
    ensures code { IfOk result (λ site. code.new ≡ statement_code context.now scope.old (tree.For 0 (part_of first.entry) (test_of condition.entry) (part_of third.entry) (stmt body.now)) (begun_at ending site) ++ code.old) }
    ensures site { IfOk result (λ site. site + sites (inside context.now.helpers.functions.now) (tree.For 0 (part_of first.entry) (test_of condition.entry) (part_of third.entry) (stmt body.now)) ≡ ending.behind) }
    ensures scope { OnOk result (scope.new ≡ scope.old) }
    ensures longer { OnErr result (GrowsBefore code.old code.new) }
    ensures kept { OnErr result (KeepsOuter scope.old scope.new) }
{
    let end = code.len();
    declare_part(scope, first)?;
    let behind = emit_turns(context, scope, condition, third, body, ending, code)?;
    leave_part(scope, first);
    let before = Ending {
        depth: ending.depth,
        behind,
        exits: ending.exits.past(code.added(end)),
    };
    let site = emit_part(context, scope, first, before, code)?;
    Ok(site)
}

/// Puts a `for` without its first part, whose variable is declared, before the code.
#[cycle(emission)]
fn emit_turns<'a>(
    context: &StatementContext<'a>,
    scope: &mut Scope,
    condition: Option<&Expression>,
    third: Option<&Statement>,
    body: &Statement,
    ending: Ending,
    code: &mut Draft<'a>,
) -> Result<u32, AllocError>
    requires { HasRoom (turns_demand context.now (test_of condition) (part_of third) (stmt body.now)) scope.old ending code.old }
    ensures code { IfOk result (λ site. code.new
        ≡ while_code ending.depth (round_code context.now scope.old (part_of third.entry) (stmt body.now) (begun_at ending site) (length (condition_code scope.old (test_of condition.entry)))) (condition_code scope.old (test_of condition.entry)) ++ code.old) }
    ensures site { IfOk result (λ site. site + (part_sites (inside context.now.helpers.functions.now) (part_of third.entry) + sites (inside context.now.helpers.functions.now) (stmt body.now)) ≡ ending.behind) }
    ensures scope { OnOk result (scope.new ≡ scope.old) }
    ensures longer { OnErr result (GrowsBefore code.old code.new) }
    ensures kept { OnErr result (KeepsOuter scope.old scope.new) }
{
    let mut turn = Draft::new(code.allocator());
    put_condition(scope, condition, &mut turn)?;
    let start = turn.len();
    let site = emit_round(context, scope, third, body, ending, &mut turn)?;
    end_while(ending.depth, start, turn, code)?;
    Ok(site)
}
