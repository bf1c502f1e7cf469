//! How many barriers are in a statement, with those in the helper functions that it calls, which are looked up.
#![tactic(auto)]

ghost use Rattle.std.specs.Prelude.{◌≡◌, ◌+◌, ◌<◌, ◌≤◌, ◌^◌, None, Some, length, get_or, IfSome};
ghost use Rattle.clmodel.specs.Next as next;
ghost use Rattle.clmodel.specs.Tree.{stmt};
ghost use Rattle.lower_code.specs.Trees.{all_of};
ghost use Rattle.lower_code.specs.Emission.{callee_sites, found_sites, inside};

use clmodel::tree::Statement;
use lower_code::callees::{Callee, callee_in, callee_of};
use lower_code::functions::{FoundFunction, find};
use lower_code::holes::Helpers;

/// The barriers in a statement; None where there are 2^32 or more.
#[cycle(sites)]
fn sites(helpers: Helpers<'_>, statement: &Statement) -> Option<u32>
    ensures some { IfSome result (λ n. n ≡ next.sites (inside helpers.entry.functions.now) (stmt statement.now)) }
    ensures none { result ≡ None → 2 ^ 32 ≤ next.sites (inside helpers.entry.functions.now) (stmt statement.now) }
{
    match statement {
        Statement::Block { body, .. } => sites_in_all(helpers, body),
        Statement::If { chosen, .. } => sites(helpers, chosen),
        Statement::IfElse {
            chosen,
            otherwise,
            ..
        } => {
            let first = sites(helpers, chosen)?;
            first.checked_add(sites(helpers, otherwise)?)
        }
        Statement::While { body, .. } | Statement::DoWhile { body, .. } => sites(helpers, body),
        Statement::For {
            first,
            third,
            body,
            ..
        } => {
            let first = match first {
                Some(first) => sites(helpers, first)?,
                None => 0,
            };
            let third = match third {
                Some(third) => sites(helpers, third)?,
                None => 0,
            };
            let parts = first.checked_add(third)?;
            parts.checked_add(sites(helpers, body)?)
        }
        Statement::Call { name, .. } => sites_in_call(helpers, callee_of(*name)),
        Statement::Declare {
            value: Some(value),
            ..
        } => sites_in_call(helpers, callee_in(value)),
        Statement::Assign { value, .. } => sites_in_call(helpers, callee_in(value)),
        _ => Some(0),
    }
}

/// The barriers in statements; None where there are 2^32 or more.
#[cycle(sites)]
pub fn sites_in_all(helpers: Helpers<'_>, statements: &[Statement]) -> Option<u32>
    ensures some { IfSome result (λ n. n ≡ next.all_sites (inside helpers.entry.functions.now) (all_of statements.now)) }
    ensures none { result ≡ None → 2 ^ 32 ≤ next.all_sites (inside helpers.entry.functions.now) (all_of statements.now) }
{
    let mut all: u32 = 0;
    for i in 0..statements.len() {
        all = all.checked_add(sites(helpers, &statements[i])?)?;
    }
    Some(all)
}

/// The barriers in a helper; None where there are 2^32 or more.
fn sites_in_helper(helpers: Helpers<'_>, found: FoundFunction<'_>) -> Option<u32>
    requires within { found.place < length helpers.functions.now }
    requires there { found.function.now ≡ get_or helpers.functions.now found.place found.function.now }
    ensures some { IfSome result (λ n. n ≡ found_sites helpers.entry.functions.now (Some found.entry)) }
    ensures none { result ≡ None → 2 ^ 32 ≤ found_sites helpers.entry.functions.now (Some found.entry) }
{
    helpers.known[found.place].barriers
}

/// The barriers in what is called; None where there are 2^32 or more.
fn sites_in_call(helpers: Helpers<'_>, callee: Callee) -> Option<u32>
    ensures some { IfSome result (λ n. n ≡ callee_sites (inside helpers.entry.functions.now) callee) }
    ensures none { result ≡ None → 2 ^ 32 ≤ callee_sites (inside helpers.entry.functions.now) callee }
{
    match callee {
        Callee::Nothing => Some(0),
        Callee::Barrier => Some(1),
        Callee::Helper(name) => match find(helpers, name) {
            Some(found) => sites_in_helper(helpers, found),
            None => Some(0),
        },
    }
}

/// The number of the first barrier behind statements, by that of their first one.
pub fn site_behind_all(helpers: Helpers<'_>, site: u32, statements: &[Statement]) -> u32
    requires { site + next.all_sites (inside helpers.functions.now) (all_of statements.now) < 2 ^ 32 }
    ensures { result ≡ site + next.all_sites (inside helpers.entry.functions.now) (all_of statements.now) }
{
    site + sites_in_all(helpers, statements).unwrap()
}

/// The number of the first barrier of a statement, by that of the first one behind it.
pub fn site_before(helpers: Helpers<'_>, behind: u32, statement: &Statement) -> u32
    requires { next.sites (inside helpers.functions.now) (stmt statement.now) ≤ behind }
    ensures { result + next.sites (inside helpers.entry.functions.now) (stmt statement.now) ≡ behind }
{
    behind - sites(helpers, statement).unwrap()
}

/// The number of the first barrier in what is called, by that of the first one behind it.
pub fn site_before_call(helpers: Helpers<'_>, behind: u32, callee: Callee) -> u32
    requires { callee_sites (inside helpers.functions.now) callee ≤ behind }
    ensures { result + callee_sites (inside helpers.entry.functions.now) callee ≡ behind }
{
    behind - sites_in_call(helpers, callee).unwrap()
}
