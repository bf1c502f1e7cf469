//! What statements call.
#![tactic(auto)]

ghost use Rattle.std.specs.Prelude.{◌≡◌, ℕ};
ghost use Rattle.clmodel.specs.BuiltIns.{built_in};
ghost use Rattle.clmodel.specs.Barrier as barrier;
ghost use Rattle.clmodel.specs.Next as next;
ghost use Rattle.clmodel.specs.Tree.{term};
ghost use Rattle.lower_code.specs.Emission.{callee_sites};

use clmodel::barrier::is_barrier;
use clmodel::setup::built_in_named;
use clmodel::tree::Expression;

/// What is called: nothing that can meet a barrier, the barrier itself, or the helper function of a name.
#[derive(Clone, Copy)]
pub enum Callee {
    Nothing,
    Barrier,
    Helper(u32),
}

/// What a call that is a whole statement calls.
pub fn callee_of(name: u32) -> Callee
    ensures { (inside : ℕ → ℕ) → next.statement_sites inside (barrier.is_barrier name) (built_in name) name ≡ callee_sites inside result }
{
    if is_barrier(name) {
        return Callee::Barrier;
    }
    match built_in_named(name) {
        Some(_) => Callee::Nothing,
        None => Callee::Helper(name),
    }
}

/// What an expression calls that is the right side of an assignment.
pub fn callee_in(value: &Expression) -> Callee
    ensures { (inside : ℕ → ℕ) → next.call_sites inside (next.helper_call (term value.now)) ≡ callee_sites inside result }
{
    match value {
        Expression::Call { name, .. } => match built_in_named(*name) {
            Some(_) => Callee::Nothing,
            None => Callee::Helper(*name),
        },
        _ => Callee::Nothing,
    }
}
