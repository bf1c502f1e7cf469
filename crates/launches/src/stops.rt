//! Whether two work-items stop at the same place: at equal instances of a barrier, or both at their ends.
#![tactic(auto)]

ghost use Rattle.std.specs.Prelude.{◌≡◌, ◌==◌, ◌&&◌, IsTrue, false};
ghost use Rattle.clmodel.specs.Run.{same_numbers, same_stop};
ghost use Rattle.clmodel.specs.declared.action.Stop.TheVariants.{At};

use clmodel::action::{Instance, Stop};

/// Whether two lists of numbers are one.
fn same_numbers(a: &[u32], b: &[u32]) -> bool
    ensures { result ≡ same_numbers a.now b.now }
{
    a == b
}

/// Whether an instance of a barrier is the one at a site, in these turns of the loops round it.
fn is_instance(instance: &Instance, site: u32, turns: &[u32]) -> bool
    ensures value { result ≡ (instance.now.site == site) && same_numbers instance.now.turns turns.now }
    ensures same { IsTrue result → instance.now ≡ record { site = site; turns = turns.now } }
    ensures other { result ≡ false → instance.now ≡ record { site = site; turns = turns.now } → ⊥ }
{
    instance.site == site && same_numbers(instance.turns.as_slice(), turns)
}

/// Whether a stop is at the barrier of a site, in these turns of the loops round it (OpenCL 1.2, section 6.12.8). So an
/// item's turns are compared where they lie.
pub fn is_at(stop: &Stop, site: u32, turns: &[u32]) -> bool
    ensures value { result ≡ same_stop stop.now (At (record { site = site; turns = turns.now })) }
    ensures same { IsTrue result → stop.now ≡ At (record { site = site; turns = turns.now }) }
    ensures other { result ≡ false → stop.now ≡ At (record { site = site; turns = turns.now }) → ⊥ }
{
    match stop {
        Stop::At(instance) => is_instance(instance, site, turns),
        Stop::Ended => false,
    }
}

/// Whether two stops are one: the same instance of a barrier, or the end twice (OpenCL 1.2, section 6.12.8).
pub fn same_stop(a: &Stop, b: &Stop) -> bool
    ensures value { result ≡ same_stop a.now b.now }
    ensures same { IsTrue result → a.now ≡ b.now }
    ensures other { result ≡ false → a.now ≡ b.now → ⊥ }
{
    match b {
        Stop::At(instance) => is_at(a, instance.site, instance.turns.as_slice()),
        Stop::Ended => match a {
            Stop::At(_) => false,
            Stop::Ended => true,
        },
    }
}
