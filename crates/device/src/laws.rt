//! Laws of the machine. Each is the contract of a function that does nothing.
#![tactic(auto)]

ghost use Rattle.device.specs.Laws.{LaunchesOnce};

use clmodel::run_laws::one_run;

/// A launch that isn't refused has one answer and leaves one machine, with `orders` and without: workers and gates
/// change neither (out of memory aside).
pub fn launches_once()
    ensures { LaunchesOnce }
{
    one_run();
    ordered_runs::laws::one_run();
}
