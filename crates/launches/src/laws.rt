//! Laws of launches that can be run.

ghost use Rattle.launches.specs.Groups.{SetupsAreRunnable};

use crate::next_laws::budget_bounds;

/// A setup that meets `HasGroups` can be run (OpenCL 1.2, section 5.8; the budget is this project's own).
pub fn setups_are_runnable()
    ensures { SetupsAreRunnable }
{
    budget_bounds();
}
