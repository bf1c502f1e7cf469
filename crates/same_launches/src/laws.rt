//! Laws of two launches whose items make like actions.
#![tactic(auto)]

ghost use Rattle.same_launches.specs.Verdicts.{SchedulesAreSame, RunsAreSame};

/// What a schedule does in a launch it does in each like one: it is possible there, and leads to a state that shows the
/// same faults (own, over the schedules that OpenCL 1.2, section 3.2 allows).
pub fn schedules_are_same()
    ensures { SchedulesAreSame }
{}

/// The canonical runs of two like launches make the same events, and end alike: clean, or with the same report (own).
pub fn runs_are_same()
    ensures { RunsAreSame }
{}
