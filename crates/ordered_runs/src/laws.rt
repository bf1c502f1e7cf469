//! Laws of ordered runs. Each is the contract of a function that does nothing.

ghost use Rattle.ordered_runs.specs.Laws.{OrderedNeverSticks, OrderedEnds, OneOrderedRun, OrderedIsInterleaving, OrderedReportIsReached, UnmetIsCanonical, CanonicalIsUnmet, OtherReportsStay, OrderGoesOn, OrderIsMet, EndsInOneOfThree};

/// The ordered run never sticks: each event that it makes is possible.
pub fn never_sticks()
    ensures { OrderedNeverSticks }
{}

/// The ordered run of a launch whose items are bounded ends, with a report or with none.
pub fn run_ends()
    ensures { OrderedEnds }
{}

/// A launch has one ordered run.
pub fn one_run()
    ensures { OneOrderedRun }
{}

/// An ordered run without a report is one interleaving of the items: its schedule is possible from the start of the
/// launch, event by event, and every item has ended where it leads.
pub fn is_interleaving()
    ensures { OrderedIsInterleaving }
{}

/// An ordered run with a report leads to a state that shows it, and the report is no conflict of kind order.
pub fn report_is_reached()
    ensures { OrderedReportIsReached }
{}

/// An ordered run without a report, in which no two accesses conflict as order, is the canonical run.
pub fn unmet_is_canonical()
    ensures { UnmetIsCanonical }
{}

/// A canonical run without a report is the ordered run, and no two accesses in it conflict as order.
pub fn canonical_is_unmet()
    ensures { CanonicalIsUnmet }
{}

/// A canonical run whose report is no conflict of kind order is the ordered run, and has the same report there.
pub fn other_reports_stay()
    ensures { OtherReportsStay }
{}

/// A canonical run whose report is a conflict of kind order is where the ordered run begins, and two accesses have
/// conflicted as order there.
pub fn order_goes_on()
    ensures { OrderGoesOn }
{}

/// Where the canonical run's report is a conflict of kind order, and the ordered run has no report, two accesses have
/// conflicted as order in it.
pub fn order_is_met()
    ensures { OrderIsMet }
{}

/// The ordered run of a launch whose items are bounded ends in one of three ways: without a report, and it is the
/// canonical run; without a report, after two accesses that conflict as order; or with a report.
pub fn ends_in_one_of_three()
    ensures { EndsInOneOfThree }
{}
