//! The law of joining runs: groups that follow one another, joined by themselves and then to the groups below them,
//! come to what these groups come to joined one by one, where no access of theirs conflicts with a lower group's.
//! Each law is the contract of a function that does nothing.
//!
//! So the results of some groups can be joined beside those of others, and the joins put together in the order of the
//! groups. Where an access conflicts, the groups are to be joined one by one. The crate speaks of definitions alone.
#![tactic(auto)]

ghost use Rattle.joining_runs.specs.Runs.{RunsAreJoined, RunsAreWithin};

/// A run of groups, joined by itself and then to the groups below it, none of whose accesses conflicts with theirs, is
/// these groups joined one by one.
pub fn runs_are_joined()
    ensures { RunsAreJoined }
{}

/// The accesses of a run of groups are of its items, to buffers or to its groups' local objects.
pub fn runs_are_within()
    ensures { RunsAreWithin }
{}
