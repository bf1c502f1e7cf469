//! Groups that run apart.
ghost use Rattle.std.specs.Prelude.{◌≡◌, ℕ, ◌<◌, IfOk, Bool, true};

use std::alloc::{AllocError, Global};
use std::marker::{Send, Sync};

/// Groups, each of which runs alone: the work-groups of a launch (OpenCL 1.2, sections 3.2 and 5.8). They are numbered
/// from 0.
pub trait Work: Sync {
    /// What the run of a group comes to.
    type Output: Send + Drop;

    ghost count: { Self → ℕ };

    // what a run of a group may give
    ghost gives: { Self → ℕ → Self.Output → Type 0 };

    // the run of a group stops
    ghost stops: { Self → ℕ → Type 0 };

    // the place of an output among those of all groups
    ghost number_of: { Self → Self.Output → ℕ };

    ghost is_stopped: { Self.Output → Bool };

    /// How many groups there are.
    fn group_count(&self) -> u32
        ensures { result ≡ count self.now };

    /// Runs a group, whose number is below the count. An error is out of memory.
    fn one_group(&self, alloc: Global, group: u32) -> Result<Self::Output, AllocError>
        requires { group < count self.now }
        ensures { IfOk result (gives self.now group) };

    /// The number of the group that an output is of.
    fn number(&self, output: &Self::Output) -> u32
        ensures { result ≡ number_of self.now output.now };

    /// Whether the group's run stopped, so that no group above it is wanted.
    fn stopped(output: &Self::Output) -> bool
        ensures { result ≡ is_stopped output.now };

    /// What the results of a group have in common.
    fn laws(&self)
        ensures numbered { (group : ℕ) (output : Self.Output) → gives self.now group output → number_of self.now output ≡ group }
        ensures stopped_stops { (group : ℕ) (output : Self.Output) → gives self.now group output → is_stopped output ≡ true → stops self.now group }
        ensures stops_stopped { (group : ℕ) (output : Self.Output) → gives self.now group output → stops self.now group → is_stopped output ≡ true };
}
