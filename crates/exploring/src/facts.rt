//! What is given beside a script, and what a script came to.
#![tactic(auto)]

use device::Configuration;

/// How a script is explored.
#[derive(Clone, Copy)]
pub struct ExploreOptions {
    /// What the device is made with.
    pub configuration: Configuration,
    /// The number of the launch that is wanted, from 1 on, in the order of the script's commands. Each one without it.
    pub launch: Option<usize>,
    /// How many orders of a launch are played at most.
    pub orders: usize,
    /// What the orders follow from: a seed gives the same ones on every machine.
    pub seed: u64,
}

/// Who says whether the time is over. Whatever it answers, what is told is so.
pub trait Clock {
    /// Whether no further order is to be played. It is asked before each.
    fn is_over(&mut self) -> bool;
}

/// What a script that was explored came to.
#[derive(Clone, Copy)]
pub struct ExploreEnd {
    /// The wanted launch isn't there.
    pub missing: bool,
    /// An order has shown a fault, or a launch ended in one.
    pub faulted: bool,
    /// A command was refused.
    pub refused: bool,
}

/// A command's number, from 0 on, and the number that a launch has which stands there, from 1 on.
#[derive(Clone, Copy)]
pub(crate) struct Spot {
    pub ticket: usize,
    pub number: usize,
}
