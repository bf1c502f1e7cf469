//! What is wished of an explanation, and of a search through other orders.
#![tactic(auto)]

use limits::Configuration;

/// How an explanation is to be made.
#[derive(Clone, Copy, Debug, PartialEq, Eq)]
pub struct ExplainWish {
    /// What the script's device is made with
    pub configuration: Configuration,
    /// Whether it is written as JSON, and not as text
    pub json: bool,
    /// Whether the schedule is told as it was given, and not made shorter
    pub as_given: bool,
    /// Whether each fault and each refused command of the script is told, and not the first one alone
    pub all: bool,
    /// How many steps are told at most, from 1 to 1,000,000, where a number is given
    pub steps: Option<usize>,
    /// Whether it is told of each explained fault if it is the same for all bytes; with text and without a schedule
    /// file alone
    pub widen: bool,
}

/// How other orders of a script's launches are to be tried.
#[derive(Clone, Copy, Debug, PartialEq, Eq)]
pub struct ExploreWish {
    /// What the script's device is made with
    pub configuration: Configuration,
    /// The number of the launch whose orders are tried, from 1 to 1,000,000, where one is given; else each launch with
    /// `orders` is
    pub launch: Option<usize>,
    /// How many orders of a launch are tried at most, from 1 to 1,000,000
    pub orders: usize,
    /// For how many seconds orders are tried at most, from 1 to 86,400, where a number is given
    pub seconds: Option<usize>,
    /// With which number the draws of the orders begin
    pub seed: u64,
}
