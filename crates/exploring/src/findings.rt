//! What the orders of a launch have shown, as it is told.
#![tactic(auto)]

use clmodel::fault::Fault;
use clmodel::schedule::Schedule;
use clmodel::text::Name;
use explore_runs::{Complete, Place};

/// A fault that an order showed. Where it is the end of an item's budget, the order comes to no end.
#[derive(Drop)]
pub(crate) struct ShownFault {
    /// The number of the order, from 1 on.
    pub order: u32,
    pub fault: Fault,
    /// What leads to it.
    pub schedule: Schedule,
}

/// Two orders that left bytes that differ.
#[derive(Drop)]
pub(crate) struct ApartOrders {
    /// The number of the one, from 1 on.
    pub first: u32,
    /// The number of the other.
    pub second: u32,
    pub one: Complete,
    pub other: Complete,
    /// The first byte that differs.
    pub place: Place,
    /// The name of its buffer.
    pub buffer: Name,
}

/// What the orders of a launch have shown.
#[derive(Drop)]
pub(crate) struct Findings {
    pub shown: Option<ShownFault>,
    pub apart: Option<ApartOrders>,
    /// How many were played.
    pub orders: u32,
    /// Of how many of these it isn't known whether they come to an end.
    pub given_up: u32,
}

/// What is told of a command beside its reply.
#[derive(Drop)]
pub(crate) enum Manner {
    /// Nothing: the reply itself where it is a fault or a refusal
    Quiet,
    /// That it is a launch without `orders`, and its reply
    Unordered,
    /// What the orders of the launch have shown
    Explored(Findings),
}
