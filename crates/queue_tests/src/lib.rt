//! Tests with threads: the queue with one client, two and sixteen, on a machine that adds and on a device.
//!
//! Clients leave, agree, and are handed to `close`; one submits while a command is done.
#![tactic(auto)]

#[cfg(test)]
mod agreed;
#[cfg(test)]
mod clients;
#[cfg(test)]
mod device_clients;
#[cfg(test)]
mod many;
#[cfg(test)]
mod pair;
#[cfg(test)]
mod questions;
#[cfg(test)]
mod tally;
#[cfg(test)]
mod turns;
#[cfg(test)]
mod waiting;
