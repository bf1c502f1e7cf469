//! Two launches whose objects may hold other bytes, and whose items make like actions: what one does, the other does.
//!
//! `Freedom` says which objects may hold other bytes. The definitions say when two actions are alike, and two lists of
//! answers. The laws: each schedule that is possible in one launch is possible in the other, shows the same faults and
//! leaves the same bytes where bytes aren't free; and the canonical runs make the same events and end alike. The crate
//! knows launches by their definitions alone, and no code.
#![tactic(auto)]

pub mod laws;
