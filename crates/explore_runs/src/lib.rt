//! Other interleavings of a launch than the canonical one (own, on OpenCL 1.2, sections 3.2, 3.3.1 and 6.12.11).
//!
//! `play_order` plays one order of a launch's events, over one memory that all work-items share: before each event a
//! `Chooser` says who goes next, and whatever it answers, the order ends in one of three ways. It ends with a fault,
//! which is no conflict of kind order, and a schedule that leads to a state that shows it; or with a complete schedule
//! and what it leaves in the buffers; or it is given up after a number of turns, and then nothing is said of it.
//!
//! An `Explorer` plays one order after another, each by a chooser of its own: by priorities with few changes, or by
//! chance. A seed and a number give the same order on every machine. It keeps the first fault, and of two complete
//! orders that left different bytes both schedules, with the first byte at which they differ. Where it finds nothing
//! it promises nothing.
//!
//! The end of an item's budget is kept as a fault only of an order that **comes to no end** (own): from one of its
//! atomic operations on all items go in turn, each up to its next stop or to 64 atomic operations in a row, none comes
//! to a stop in 4,096 of them for each item that can go on, and one item alone uses up its budget from there. So the
//! order was fair where it counts. What is proved is the last of it: the schedule leads to the end of that budget.
//!
//! The crate plays events by `ordered_play`, whose filter and search find the races. It asks for whole groups with
//! items and budgets below 2^32, and leaves the buffers that it is given.
#![tactic(auto)]

mod apart;
mod by_chance;
mod by_priority;
mod chooser;
mod endless;
mod ends;
mod explorer;
mod in_turn;
mod maxima;
mod order;
mod random;
mod ready;
mod roster;
mod seed_order;
mod stops;
mod until;

pub use apart::{Place, first_apart};
pub use by_chance::ByChance;
pub use by_priority::ByPriority;
pub use chooser::Chooser;
pub use ends::{Complete, OrderEnd};
pub use explorer::{Explorer, Found, Left};
pub use in_turn::InTurn;
pub use order::play_order;
pub use random::Random;
pub use ready::Ready;
