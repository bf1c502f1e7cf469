//! The log of a running work-group. Its memory is bounded by the bytes that the group touched, however many accesses it
//! makes.
//!
//! `note` answers exactly what the log of all accesses would, although the log keeps an access only where it can show a
//! conflict that no earlier one shows. The list of all accesses is there for proofs alone. `list` copies accesses for
//! other groups, and the copy stands for all accesses. `clear` leaves a log as a new one. A log may go from one thread
//! to another. No clause says how much is kept.
//!
//! The log keeps its accesses as `Progressions`, seen as the list of their entries: of entries that go on by equal
//! strides, in rounds of up to 64 as a loop makes them, it keeps the first round and the strides. The crate knows no
//! memory and no item.
#![tactic(auto)]

mod group;
mod lasting;
mod progression;
mod progressions;
mod progressions_sent;
mod rounds;
mod sent;
mod side;
mod stride;
mod whole;

pub use group::GroupLog;
pub use sent::logs_are_sent;
