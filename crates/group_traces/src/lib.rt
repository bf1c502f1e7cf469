//! What the accesses of a running work-group did to each byte of the objects of one address space.
//!
//! `Traces::mark` adds an access at each of its bytes, exactly: `trace_of` of a byte becomes `trace_with` of what it
//! was, and that of each other byte stays. An error leaves all. `Traces::look` tells of an access, by what is kept of
//! its bytes, whether it is seen to conflict with none of its interval, to tell no conflict that those before don't
//! tell, and to tell other groups nothing new; where it says no, nothing is known. The crate knows no log: what a trace
//! says of the accesses of a log is proved where they are kept.
#![tactic(auto)]

mod cell;
mod sent;
mod single;
mod trace;
mod traces;
mod word;

pub use cell::{Apart, Cell, TracedWord};
pub use sent::traces_are_sent;
pub use single::{SingleBytes, SingleItems, Singles};
pub use trace::{Sight, Trace};
pub use traces::{Look, Traces, is_near};
pub use word::WordTrace;
