//! A shorter schedule that leads where a given one does.
//!
//! `shorten` leaves out events of a schedule that a fault doesn't need: other work-groups, other work-items, releases,
//! and what an item does behind the access that the fault names. Each schedule that it thinks of is judged, by whoever
//! calls it (`Judge`), and only one that was judged to lead there is taken, so what it answers leads there too, isn't
//! longer than what it was given, and took at most 200 judgements. That it is the shortest of all isn't promised.
//!
//! It knows nothing of kernels, memory or faults: which schedules are possible, and what they show, is the judge's to
//! say.
#![tactic(auto)]

mod candidates;
mod ends;
mod items;
mod judge;
mod order;
mod reduction;
mod releases;
mod runs;
mod search;
mod shortening;

pub use judge::{Judge, Named, Shortened};
pub use runs::event_count;
pub use shortening::shorten;
