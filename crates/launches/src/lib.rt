//! A launch as a program runs or replays it: what it asks of it, and the launch of a kernel on the buffers that its
//! arguments name.
//!
//! `Described` is what a launch says of itself in reports, `Runnable` adds its items. `location_of` names a place as
//! defined: a buffer by its own name, a local object by its group and its name. A `LoadedLaunch` is the launch of its
//! setup on the bytes of its buffers. A `Slot` is a work-item that is started when it is first asked, and then comes
//! where it stands by its code and its answers alone. `group_count` counts the work-groups. `same_stop` and `is_at`
//! compare where work-items stop: at equal instances of a barrier, or at their ends. The laws of `next_laws` bound an
//! item's actions by its budget, and show what the definitions say of small kernels. The runner of groups and the
//! replayer stand on this crate side by side; it knows no group that runs.
#![tactic(auto)]

mod described;
mod groups;
pub mod laws;
mod loaded;
pub mod next_laws;
pub mod objects;
mod runnable;
mod slot;
mod stops;

pub use described::{Described, location_of};
pub use groups::group_count;
pub use loaded::LoadedLaunch;
pub use runnable::Runnable;
pub use slot::{Slot, waiting_items};
pub use stops::{is_at, same_stop};
