//! A log of a work-group's accesses with an index by object and page of 64 bytes, which says with how many accesses it
//! compared each new one.
//!
//! `PageLog` is an access log as `ListLog` of `access_list` is: it keeps the same list, judges a new access in the same
//! way, and can be asked for its accesses by their places. `note_counted` promises the number of comparisons exactly:
//! as many as the list has accesses of the same object that touch the same page. `conflicts_between` judges the logs of
//! two groups, whatever their types.
//!
//! A launch that runs keeps its groups' accesses otherwise (`group_log`): a page may be touched by each work-item of a
//! group at each turn of a loop, and to compare all of them takes time in proportion to the square of their number.
//! This log is for whoever wants the whole list and the count, and for a comparison of the logs. It knows nothing of
//! kernels, memory or groups that run.
#![tactic(auto)]

mod between;
mod list;
mod log;
mod pages;
mod tally;

pub use between::conflicts_between;
pub use log::PageLog;
