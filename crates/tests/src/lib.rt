//! Tests across crates: calls of single crates with their answers, where no row of a script or a source can show them.
#![tactic(auto)]

#[cfg(test)]
mod code_sizes;
#[cfg(test)]
mod footprints;
#[cfg(test)]
mod logs;
#[cfg(test)]
mod merges;
#[cfg(test)]
mod overlays;
#[cfg(test)]
mod printing;
#[cfg(test)]
mod renumbered;
#[cfg(test)]
mod running_logs;
#[cfg(test)]
mod schedules;
#[cfg(test)]
mod slow_streams;
#[cfg(test)]
mod verifying;
