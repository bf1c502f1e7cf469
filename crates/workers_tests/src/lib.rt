//! Tests with threads: the groups that workers draw at gates that hold them, two workers at a gate in a launch, by
//! itself and on a device, and a launch with `orders` on a device of two.
#![tactic(auto)]

#[cfg(test)]
mod drawn;
#[cfg(test)]
mod gates;
#[cfg(test)]
mod launched;
#[cfg(test)]
mod numbers;
#[cfg(test)]
mod orders;
#[cfg(test)]
mod scripts;
#[cfg(test)]
mod two_workers;
