//! Tests of what `widening` finds: for small kernels, which buffers and arguments don't decide, and why one does. Its
//! contract is met by an answer that finds nothing.
#![tactic(auto)]

#[cfg(test)]
mod kernels;
#[cfg(test)]
mod widened;
