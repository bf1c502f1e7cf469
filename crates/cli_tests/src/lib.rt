//! Runs of whole scripts whose reader or writer fails at one of its calls.
#![tactic(auto)]

#[cfg(test)]
mod failing_ends;
#[cfg(test)]
mod scripts;
