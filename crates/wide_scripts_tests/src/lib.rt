//! Tests of what `wide_scripts` finds: for small scripts, which writes and fills are free, and which reads may differ.
//! Its contract is met by an answer that finds nothing.
#![tactic(auto)]

#[cfg(test)]
mod script;
#[cfg(test)]
mod scripts;
