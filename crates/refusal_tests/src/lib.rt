//! Tests of how a source that doesn't build is told: `build_hints` and `explain_json`. In these crates they would cost
//! a second proof of each.
#![tactic(auto)]

#[cfg(test)]
mod hints;
#[cfg(test)]
mod json;
