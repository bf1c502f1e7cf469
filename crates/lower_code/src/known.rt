//! What is known of a function before code that calls it is made.
#![tactic(auto)]

/// How many barriers are in a function, None where there are 2^32 or more; and how many instructions the code of its
/// body has, None where it has so many barriers, or more nodes than a kernel may have: no kernel of a checked program
/// calls such a function.
#[derive(Clone, Copy)]
pub struct KnownFunction {
    pub barriers: Option<u32>,
    pub length: Option<usize>,
}
