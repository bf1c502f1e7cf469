//! The register code of what statements are made of: assignments, declarations, calls, tests, returns and the turns of
//! loops, and calls whose helpers' bodies are still to be put in. `lower` puts statements together of it.
//!
//! Each function writes exactly the defined code where it succeeds, and the scope after it is the defined one.
//! The code is written from its end: what a jump passes is there before the jump is put in front of it.
//!
//! The only error is out of memory. Code that was lent is only longer then: a draft ends with what was there. A scope
//! that was lent has its variables.
#![tactic(auto)]

pub mod assignments;
pub mod callees;
pub mod calls;
pub mod draft;
pub mod functions;
pub mod holes;
pub mod known;
pub mod loops;
pub mod positions;
pub mod variables;
