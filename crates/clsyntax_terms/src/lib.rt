//! The parser's state, and its steps inside expressions. The parser takes one token at a time.
//!
//! Each step of the parser is that of the defined machine, and nesting is counted as defined. A stack of frames keeps
//! the open forms, so that a step recurses only into the frames that it closes (`operators::close`); and what is let go
//! of, frames and trees, is dropped from the outside in. Both go as deep as the tokens are nested, some calls for each
//! level, and no state has a nesting above the greatest limit and one.
#![tactic(auto)]

pub mod closing;
pub mod expressions;
pub mod nesting;
pub mod operators;
pub mod state;
