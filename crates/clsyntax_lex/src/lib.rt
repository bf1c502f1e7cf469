//! From the bytes of a source to its tokens.
//!
//! `lex` gives the tokens and the table of names exactly where the source has them, else the first fault with its
//! offset. Tokens that are printed, however many, are read back as the same. The crate decides on bytes alone: it knows
//! which words are reserved and which names are built in, and not what they mean.
#![tactic(auto)]

pub mod laws;
mod lexer;
mod names;
mod numbers;
mod pieces;
pub mod token;
mod tokens;
mod words;

pub use lexer::lex;
pub use pieces::is_name_part;
pub use tokens::Tokens;
