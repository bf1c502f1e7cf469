//! Bytes in and out: readers, writers and peers, whose clauses see the bytes and count the failed calls.
//!
//! `Write` takes a whole text, or a call failed: then the failure is counted, and a beginning of the text was written.
//! `Read` gives all that is left, or counts a failure. `write_pieces` writes the parts of a line one after another,
//! numbers in decimal. `Input` and `Output` are those of the standard library, and keep these promises where it
//! promises the bytes. A failure that is counted is answered. That none is counted where no call failed is only tested.
//!
//! A `Peer` is one object with two ends, that is heard line by line and told texts. What a contract over a separate
//! reader and writer can't say is the order in which the two were used: the ghost value of a peer is the conversation,
//! which is what is left to hear, what was told, and all events so far in their order. Whoever is generic in its peer
//! can so promise that it tells an answer before it hears the next question. `StreamPeer` is the peer of a program. Of
//! its writer nothing is held back once a text was told.
//!
//! The crate knows nothing of what lines and texts mean.
#![tactic(auto)]

mod counted;
mod lines;
mod peer;
pub mod pieces;
pub mod stream;
mod streams;
pub mod transcript;

pub use counted::{Read, ReadFault, Write, WriteFailed};
pub use peer::Peer;
pub use stream::StreamPeer;
pub use streams::{Input, Output};
