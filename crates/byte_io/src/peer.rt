//! A peer: one object with two ends, that is heard line by line and told texts, and whose talk clauses see.
//!
//! What a contract over a separate reader and writer can't say is the order in which the two were used. `Peer` has both
//! ends in one, and its ghost value is the conversation: what is left to hear, what was told, and all events so far in
//! their order. Whoever is generic in its peer can so promise that it tells an answer before it hears the next
//! question. `StreamPeer` is the peer of a program: a buffered reader of the standard library, and a writer with
//! counted failures, of which nothing is held back once a text was told.
//!
//! It knows nothing of what the lines and the texts mean.
#![tactic(auto)]

ghost use Rattle.byte_io.specs.Talk.{Conversation, Hears, Tells};

use crate::{ReadFault, WriteFailed};

/// Who is heard, line by line, and told texts.
pub trait Peer {
    // What is left to hear, what was told, and all that was heard and told so far.
    ghost view: { Self → Conversation };

    /// Hears the bytes up to and with the next line feed, or all that is left where there is none, and adds them to
    /// `line`. Answers how many they are: 0 at the end. Where it fails, what was heard until then is added.
    fn hear(&mut self, line: &mut Vec<u8>) -> Result<usize, ReadFault>
        ensures { Hears (view self.old) (view self.new) line.old.items line.new.items result };

    /// Tells a text and lets go of it. Where it fails a beginning of it may be told.
    fn tell(&mut self, text: &[u8]) -> Result<(), WriteFailed>
        ensures { Tells (view self.old) (view self.new) text.now result };
}
