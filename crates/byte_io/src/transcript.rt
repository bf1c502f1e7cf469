//! What was heard and told so far, which only proofs read. It takes no memory, and its methods do nothing at run time.
#![tactic(auto)]

ghost use Rattle.std.specs.Prelude.{◌≡◌, List, [], ◌∷◌, ◌++◌};
ghost use Rattle.std.specs.Borrow.{ftrue};
ghost use Rattle.byte_io.specs.Talk.{Event, Heard, Told, talk_code};

use std::marker::{Model, PhantomData};

/// The events of a talk, the oldest first.
#[derive(Drop)]
pub struct Transcript {
    marker: PhantomData<u8>,
    pub ghost events: { List Event } by { talk_code },
}

impl Model for Transcript {
    ghost also_owns = { λ _. ftrue };
}

impl Transcript {
    /// No events.
    pub(crate) fn new() -> Self
        ensures { result.events ≡ [] }
    {
        Transcript {
            marker: PhantomData,
        }
    }

    /// Notes bytes that were heard.
    pub(crate) fn heard(&mut self, _bytes: &[u8])
        ensures { self.new.events ≡ self.old.events ++ Heard _bytes.now ∷ [] }
    {}

    /// Notes a text that was told.
    pub(crate) fn told(&mut self, _text: &[u8])
        ensures { self.new.events ≡ self.old.events ++ Told _text.now ∷ [] }
    {}
}
