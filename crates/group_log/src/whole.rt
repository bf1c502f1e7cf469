//! A list of accesses that only proofs read.

ghost use Rattle.std.specs.Prelude.{◌≡◌, Bool, List, [], ◌∷◌, ◌++◌};
ghost use Rattle.std.specs.Borrow.{ftrue};
ghost use Rattle.access_list.specs.declared.log.Entry.{Entry as TheEntry};

use access_list::Entry;
use std::marker::Model;

/// All accesses of a group in their order, each with whether it is kept for other groups. Only proofs read it: it takes
/// no memory, and its methods do nothing when they run.
#[derive(Drop)]
pub struct Whole {
    seal: (),
    pub ghost items: { List (TheEntry × Bool) },
}

impl Model for Whole {
    ghost also_owns = { λ _. ftrue };
}

impl Whole {
    /// No accesses.
    pub fn new() -> Whole
        ensures { result.items ≡ [] }
    {
        Whole { seal: () }
    }

    /// The same with an access at its end.
    pub fn with(&self, entry: &Entry, lasts: &bool) -> Whole
        ensures { result.items ≡ self.now.items ++ (entry.now, lasts.now) ∷ [] }
    {
        Whole { seal: () }
    }
}
