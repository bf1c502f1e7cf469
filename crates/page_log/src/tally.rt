//! What comparing an access with others finds.

ghost use Rattle.std.specs.Prelude.{◌≡◌, ◌+◌, ◌∷◌, ◌<◌, ◌-◌, ◌^◌, [], List, true};
ghost use Rattle.access_list.specs.Log.{IsPlaced};
ghost use Rattle.clmodel.specs.declared.access.Rule.{Rule as TheRule};
ghost use Rattle.access_list.specs.declared.log.Entry.{Entry as TheEntry};
ghost use Rattle.page_log.specs.Pages.{share_page};
ghost use Rattle.page_log.specs.Tally.{lower_hit, hit_with};

use access_list::{Entry, Hit, hit, is_same};
use clmodel::access::Rule;

/// What comparing an access with others has found so far.
#[derive(Clone, Copy)]
pub struct Tally {
    /// The conflict on the lowest byte, there with the earliest of them.
    pub found: Option<Hit>,
    /// Whether an equal one is among them.
    pub is_there: bool,
    /// How many they are.
    pub compared: u64,
}

/// Of two conflicts of an access, that on the lower byte; on one byte, the first.
pub(crate) fn lower_hit(first: Option<Hit>, other: Option<Hit>) -> Option<Hit>
    ensures { result ≡ lower_hit first other }
{
    match (first, other) {
        (Some(a), Some(b)) => { if b.byte < a.byte { Some(b) } else { Some(a) } }
        (Some(a), None) => Some(a),
        (None, other) => other,
    }
}

/// The conflict of an access with one that is earlier, on the lowest byte that has one.
pub(crate) fn hit_with(rule: Rule, x: &Entry, earlier: &Entry) -> Option<Hit>
    requires placed { IsPlaced x.now }
    requires other_placed { IsPlaced earlier.now }
    ensures { result ≡ hit_with rule x.now earlier.now }
{
    let earlier = [*earlier];
    hit(rule, x, earlier.as_slice())
}

impl Tally {
    ghost use Rattle.page_log.specs.Tally.{IsTally};

    /// Nothing was compared.
    pub(crate) fn none() -> Self
        ensures { (rule : TheRule) (x : TheEntry) → IsTally rule x [] result }
    {
        Tally {
            found: None,
            is_there: false,
            compared: 0,
        }
    }

    /// Compares an access with one on its page that is earlier than those so far, and counts it.
    pub(crate) fn with(self, rule: Rule, x: &Entry, earlier: &Entry) -> Self
        requires placed { IsPlaced x.now }
        requires other_placed { IsPlaced earlier.now }
        requires room { self.compared < 2 ^ 64 - 1 }
        requires shared { share_page x.now.access earlier.now.access ≡ true }
        ensures { (log : List TheEntry) → IsTally rule x.now log self → IsTally rule x.now (earlier.now ∷ log) result }
    {
        Tally {
            found: lower_hit(hit_with(rule, x, earlier), self.found),
            is_there: is_same(&earlier.access, &x.access) || self.is_there,
            compared: self.compared + 1,
        }
    }
}
