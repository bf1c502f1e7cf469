//! How deep tokens are nested.
#![tactic(auto)]

ghost use Rattle.std.specs.Prelude.{◌≡◌, suc, ◌<◌, MatchOption};
ghost use Rattle.clsyntax_terms.specs.Grammar.{greatest_limit};

/// How deep tokens may be nested on the device that allows most. A device may allow less, which these steps don't ask:
/// the parser compares the nesting of each token with what its device allows.
const GREATEST_LIMIT: u32 = 256;

/// How deep a token is nested: how many blocks, controlled statements, brackets and operators are open at it. The
/// parser makes none above GREATEST_LIMIT + 1, and a token of that nesting is too deep on every device.
#[derive(Clone, Copy)]
pub struct Nesting(pub u32);

impl Nesting {
    /// The nesting one further in, but none where a token of this nesting is too deep itself on every device.
    pub fn deeper(self) -> Option<Nesting>
        ensures { MatchOption result (greatest_limit < self.0) (λ inner. inner.0 ≡ suc self.0) }
    {
        if self.0 > GREATEST_LIMIT {
            None
        } else {
            Some(Nesting(self.0 + 1))
        }
    }
}
