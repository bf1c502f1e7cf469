//! A word in front of bytes.
#![tactic(auto)]

ghost use Rattle.std.specs.Prelude.{◌≡◌};
ghost use Rattle.std.specs.Option.{option_map};
ghost use Rattle.text_lines.specs.Fronts.{after};

/// The bytes after a word, where the word stands in front.
#[tactic(auto, unfolding(crate::specs::Fronts::after))]
pub fn after<'a>(word: &[u8], bytes: &'a [u8]) -> Option<&'a [u8]>
    ensures { option_map (λ rest. rest.now) result ≡ after word.now bytes.now }
{
    bytes.strip_prefix(word)
}
