//! Flags by places.
#![tactic(auto)]

ghost use Rattle.std.specs.Prelude.{◌≡◌};
ghost use Rattle.widening.specs.Widened.{is_free_at};

/// Whether a flag is set, by its place.
pub fn is_set(flags: &[bool], place: usize) -> bool
    ensures { result ≡ is_free_at flags.now place }
{
    match flags.get(place) {
        Some(flag) => *flag,
        None => false,
    }
}
