//! What a run or a server is given beside its commands.
#![tactic(auto)]

ghost use Rattle.std.specs.Prelude.{◌≡◌, ◌≤◌};

use limits::{Configuration, Limits};

/// What is given to a run beside its script.
#[derive(Clone, Copy, Debug, PartialEq, Eq)]
pub struct Options {
    /// What the device is made with
    pub configuration: Configuration,
    /// How many workers run a launch, from 1 to 16. No reply depends on it
    pub workers: u32,
    pub ghost counted: { (1 ≤ workers) × (workers ≤ 16) },
}

impl Options {
    /// The number of workers where none is given.
    pub const DEFAULT_WORKERS: u32 = 1;
}

impl Default for Options {
    ghost use Rattle.limits.specs.Limits.{profile};

    ghost is_default = { λ options. (options.configuration.limits ≡ profile) × (options.configuration.budget ≡ 100000) × (options.workers ≡ 1) };

    fn default() -> Self {
        Options {
            configuration: Configuration::of(Limits::profile()),
            workers: Self::DEFAULT_WORKERS,
        }
    }
}
