//! What is given, and how it is told.
#![tactic(auto)]

use limits::Configuration;
use placed_scripts::PlacedScript;

/// How an explanation is written.
#[derive(Clone, Copy, Debug, PartialEq, Eq)]
pub enum Format {
    Text,
    Json,
}

/// What is given beside the texts.
#[derive(Clone, Copy)]
pub struct ExplainOptions {
    pub format: Format,
    /// What the script's device is made with
    pub configuration: Configuration,
    /// Whether the schedule is told as it was given, and not made shorter
    pub as_given: bool,
    /// Whether each fault and each refusal of a script is told, and not the first one alone
    pub all: bool,
    /// How many steps are told at most, where a number is asked for
    pub steps: Option<usize>,
}

/// The texts that are given: the name of the script as on the command line and its bytes, and those of a schedule file,
/// if one is named. A name that ends in `.cl` is that of a source. Where a user wrote the script as another text, of
/// which it was made, that one is given with it: what is told are its lines.
#[derive(Clone, Copy)]
pub struct Given<'a> {
    pub name: &'a [u8],
    pub script: &'a [u8],
    pub schedule: Option<&'a [u8]>,
    pub written: Option<PlacedScript<'a>>,
}
