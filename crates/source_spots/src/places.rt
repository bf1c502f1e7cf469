//! The lines and columns of a byte.
#![tactic(auto)]

ghost use Rattle.std.specs.Prelude.{◌≡◌, ◌≤◌, ◌<◌, ◌^◌, min, length, string_bytes, IfOk};
ghost use Rattle.text_lines.specs.Lines.{BeginsLine};
ghost use Rattle.source_spots.specs.Spots.{IsPlace, IsToldLine};

use clmodel::tree::Function;
use explanation::line_as_text;
use std::alloc::{AllocError, Global};
use text_lines::{line_text, position_of};

/// A source: its bytes, the line of the script in which it begins, from 1, and the functions of its tree.
#[derive(Clone, Copy)]
pub struct Source<'a> {
    pub text: &'a [u8],
    pub first_line: usize,
    pub functions: &'a [Function],
    pub ghost begins: { 1 ≤ first_line },
    pub ghost few: { first_line < 2 ^ 32 },
    pub ghost short: { length text.now < 2 ^ 32 },
}

/// The lines and the column of a byte, and where its line begins.
#[derive(Clone, Copy)]
pub(crate) struct LinePosition {
    pub at: usize,
    pub line: usize,
    pub script_line: usize,
    pub column: usize,
    pub begin: usize,
}

/// Where a byte of a source stands; its end, for a byte that it hasn't.
#[tactic(auto, using(crate::proofs::Feeds::few_lines))]
pub(crate) fn place_of(source: &Source<'_>, at: u32) -> LinePosition
    ensures at { result.at ≡ min at (length source.now.text.now) }
    ensures place { IsPlace source.now.text.now source.now.first_line result.at result.line result.column result.script_line }
    ensures begins { BeginsLine source.now.text.now result.at result.begin }
    ensures within { result.begin ≤ length source.now.text.now }
{
    let at = (at as usize).min(source.text.len());
    let found = position_of(source.text, at);
    LinePosition {
        at,
        line: found.line,
        script_line: source.first_line + found.line - 1,
        column: found.column,
        begin: found.begin,
    }
}

/// The text of the line of a place, of as many bytes. An error is out of memory.
pub(crate) fn line_of(
    alloc: Global,
    source: &Source<'_>,
    place: LinePosition,
) -> Result<String, AllocError>
    requires begins { BeginsLine source.now.text.now place.at place.begin }
    requires within { place.begin ≤ length source.now.text.now }
    ensures { IfOk result (λ line. IsToldLine source.now.text.now place.at (string_bytes line)) }
{
    line_as_text(alloc, line_text(source.text, place.begin))
}
