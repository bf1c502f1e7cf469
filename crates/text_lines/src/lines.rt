//! The line and the column of a byte, and the text of a line.
#![tactic(auto)]

ghost use Rattle.std.specs.Prelude.{◌≡◌, ◌≢◌, ℕ, ◌+◌, ◌-◌, ◌<◌, ◌≤◌, length, slice_index, slice_range};
ghost use Rattle.text_lines.specs.Lines.{line_of, BeginsLine, EndsLine};

use crate::feeds::line_feeds;

/// Where a byte stands: the line and the column, both from 1, and the byte at which the line begins, from 0.
#[derive(Clone, Copy, Debug, PartialEq, Eq)]
pub struct LineAndColumn {
    pub line: usize,
    pub column: usize,
    pub begin: usize,
}

/// Where the line behind these bytes begins.
fn begin_of(front: &[u8]) -> usize
    ensures within { result ≤ length front.now }
    ensures after_feed { 0 < result → slice_index front.now (result - 1) ≡ 10 }
    ensures no_feed { (k : ℕ) → result ≤ k → k < length front.now → slice_index front.now k ≢ 10 }
{
    let mut begin = 0;
    for (i, byte) in front.iter().enumerate() {
        if *byte == b'\n' {
            begin = i + 1;
        }
    }
    begin
}

/// Where a byte of a source stands, or its end. It takes the time of the bytes before it.
pub fn position_of(source: &[u8], at: usize) -> LineAndColumn
    requires { at ≤ length source.now }
    ensures line { result.line ≡ line_of source.now at }
    ensures begin { BeginsLine source.now at result.begin }
    ensures column { result.begin + result.column ≡ at + 1 }
{
    let (front, _) = source.split_at(at);
    let begin = begin_of(front);
    LineAndColumn {
        line: line_feeds(front) + 1,
        column: at - begin + 1,
        begin,
    }
}

/// Where the line ends that begins at a byte.
fn end_of(source: &[u8], begin: usize) -> usize
    requires { begin ≤ length source.now }
    ensures end { EndsLine source.now begin result }
    ensures after { begin ≤ result }
{
    for i in begin..source.len() {
        if source[i] == b'\n' {
            return i;
        }
    }
    source.len()
}

/// The text from a byte on up to the end of its line, without the line feed. It takes the time of that text.
pub fn line_text(source: &[u8], begin: usize) -> &[u8]
    requires { begin ≤ length source.now }
    ensures { (end : ℕ) × EndsLine source.now begin end × (result.now ≡ slice_range source.now begin end) }
{
    let end = end_of(source, begin);
    &source[begin..end]
}
