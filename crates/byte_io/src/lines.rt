//! A line of a buffered reader.
//!
//! `read_line` does what the standard library's `read_until` does at a line feed, and searches for it by `memchr`. That
//! one looks at byte after byte, which in a line of two million digits takes longer than all else that is done with it.
#![tactic(auto)]

ghost use Rattle.std.specs.Prelude.{◌≡◌, ◌≢◌, ◌-◌, ◌+◌, ◌<◌, ◌≤◌, ◌++◌, true, Ok, All, OnOk, OnErr, OnSome, IfSome, IfOk, take, length, vec_len};
ghost use Rattle.std.specs.Io.{StartsWith, StopsAt, IsEmptyOrEndsWith, appended_bytes};
ghost use Rattle.std.specs.Io.BufRead.{take_through, DropsThrough};
ghost use Rattle.std.specs.Io.KnownBytes.{Consumes, IsAtEnd};

use memchr::memchr;
use std::io;
use std::io::{BufRead, ErrorKind};

/// The length up to and with the first line feed, or the whole length where there is none.
fn length_through(bytes: &[u8]) -> usize
    ensures bound { result ≤ length bytes.now }
    ensures some { 0 < length bytes.now → 0 < result }
    ensures before { All (λ x. x ≢ 10) (take (result - 1) bytes.now) }
{
    match memchr(b'\n', bytes) {
        Some(at) => at + 1,
        None => bytes.len(),
    }
}

/// Adds what the reader has buffered, up to and with the first line feed. Answers whether this ended with one, or the
/// reader has ended.
fn add_through<R: BufRead>(reader: &mut R, line: &mut Vec<u8>) -> io::Result<bool>
    ensures grows { vec_len line.old ≤ vec_len line.new }
    ensures appends { StartsWith line.new.items line.old.items }
    ensures stops { StopsAt (appended_bytes line.old.items line.new.items) 10 }
    ensures bytes { Consumes (R.remaining reader.old) (R.remaining reader.new) (appended_bytes line.old.items line.new.items) }
    ensures end { result ≡ Ok true → length (appended_bytes line.old.items line.new.items) ≡ 0
        → OnSome (R.remaining reader.old) (IsAtEnd (R.remaining reader.new)) }
    ensures no_feed_unless_done { result ≢ Ok true → All (λ x. x ≢ 10) (appended_bytes line.old.items line.new.items) }
    ensures done_at_feed_or_end { result ≡ Ok true → IsEmptyOrEndsWith (appended_bytes line.old.items line.new.items) 10 }
{
    let available = match reader.fill_buf() {
        Ok(available) => available,
        Err(error) => {
            return if error.kind() == ErrorKind::Interrupted {
                Ok(false)
            } else {
                Err(error)
            };
        }
    };
    let end = length_through(available);
    line.extend_from_slice(&available[..end])?;
    let is_done = end == 0 || available[end - 1] == b'\n';
    reader.consume(end);
    Ok(is_done)
}

/// Adds the bytes up to and with the next line feed, or all that is left where there is none, and answers how many they
/// are. Where it fails, what was read until then is added.
pub(crate) fn read_line<R: BufRead>(reader: &mut R, line: &mut Vec<u8>) -> io::Result<usize>
    ensures ok { IfOk result (λ n. vec_len line.new ≡ vec_len line.old + n) }
    ensures err { OnErr result (vec_len line.old ≤ vec_len line.new) }
    ensures appends { StartsWith line.new.items line.old.items }
    ensures stops { StopsAt (appended_bytes line.old.items line.new.items) 10 }
    ensures bytes { OnOk result (IfSome (R.remaining reader.old) (λ xs. line.new.items ≡ line.old.items ++ take_through 10 xs)) }
    ensures none_lost { Consumes (R.remaining reader.old) (R.remaining reader.new) (appended_bytes line.old.items line.new.items) }
{
    let start = line.len();
    for _ in 0..u64::MAX {
        if add_through(reader, line)? {
            return Ok(line.len() - start);
        }
    }
    Err(io::Error::from(ErrorKind::TimedOut))
}
