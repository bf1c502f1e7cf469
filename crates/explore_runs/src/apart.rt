//! The first byte at which two lists of buffers differ.

ghost use Rattle.std.specs.Prelude.{◌≡◌, ◌≢◌, ◌<◌, true, false, length, slice_get, IfNone, IfSome};
ghost use Rattle.explore_runs.specs.Apart.{AreAlike, IsFirstApart, IsFirstByte};

use clmodel::text::Bytes;

/// A byte of one of a launch's buffers.
#[derive(Clone, Copy)]
pub struct Place {
    /// The buffer's number, from 0 on.
    pub buffer: usize,
    /// The byte's number there, from 0 on.
    pub byte: usize,
}

/// Whether a row has the same at a byte of another one.
fn is_alike(one: &[u8], other: &[u8], byte: usize) -> bool
    requires { byte < length one.now }
    ensures same { result ≡ true → slice_get one.now byte ≡ slice_get other.now byte }
    ensures apart { result ≡ false → slice_get one.now byte ≢ slice_get other.now byte }
{
    if byte >= other.len() {
        return false;
    }
    one[byte] == other[byte]
}

/// The first byte of one row that isn't the other's, `None` where the other one has all its bytes.
fn byte_apart(one: &[u8], other: &[u8]) -> Option<usize>
    ensures apart { IfSome result (IsFirstByte one.now other.now) }
    ensures alike { IfNone result (AreAlike one.now other.now) }
{
    for byte in 0..one.len() {
        if !is_alike(one, other, byte) {
            return Some(byte);
        }
    }
    None
}

/// The first byte at which two lists of buffers differ, if they do: in the lowest buffer with one, there the lowest.
pub fn first_apart(one: &[Bytes], other: &[Bytes]) -> Option<Place>
    ensures { IfSome result (IsFirstApart one.now other.now) }
{
    for buffer in 0..one.len().min(other.len()) {
        match byte_apart(one[buffer].as_slice(), other[buffer].as_slice()) {
            Some(byte) => return Some(Place { buffer, byte }),
            None => {}
        }
    }
    None
}
