//! What a buffer may be filled with (OpenCL 1.2, section 5.2.3).
#![tactic(auto)]

ghost use Rattle.std.specs.Prelude.{◌≡◌, ◌<◌, ◌%◌, length, true, false};
ghost use Rattle.host_commands.specs.Fills.{is_pattern_size, is_bad_fill};

/// Whether a pattern may have this size in bytes: 1, 2, 4, 8, 16, 32, 64 or 128.
fn is_pattern_size(size: usize) -> bool
    ensures value { result ≡ is_pattern_size size }
    ensures some { result ≡ true → 0 < size }
    ensures even { result ≡ true → 256 % size ≡ 0 }
{
    matches!(size, 1 | 2 | 4 | 8 | 16 | 32 | 64 | 128)
}

/// Whether the pattern has not 1, 2, 4, 8, 16, 32, 64 or 128 bytes, the count is 0, or the offset or the count is no
/// multiple of the pattern's length. Any other pattern's length divides 256.
pub fn is_bad_fill(offset: u64, count: u64, pattern: &[u8]) -> bool
    ensures value { result ≡ is_bad_fill offset count pattern.now }
    ensures some { result ≡ false → 0 < length pattern.now }
    ensures even { result ≡ false → 256 % length pattern.now ≡ 0 }
{
    if !is_pattern_size(pattern.len()) {
        return true;
    }
    let size = pattern.len() as u64;
    count == 0 || offset % size != 0 || count % size != 0
}
