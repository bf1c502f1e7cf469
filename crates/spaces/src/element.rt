//! Elements whose bytes lie in one row.

ghost use Rattle.std.specs.Prelude.{◌≡◌, ◌+◌, ◌<◌, ◌≤◌, ◌^◌, ℕ, Some, length};
ghost use Rattle.clmodel.specs.Cells.{byte_count, number, written};
ghost use Rattle.spaces.specs.Overlay.{row_cells};

use clmodel::access::Width;

/// The number of an element's bytes, which are read together.
pub(crate) fn number_in(row: &[u8], at: usize, width: Width) -> u64
    requires { at + byte_count width ≤ length row.now }
    ensures value { number (row_cells row.now) at (byte_count width) ≡ Some result }
    ensures below { result < 256 ^ byte_count width }
{
    match width {
        Width::One => row[at] as u64,
        Width::Two => u16::from_le_bytes([row[at], row[at + 1]]) as u64,
        Width::Four => u32::from_le_bytes([row[at], row[at + 1], row[at + 2], row[at + 3]]) as u64,
        Width::Eight => u64::from_le_bytes([
            row[at],
            row[at + 1],
            row[at + 2],
            row[at + 3],
            row[at + 4],
            row[at + 5],
            row[at + 6],
            row[at + 7],
        ]),
    }
}

/// Puts the lowest byte of a value into a row.
#[inline(always)]
fn put_one(row: &mut [u8], at: usize, value: u64)
    requires { at + 1 ≤ length row.old }
    ensures same_length { length row.new ≡ length row.old }
    ensures bytes { (byte : ℕ) → row_cells row.new byte ≡ written (row_cells row.old) at 1 value byte }
{
    row[at] = (value % 256) as u8;
}

/// Puts the two lowest bytes of a value into a row, the lowest at the lower place.
#[inline(always)]
fn put_two(row: &mut [u8], at: usize, value: u64)
    requires { at + 2 ≤ length row.old }
    ensures same_length { length row.new ≡ length row.old }
    ensures bytes { (byte : ℕ) → row_cells row.new byte ≡ written (row_cells row.old) at 2 value byte }
{
    // the high byte first, since LLVM would take a first store that all widths share out of their branches
    put_one(row, at + 1, value >> 8);
    put_one(row, at, value);
}

/// Puts the four lowest bytes of a value into a row, the lowest at the lowest place.
#[inline(always)]
fn put_four(row: &mut [u8], at: usize, value: u64)
    requires { at + 4 ≤ length row.old }
    ensures same_length { length row.new ≡ length row.old }
    ensures bytes { (byte : ℕ) → row_cells row.new byte ≡ written (row_cells row.old) at 4 value byte }
{
    put_two(row, at, value);
    put_two(row, at + 2, value >> 16);
}

/// Puts the bytes of a value into a row, the lowest at the lowest place.
#[inline(always)]
fn put_eight(row: &mut [u8], at: usize, value: u64)
    requires { at + 8 ≤ length row.old }
    ensures same_length { length row.new ≡ length row.old }
    ensures bytes { (byte : ℕ) → row_cells row.new byte ≡ written (row_cells row.old) at 8 value byte }
{
    put_four(row, at, value);
    put_four(row, at + 4, value >> 32);
}

/// Puts the low bytes of a value in place of those of an element. The compiler makes one store of them.
#[inline(always)]
pub(crate) fn put_in(row: &mut [u8], at: usize, width: Width, value: u64)
    requires { at + byte_count width ≤ length row.old }
    ensures same_length { length row.new ≡ length row.old }
    ensures bytes { (byte : ℕ) → row_cells row.new byte ≡ written (row_cells row.old) at (byte_count width) value byte }
{
    match width {
        Width::One => put_one(row, at, value),
        Width::Two => put_two(row, at, value),
        Width::Four => put_four(row, at, value),
        Width::Eight => put_eight(row, at, value),
    }
}
