//! Sizes of numbers, words and cells.

/// How many bits a byte has.
pub const BYTE_BITS: u64 = 8;

/// How many values a byte has.
pub const BYTE_VALUES: u64 = 256;

/// How many bytes the value of an access has: the widest access is at so many.
pub const VALUE_BYTES: u64 = 8;

/// How many bytes a word has.
pub const WORD_BYTES: u64 = 4;

/// How many values a word has.
pub const WORD_VALUES: u64 = 1 << 32;

/// How many bytes a cell has.
pub const CELL_BYTES: u64 = 8;
