//! Words of 4 bytes, and bytes.

ghost use Rattle.std.specs.Prelude.{◌≡◌};
ghost use Rattle.race_filter.specs.Words.{byte_in, first_word, is_on_two_words, last_word, part_of, word_in};

use clmodel::access::{Access, Region};

/// How many bytes a word has.
const WORD: u64 = 4;

/// A word of an object, or a byte of it.
#[derive(Clone, Copy, PartialEq, Eq, Hash)]
pub struct Part {
    pub is_local: bool,
    /// The group of a local object; 0 of a buffer
    pub group: u32,
    /// The number of the object among buffers, or among local objects
    pub number: u32,
    pub is_byte: bool,
    /// The number of the word, or of the byte, in the object
    pub place: u64,
}

/// A word of an object, or a byte of it, by its number.
fn part_of(region: Region, is_byte: bool, place: u64) -> Part
    ensures { result ≡ part_of region is_byte place }
{
    match region {
        Region::Buffer(number) => Part {
            is_local: false,
            group: 0,
            number,
            is_byte,
            place,
        },
        Region::Local { group, number } => Part {
            is_local: true,
            group,
            number,
            is_byte,
            place,
        },
    }
}

/// A word of an object, by its number.
pub(crate) fn word_in(region: Region, word: u64) -> Part
    ensures { result ≡ word_in region word }
{
    part_of(region, false, word)
}

/// A byte of an object, by its number.
pub(crate) fn byte_in(region: Region, byte: u64) -> Part
    ensures { result ≡ byte_in region byte }
{
    part_of(region, true, byte)
}

/// The number of the word of an access's first byte.
pub(crate) fn first_word(x: &Access) -> u64
    ensures { result ≡ first_word x.now }
{
    x.first / WORD
}

/// The number of the word of its last byte, where it touches one word or two.
pub(crate) fn last_word(x: &Access) -> u64
    ensures { result ≡ last_word x.now }
{
    if x.first % WORD + x.width.bytes() <= WORD {
        first_word(x)
    } else {
        first_word(x) + 1
    }
}

/// Whether an access touches one word or two. Each does that begins at a multiple of its width, as all of a kernel do.
pub(crate) fn is_on_two_words(x: &Access) -> bool
    ensures { result ≡ is_on_two_words x.now }
{
    x.first % WORD + x.width.bytes() <= 2 * WORD
}
