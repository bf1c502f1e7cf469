//! Hints at bytes that begin no token.
#![tactic(auto)]

ghost use Rattle.std.specs.Prelude.{◌≡◌, ◌≤◌, length, option_copied};
ghost use Rattle.opencl_words.specs.Bytes.{tail_said, begins_fraction, directive_said, front_said, byte_said};

use crate::said::{said_in_front, said_of, said_or};
use crate::spelling::{byte_at, ends_in_number, word_at};
use crate::words::{NO_FLOATS, NO_STRUCTS};

/// What to write for a byte that no table has.
pub(crate) const NO_TOKEN: &str =
    "leave it out: outside of comments a source has letters, digits, blanks and the symbols of C";

/// What to write for a letter behind a number that no table has.
pub(crate) const SUFFIXES: &str =
    "behind a number stands one of u U l L ul UL, or no letter: 1l for 1ll, 1ul for 1ull";

/// What to write for a line of the preprocessor, by the word behind its `#`.
pub(crate) static DIRECTIVES: [(&[u8], &str); 6] = [
    (
        b"define",
        "there is no preprocessor: write the value of a macro in its place, and a helper for a macro with parameters",
    ),
    (
        b"include",
        "there is no preprocessor: write the text of what is included in the place of the line",
    ),
    (
        b"pragma",
        "there is no preprocessor: leave #pragma out, atomic functions on int and uint need no extension",
    ),
    (
        b"if",
        "there is no preprocessor: leave out what isn't chosen, and the lines with #",
    ),
    (
        b"ifdef",
        "there is no preprocessor: leave out what isn't chosen, and the lines with #",
    ),
    (
        b"ifndef",
        "there is no preprocessor: leave out what isn't chosen, and the lines with #",
    ),
];

/// What to write for a byte, as text.
pub(crate) static BYTES: [(&[u8], &str); 6] = [
    (
        b"#",
        "there is no preprocessor: write the value of a macro in its place, and leave out each line with #",
    ),
    (
        b"\"",
        "there are no texts: store a number into a buffer in place of printf, and read the buffer",
    ),
    (
        b"'",
        "there are no characters: write the number of one, as 65 for 'A'",
    ),
    (
        b"\\",
        "there is no preprocessor: no line needs a backslash at its end",
    ),
    (
        b"/",
        "the comment that begins here has no end: */ is wanted",
    ),
    (b".", NO_STRUCTS),
];

/// What to write for a byte that can't follow a number, as text.
pub(crate) static TAILS: [(&[u8], &str); 11] = [
    (b".", NO_FLOATS),
    (b"f", NO_FLOATS),
    (b"F", NO_FLOATS),
    (b"e", NO_FLOATS),
    (b"E", NO_FLOATS),
    (
        b"8",
        "a number that begins with 0 is octal: leave the 0 out, or write digits from 0 to 7",
    ),
    (
        b"9",
        "a number that begins with 0 is octal: leave the 0 out, or write digits from 0 to 7",
    ),
    (
        b"b",
        "there are no binary numbers: write hexadecimal digits behind 0x",
    ),
    (
        b"B",
        "there are no binary numbers: write hexadecimal digits behind 0x",
    ),
    (b"x", "hexadecimal digits are wanted behind 0x"),
    (b"X", "hexadecimal digits are wanted behind 0x"),
];

/// What to write for the bytes behind a number, of which the first can't follow it.
fn tail_hint(bytes: &[u8]) -> &'static str
    ensures { result.now ≡ tail_said bytes.now }
{
    said_or(said_in_front(&TAILS, bytes), SUFFIXES)
}

/// Whether a number without digits before its point begins with these bytes.
fn begins_fraction(bytes: &[u8]) -> bool
    ensures { result ≡ begins_fraction bytes.now }
{
    bytes.starts_with(b".") && byte_at(bytes, 1).is_ascii_digit()
}

/// What to write for a line of the preprocessor, by the word behind its `#`.
fn directive_hint(bytes: &[u8]) -> Option<&'static str>
    ensures { option_copied result ≡ directive_said bytes.now }
{
    if !bytes.starts_with(b"#") {
        return None;
    }
    said_of(&DIRECTIVES, word_at(bytes, 1))
}

/// What to write for bytes that begin no token.
fn front_hint(bytes: &[u8]) -> &'static str
    ensures { result.now ≡ front_said bytes.now }
{
    if begins_fraction(bytes) {
        return NO_FLOATS;
    }
    let other = said_or(said_in_front(&BYTES, bytes), NO_TOKEN);
    said_or(directive_hint(bytes), other)
}

/// A hint at a byte of a source that begins no token, or that can't follow a number. It takes the time of the source.
pub fn byte_hint(source: &[u8], at: usize) -> &'static str
    requires { at ≤ length source.now }
    ensures { result.now ≡ byte_said source.now at }
{
    let (front, rest) = source.split_at(at);
    if ends_in_number(front) {
        return tail_hint(rest);
    }
    front_hint(rest)
}
