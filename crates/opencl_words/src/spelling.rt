//! Words of a source: letters, digits and underscores.
#![tactic(auto)]

ghost use Rattle.std.specs.Prelude.{◌≡◌, ◌≤◌, length, slice_index};
ghost use Rattle.opencl_words.specs.Spelling as spelling;

use clsyntax_lex::is_name_part;

/// How many bytes the word in front has.
fn word_len(bytes: &[u8]) -> usize
    ensures value { result ≡ spelling.word_len bytes.now }
    ensures within { result ≤ length bytes.now }
{
    bytes.iter().take_while(|byte| is_name_part(**byte)).count()
}

/// The word in front; none where no word stands there.
fn front_word(bytes: &[u8]) -> &[u8]
    ensures { result.now ≡ spelling.front_word bytes.now }
{
    let (word, _) = bytes.split_at(word_len(bytes));
    word
}

/// The word that begins at a byte; none where no word does.
pub fn word_at(source: &[u8], at: usize) -> &[u8]
    requires { at ≤ length source.now }
    ensures { result.now ≡ spelling.word_at source.now at }
{
    let (_, rest) = source.split_at(at);
    front_word(rest)
}

/// The byte at a place, 0 past the end.
pub(crate) fn byte_at(bytes: &[u8], at: usize) -> u8
    ensures { result ≡ slice_index bytes.now at }
{
    bytes.get(at).copied().unwrap_or(0)
}

/// What kind of word goes on behind some bytes.
#[derive(Clone, Copy)]
pub(crate) enum SpelledWord {
    Nothing,
    Number,
    Name,
}

/// What goes on behind one byte more.
fn with_byte(word: SpelledWord, byte: u8) -> SpelledWord
    ensures { result ≡ spelling.with_byte word byte }
{
    if !is_name_part(byte) {
        return SpelledWord::Nothing;
    }
    match word {
        SpelledWord::Nothing => begun_by(byte),
        SpelledWord::Number | SpelledWord::Name => word,
    }
}

/// What a byte of a word begins.
fn begun_by(byte: u8) -> SpelledWord
    ensures { result ≡ spelling.begun_by byte }
{
    if byte.is_ascii_digit() {
        SpelledWord::Number
    } else {
        SpelledWord::Name
    }
}

/// What kind of word goes on behind bytes. It takes their time.
fn last_word(bytes: &[u8]) -> SpelledWord
    ensures { result ≡ spelling.last_word bytes.now }
{
    let mut word = SpelledWord::Nothing;
    for byte in bytes {
        word = with_byte(word, *byte);
    }
    word
}

/// Whether bytes end in a number.
pub(crate) fn ends_in_number(bytes: &[u8]) -> bool
    ensures { result ≡ spelling.ends_in_number bytes.now }
{
    matches!(last_word(bytes), SpelledWord::Number)
}
