//! Whether a text looks like a script or like a source, by its first line that isn't blank.
//!
//! What is told of a file by this is a hint on standard error, and no answer depends on it.
#![tactic(auto)]

use text_lines::line_text;

/// What a text looks like.
#[derive(Clone, Copy, Debug, PartialEq, Eq)]
pub(crate) enum Looks {
    /// Its first line begins as a command of a script does
    Script,
    /// Its first line begins as a source does, or has a bracket or a semicolon, as no line of a command has
    Source,
    /// Neither
    Unknown,
}

/// How the lines of a script's commands begin, but for `kernel`, with which a source may begin too.
const COMMANDS: [&str; 10] = [
    "clsim ", "buffer ", "write ", "fill ", "copy ", "read ", "release ", "program ", "arg ",
    "launch ",
];

/// How the lines of a source begin that may have neither a bracket nor a semicolon.
const SOURCES: [&str; 9] = [
    "//",
    "/*",
    "#define",
    "#include",
    "#if",
    "#pragma",
    "__",
    "kernel void",
    "typedef ",
];

/// The first line that isn't blank, from its first byte that isn't.
fn first_line(text: &[u8]) -> &[u8] {
    line_text(text.trim_ascii_start(), 0)
}

/// Whether a line begins with one of the words.
fn begins_with(line: &[u8], words: &[&str]) -> bool {
    for word in words {
        if line.starts_with(word.as_bytes()) {
            return true;
        }
    }
    false
}

/// Whether a byte stands in sources, and in no line of a command.
fn is_of_source(byte: u8) -> bool {
    matches!(byte, b'(' | b')' | b'{' | b'}' | b'[' | b']' | b';')
}

/// What a text looks like.
pub(crate) fn looks_of(text: &[u8]) -> Looks {
    let line = first_line(text);
    if begins_with(line, &SOURCES) || line.iter().any(|byte| is_of_source(*byte)) {
        return Looks::Source;
    }
    if begins_with(line, &COMMANDS) {
        return Looks::Script;
    }
    Looks::Unknown
}
