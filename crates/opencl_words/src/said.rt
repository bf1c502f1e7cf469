//! Tables of texts, with what is said of each.
#![tactic(auto)]

ghost use Rattle.std.specs.Prelude.{◌≡◌, bytes_eq, option_copied, unwrap_or};
ghost use Rattle.std.specs.List.{list_any};
ghost use Rattle.std.specs.Option.{option_or};
ghost use Rattle.opencl_words.specs.Tables.{rows, row_of, row_in_front};

/// What the first row of a text says, if the table has one.
pub(crate) fn said_of(table: &[(&[u8], &'static str)], text: &[u8]) -> Option<&'static str>
    ensures { option_copied result ≡ row_of (rows table.now) text.now }
{
    for row in table {
        if row.0 == text {
            return Some(row.1);
        }
    }
    None
}

/// What the first row says with whose text these bytes begin.
pub(crate) fn said_in_front(table: &[(&[u8], &'static str)], bytes: &[u8]) -> Option<&'static str>
    ensures { option_copied result ≡ row_in_front (rows table.now) bytes.now }
{
    for row in table {
        if bytes.starts_with(row.0) {
            return Some(row.1);
        }
    }
    None
}

/// Whether a text is one of these.
pub fn is_one_of(texts: &[&[u8]], text: &[u8]) -> bool
    ensures { result ≡ list_any (λ one. bytes_eq one.now text.now) texts.now }
{
    texts.iter().any(|one| *one == text)
}

/// What is said, or else the other text.
pub fn said_or(said: Option<&'static str>, other: &'static str) -> &'static str
    ensures { result.now ≡ unwrap_or (option_copied said.entry) other.now }
{
    match said {
        Some(text) => text,
        None => other,
    }
}

/// The first of two that says something.
pub fn first_said(said: Option<&'static str>, other: Option<&'static str>) -> Option<&'static str>
    ensures { option_copied result ≡ option_or (option_copied said.entry) (option_copied other.entry) }
{
    match said {
        Some(text) => Some(text),
        None => other,
    }
}
