//! The files that a script names.
#![tactic(auto)]

ghost use Rattle.std.specs.Prelude.{◌≡◌, option_map};
ghost use Rattle.written_scripts.specs.Telling.{text_at};

use clmodel::text::Bytes;

/// A file that a script names, with its text.
#[derive(Drop)]
pub struct NamedFile {
    /// The path, as the script has it
    pub path: Bytes,
    pub text: Bytes,
}

/// The text of the first file of a path.
pub(crate) fn text_at<'a>(files: &'a [NamedFile], path: &[u8]) -> Option<&'a [u8]>
    ensures { option_map (λ text. text.now) result ≡ text_at files.now path.now }
{
    for file in files {
        if file.path.as_slice() == path {
            return Some(file.text.as_slice());
        }
    }
    None
}
