//! What is told, in words.
#![tactic(auto)]

ghost use Rattle.std.specs.Prelude.{◌≡◌, ◌≢◌, ◌++◌, List, ℕ, OnOk};
ghost use Rattle.wide_sources.specs.Words.{IsOneLine, why_word};

use crate::data::{Deciding, FreeArgument};
use std::alloc::AllocError;
use std::fmt::Write;
use widening::Why;

/// Why a source decides, in a word.
pub fn why_word(why: Why) -> &'static str
    ensures { result.now ≡ why_word why }
{
    match why {
        Why::Address => "address",
        Why::Branch => "branch",
        Why::Division => "division",
        Why::Index => "index",
        Why::Dimension => "dimension",
        Why::UniformStore => "uniform store",
    }
}

/// A byte, and a blank in place of a line feed.
fn in_line(byte: u8) -> u8
    ensures { result ≢ 10 }
{
    if byte == b'\n' { b' ' } else { byte }
}

/// Adds a text in one line: with a blank in place of each line feed.
pub fn push_in_line(text: &[u8], out: &mut Vec<u8>) -> Result<(), AllocError>
    ensures { OnOk result ((line : List ℕ) × IsOneLine line × (out.new.items ≡ out.old.items ++ line)) }
{
    for byte in text {
        out.push(in_line(*byte))?;
    }
    Ok(())
}

/// Adds an argument by its index, with the name of its parameter, if that is known.
fn push_argument(index: usize, name: &str, out: &mut String) -> Result<(), AllocError> {
    write!(out, "argument {index}")?;
    if !name.is_empty() {
        write!(out, " ({name})")?;
    }
    Ok(())
}

/// Adds the arguments that are free, with commas between them.
pub fn push_arguments(
    first: &'static str,
    arguments: &[FreeArgument],
    out: &mut String,
) -> Result<(), AllocError> {
    let mut before = first;
    for argument in arguments {
        out.push_str(before)?;
        push_argument(argument.index, argument.name.as_str(), out)?;
        before = ", ";
    }
    Ok(())
}

/// The file of this name, or the script.
fn file_words(file: &Option<String>) -> &str {
    match file {
        Some(name) => name.as_str(),
        None => "the script",
    }
}

/// Adds what decides, and where.
pub fn push_deciding(deciding: &Deciding, out: &mut String) -> Result<(), AllocError> {
    match deciding.index {
        Some(index) => push_argument(index, deciding.name.as_str(), out)?,
        None => out.push_str(deciding.name.as_str())?,
    }
    let why = why_word(deciding.why);
    write!(out, ": {why}")?;
    if let Some(code) = &deciding.code {
        let (line, column, text) = (code.line, code.column, code.text.as_str());
        let script_line = code.script_line;
        let file = file_words(&deciding.file);
        write!(
            out,
            " at {line}:{column}, line {script_line} of {file}: {text}"
        )?;
    }
    Ok(())
}
