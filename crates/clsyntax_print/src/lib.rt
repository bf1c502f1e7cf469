//! From a syntax tree back to text.
//!
//! `print` writes the defined text. If any text stands for the tree, so does what is written; it is read back as the
//! tree, offsets aside, where it is within the limits of length and nesting of a device. What writes an expression or a
//! statement calls itself for what stands inside, and so goes as deep as the tree does: of a source's tree, some calls
//! for each level of its nesting.
#![tactic(auto)]

ghost use Rattle.clmodel.specs.Tree.{program};
ghost use Rattle.byte_io.specs.Sink.{Puts};
ghost use Rattle.clsyntax_print.specs.Text.{printed_text, IsOfGrammar, IsReadBack};

mod expressions;
mod functions;
pub mod laws;
mod operators;
mod statements;
mod tokens;

use crate::functions::write_functions;
use byte_io::{Write, WriteFailed};
use clmodel::tree::Tree;

/// Why a tree was not printed.
#[derive(Clone, Copy, Debug, PartialEq, Eq)]
pub enum PrintFault {
    /// 1: the writer failed
    Write,
}

/// Prints a program as OpenCL C: its tokens with a space behind each, and only the round brackets that it needs (C99
/// 6.4 to 6.9). A tree that some text stands for, of any length and nesting, is printed as a text that stands for the
/// same tree, but for offsets; and this text is read back as that tree where it is within the limits of length and
/// nesting of a device. Takes no memory.
///
/// `Write` comes where the writer fails; then a beginning of the text may have been written.
pub fn print<W: Write>(tree: &Tree, writer: &mut W) -> Result<(), PrintFault>
    ensures text { Puts (W.sink writer.old) result (W.sink writer.new) (printed_text (program tree.now)) }
    ensures again { IsOfGrammar (program tree.now) → IsReadBack (printed_text (program tree.now)) (program tree.now) }
{
    match write_functions(&tree.functions, &tree.names, writer) {
        Ok(()) => Ok(()),
        Err(WriteFailed) => Err(PrintFault::Write),
    }
}
