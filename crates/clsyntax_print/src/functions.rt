//! Functions with their parameters.
#![tactic(auto)]

ghost use Rattle.std.specs.Prelude.{◌≡◌, ◌++◌, ◌∷◌, List, map};
ghost use Rattle.clmodel.specs.Tree.{func, then_funcs, NoFunc};
ghost use Rattle.clsyntax_lex.specs.declared.token.TokenKind.{TokenKind};
ghost use Rattle.clsyntax_print.specs.Printing as printing;
ghost use Rattle.clsyntax_print.specs.Printing.{print_parameter, print_parameters, print_func, print_funcs};
ghost use Rattle.clsyntax_print.specs.Writing.{Passes};

use crate::statements::{write_statements, write_type};
use crate::tokens::{write_if, write_tokens};
use byte_io::{Write, WriteFailed};
use clmodel::text::Name;
use clmodel::tree::{Function, Parameter};
use clnum::IntType;
use clsyntax_lex::token::TokenKind;

/// Writes tokens and a parameter.
fn write_parameter<W: Write>(
    front: &[TokenKind],
    parameter: Parameter,
    names: &[Name],
    writer: &mut W,
) -> Result<(), WriteFailed>
    ensures { (rest : List TokenKind) → Passes names.now (W.sink writer.old) result (W.sink writer.new) (front.now ++ print_parameter parameter rest) rest }
{
    write_tokens(front, names, writer)?;
    write_type(parameter.kind, names, writer)?;
    write_tokens(&[TokenKind::Name(parameter.name)], names, writer)
}

/// Writes parameters with commas between them.
fn write_parameters<W: Write>(
    parameters: &[Parameter],
    names: &[Name],
    writer: &mut W,
) -> Result<(), WriteFailed>
    ensures { (rest : List TokenKind) → Passes names.now (W.sink writer.old) result (W.sink writer.new) (print_parameters parameters.now rest) rest }
{
    let [first, others @ ..] = parameters else {
        return Ok(());
    };
    write_parameter(&[], *first, names, writer)?;
    for parameter in others {
        write_parameter(&[TokenKind::Comma], *parameter, names, writer)?;
    }
    Ok(())
}

/// The word of what a function gives.
fn result_kind(result_type: Option<IntType>) -> TokenKind
    ensures { result ≡ printing.result_kind result_type }
{
    match result_type {
        None => TokenKind::Void,
        Some(kind) => TokenKind::Type(kind),
    }
}

/// Writes a function.
fn write_function<W: Write>(
    function: &Function,
    names: &[Name],
    writer: &mut W,
) -> Result<(), WriteFailed>
    ensures { (rest : List TokenKind) → Passes names.now (W.sink writer.old) result (W.sink writer.new) (print_func (func function.now) rest) rest }
{
    write_if(function.is_kernel, TokenKind::Kernel, names, writer)?;
    let result_kind = result_kind(function.result);
    write_tokens(
        &[
            result_kind,
            TokenKind::Name(function.name),
            TokenKind::OpenRound,
        ],
        names,
        writer,
    )?;
    write_parameters(&function.parameters, names, writer)?;
    write_tokens(
        &[TokenKind::CloseRound, TokenKind::OpenBrace],
        names,
        writer,
    )?;
    write_statements(&function.body, names, writer)?;
    write_tokens(&[TokenKind::CloseBrace], names, writer)
}

/// Writes functions one after another.
pub(crate) fn write_functions<W: Write>(
    functions: &[Function],
    names: &[Name],
    writer: &mut W,
) -> Result<(), WriteFailed>
    ensures { (rest : List TokenKind) → Passes names.now (W.sink writer.old) result (W.sink writer.new) (print_funcs (then_funcs NoFunc (map func functions.now)) rest) rest }
{
    for function in functions {
        write_function(function, names, writer)?;
    }
    Ok(())
}
