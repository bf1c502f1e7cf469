//! Expressions, written with the round brackets that they need.
#![tactic(auto)]

ghost use Rattle.std.specs.Prelude.{◌≡◌, ◌++◌, List, map};
ghost use Rattle.clmodel.specs.Tree.{term, terms};
ghost use Rattle.clsyntax_lex.specs.declared.token.TokenKind.{TokenKind};
ghost use Rattle.clsyntax_print.specs.Printing.{print_term, print_terms};
ghost use Rattle.clsyntax_print.specs.Writing.{Passes};

use crate::operators::{TIGHT, infix_kind, unary_kind};
use crate::tokens::{write_if, write_tokens};
use byte_io::{Write, WriteFailed};
use clmodel::text::Name;
use clmodel::tree::Expression;
use clsyntax_lex::token::TokenKind;

/// Writes an expression where one of a level is wanted: round brackets stand around it where its outermost operator
/// binds less tightly.
#[cycle(expressions)]
pub(crate) fn write_expression<W: Write>(
    wanted: u32,
    expression: &Expression,
    names: &[Name],
    writer: &mut W,
) -> Result<(), WriteFailed>
    ensures { (rest : List TokenKind) → Passes names.now (W.sink writer.old) result (W.sink writer.new) (print_term wanted (term expression.now) rest) rest }
{
    match expression {
        Expression::Number { value, .. } => {
            write_tokens(&[TokenKind::Number(*value)], names, writer)
        }
        Expression::Variable { name, .. } => write_tokens(&[TokenKind::Name(*name)], names, writer),
        Expression::Element { name, index, .. } => {
            let front = [TokenKind::Name(*name), TokenKind::OpenSquare];
            write_between(&front, 0, index, &[TokenKind::CloseSquare], names, writer)
        }
        Expression::ElementAddress { name, index, .. } => {
            let front = [
                TokenKind::And,
                TokenKind::Name(*name),
                TokenKind::OpenSquare,
            ];
            write_between(&front, 0, index, &[TokenKind::CloseSquare], names, writer)
        }
        Expression::Dereference { pointer, .. } => {
            write_between(&[TokenKind::Star], TIGHT, pointer, &[], names, writer)
        }
        Expression::Call {
            name,
            arguments,
            ..
        } => {
            write_tokens(
                &[TokenKind::Name(*name), TokenKind::OpenRound],
                names,
                writer,
            )?;
            write_arguments(arguments, names, writer)?;
            write_tokens(&[TokenKind::CloseRound], names, writer)
        }
        Expression::Unary {
            operator,
            operand,
            ..
        } => write_between(&[unary_kind(*operator)], TIGHT, operand, &[], names, writer),
        Expression::Cast {
            target,
            operand,
            ..
        } => {
            let front = [
                TokenKind::OpenRound,
                TokenKind::Type(*target),
                TokenKind::CloseRound,
            ];
            write_between(&front, TIGHT, operand, &[], names, writer)
        }
        Expression::Binary {
            operator,
            left,
            right,
            ..
        } => {
            let own = operator.level();
            write_if(own < wanted, TokenKind::OpenRound, names, writer)?;
            write_expression(own, left, names, writer)?;
            write_between(&[infix_kind(*operator)], own + 1, right, &[], names, writer)?;
            write_if(own < wanted, TokenKind::CloseRound, names, writer)
        }
        Expression::Choice {
            condition,
            chosen,
            otherwise,
            ..
        } => {
            write_if(wanted > 0, TokenKind::OpenRound, names, writer)?;
            write_expression(1, condition, names, writer)?;
            write_between(
                &[TokenKind::Question],
                0,
                chosen,
                &[TokenKind::Colon],
                names,
                writer,
            )?;
            write_expression(0, otherwise, names, writer)?;
            write_if(wanted > 0, TokenKind::CloseRound, names, writer)
        }
    }
}

/// Writes tokens, an expression where one of a level is wanted, and tokens.
#[cycle(expressions)]
pub(crate) fn write_between<W: Write>(
    front: &[TokenKind],
    wanted: u32,
    expression: &Expression,
    back: &[TokenKind],
    names: &[Name],
    writer: &mut W,
) -> Result<(), WriteFailed>
    ensures { (rest : List TokenKind) → Passes names.now (W.sink writer.old) result (W.sink writer.new) (front.now ++ print_term wanted (term expression.now) (back.now ++ rest)) rest }
{
    write_tokens(front, names, writer)?;
    write_expression(wanted, expression, names, writer)?;
    write_tokens(back, names, writer)
}

/// Writes expressions with commas between them.
#[cycle(expressions)]
pub(crate) fn write_arguments<W: Write>(
    arguments: &[Expression],
    names: &[Name],
    writer: &mut W,
) -> Result<(), WriteFailed>
    ensures { (rest : List TokenKind) → Passes names.now (W.sink writer.old) result (W.sink writer.new) (print_terms (terms arguments.now) rest) rest }
{
    let [first, others @ ..] = arguments else {
        return Ok(());
    };
    write_expression(0, first, names, writer)?;
    for argument in others {
        write_between(&[TokenKind::Comma], 0, argument, &[], names, writer)?;
    }
    Ok(())
}
