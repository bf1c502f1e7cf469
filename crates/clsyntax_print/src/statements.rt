//! Statements and declarations.
#![tactic(auto)]

ghost use Rattle.std.specs.Prelude.{◌≡◌, ◌++◌, ◌∷◌, List, map};
ghost use Rattle.clmodel.specs.declared.tree.AddressSpace.TheVariants.{Local};
ghost use Rattle.clmodel.specs.Tree.{term, tree_target, stmt, maybe_term, then_stmts, NoStmt};
ghost use Rattle.clsyntax_lex.specs.declared.token.TokenKind.{TokenKind};
ghost use Rattle.clsyntax_lex.specs.declared.token.TokenKind.TheVariants as kinds;
ghost use Rattle.clsyntax_print.specs.Printing.{with_token, print_target, print_type, print_term, print_simple, print_part, print_condition, print_stmt, print_stmts};
ghost use Rattle.clsyntax_print.specs.Writing.{part_of, Passes};

use crate::expressions::{write_arguments, write_between};
use crate::operators::{TIGHT, assign_kind, step_kind};
use crate::tokens::{write_if, write_tokens};
use byte_io::{Write, WriteFailed};
use clmodel::text::Name;
use clmodel::tree::{AddressSpace, Expression, Statement, Target, VariableType};
use clnum::{IntType, Value};
use clsyntax_lex::token::TokenKind;

/// Writes a target.
fn write_target<W: Write>(
    target: &Target,
    names: &[Name],
    writer: &mut W,
) -> Result<(), WriteFailed>
    ensures { (rest : List TokenKind) → Passes names.now (W.sink writer.old) result (W.sink writer.new) (print_target (tree_target target.now) rest) rest }
{
    match target {
        Target::Variable { name, .. } => write_tokens(&[TokenKind::Name(*name)], names, writer),
        Target::Element { name, index, .. } => {
            let front = [TokenKind::Name(*name), TokenKind::OpenSquare];
            write_between(&front, 0, index, &[TokenKind::CloseSquare], names, writer)
        }
        Target::Dereference { pointer, .. } => {
            write_between(&[TokenKind::Star], TIGHT, pointer, &[], names, writer)
        }
    }
}

/// Writes a type.
pub(crate) fn write_type<W: Write>(
    kind: VariableType,
    names: &[Name],
    writer: &mut W,
) -> Result<(), WriteFailed>
    ensures { (rest : List TokenKind) → Passes names.now (W.sink writer.old) result (W.sink writer.new) (print_type kind rest) rest }
{
    match kind {
        VariableType::Integer(kind) => write_tokens(&[TokenKind::Type(kind)], names, writer),
        VariableType::Pointer(pointer) => {
            let space = TokenKind::Space(pointer.space);
            let element = TokenKind::Type(pointer.element);
            if pointer.is_const {
                write_tokens(
                    &[space, TokenKind::Const, element, TokenKind::Star],
                    names,
                    writer,
                )
            } else {
                write_tokens(&[space, element, TokenKind::Star], names, writer)
            }
        }
    }
}

/// Writes the declaration of an array without its semicolon.
fn write_array<W: Write>(
    is_local: bool,
    element: IntType,
    name: u32,
    length: Value,
    names: &[Name],
    writer: &mut W,
) -> Result<(), WriteFailed>
    ensures { (rest : List TokenKind) → Passes names.now (W.sink writer.old) result (W.sink writer.new)
        (with_token is_local (kinds.Space Local) (kinds.Type element ∷ kinds.Name name ∷ kinds.OpenSquare ∷ kinds.Number length ∷ kinds.CloseSquare ∷ rest)) rest }
{
    write_if(
        is_local,
        TokenKind::Space(AddressSpace::Local),
        names,
        writer,
    )?;
    write_tokens(
        &[
            TokenKind::Type(element),
            TokenKind::Name(name),
            TokenKind::OpenSquare,
            TokenKind::Number(length),
            TokenKind::CloseSquare,
        ],
        names,
        writer,
    )
}

/// Writes a declaration, an assignment, a step or a call without its semicolon.
fn write_simple<W: Write>(
    statement: &Statement,
    names: &[Name],
    writer: &mut W,
) -> Result<(), WriteFailed>
    ensures { (rest : List TokenKind) → Passes names.now (W.sink writer.old) result (W.sink writer.new) (print_simple (stmt statement.now) rest) rest }
{
    match statement {
        Statement::Declare {
            kind,
            name,
            value,
            ..
        } => {
            write_type(*kind, names, writer)?;
            match value {
                None => write_tokens(&[TokenKind::Name(*name)], names, writer),
                Some(value) => {
                    let front = [TokenKind::Name(*name), TokenKind::Assign];
                    write_between(&front, 0, value, &[], names, writer)
                }
            }
        }
        Statement::DeclareArray {
            is_local,
            element,
            name,
            length,
            ..
        } => write_array(*is_local, *element, *name, *length, names, writer),
        Statement::Assign {
            target,
            operator,
            value,
            ..
        } => {
            write_target(target, names, writer)?;
            write_between(&[assign_kind(*operator)], 0, value, &[], names, writer)
        }
        Statement::Step {
            target,
            is_increment,
            ..
        } => {
            write_tokens(&[step_kind(*is_increment)], names, writer)?;
            write_target(target, names, writer)
        }
        Statement::Call {
            name,
            arguments,
            ..
        } => {
            write_tokens(
                &[TokenKind::Name(*name), TokenKind::OpenRound],
                names,
                writer,
            )?;
            write_arguments(arguments, names, writer)?;
            write_tokens(&[TokenKind::CloseRound], names, writer)
        }
        _ => Ok(()),
    }
}

/// Writes a statement.
#[cycle(statements)]
fn write_statement<W: Write>(
    statement: &Statement,
    names: &[Name],
    writer: &mut W,
) -> Result<(), WriteFailed>
    ensures { (rest : List TokenKind) → Passes names.now (W.sink writer.old) result (W.sink writer.new) (print_stmt (stmt statement.now) rest) rest }
{
    match statement {
        Statement::Empty { .. } => write_tokens(&[TokenKind::Semicolon], names, writer),
        Statement::Block { body, .. } => {
            write_tokens(&[TokenKind::OpenBrace], names, writer)?;
            write_statements(body, names, writer)?;
            write_tokens(&[TokenKind::CloseBrace], names, writer)
        }
        Statement::Declare { .. }
        | Statement::DeclareArray { .. }
        | Statement::Assign { .. }
        | Statement::Step { .. }
        | Statement::Call { .. } => {
            write_simple(statement, names, writer)?;
            write_tokens(&[TokenKind::Semicolon], names, writer)
        }
        Statement::If {
            condition,
            chosen,
            ..
        } => {
            write_test(TokenKind::If, condition, names, writer)?;
            write_statement(chosen, names, writer)
        }
        Statement::IfElse {
            condition,
            chosen,
            otherwise,
            ..
        } => {
            write_test(TokenKind::If, condition, names, writer)?;
            write_statement(chosen, names, writer)?;
            write_tokens(&[TokenKind::Else], names, writer)?;
            write_statement(otherwise, names, writer)
        }
        Statement::While {
            condition,
            body,
            ..
        } => {
            write_test(TokenKind::While, condition, names, writer)?;
            write_statement(body, names, writer)
        }
        Statement::DoWhile {
            body,
            condition,
            ..
        } => {
            write_tokens(&[TokenKind::Do], names, writer)?;
            write_statement(body, names, writer)?;
            write_test(TokenKind::While, condition, names, writer)?;
            write_tokens(&[TokenKind::Semicolon], names, writer)
        }
        Statement::For {
            first,
            condition,
            third,
            body,
            ..
        } => {
            write_loop_head(first, condition, third, names, writer)?;
            write_statement(body, names, writer)
        }
        Statement::Break { .. } => {
            write_tokens(&[TokenKind::Break, TokenKind::Semicolon], names, writer)
        }
        Statement::Continue { .. } => {
            write_tokens(&[TokenKind::Continue, TokenKind::Semicolon], names, writer)
        }
        Statement::Return { value: None, .. } => {
            write_tokens(&[TokenKind::Return, TokenKind::Semicolon], names, writer)
        }
        Statement::Return {
            value: Some(value),
            ..
        } => {
            let end = [TokenKind::Semicolon];
            write_between(&[TokenKind::Return], 0, value, &end, names, writer)
        }
    }
}

/// Writes statements one after another.
#[cycle(statements)]
pub(crate) fn write_statements<W: Write>(
    statements: &[Statement],
    names: &[Name],
    writer: &mut W,
) -> Result<(), WriteFailed>
    ensures { (rest : List TokenKind) → Passes names.now (W.sink writer.old) result (W.sink writer.new) (print_stmts (then_stmts NoStmt (map stmt statements.now)) rest) rest }
{
    for statement in statements {
        write_statement(statement, names, writer)?;
    }
    Ok(())
}

/// Writes a word and a condition in round brackets.
fn write_test<W: Write>(
    word: TokenKind,
    condition: &Expression,
    names: &[Name],
    writer: &mut W,
) -> Result<(), WriteFailed>
    ensures { (rest : List TokenKind) → Passes names.now (W.sink writer.old) result (W.sink writer.new)
        (word ∷ kinds.OpenRound ∷ print_term 0 (term condition.now) (kinds.CloseRound ∷ rest)) rest }
{
    write_between(
        &[word, TokenKind::OpenRound],
        0,
        condition,
        &[TokenKind::CloseRound],
        names,
        writer,
    )
}

/// Writes a part of a `for`, if it is there, and what ends it.
fn write_part<W: Write>(
    part: &Option<Box<Statement>>,
    end: TokenKind,
    names: &[Name],
    writer: &mut W,
) -> Result<(), WriteFailed>
    ensures { (rest : List TokenKind) → Passes names.now (W.sink writer.old) result (W.sink writer.new) (print_part (part_of part.now) (end ∷ rest)) rest }
{
    match part {
        None => write_tokens(&[end], names, writer),
        Some(statement) => {
            write_simple(statement, names, writer)?;
            write_tokens(&[end], names, writer)
        }
    }
}

/// Writes the condition of a `for`, if it is there, and its semicolon.
fn write_condition<W: Write>(
    condition: &Option<Box<Expression>>,
    names: &[Name],
    writer: &mut W,
) -> Result<(), WriteFailed>
    ensures { (rest : List TokenKind) → Passes names.now (W.sink writer.old) result (W.sink writer.new) (print_condition (maybe_term condition.now) (kinds.Semicolon ∷ rest)) rest }
{
    match condition {
        None => write_tokens(&[TokenKind::Semicolon], names, writer),
        Some(condition) => {
            write_between(&[], 0, condition, &[TokenKind::Semicolon], names, writer)
        }
    }
}

/// Writes the word `for` with its three parts in round brackets.
fn write_loop_head<W: Write>(
    first: &Option<Box<Statement>>,
    condition: &Option<Box<Expression>>,
    third: &Option<Box<Statement>>,
    names: &[Name],
    writer: &mut W,
) -> Result<(), WriteFailed>
    ensures { (rest : List TokenKind) → Passes names.now (W.sink writer.old) result (W.sink writer.new)
        (kinds.For ∷ kinds.OpenRound ∷ print_part (part_of first.now) (kinds.Semicolon ∷ print_condition (maybe_term condition.now) (kinds.Semicolon ∷ print_part (part_of third.now) (kinds.CloseRound ∷ rest)))) rest }
{
    write_tokens(&[TokenKind::For, TokenKind::OpenRound], names, writer)?;
    write_part(first, TokenKind::Semicolon, names, writer)?;
    write_condition(condition, names, writer)?;
    write_part(third, TokenKind::CloseRound, names, writer)
}
