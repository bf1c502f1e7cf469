//! Code as text.
#![tactic(auto)]

ghost use Rattle.std.specs.Prelude.{◌≡◌, ◌+◌, ◌-◌, ◌<◌, ◌^◌, Some};
ghost use Rattle.byte_io.specs.Sink.{Puts};
ghost use Rattle.code_text.specs.declared.dumping.OperandText.TheVariants as part;
ghost use Rattle.code_text.specs.Parts.{part_text, behind, parts_text};
ghost use Rattle.code_text.specs.Text.{listed, names_in, line_of, text_of, variable_type};

use crate::words::{fences_word, instruction_word, space_word};
use byte_io::pieces::{Piece, write_number, write_pieces};
use byte_io::{Write, WriteFailed};
use clmodel::action::Fences;
use clmodel::tree::VariableType;
use clnum::{IntType, Value};
use regcode::{Code, FetchOperands, Instruction};

/// Why code was not dumped.
#[derive(Clone, Copy, Debug, PartialEq, Eq)]
pub enum DumpFault {
    /// 1: the writer failed
    Write,
}

/// What an instruction names.
#[derive(Clone, Copy)]
enum OperandText {
    Register(u32),
    /// The element that the pointer in a register points to
    Element(u32),
    /// The element of a private array at the index in a register
    Private { array: u32, index: u32 },
    Number(u64),
    Value(Value),
    Type(IntType),
    Variable(VariableType),
    Fences(Fences),
}

/// What an instruction names, one after another.
type Parts = (
    Option<OperandText>,
    Option<OperandText>,
    Option<OperandText>,
    Option<OperandText>,
);

/// What the instruction at a place names. Jumps name the place that they lead to.
fn parts(place: usize, instruction: &Instruction) -> Parts
    requires { place < 2 ^ 63 }
    ensures { parts_text result.0 result.1 result.2 result.3 ≡ listed (names_in place instruction.now) }
{
    match *instruction {
        Instruction::Unset { to } | Instruction::Dimensions { to } => (
            register(to),
            None,
            None,
            None,
        ),
        Instruction::Constant { to, value } => (
            register(to),
            Some(OperandText::Value(value)),
            None,
            None,
        ),
        Instruction::Move { to, from, name } => (register(to), register(from), number(name), None),
        Instruction::AssignConversion { to, from, kind } => {
            (
                register(to),
                register(from),
                Some(OperandText::Variable(kind)),
                None,
            )
        }
        Instruction::Convert { to, from, kind }
        | Instruction::UsualConversion {
            to,
            from,
            other: kind,
        } => {
            (
                register(to),
                register(from),
                Some(OperandText::Type(kind)),
                None,
            )
        }
        Instruction::Unary { to, operand, .. } => (register(to), register(operand), None, None),
        Instruction::Binary {
            to,
            left,
            right,
            ..
        } => { (register(to), register(left), register(right), None) }
        Instruction::Builtin {
            to,
            first,
            second,
            ..
        } => {
            (
                register(to),
                register(first),
                second.map(OperandText::Register),
                None,
            )
        }
        Instruction::Query { to, dimension, .. } => (register(to), register(dimension), None, None),
        Instruction::Argument {
            to,
            number: place,
            kind,
        } => {
            (
                register(to),
                number(place),
                Some(OperandText::Variable(kind)),
                None,
            )
        }
        Instruction::Local {
            to,
            number: object,
            element,
        } => {
            (
                register(to),
                number(object),
                Some(OperandText::Type(element)),
                None,
            )
        }
        Instruction::UnsetArray { array, length } => (number(array), number(length), None, None),
        Instruction::PrivateLoad {
            to,
            array,
            index,
            element,
            ..
        } => {
            (
                register(to),
                Some(OperandText::Private { array, index }),
                Some(OperandText::Type(element)),
                None,
            )
        }
        Instruction::PrivateStore {
            array,
            index,
            value,
            element,
            ..
        } => {
            (
                Some(OperandText::Private { array, index }),
                register(value),
                Some(OperandText::Type(element)),
                None,
            )
        }
        Instruction::MovePointer { to, from } => (register(to), register(from), None, None),
        Instruction::Offset { to, pointer, index } => {
            (register(to), register(pointer), register(index), None)
        }
        Instruction::Load { to, pointer } => (
            register(to),
            Some(OperandText::Element(pointer)),
            None,
            None,
        ),
        Instruction::Store { pointer, value } => {
            (
                Some(OperandText::Element(pointer)),
                register(value),
                None,
                None,
            )
        }
        Instruction::Update { pointer, value, .. } => {
            (
                Some(OperandText::Element(pointer)),
                value.map(OperandText::Register),
                None,
                None,
            )
        }
        Instruction::Fetch {
            to,
            pointer,
            operands,
            ..
        } => {
            let pointed = Some(OperandText::Element(pointer));
            match operands {
                FetchOperands::Alone => (register(to), pointed, None, None),
                FetchOperands::Number(value) => (register(to), pointed, register(value), None),
                FetchOperands::Pair { expected, value } => {
                    (register(to), pointed, register(expected), register(value))
                }
            }
        }
        Instruction::Barrier {
            site,
            depth,
            fences,
        } => {
            (
                number(site),
                number(depth),
                Some(OperandText::Fences(fences)),
                None,
            )
        }
        Instruction::Enter { depth } | Instruction::Turn { depth } => (
            number(depth),
            None,
            None,
            None,
        ),
        Instruction::Jump { by } => (onward(place, by), None, None, None),
        Instruction::JumpIfZero { test, by } => (register(test), onward(place, by), None, None),
        Instruction::Back { by } => (back(place, by), None, None, None),
        Instruction::End => (None, None, None, None),
    }
}

/// A register, by its number in the table of registers.
fn register(number: u32) -> Option<OperandText>
    ensures { result ≡ Some (part.Register number) }
{
    Some(OperandText::Register(number))
}

/// A number that an instruction carries, in decimal.
fn number(number: u32) -> Option<OperandText>
    ensures { result ≡ Some (part.Number number) }
{
    Some(OperandText::Number(u64::from(number)))
}

/// The place past n further instructions.
fn onward(place: usize, by: u32) -> Option<OperandText>
    requires { place < 2 ^ 63 }
    ensures { result ≡ Some (part.Number (place + 1 + by)) }
{
    Some(OperandText::Number(place as u64 + 1 + u64::from(by)))
}

/// The place n instructions back.
fn back(place: usize, by: u32) -> Option<OperandText>
    ensures { result ≡ Some (part.Number (place - by)) }
{
    Some(OperandText::Number((place as u64).saturating_sub(u64::from(by))))
}

/// Writes a variable's type.
fn write_variable<W: Write>(kind: VariableType, writer: &mut W) -> Result<(), WriteFailed>
    ensures { Puts (W.sink writer.old) result (W.sink writer.new) (variable_type kind) }
{
    match kind {
        VariableType::Integer(kind) => writer.write(kind.name().as_bytes()),
        VariableType::Pointer(pointer) => {
            let constant = if pointer.is_const { "const " } else { "" };
            write_pieces(
                &[
                    Piece::Text(space_word(pointer.space)),
                    Piece::Text(constant),
                    Piece::Text(pointer.element.name()),
                    Piece::Text(" *"),
                ],
                writer,
            )
        }
    }
}

/// Writes what an instruction names.
fn write_part<W: Write>(part: OperandText, writer: &mut W) -> Result<(), WriteFailed>
    ensures { Puts (W.sink writer.old) result (W.sink writer.new) (part_text part) }
{
    match part {
        OperandText::Register(number) => write_pieces(
            &[Piece::Text("r"), Piece::Number32(number)],
            writer,
        ),
        OperandText::Element(number) => write_pieces(
            &[Piece::Text("[r"), Piece::Number32(number), Piece::Text("]")],
            writer,
        ),
        OperandText::Private { array, index } => write_pieces(
            &[
                Piece::Text("a"),
                Piece::Number32(array),
                Piece::Text("[r"),
                Piece::Number32(index),
                Piece::Text("]"),
            ],
            writer,
        ),
        OperandText::Number(number) => write_number(number, writer),
        OperandText::Value(value) => write_pieces(
            &[
                Piece::Text(value.kind().name()),
                Piece::Text(" "),
                Piece::Signed(value.number()),
            ],
            writer,
        ),
        OperandText::Type(kind) => writer.write(kind.name().as_bytes()),
        OperandText::Variable(kind) => write_variable(kind, writer),
        OperandText::Fences(fences) => writer.write(fences_word(fences).as_bytes()),
    }
}

/// Writes what an instruction names, if it names something here, behind what stands in front of it.
fn write_behind<W: Write>(
    front: &str,
    part: Option<OperandText>,
    writer: &mut W,
) -> Result<(), WriteFailed>
    ensures { Puts (W.sink writer.old) result (W.sink writer.new) (behind front.now part) }
{
    let Some(part) = part else {
        return Ok(());
    };
    writer.write(front.as_bytes())?;
    write_part(part, writer)
}

/// Writes the line of the instruction at a place.
fn write_line<W: Write>(
    place: usize,
    instruction: &Instruction,
    writer: &mut W,
) -> Result<(), WriteFailed>
    requires { place < 2 ^ 63 }
    ensures { Puts (W.sink writer.old) result (W.sink writer.new) (line_of place instruction.now) }
{
    write_pieces(
        &[
            Piece::Number(place as u64),
            Piece::Text(" "),
            Piece::Text(instruction_word(instruction)),
        ],
        writer,
    )?;
    let (first, second, third, fourth) = parts(place, instruction);
    write_behind(" ", first, writer)?;
    write_behind(", ", second, writer)?;
    write_behind(", ", third, writer)?;
    write_behind(", ", fourth, writer)?;
    writer.write(b"\n")
}

/// Writes one instruction after another.
fn write_lines<W: Write>(instructions: &[Instruction], writer: &mut W) -> Result<(), WriteFailed>
    ensures { Puts (W.sink writer.old) result (W.sink writer.new) (text_of instructions.now) }
{
    for (place, instruction) in instructions.iter().enumerate() {
        write_line(place, instruction, writer)?;
    }
    Ok(())
}

/// Writes code as text, a line for each instruction: its place, its name, and what it names, as `12 load r37, [r44]`.
/// Registers stand behind an `r`, in square brackets where what they point to is meant. The element of a private array
/// is its number behind an `a` with the register of its index, as `a0[r5]`. A jump names the place that it leads to; a
/// variable is named by its name's place in the tree's table of names. Takes no memory.
///
/// `Write` comes only where the writer fails; then a beginning of the text was written.
pub fn dump<W: Write>(code: &Code, writer: &mut W) -> Result<(), DumpFault>
    ensures { Puts (W.sink writer.old) result (W.sink writer.new) (text_of code.now.instructions) }
{
    match write_lines(code.instructions(), writer) {
        Ok(()) => Ok(()),
        Err(WriteFailed) => Err(DumpFault::Write),
    }
}
