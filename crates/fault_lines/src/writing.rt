//! A fault and its schedule, written as the line of a reply.
#![tactic(auto)]

ghost use Rattle.std.specs.Prelude.{◌≡◌};
ghost use Rattle.std.specs.List.{flat_map};
ghost use Rattle.byte_io.specs.Pieces.{joined};
ghost use Rattle.byte_io.specs.Sink.{Puts};
ghost use Rattle.fault_lines.specs.Text.{clash_text, location_text, later_turn_text, turns_text, stop_text, run_text, later_run_text, schedule_text, fault_words, fault_item, byte_texts, element_texts, private_texts, variable_texts, conflict_texts, divergence_texts, fault_details, fault_text, fault_line};
ghost use Rattle.fault_lines.specs.Parts.{part_text};

use crate::kind_word;
use byte_io::pieces::{Piece, write_number, write_pieces, write_signed};
use byte_io::{Write, WriteFailed};
use clmodel::access::{AccessKind, Clash};
use clmodel::action::Stop;
use clmodel::fault::{Fault, Location};
use clmodel::schedule::{EventRun, Schedule};
use clmodel::text::Name;

/// A part of a fault's line.
#[derive(Clone, Copy)]
enum LinePart<'a> {
    Text(&'a str),
    Name(&'a [u8]),
    Number(u64),
    Number32(u32),
    Signed(i64),
    Clash(Clash),
    Kind(AccessKind),
    Location(&'a Location),
    Stop(&'a Stop),
    Schedule(&'a [EventRun]),
}

/// The words in front of the first item of a conflict, with the number of the fault.
fn clash_words(clash: Clash) -> &'static str
    ensures { result.now ≡ clash_text clash }
{
    match clash {
        Clash::Race => "fault 1 race item ",
        Clash::Order => "fault 2 order item ",
    }
}

/// Writes where a byte or an element lies: in a buffer, or in a local object of a group.
fn write_location<W: Write>(location: &Location, writer: &mut W) -> Result<(), WriteFailed>
    ensures { Puts (W.sink writer.old) result (W.sink writer.new) (location_text location.now) }
{
    match location {
        Location::Buffer(name) => write_pieces(
            &[Piece::Text("buffer "), Piece::Bytes(name.as_slice())],
            writer,
        ),
        Location::Local { group, name } => write_pieces(
            &[
                Piece::Text("local "),
                Piece::Number32(*group),
                Piece::Text(" "),
                Piece::Bytes(name.as_slice()),
            ],
            writer,
        ),
    }
}

/// Writes a comma and a turn, which isn't the first of its list.
fn write_later_turn<W: Write>(turn: u32, writer: &mut W) -> Result<(), WriteFailed>
    ensures { Puts (W.sink writer.old) result (W.sink writer.new) (later_turn_text turn) }
{
    write_pieces(&[Piece::Text(","), Piece::Number32(turn)], writer)
}

/// Writes the turns of a list behind its first one.
fn write_later_turns<W: Write>(turns: &[u32], writer: &mut W) -> Result<(), WriteFailed>
    ensures { Puts (W.sink writer.old) result (W.sink writer.new) (flat_map later_turn_text turns.now) }
{
    for turn in turns {
        write_later_turn(*turn, writer)?;
    }
    Ok(())
}

/// Writes the turns behind the site of a barrier, and nothing where there are none.
fn write_turns<W: Write>(turns: &[u32], writer: &mut W) -> Result<(), WriteFailed>
    ensures { Puts (W.sink writer.old) result (W.sink writer.new) (turns_text turns.now) }
{
    let Some((first, others)) = turns.split_first() else {
        return writer.write(b"");
    };
    write_pieces(&[Piece::Text(" turns "), Piece::Number32(*first)], writer)?;
    write_later_turns(others, writer)
}

/// Writes where an item waits, or that it has ended.
fn write_stop<W: Write>(stop: &Stop, writer: &mut W) -> Result<(), WriteFailed>
    ensures { Puts (W.sink writer.old) result (W.sink writer.new) (stop_text stop.now) }
{
    let Stop::At(instance) = stop else {
        return writer.write(b"end");
    };
    write_pieces(
        &[Piece::Text("barrier "), Piece::Number32(instance.site)],
        writer,
    )?;
    write_turns(instance.turns.as_slice(), writer)
}

/// Writes a run of events.
fn write_run<W: Write>(run: EventRun, writer: &mut W) -> Result<(), WriteFailed>
    ensures { Puts (W.sink writer.old) result (W.sink writer.new) (run_text run) }
{
    match run {
        EventRun::Item { item, count } => write_pieces(
            &[
                Piece::Number32(item),
                Piece::Text("*"),
                Piece::Number(count),
            ],
            writer,
        ),
        EventRun::Release { group } => write_pieces(
            &[Piece::Text("r"), Piece::Number32(group)],
            writer,
        ),
    }
}

/// Writes a space and a run of events, which isn't the first one of its schedule.
fn write_later_run<W: Write>(run: EventRun, writer: &mut W) -> Result<(), WriteFailed>
    ensures { Puts (W.sink writer.old) result (W.sink writer.new) (later_run_text run) }
{
    writer.write(b" ")?;
    write_run(run, writer)
}

/// Writes the runs of a schedule behind its first one.
fn write_later_runs<W: Write>(runs: &[EventRun], writer: &mut W) -> Result<(), WriteFailed>
    ensures { Puts (W.sink writer.old) result (W.sink writer.new) (flat_map later_run_text runs.now) }
{
    for run in runs {
        write_later_run(*run, writer)?;
    }
    Ok(())
}

/// Writes the runs of a schedule with a space between two, or `-` where there are none. Where it fails a beginning of
/// them is written.
pub fn write_schedule<W: Write>(runs: &[EventRun], writer: &mut W) -> Result<(), WriteFailed>
    ensures { Puts (W.sink writer.old) result (W.sink writer.new) (schedule_text runs.now) }
{
    let Some((first, others)) = runs.split_first() else {
        return writer.write(b"-");
    };
    write_run(*first, writer)?;
    write_later_runs(others, writer)
}

/// Writes a part of a line, with its numbers in decimal.
fn write_part<W: Write>(part: &LinePart<'_>, writer: &mut W) -> Result<(), WriteFailed>
    ensures { Puts (W.sink writer.old) result (W.sink writer.new) (part_text part.now) }
{
    match part {
        LinePart::Text(text) => writer.write(text.as_bytes()),
        LinePart::Name(name) => writer.write(name),
        LinePart::Number(number) => write_number(*number, writer),
        LinePart::Number32(number) => write_number(u64::from(*number), writer),
        LinePart::Signed(number) => write_signed(i128::from(*number), writer),
        LinePart::Clash(clash) => writer.write(clash_words(*clash).as_bytes()),
        LinePart::Kind(kind) => writer.write(kind_word(*kind).as_bytes()),
        LinePart::Location(location) => write_location(location, writer),
        LinePart::Stop(stop) => write_stop(stop, writer),
        LinePart::Schedule(runs) => write_schedule(runs, writer),
    }
}

/// Writes the parts of a line in their order, with nothing between them.
fn write_parts<W: Write>(parts: &[LinePart<'_>], writer: &mut W) -> Result<(), WriteFailed>
    ensures { Puts (W.sink writer.old) result (W.sink writer.new) (flat_map part_text parts.now) }
{
    for part in parts {
        write_part(part, writer)?;
    }
    Ok(())
}

/// The words in front of a fault's item.
fn words_of(fault: &Fault) -> &'static str
    ensures { result.now ≡ fault_words fault.now }
{
    match fault {
        Fault::Conflict { clash, .. } => clash_words(*clash),
        Fault::Divergence { .. } => "fault 3 divergence item ",
        Fault::Bounds { .. } | Fault::PrivateBounds { .. } => "fault 4 bounds item ",
        Fault::Unset { .. } | Fault::UnsetVariable { .. } | Fault::UnsetElement { .. } => {
            "fault 5 unset item "
        }
        Fault::DivideByZero { .. } => "fault 6 divide_by_zero item ",
        Fault::DivideOverflow { .. } => "fault 7 divide_overflow item ",
        Fault::Budget { .. } => "fault 8 budget item ",
    }
}

/// A fault's item, the first one where it has two.
fn item_of(fault: &Fault) -> u32
    ensures { result ≡ fault_item fault.now }
{
    match fault {
        Fault::Conflict { item, .. }
        | Fault::Divergence { item, .. }
        | Fault::Bounds { item, .. }
        | Fault::PrivateBounds { item, .. }
        | Fault::Unset { item, .. }
        | Fault::UnsetVariable { item, .. }
        | Fault::UnsetElement { item, .. }
        | Fault::DivideByZero { item }
        | Fault::DivideOverflow { item }
        | Fault::Budget { item } => *item,
    }
}

/// Writes two accesses behind the item of the earlier one; the later one is given by its item and its kind.
fn write_conflict<W: Write>(
    kind: AccessKind,
    other: (u32, AccessKind),
    location: &Location,
    byte: u64,
    writer: &mut W,
) -> Result<(), WriteFailed>
    ensures { Puts (W.sink writer.old) result (W.sink writer.new) (joined (conflict_texts kind other.0 other.1 location.now byte)) }
{
    write_parts(
        &[
            LinePart::Text(" "),
            LinePart::Kind(kind),
            LinePart::Text(" item "),
            LinePart::Number32(other.0),
            LinePart::Text(" "),
            LinePart::Kind(other.1),
            LinePart::Text(" "),
            LinePart::Location(location),
            LinePart::Text(" byte "),
            LinePart::Number(byte),
        ],
        writer,
    )
}

/// Writes two stops behind the item of the first.
fn write_divergence<'a, W: Write>(
    stop: &'a Stop,
    other_item: u32,
    other_stop: &'a Stop,
    writer: &mut W,
) -> Result<(), WriteFailed>
    ensures { Puts (W.sink writer.old) result (W.sink writer.new) (joined (divergence_texts stop.now other_item other_stop.now)) }
{
    write_parts(
        &[
            LinePart::Text(" "),
            LinePart::Stop(stop),
            LinePart::Text(" item "),
            LinePart::Number32(other_item),
            LinePart::Text(" "),
            LinePart::Stop(other_stop),
        ],
        writer,
    )
}

/// Writes an access of an element behind its item.
fn write_element_access<W: Write>(
    kind: AccessKind,
    location: &Location,
    element: i64,
    writer: &mut W,
) -> Result<(), WriteFailed>
    ensures { Puts (W.sink writer.old) result (W.sink writer.new) (joined (element_texts kind location.now element)) }
{
    write_parts(
        &[
            LinePart::Text(" "),
            LinePart::Kind(kind),
            LinePart::Text(" "),
            LinePart::Location(location),
            LinePart::Text(" element "),
            LinePart::Signed(element),
        ],
        writer,
    )
}

/// Writes an access of a byte behind its item.
fn write_byte_access<W: Write>(
    kind: AccessKind,
    location: &Location,
    byte: u64,
    writer: &mut W,
) -> Result<(), WriteFailed>
    ensures { Puts (W.sink writer.old) result (W.sink writer.new) (joined (byte_texts kind location.now byte)) }
{
    write_parts(
        &[
            LinePart::Text(" "),
            LinePart::Kind(kind),
            LinePart::Text(" "),
            LinePart::Location(location),
            LinePart::Text(" byte "),
            LinePart::Number(byte),
        ],
        writer,
    )
}

/// Writes an element of a private array behind the item.
fn write_private_element<W: Write>(
    array: &Name,
    element: i64,
    writer: &mut W,
) -> Result<(), WriteFailed>
    ensures { Puts (W.sink writer.old) result (W.sink writer.new) (joined (private_texts array.now element)) }
{
    write_parts(
        &[
            LinePart::Text(" private "),
            LinePart::Name(array.as_slice()),
            LinePart::Text(" element "),
            LinePart::Signed(element),
        ],
        writer,
    )
}

/// Writes a variable behind its item.
fn write_variable<W: Write>(variable: &Name, writer: &mut W) -> Result<(), WriteFailed>
    ensures { Puts (W.sink writer.old) result (W.sink writer.new) (joined (variable_texts variable.now)) }
{
    write_parts(
        &[
            LinePart::Text(" variable "),
            LinePart::Name(variable.as_slice()),
        ],
        writer,
    )
}

/// Writes what a fault tells behind its item.
fn write_details<W: Write>(fault: &Fault, writer: &mut W) -> Result<(), WriteFailed>
    ensures { Puts (W.sink writer.old) result (W.sink writer.new) (joined (fault_details fault.now)) }
{
    match fault {
        Fault::Conflict {
            kind,
            other_item,
            other_kind,
            location,
            byte,
            ..
        } => write_conflict(*kind, (*other_item, *other_kind), location, *byte, writer),
        Fault::Divergence {
            stop,
            other_item,
            other_stop,
            ..
        } => write_divergence(stop, *other_item, other_stop, writer),
        Fault::Bounds {
            kind,
            location,
            element,
            ..
        } => write_element_access(*kind, location, *element, writer),
        Fault::Unset {
            kind,
            location,
            byte,
            ..
        } => write_byte_access(*kind, location, *byte, writer),
        Fault::PrivateBounds { array, element, .. } | Fault::UnsetElement { array, element, .. } =>
            write_private_element(array, *element, writer),
        Fault::UnsetVariable { variable, .. } => write_variable(variable, writer),
        Fault::DivideByZero { .. } | Fault::DivideOverflow { .. } | Fault::Budget { .. } => Ok(()),
    }
}

/// Writes a fault without its schedule. Where it fails a beginning of it is written.
pub fn write_fault<W: Write>(fault: &Fault, writer: &mut W) -> Result<(), WriteFailed>
    ensures { Puts (W.sink writer.old) result (W.sink writer.new) (fault_text fault.now) }
{
    write_parts(
        &[
            LinePart::Text(words_of(fault)),
            LinePart::Number32(item_of(fault)),
        ],
        writer,
    )?;
    write_details(fault, writer)
}

/// Writes a fault and the schedule after which a launch shows it, as a line with its line feed. Where it fails a
/// beginning of the line is written.
pub fn write<W: Write>(
    fault: &Fault,
    schedule: &Schedule,
    writer: &mut W,
) -> Result<(), WriteFailed>
    ensures { Puts (W.sink writer.old) result (W.sink writer.new) (fault_line fault.now schedule.now) }
{
    write_fault(fault, writer)?;
    write_parts(
        &[
            LinePart::Text(" schedule "),
            LinePart::Schedule(schedule.as_slice()),
            LinePart::Text("\n"),
        ],
        writer,
    )
}
