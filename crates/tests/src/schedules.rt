//! Schedule files.

use crate::printing::kept_output;
use fault_lines::{ReadFault, read, write};
use std::alloc::Global;

/// The second lines of schedule files, each behind the ticket that the first line tells: each form of a fault; runs
/// that are split and releases; the least element and the greatest count.
const FILES: &str = "\
4 fault 1 race item 0 load item 1 store buffer a byte 4 schedule 0*2 1*1
2 fault 3 divergence item 0 barrier 1 item 1 barrier 0 turns 2,3 schedule r0
2 fault 3 divergence item 0 barrier 0 turns 4 item 1 end schedule -
0 fault 5 unset item 0 load local 0 t byte 0 schedule -
18446744073709551615 fault 5 unset item 0 load local 0 t byte 0 schedule 0*1 0*1
0 fault 5 unset item 0 variable x schedule -
0 fault 4 bounds item 0 private t element -1 schedule -
0 fault 4 bounds item 0 umax buffer a element -9223372036854775808 schedule -
0 fault 8 budget item 0 schedule 0*18446744073709551615
";

/// Texts that are no schedule files.
const OTHERS: [&str; 8] = [
    "ticket 0\nfault 8 budget item 0 schedule 0*2 \n",
    "ticket 0\nfault 8 budget item 0 schedule \n",
    "ticket 0\nfault 8 budget item 0 schedule 0*0\n",
    "ticket 0\nfault 8 budget item 0 schedule -\n\n",
    "ticket 0\nfault 8 budget item 0 schedule -",
    "ticket 00\nfault 8 budget item 0 schedule -\n",
    "fault 8 budget item 0 schedule -\n",
    "",
];

/// The ticket of a schedule file, if its fault and its schedule are written again as this line.
fn ticket_of(alloc: Global, file: &[u8], line: &str) -> Result<Option<u64>, ReadFault> {
    let (ticket, fault, schedule) = read(alloc, file)?;
    let Some(output) = kept_output(alloc) else {
        return Err(ReadFault::OutOfMemory);
    };
    let mut output = output;
    let is_written = write(&fault, &schedule, &mut output).is_ok();
    let is_same = output.into_inner().as_slice() == line.as_bytes();
    Ok(if is_written & is_same {
        Some(ticket)
    } else {
        None
    })
}

/// Whether the file of a row is read with its ticket, and its second line is written again.
fn is_written_again(alloc: Global, row: &str) -> Option<bool> {
    let (ticket, line) = row.split_once(' ')?;
    let file = format!(in alloc; "ticket {ticket}\n{line}\n").ok()?;
    let line = format!(in alloc; "{line}\n").ok()?;
    let number = ticket.parse::<u64>().ok()?;
    let found = ticket_of(alloc, file.as_bytes(), line.as_str()).ok()?;
    Some(found == Some(number))
}

/// Shows that a file's ticket is read, and that its fault and its schedule are written again byte for byte.
#[test]
fn files(rt: HostRuntime) {
    let alloc = rt.alloc();
    for row in FILES.lines() {
        assert!(rt; is_written_again(alloc, row) == Some(true), "{row}");
    }
}

/// Shows that a text with a flaw is answered by `BadText`.
// All else is told to be none.
#[test]
fn others(rt: HostRuntime) {
    let alloc = rt.alloc();
    for text in OTHERS {
        let answer = ticket_of(alloc, text.as_bytes(), "");
        assert!(rt; matches!(answer, Err(ReadFault::BadText)), "{text}");
    }
}
