//! `run` over a reader that fails at its n-th read, and over a writer that fails at its n-th write or flush, for each
//! n.

use crate::scripts::{
    ORDERS, ORDERS_REPLIES, RACE, RACE_REPLIES, REFUSED, REFUSED_REPLIES, SUM, SUM_REPLIES,
};
use byte_io::{Input, Output};
use cli::session::RunEnd;
use cli::{Reader, RunFault, run};
use command_line::Options;
use std::alloc::Global;
use std::io;
use std::io::{BufWriter, Error, ErrorKind};
use std::marker::Sync;
use std::sync::Wait;
use std::test::Fail;
use std::thread::Threads;

/// Moves one byte at each call, and fails where no calls are left.
#[derive(Drop)]
struct Failing {
    bytes: Vec<u8>,
    calls: usize,
}

impl Failing {
    /// One call less.
    fn call(&mut self) -> io::Result<()> {
        if self.calls == 0 {
            return Err(Error::from(ErrorKind::Other));
        }
        self.calls -= 1;
        Ok(())
    }
}

impl io::Write for Failing {
    fn write(&mut self, buffer: &[u8]) -> io::Result<usize> {
        self.call()?;
        let Some(byte) = buffer.first() else {
            return Ok(0);
        };
        self.bytes.push(*byte)?;
        Ok(1)
    }

    fn flush(&mut self) -> io::Result<()> {
        self.call()
    }
}

impl io::Read for Failing {
    // It gives its last byte first.
    fn read(&mut self, buffer: &mut [u8]) -> io::Result<usize> {
        self.call()?;
        if buffer.is_empty() {
            return Ok(0);
        }
        let Some(byte) = self.bytes.pop() else {
            return Ok(0);
        };
        buffer[0] = byte;
        Ok(1)
    }
}

/// A script, the text of its replies, how many bytes of that stand in front of the reply to its launch, where it has
/// one, and what the replies come to.
struct Row {
    script: &'static str,
    replies: &'static str,
    in_front: Option<usize>,
    end: RunEnd,
}

/// A script that ends well, one whose launch is ordered, which ends well too, one whose launch races, and one with
/// commands that are refused.
const ROWS: [Row; 4] = [
    Row {
        script: SUM,
        replies: SUM_REPLIES,
        in_front: Some(30),
        end: RunEnd {
            faulted: false,
            refused: false,
        },
    },
    Row {
        script: ORDERS,
        replies: ORDERS_REPLIES,
        in_front: Some(12),
        end: RunEnd {
            faulted: false,
            refused: false,
        },
    },
    Row {
        script: RACE,
        replies: RACE_REPLIES,
        in_front: Some(12),
        end: RunEnd {
            faulted: true,
            refused: false,
        },
    },
    Row {
        script: REFUSED,
        replies: REFUSED_REPLIES,
        in_front: None,
        end: RunEnd {
            faulted: false,
            refused: true,
        },
    },
];

/// Runs a script over a reader and a writer that have so many calls. The answer, and what came out.
fn run_over<W: Threads + Wait + Sync>(
    rt: &W,
    alloc: Global,
    script: &str,
    reads: usize,
    writes: usize,
) -> Result<(Result<RunEnd, RunFault>, Vec<u8>), Fail> {
    let mut bytes = script.as_bytes().to_vec(alloc)?;
    bytes.reverse();
    let mut reader = Input::new(Failing {
        bytes,
        calls: reads,
    });
    let taken = Failing {
        bytes: Vec::new(alloc),
        calls: writes,
    };
    let mut writer = Output::new(BufWriter::with_capacity(alloc, 4, taken)?);
    let answer = run(rt, alloc, &mut reader, &mut writer, Options::default());
    Ok((answer, writer.into_inner().bytes))
}

/// Whether a run with so many reads answers as it must: a script takes a read for each byte, and one at its end.
fn reads_well<W: Threads + Wait + Sync>(
    rt: &W,
    alloc: Global,
    row: &Row,
    reads: usize,
) -> Result<bool, Fail> {
    let (answer, written) = run_over(rt, alloc, row.script, reads, usize::MAX)?;
    if reads > row.script.len() {
        return Ok(answer == Ok(row.end) && written.as_slice() == row.replies.as_bytes());
    }
    Ok(answer == Err(RunFault::Read(Reader::First)) && written.is_empty())
}

/// How many bytes come out of so many writes and flushes: a write for each byte, a flush in front of the launch, since
/// that may take long, and one at the end.
fn bytes_out(row: &Row, calls: usize) -> usize {
    match row.in_front {
        Some(bytes) if calls > bytes => calls.saturating_sub(1),
        Some(_) | None => calls,
    }
}

/// Whether a run with so many writes and flushes answers as it must.
fn writes_well<W: Threads + Wait + Sync>(
    rt: &W,
    alloc: Global,
    row: &Row,
    writes: usize,
) -> Result<bool, Fail> {
    let (answer, written) = run_over(rt, alloc, row.script, usize::MAX, writes)?;
    let (replies, bytes) = (row.replies.as_bytes(), bytes_out(row, writes));
    if bytes > replies.len() {
        return Ok(answer == Ok(row.end) && written.as_slice() == replies);
    }
    Ok(answer == Err(RunFault::Write) && written.len() == bytes && replies.starts_with(&written))
}

/// The lowest count of reads with which a run doesn't answer as it must, from none to one more than it takes.
fn first_bad_read<W: Threads + Wait + Sync>(
    rt: &W,
    alloc: Global,
    row: &Row,
) -> Result<Option<usize>, Fail> {
    for reads in 0..row.script.len().saturating_add(3) {
        if !reads_well(rt, alloc, row, reads)? {
            return Ok(Some(reads));
        }
    }
    Ok(None)
}

/// The lowest count of writes and flushes with which a run doesn't answer as it must, from none to one more than it
/// takes.
fn first_bad_write<W: Threads + Wait + Sync>(
    rt: &W,
    alloc: Global,
    row: &Row,
) -> Result<Option<usize>, Fail> {
    for writes in 0..row.replies.len().saturating_add(4) {
        if !writes_well(rt, alloc, row, writes)? {
            return Ok(Some(writes));
        }
    }
    Ok(None)
}

/// Whichever of its reads, writes and flushes is the first to fail, a run answers with that fault.
#[test]
fn each_call_fails(rt: HostRuntime) -> Result<(), Fail> {
    for row in &ROWS {
        assert_eq!(rt;
            first_bad_read(&rt, rt.alloc(), row)?,
            None,
            "{}",
            row.script
        );
        assert_eq!(rt;
            first_bad_write(&rt, rt.alloc(), row)?,
            None,
            "{}",
            row.script
        );
    }
    Ok(())
}
