//! What is told of a script, as text.
#![tactic(auto)]

ghost use Rattle.std.specs.Prelude.{◌≡◌, ◌++◌, [], decimal, string_bytes, IfOk, OnOk};
ghost use Rattle.simfile.specs.Lines.{line};
ghost use Rattle.wide_text.specs.Told.{AreAsides, AreReplies, IsText, bytes_text, lines_text, reads_text, rest_text, verdict_text, whole_text};

use crate::asides::{asides_of, no_asides};
use crate::data::{WideLaunch, WideReport};
use crate::gathering::reply_line;
use device::Reply;
use std::alloc::{AllocError, Global};
use std::fmt::Write;

/// Adds the numbers behind the first, each behind a comma.
fn push_rest(numbers: &[usize], out: &mut String) -> Result<(), AllocError>
    ensures { OnOk result (string_bytes out.new ≡ string_bytes out.old ++ rest_text numbers.now) }
{
    for number in numbers {
        write!(out, ", {number}")?;
    }
    Ok(())
}

/// Adds a word and a number behind it.
fn push_first(word: &str, number: usize, out: &mut String) -> Result<(), AllocError>
    ensures { OnOk result (string_bytes out.new ≡ string_bytes out.old ++ (word.now ++ decimal number)) }
{
    write!(out, "{word}{number}")
}

/// Adds lines of the script by their numbers.
fn push_lines(lines: &[usize], out: &mut String) -> Result<(), AllocError>
    ensures { OnOk result (string_bytes out.new ≡ string_bytes out.old ++ lines_text lines.now) }
{
    match lines {
        [] => Ok(()),
        [line] => push_first("line ", *line, out),
        [line, rest @ ..] => {
            push_first("lines ", *line, out)?;
            push_rest(rest, out)
        }
    }
}

/// Adds for which bytes replies hold.
fn push_bytes(free: &[usize], out: &mut String) -> Result<(), AllocError>
    ensures { OnOk result (string_bytes out.new ≡ string_bytes out.old ++ bytes_text free.now) }
{
    if free.is_empty() {
        return out.push_str("these bytes alone");
    }
    out.push_str("all bytes of ")?;
    push_lines(free, out)
}

/// Adds what may differ then.
fn push_reads(reads: &[usize], out: &mut String) -> Result<(), AllocError>
    ensures { OnOk result (string_bytes out.new ≡ string_bytes out.old ++ reads_text reads.now) }
{
    if reads.is_empty() {
        return Ok(());
    }
    out.push_str("; the data of ")?;
    push_lines(reads, out)?;
    out.push_str(" may differ")?;
    Ok(())
}

/// What holds, in words.
fn verdict_words(clean: bool) -> &'static str
    ensures { result.now ≡ verdict_text clean }
{
    if clean {
        "clean for "
    } else {
        "the same replies for "
    }
}

/// For which bytes of its writes and fills a script is clean, or has the replies that it has. An error is out of
/// memory.
pub(crate) fn whole_text(
    alloc: Global,
    clean: bool,
    free: &[usize],
    reads: &[usize],
) -> Result<String, AllocError>
    ensures { IfOk result (λ text. string_bytes text ≡ whole_text clean free.now reads.now) }
{
    let mut out = String::from_str(alloc, verdict_words(clean))?;
    push_bytes(free, &mut out)?;
    push_reads(reads, &mut out)?;
    Ok(out)
}

/// The lines behind the reply to a command: of the first of these launches, if it is that of this number.
fn beside(alloc: Global, launches: &[WideLaunch], number: usize) -> Result<Vec<u8>, AllocError>
    ensures { IfOk result (λ text. AreAsides text.items) }
{
    match launches.first() {
        Some(launch) if launch.command == number => asides_of(alloc, launch),
        _ => Ok(no_asides(alloc)),
    }
}

/// These launches but the first, if it is that of this number.
fn passed(launches: &[WideLaunch], number: usize) -> &[WideLaunch] {
    match launches.split_first() {
        Some((launch, rest)) if launch.command == number => rest,
        _ => launches,
    }
}

/// Adds the line of a reply, with lines beside it.
fn push_reply(
    alloc: Global,
    reply: &Reply,
    beside: &[u8],
    out: &mut Vec<u8>,
) -> Result<(), AllocError>
    ensures { OnOk result (out.new.items ≡ out.old.items ++ (line reply.now ++ beside.now)) }
{
    let line = reply_line(alloc, reply)?;
    out.extend_from_slice(line.as_slice())?;
    out.extend_from_slice(beside)?;
    Ok(())
}

/// The lines of the replies, with those of the launches behind theirs. An error is out of memory.
fn replies_text(
    alloc: Global,
    replies: &[Reply],
    launches: &[WideLaunch],
) -> Result<Vec<u8>, AllocError>
    ensures { IfOk result (λ text. AreReplies replies.now text.items) }
{
    let mut out = Vec::new(alloc);
    let mut left = launches;
    for number in 0..replies.len() {
        let text = beside(alloc, left, number)?;
        push_reply(alloc, &replies[number], text.as_slice(), &mut out)?;
        left = passed(left, number);
    }
    Ok(out)
}

/// A script's replies with what is told of them, as text: the line of each reply, and behind that of a launch lines
/// that begin with two blanks; and a last line. The launches of the report are in the order of their commands. An error
/// is out of memory.
pub fn text_of(alloc: Global, replies: &[Reply], report: &WideReport) -> Result<Vec<u8>, AllocError>
    ensures { IfOk result (λ text. IsText replies.now report.now.clean report.now.free.items report.now.reads.items text.items) }
{
    let mut out = replies_text(alloc, replies, report.launches.as_slice())?;
    let free = report.free.as_slice();
    let reads = report.reads.as_slice();
    let last = whole_text(alloc, report.clean, free, reads)?;
    out.extend_from_slice(last.as_bytes())?;
    out.push(b'\n')?;
    Ok(out)
}
