//! A whole run: a script in, its replies out.
#![tactic(auto)]

ghost use Rattle.std.specs.Prelude.{◌≡◌, ◌≤◌, IfOk, IfErr, OnErr, [], length};
ghost use Rattle.device.specs.Machine.{machine_of, opening};
ghost use Rattle.host_commands.specs.declared.command.Reply.{Reply as ReplyOf};
ghost use Rattle.host_queue.specs.declared.view.Request.TheVariants.{Answered as AnsweredBy};
ghost use Rattle.byte_io.specs.Sink.{Puts, Wrote, Stopped};
ghost use Rattle.showing.specs.Shown.{next_line};
ghost use Rattle.cli.specs.Session.{one_end, Answered, Broken, Unanswered, Ran, Failed, status_of};
ghost use Rattle.host_queue.specs.Seats.{answered_count};
ghost use Rattle.limits.specs.declared.Configuration.{Configuration as ConfigurationOf};

use crate::only_client::OnlyClient;
use crate::reading::commands_of;
use crate::watching::Watch;
use byte_io::{Read, Write, WriteFailed};
use command_line::options::Options;
use device::OpenGate;
use host_commands::command::{Command, Reply};
use host_queue::Request;
use showing::{Shown, behind, write_next};
use simfile::faults::RunFault;
use std::alloc::Global;
use std::marker::Sync;
use std::sync::Wait;
use std::thread::Threads;

/// What the replies of a run come to.
#[derive(Clone, Copy, Debug, PartialEq, Eq)]
pub struct RunEnd {
    /// A launch ended in a fault
    pub faulted: bool,
    /// A command was refused
    pub refused: bool,
}

/// What the replies come to with one more.
pub fn one_end(reply: &Reply, end: RunEnd) -> RunEnd
    ensures { result ≡ one_end reply.now end }
{
    match reply {
        Reply::Fault { .. } => RunEnd {
            faulted: true,
            ..end
        },
        Reply::Refused(_) => RunEnd {
            refused: true,
            ..end
        },
        Reply::Done | Reply::Data(_) | Reply::Clean | Reply::Ordered => end,
    }
}

/// Writes a reply's line, as the first of these shows it. Answers what the replies come to with this one.
fn write_answer<W: Write>(
    reply: &Reply,
    shows: &[Shown],
    end: RunEnd,
    writer: &mut W,
) -> Result<RunEnd, WriteFailed>
    ensures ok { IfOk result (λ next. Wrote (W.sink writer.old) (W.sink writer.new) (next_line shows.now reply.now) × (next ≡ one_end reply.now end)) }
    ensures err { OnErr result (Stopped (W.sink writer.old) (W.sink writer.new) (next_line shows.now reply.now)) }
{
    write_next(reply, shows, writer)?;
    Ok(one_end(reply, end))
}

/// Writes the line of the reply in a box, as the first of these shows it.
fn write_answered<W: Write>(
    request: &Request<Command, Reply>,
    shows: &[Shown],
    end: RunEnd,
    writer: &mut W,
) -> Result<RunEnd, WriteFailed>
    requires answered { (reply : ReplyOf) × (request.now ≡ AnsweredBy reply) }
    ensures ok { (reply : ReplyOf) → request.now ≡ AnsweredBy reply → IfOk result (λ next. Wrote (W.sink writer.old) (W.sink writer.new) (next_line shows.now reply) × (next ≡ one_end reply end)) }
    ensures err { (reply : ReplyOf) → request.now ≡ AnsweredBy reply → OnErr result (Stopped (W.sink writer.old) (W.sink writer.new) (next_line shows.now reply)) }
{
    match request {
        Request::Answered(reply) => write_answer(reply, shows, end, writer),
        Request::Asked(_) => unreachable!(),
    }
}

/// Lets go of the lines so far, where the next command is a launch: that may take long.
fn release<W: Write>(command: &Command, writer: &mut W) -> Result<(), WriteFailed>
    ensures { Puts (W.sink writer.old) result (W.sink writer.new) [] }
{
    match command {
        Command::Launch { .. } => writer.flush(),
        _ => Ok(()),
    }
}

/// Performs the commands in order, all in the one box, each between two calls of who looks on, and writes a line for
/// each reply, the first ones as these show them.
fn answer_all<T: Threads + Wait + Sync, W: Write, L: Watch>(
    rt: &T,
    client: &mut OnlyClient,
    mut request: Box<Request<Command, Reply>>,
    commands: Vec<Command>,
    shows: &[Shown],
    writer: &mut W,
    watch: &L,
) -> Result<RunEnd, WriteFailed>
    requires new { answered_count client.old.driver.driver.seat ≡ 0 }
    requires few { length commands.items ≤ 4096 }
    ensures ok { IfOk result (λ end. (configuration : ConfigurationOf) → machine_of client.old.driver.driver.machine ≡ opening configuration → Answered shows.now configuration commands.items (W.sink writer.old) (W.sink writer.new) end) }
    ensures err { OnErr result ((configuration : ConfigurationOf) → machine_of client.old.driver.driver.machine ≡ opening configuration → Broken shows.now configuration commands.items (W.sink writer.old) (W.sink writer.new)) }
{
    let mut end = RunEnd {
        faulted: false,
        refused: false,
    };
    let mut left = shows;
    for command in commands {
        release(&command, writer)?;
        request = client.ask(rt, request, command, watch);
        end = write_answered(&request, left, end, writer)?;
        left = behind(left);
    }
    writer.flush()?;
    Ok(end)
}

/// Performs the commands in order through the queue of a new device, and writes a line for each reply, the first ones
/// as these show them. The queue and the box of all requests are made before anything is written.
fn perform<T: Threads + Wait + Sync, W: Write, L: Watch>(
    rt: &T,
    alloc: Global,
    options: Options,
    commands: Vec<Command>,
    shows: &[Shown],
    writer: &mut W,
    watch: &L,
) -> Result<RunEnd, RunFault>
    requires few { length commands.items ≤ 4096 }
    ensures ok { IfOk result (λ end. Answered shows.now options.configuration commands.items (W.sink writer.old) (W.sink writer.new) end) }
    ensures err { IfErr result (Unanswered shows.now options.configuration commands.items (W.sink writer.old) (W.sink writer.new)) }
{
    let mut client = OnlyClient::open(alloc, options)?;
    let request = Box::new(alloc, Request::Answered(Reply::Done))?;
    Ok(answer_all(rt, &mut client, request, commands, shows, writer, watch)?)
}

/// Reads a script, hands its commands to the queue of a new device, each for the next ticket, and writes a line for
/// each reply, in order and nothing else, the first ones as these show them. Each command is done between two calls of
/// who looks on, and none of the lines so far is held back while a launch runs.
pub fn run_shown<T: Threads + Wait + Sync, R: Read, W: Write, L: Watch>(
    rt: &T,
    alloc: Global,
    reader: &mut R,
    shows: &[Shown],
    writer: &mut W,
    options: Options,
    watch: &L,
) -> Result<RunEnd, RunFault>
    ensures ran { IfOk result (Ran shows.now (R.rest reader.old) options.configuration (W.sink writer.old) (W.sink writer.new)) }
    ensures failed { IfErr result
        (Failed shows.now (R.rest reader.old) (R.failures reader.old) (R.failures reader.new) options.configuration (W.sink writer.old) (W.sink writer.new)) }
{
    let commands = commands_of(alloc, reader)?;
    perform(rt, alloc, options, commands, shows, writer, watch)
}

/// Reads a script, hands its commands to the queue of a new device, each for the next ticket, and writes a line for
/// each reply, in order and nothing else.
pub fn run<T: Threads + Wait + Sync, R: Read, W: Write>(
    rt: &T,
    alloc: Global,
    reader: &mut R,
    writer: &mut W,
    options: Options,
) -> Result<RunEnd, RunFault>
    ensures ran { IfOk result (Ran [] (R.rest reader.old) options.configuration (W.sink writer.old) (W.sink writer.new)) }
    ensures failed { IfErr result
        (Failed [] (R.rest reader.old) (R.failures reader.old) (R.failures reader.new) options.configuration (W.sink writer.old) (W.sink writer.new)) }
{
    run_shown(rt, alloc, reader, &[], writer, options, &OpenGate)
}

/// The status of a run: 2 where a command was refused or the run failed, else 1 where a launch faulted, else 0.
pub fn status(outcome: &Result<RunEnd, RunFault>) -> u8
    ensures { result ≡ status_of outcome.now }
{
    match outcome {
        Ok(end) if !end.refused => u8::from(end.faulted),
        _ => 2,
    }
}
