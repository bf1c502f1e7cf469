//! Commands that are heard one by one, each answered before the next is heard.
#![tactic(auto)]

ghost use Rattle.std.specs.Prelude.{◌≡◌, ◌≤◌, IfOk, IfErr, IfSome, length, []};
ghost use Rattle.std.specs.Option.{MatchOption};
ghost use Rattle.device.specs.Machine.{machine_of};
ghost use Rattle.byte_io.specs.Talk.{Conversation};
ghost use Rattle.serving.specs.Serving.{HasLine};
ghost use Rattle.cli.specs.Session.{Ran, end_of};
ghost use Rattle.cli.specs.Serving.{Served, ServeFailed};
ghost use Rattle.cli.specs.Serves.{Serves};
ghost use Rattle.limits.specs.declared.Configuration.{Configuration};

use crate::session::{RunEnd, one_end};
use byte_io::Peer;
use command_line::options::Options;
use device::{Device, OpenGate};
use serving::Server;
use simfile::faults::RunFault;
use std::alloc::Global;
use std::marker::Sync;
use std::sync::Wait;
use std::thread::Threads;

/// Hears a command, does it, tells its reply and hears the first line of the next one. Answers what the replies come to
/// with this one, or `None` where there is no further command.
fn turn<T: Threads + Wait + Sync, P: Peer>(
    rt: &T,
    server: &mut Server,
    device: &mut Device,
    peer: &mut P,
    options: Options,
    end: RunEnd,
) -> Result<Option<RunEnd>, RunFault>
    requires { HasLine server.old }
    ensures line { IfOk result (λ next. IfSome next (λ _. HasLine server.new)) }
    ensures turned { (start : Conversation) (configuration : Configuration) → Serves start (P.view peer.old) configuration server.old (machine_of device.old) end →
        IfOk result (λ next. MatchOption next (Served start (P.view peer.new) configuration end) (Serves start (P.view peer.new) configuration server.new (machine_of device.new))) }
    ensures failed { (start : Conversation) (configuration : Configuration) → Serves start (P.view peer.old) configuration server.old (machine_of device.old) end →
        IfErr result (ServeFailed start (P.view peer.new) configuration) }
{
    let Some(command) = server.command(peer)? else {
        return Ok(None);
    };
    let reply = device.apply_with(rt, command, options.workers, &OpenGate);
    server.tell(&reply, peer)?;
    server.next(peer)?;
    Ok(Some(one_end(&reply, end)))
}

/// Takes turns until the input ends.
fn take_turns<T: Threads + Wait + Sync, P: Peer>(
    rt: &T,
    server: &mut Server,
    device: &mut Device,
    peer: &mut P,
    options: Options,
) -> Result<RunEnd, RunFault>
    requires { HasLine server.old }
    ensures served { (start : Conversation) (configuration : Configuration) → Serves start (P.view peer.old) configuration server.old (machine_of device.old) (end_of []) →
        IfOk result (Served start (P.view peer.new) configuration) }
    ensures failed { (start : Conversation) (configuration : Configuration) → Serves start (P.view peer.old) configuration server.old (machine_of device.old) (end_of []) →
        IfErr result (ServeFailed start (P.view peer.new) configuration) }
{
    let mut end = RunEnd {
        faulted: false,
        refused: false,
    };
    for _ in rt.forever() {
        match turn(rt, server, device, peer, options, end)? {
            Some(next) => end = next,
            None => return Ok(end),
        }
    }
    unreachable!()
}

/// Hears the commands of a peer, any number of them, does them on a new device, and tells the line of each reply before
/// the next command is heard. A bad line ends it at once: `BadLine` has its number, and the commands before it are
/// answered. `OutOfMemory` comes where memory is refused for a command's text or a reply's line. The faults of
/// schedules and kernels never come, nor does `Second` in `Read`.
pub fn serve<T: Threads + Wait + Sync, P: Peer>(
    rt: &T,
    alloc: Global,
    peer: &mut P,
    options: Options,
) -> Result<RunEnd, RunFault>
    ensures served { IfOk result (Served (P.view peer.old) (P.view peer.new) options.configuration) }
    ensures failed { IfErr result (ServeFailed (P.view peer.old) (P.view peer.new) options.configuration) }
{
    let mut server = Server::open(alloc, peer)?;
    let mut device = Device::new(alloc, options.configuration);
    take_turns(rt, &mut server, &mut device, peer, options)
}

/// The law of serving and running: what was told of at most 4,096 commands are the lines that `run` writes for the same
/// bytes, and both come to the same end.
pub fn served_is_ran()
    ensures { (old new : Conversation) (configuration : Configuration) (outcome : RunEnd) → (served : Served old new configuration outcome) → length served.commands ≤ 4096 →
        old.sink.held ≡ [] → Ran [] old.rest configuration old.sink new.sink outcome }
{}
