//! Who hears commands and tells replies.
#![tactic(auto)]

ghost use Rattle.std.specs.Prelude.{◌≡◌, ◌+◌, [], IfOk, IfErr};
ghost use Rattle.std.specs.Option.{MatchOption};
ghost use Rattle.simfile.specs.Script.{head, line_feeds};
ghost use Rattle.serving.specs.Hearing.{NotHeard};
ghost use Rattle.serving.specs.Serving.{HasLine, HeardOpening, Opened, NotOpened, HeardRest, HeardPart, HeardNone, HeardCommand, NoCommand, ToldReply, NotTold, HeardNext, up_to_most};

use crate::answer::Answer;
use crate::hearing::{hear_line, hear_source};
use byte_io::Peer;
use host_commands::command::{Command, Reply};
use simfile::faults::RunFault;
use simfile::lines::Version;
use simfile::replies::write_reply;
use simfile::stepwise::{count_lines, read_command, source_lines, version_told};
use std::alloc::Global;

/// A talk with a peer, of whose next command the first line was heard.
#[derive(Drop)]
pub struct Server {
    alloc: Global,
    version: Version,
    /// What was heard of the next command
    text: Vec<u8>,
    /// Whether its first line has its line feed
    whole: bool,
    /// The line of the last reply
    answer: Answer,
    /// How many lines went before the next command's; the count stops at the greatest number
    lines: usize,
}

/// How many lines stand before the commands of a script.
fn lines_before(version: Version) -> usize
    ensures { result ≡ line_feeds (head version) }
{
    match version {
        Version::One => 0,
        Version::Two | Version::Three => 1,
    }
}

/// Hears the line of the version, where there is one, and a first line, which is all that the text has then.
fn hear_opening<P: Peer>(peer: &mut P, text: &mut Vec<u8>) -> Result<(Version, bool), RunFault>
    requires { text.old.items ≡ [] }
    ensures heard { IfOk result (λ found. HeardOpening (P.view peer.old) (P.view peer.new) text.new.items found.0 found.1) }
    ensures failed { IfErr result (NotOpened (P.view peer.old) (P.view peer.new)) }
{
    let first = hear_line(peer, text)?;
    let Some(version) = version_told(text.as_slice()) else {
        return Ok((Version::One, first));
    };
    text.clear();
    let second = hear_line(peer, text)?;
    Ok((version, second))
}

impl Server {
    /// Begins to serve a peer: hears its first line, and where this is that of version 2 or 3 the one behind it.
    pub fn open<P: Peer>(alloc: Global, peer: &mut P) -> Result<Self, RunFault>
        ensures opened { IfOk result (Opened (P.view peer.old) (P.view peer.new)) }
        ensures failed { IfErr result (NotOpened (P.view peer.old) (P.view peer.new)) }
    {
        let mut text = Vec::new(alloc);
        let (version, whole) = hear_opening(peer, &mut text)?;
        Ok(Server {
            alloc,
            version,
            text,
            whole,
            answer: Answer::new(alloc),
            lines: lines_before(version),
        })
    }

    /// Hears what is left of the next command: the source of a program. Answers whether all of it came.
    fn hear_rest<P: Peer>(&mut self, peer: &mut P) -> Result<bool, RunFault>
        requires { HasLine self.old }
        ensures heard { IfOk result (HeardRest (P.view peer.old) (P.view peer.new) self.old self.new) }
        ensures failed { IfErr result (HeardPart (P.view peer.old) (P.view peer.new)) }
    {
        if !self.whole {
            return Ok(false);
        }
        match source_lines(self.text.as_slice()) {
            Some(count) => hear_source(peer, count, &mut self.text),
            None => Ok(true),
        }
    }

    /// The fault of the next command's first line.
    fn bad_line(&self) -> RunFault
        ensures { result ≡ RunFault.BadLine (up_to_most (self.now.lines + 1)) }
    {
        RunFault::BadLine(self.lines.saturating_add(1))
    }

    /// Hears what is left of the next command and gives it, or `None` where there is none. A bad line is one with which
    /// no command's text begins: `BadLine` comes as soon as that is clear, or where the input ends in the midst of a
    /// command.
    pub fn command<P: Peer>(&mut self, peer: &mut P) -> Result<Option<Command>, RunFault>
        requires { HasLine self.old }
        ensures heard { IfOk result (λ next. MatchOption next (HeardNone (P.view peer.old) (P.view peer.new) self.old) (HeardCommand (P.view peer.old) (P.view peer.new) self.old self.new)) }
        ensures failed { IfErr result (NoCommand (P.view peer.old) (P.view peer.new) self.old) }
    {
        if self.text.is_empty() {
            return Ok(None);
        }
        if !self.hear_rest(peer)? {
            return Err(self.bad_line());
        }
        match read_command(self.alloc, self.version, self.text.as_slice())? {
            Some((command, _)) => Ok(Some(command)),
            None => Err(self.bad_line()),
        }
    }

    /// Tells the line of a reply.
    pub fn tell<P: Peer>(&mut self, reply: &Reply, peer: &mut P) -> Result<(), RunFault>
        ensures told { IfOk result (λ _. ToldReply (P.view peer.old) (P.view peer.new) self.old self.new reply.now) }
        ensures failed { IfErr result (NotTold (P.view peer.old) (P.view peer.new) reply.now) }
    {
        self.answer.clear();
        if write_reply(reply, &mut self.answer).is_err() {
            return Err(RunFault::OutOfMemory);
        }
        match peer.tell(self.answer.as_slice()) {
            Ok(()) => Ok(()),
            Err(_) => Err(RunFault::Write),
        }
    }

    /// Hears the first line of the next command, once the one before was answered.
    pub fn next<P: Peer>(&mut self, peer: &mut P) -> Result<(), RunFault>
        ensures heard { IfOk result (λ _. HeardNext (P.view peer.old) (P.view peer.new) self.old self.new) }
        ensures failed { IfErr result (NotHeard (P.view peer.old) (P.view peer.new)) }
    {
        self.lines = self.lines.saturating_add(count_lines(self.text.as_slice()));
        self.text.clear();
        self.whole = hear_line(peer, &mut self.text)?;
        Ok(())
    }
}
