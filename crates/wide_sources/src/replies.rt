//! Replies by their sorts.
#![tactic(auto)]

ghost use Rattle.std.specs.Prelude.{◌≡◌};
ghost use Rattle.wide_sources.specs.Replies.{is_fault, is_refused};

use host_commands::command::Reply;

/// Whether a reply is a fault.
pub fn is_fault(reply: &Reply) -> bool
    ensures { result ≡ is_fault reply.now }
{
    matches!(reply, Reply::Fault { .. })
}

/// Whether a reply is a refusal.
pub fn is_refused(reply: &Reply) -> bool
    ensures { result ≡ is_refused reply.now }
{
    matches!(reply, Reply::Refused(_))
}
