//! A fault and its schedule, in the words of a reply.
#![tactic(auto)]

ghost use Rattle.std.specs.Prelude.{◌≡◌, string_bytes, IfOk};
ghost use Rattle.std.specs.Str.Lossy.{utf8_lossy};
ghost use Rattle.fault_lines.specs.Text.{fault_text, schedule_text};

use crate::gathered::Gathered;
use clmodel::fault::Fault;
use clmodel::schedule::Schedule;
use fault_lines::{write_fault, write_schedule};
use std::alloc::{AllocError, Global};

/// A fault, as a reply has it in front of its schedule. Bytes that are no UTF-8 are replaced, of which no name of a
/// source has any. An error is out of memory.
pub fn fault_words(alloc: Global, fault: &Fault) -> Result<String, AllocError>
    ensures { IfOk result (λ text. string_bytes text ≡ utf8_lossy (fault_text fault.now)) }
{
    let mut words = Gathered::new(alloc);
    if write_fault(fault, &mut words).is_err() {
        return Err(AllocError);
    }
    String::from_utf8_lossy(alloc, words.bytes.as_slice())
}

/// A schedule, as a reply has it. An error is out of memory.
pub fn schedule_words(alloc: Global, schedule: &Schedule) -> Result<String, AllocError>
    ensures { IfOk result (λ text. string_bytes text ≡ utf8_lossy (schedule_text schedule.now)) }
{
    let mut words = Gathered::new(alloc);
    if write_schedule(schedule.as_slice(), &mut words).is_err() {
        return Err(AllocError);
    }
    String::from_utf8_lossy(alloc, words.bytes.as_slice())
}
