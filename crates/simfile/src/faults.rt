//! Why a run failed: the fault of each command of the program, and of what it reads, does and tells.
#![tactic(auto)]

ghost use Rattle.std.specs.Prelude.{◌≡◌};
ghost use Rattle.simfile.specs.Faults.{read_fault};

use byte_io::{ReadFault, WriteFailed};
use fault_lines::ReadFault as FileFault;
use std::alloc::{AllocError, AllocFailed};
use thiserror::Error;

/// One of the readers of a command.
#[derive(Clone, Copy, Debug, PartialEq, Eq)]
pub enum Reader {
    /// The script's or the source's, or the peer's that is served
    First,
    /// The schedule file's
    Second,
}

/// Why a run, a check, a dump, a replay, a talk or an explanation failed. What was written until then, the contract of
/// each says.
#[derive(Clone, Copy, Debug, PartialEq, Eq, Error)]
pub enum RunFault {
    /// 1: this reader failed
    #[error("cannot read")]
    Read(Reader),
    /// 2: the writer failed. A beginning of the text was written
    #[error("cannot write")]
    Write,
    /// 3: the lowest bad line of a text that is no script, counted from 1
    #[error("line {0}: bad line")]
    BadLine(usize),
    /// 4: no memory is left
    #[error("out of memory")]
    OutOfMemory,
    /// 5: no kernel of the source has the name
    #[error("no such kernel")]
    NoSuchKernel,
    /// 6: a text is no schedule file
    #[error("bad schedule file")]
    BadSchedule,
    /// 7: the command of the schedule file's ticket is no launch, or there is none
    #[error("command {0} is not a launch")]
    NotALaunch(u64),
    /// 8: the launch of the schedule file's ticket is refused, and not for want of memory
    #[error("command {0} is refused")]
    CommandRefused(u64),
}

/// The fault of a reader that was not read to its end. It names the reader, so no `From` can make it.
pub fn read_fault(named: Reader, fault: ReadFault) -> RunFault
    ensures { result ≡ read_fault named fault }
{
    match fault {
        ReadFault::Failed => RunFault::Read(named),
        ReadFault::OutOfMemory => RunFault::OutOfMemory,
    }
}

impl From<AllocError> for RunFault {
    ghost use Rattle.std.specs.Prelude.{◌≡◌};
    ghost use Rattle.simfile.specs.declared.faults.RunFault.TheVariants as run_fault;

    ghost from_gives = { λ _ made. made ≡ run_fault.OutOfMemory };

    fn from(_: AllocError) -> Self {
        RunFault::OutOfMemory
    }
}

impl<T: Drop> From<AllocFailed<T>> for RunFault {
    ghost use Rattle.std.specs.Prelude.{◌≡◌};
    ghost use Rattle.simfile.specs.declared.faults.RunFault.TheVariants as run_fault;

    ghost from_gives = { λ _ made. made ≡ run_fault.OutOfMemory };

    fn from(_: AllocFailed<T>) -> Self {
        RunFault::OutOfMemory
    }
}

impl From<WriteFailed> for RunFault {
    ghost use Rattle.std.specs.Prelude.{◌≡◌};
    ghost use Rattle.simfile.specs.declared.faults.RunFault.TheVariants as run_fault;

    ghost from_gives = { λ _ made. made ≡ run_fault.Write };

    fn from(_: WriteFailed) -> Self {
        RunFault::Write
    }
}

impl From<FileFault> for RunFault {
    ghost use Rattle.std.specs.Prelude.{◌≡◌};
    ghost use Rattle.simfile.specs.Faults.{file_fault};

    ghost from_gives = { λ fault made. made ≡ file_fault fault };

    fn from(fault: FileFault) -> Self {
        match fault {
            FileFault::BadText => RunFault::BadSchedule,
            FileFault::OutOfMemory => RunFault::OutOfMemory,
        }
    }
}
