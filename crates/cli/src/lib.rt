//! The program's commands: scripts in and replies out, sources checked, kernels shown as code, and schedules replayed.
//!
//! Where `run` ends well, the replies of the machine to the commands were written, a line each and nothing else, and
//! none is held back in a buffer; `run_shown` writes them as its caller says (`showing`). It goes through the device's
//! queue, as its only client. `serve` does without the queue, and the lines that it tells are those of `run`.
//! `replay_files` answers yes exactly where the schedule leads the launch of its ticket, on the machine to which the
//! commands before it lead, to a state that shows the fault. A status is the defined one.
#![tactic(auto)]

pub mod checking;
pub mod dialogue;
pub mod dumping;
mod only_client;
pub mod reading;
pub mod replaying;
pub mod session;
pub mod watching;

pub use byte_io::{Read, ReadFault, Write, WriteFailed};
pub use checking::check_file;
pub use device::{Gate, OpenGate};
pub use dialogue::serve;
pub use dumping::dump_file;
pub use replaying::replay_files;
pub use session::{run, run_shown, status};
pub use simfile::faults::{Reader, RunFault};
pub use watching::Watch;
