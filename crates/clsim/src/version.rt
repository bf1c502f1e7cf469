//! The version of the program, and what it was built and proved of.
#![tactic(auto)]

use std::io;

/// The version: that of the file `VERSION` at the top of the repository, with which `tools/docs` compares it.
const VERSION: &str = "0.9.0";

/// The commit. It can't stand in the source that it names, so `tools/release` writes its 40 digits over this text of
/// 40 characters, in the built program.
const COMMIT: &str = "unknown: stamped by tools/release alone.";

/// The logic of the kit that proves the program, as `rt version` prints it; `tools/docs` compares them where there is
/// an `rt`.
const LOGIC: &str = "dac8208d650f15bf";

/// The protocol of the driver: the lines of `clsim serve`. A change of a line that the driver sends or reads is a new
/// one.
const PROTOCOL: u32 = 1;

/// Writes what the program is on standard output: a line for each of the version, the commit, the logic and the
/// protocol, or one line of JSON with these as members.
pub(crate) fn print_version(rt: &impl Print, json: bool) -> io::Result<()> {
    if json {
        return println!(rt;
            "{{\"commit\":\"{COMMIT}\",\"logic\":\"{LOGIC}\",\"protocol\":{PROTOCOL},\"version\":\"{VERSION}\"}}"
        );
    }
    println!(rt; "clsim {VERSION}\ncommit {COMMIT}\nlogic {LOGIC}\nprotocol {PROTOCOL}")
}
