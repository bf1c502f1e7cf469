//! What other orders of a script's launches show (own, on OpenCL 1.2, sections 3.2, 3.3.1 and 6.12.11).
//!
//! `explore` reads a script and does its commands on a new device, as a run does. At each launch with `orders`, or at
//! the one that is wanted, it plays other orders of the launch first (`explore_runs`), on the buffers as they are
//! there; then the device does the command itself, and its reply decides how the script goes on. Orders are played up
//! to the first that shows a fault or comes to no end, to a number of them, or until a clock says that the time is
//! over. Launches and orders are counted from 1, and order 1 is the canonical one; commands are counted from 0, as in a
//! schedule file. It writes:
//!
//! - `launch 1: order 17 shows a fault`, and the two lines of a schedule file: `ticket 4`, and the fault with a
//!   schedule that leads to it, made shorter
//! - `launch 1: order 17 comes to no end`, and the same two lines: the fault is the end of an item's budget, and the
//!   schedule isn't made shorter
//! - `launch 1: orders 1 and 9 leave different bytes: buffer a byte 12: 5 and 7`, the first byte that differs, and two
//!   lines `schedule 0*3 1*3`, one of each order
//! - `launch 1: clean in 1000 orders` where none of these is so. It promises nothing more. `, 3 given up` stands behind
//!   it where it isn't known of so many of them whether they come to an end
//! - `launch 2: without orders: clean`, or another reply behind these words: of a wanted launch without `orders`, whose
//!   reply speaks of every order already
//! - `launch 2: ` with the device's own reply, where that is a refusal, or a fault and no order has shown one; and
//!   `command 5: refused 12 BadArgument` of another command
//! - `launch 9: not there, the script has 2`, alone, where the wanted launch isn't there, or none is
//!
//! What is written are these lines. A fault that an order shows is told with a schedule that leads the launch to a
//! state that shows it, and it is no conflict of kind order. The same is known of an order that comes to no end: its
//! schedule leads to the end of an item's budget; that it was fair is in no clause. Of two orders that left different
//! bytes, both schedules are complete, and the bytes that they leave differ first at the place that is told. Each
//! launch is that of the machine to which the commands before it led. No clause speaks of the numbers of orders, nor of
//! what the clock says. The crate knows no file, no option's text and no time.
#![tactic(auto)]

mod counting;
mod explored;
mod facts;
mod findings;
mod lines;
mod manners;
mod playing;
mod walks;

pub use explored::{explore, status};
pub use facts::{Clock, ExploreEnd, ExploreOptions};
