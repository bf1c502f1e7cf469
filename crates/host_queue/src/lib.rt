//! Requests in ticket order: commands of many threads, done one after another on one machine.
//!
//! A machine is the trait `Machine`: a step, and no device. `open` gives a queue with 1 to 16 clients and a driver. A
//! client draws a ticket with each request; the driver does the requests in the order of their tickets.
//!
//! The replies are those of the machine on the commands in that order, whatever the threads do. A client's tickets
//! rise. After `agree` they rise above those of the other client. `close` gives back the machine after a history that
//! has each ticket of each client with its command. `answer` does the command of an only client at once, as one step.
//! `drive_by` and `answer_by` promise the same where the caller does the command in a way of its own, as by several
//! workers. A call that is out of memory answers so.
#![tactic(auto)]

mod machine;
mod queue;
mod sends;
mod table;
mod view;

pub use machine::Machine;
pub use queue::{Answered, Client, Driver, Full, Queue, TICKETS, Ticket, close, open};
pub use table::{Board, QueueSeat, Rows, Tickets};
pub use view::{Entry, Held, Request, Stage, View};
