//! A script's faults and refused commands explained, and a source that doesn't build. A script's commands are performed
//! on a device up to what is told: a launch's fault, which `telling` explains where its schedule leads to it, or a
//! command that is refused; the first of these, or each of them, one behind another. Which schedules lead to a fault,
//! which reply is the first, and the errors, are those defined. The text is that of an explanation whose launch, fault,
//! items, reasons, steps and schedule are those defined, or of the command that was refused. It knows no file and no
//! option's text.
#![tactic(auto)]

mod answers;
mod building;
mod cases;
mod ends;
mod every;
mod explained;
mod facts;
mod refusing;
mod walks;

pub use explained::explain;
pub use facts::{ExplainOptions, Format, Given};
