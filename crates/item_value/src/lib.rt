//! What instructions that touch no memory give: the values of registers and the elements of private arrays, or why
//! there are none.
//!
//! `value_of` gives the value of the defined machine, the fault with which the run fails there, or that the run is
//! over. A register takes 16 bytes (`RegisterValue`); it gives back the value that was put there, or that there is
//! none. `ItemPosition` answers each work-item function as defined. `Counters` counts the turns of loops. The crate
//! knows no place in the code, no ticks and no actions.
#![tactic(auto)]

pub mod accesses;
pub mod counters;
pub mod elements;
pub mod giving;
pub mod item_context;
pub mod parameters;
pub mod position;
pub mod private_array;
mod queries;
pub mod registers;
pub mod values;
