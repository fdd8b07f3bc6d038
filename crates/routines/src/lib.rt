// Routines: what a run keeps of each, and what its lines do to it alone.
#![tactic(auto)]

mod arithmetic;
mod carries;
mod item;
mod registers;
mod routine;

pub use arithmetic::{difference, sum};
pub use item::Item;
pub use routine::{Passed, Release, Routine, State};
