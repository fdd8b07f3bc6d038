// Reports of a run's steps, printed as text.
#![tactic(auto)]

mod laws;
mod printing;
mod report;

pub use laws::{examples_stand, reports_are_short};
pub use report::{Deed, Event, Move, Panic, Pass, Picked, Report};
