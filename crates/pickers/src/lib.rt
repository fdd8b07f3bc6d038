// Pickers: which case of a select goes when two or more are ready, by a meaning, so that a run can be played again.
#![tactic(auto)]

mod asking;
mod choosing;
mod laws;
mod picker;
pub mod ready;
mod schedule;
mod turning;

pub use asking::{ask_all, record_picks};
pub use choosing::{Choice, choose};
pub use laws::{examples_stand, replays_stand};
pub use picker::{Picker, Query};
pub use schedule::{Pick, Schedule};
pub use turning::Turning;
