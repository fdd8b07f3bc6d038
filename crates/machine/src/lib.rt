// A started script: its steps, each with a report, and the questions about it.
#![tactic(auto)]

mod acts;
mod alone;
mod cases;
mod closing;
mod memory;
mod passing;
mod questions;
mod selecting;
mod started;
mod starting;
mod turn;
mod turns;

pub use started::Started;
pub use starting::{StartError, Unstarted, start};
