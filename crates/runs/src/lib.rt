// What a run is, and what each step of it does and reports: definitions that the code of the machine is held to; and what
// the questions about a run answer.
#![tactic(auto)]

mod answer;

pub use answer::{ChannelAnswer, RoutineAnswer};
