// What holds of every run: theorems about the definitions of runs.
#![tactic(auto)]

mod laws;

pub use laws::{runs_keep_elements, runs_keep_moves, runs_stay_orderly, runs_stay_settled};
