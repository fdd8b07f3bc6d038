// Calls on a started script and their answers, as data; carrying them out; and the laws that hold over every list of calls.
#![tactic(auto)]

mod answer;
mod call;
mod carrying;
mod laws;

pub use answer::Answer;
pub use call::{Call, Cells};
pub use carrying::carry_out;
pub use laws::laws_hold;
