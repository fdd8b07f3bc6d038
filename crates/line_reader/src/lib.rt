// Reading a line of a script.
#![tactic(auto)]

mod fields;
mod kinds;
mod reading;

pub use reading::read_line;
