// Scripts: read from text into an empty script, and listed back.
#![tactic(auto)]

mod admission;
mod draft;
mod listing;
mod lookup;
mod reading;
mod standing;
mod state;
mod tally;
mod text;

pub use lookup::{Named, find};
pub use state::{Empty, Read, Unread};
