// Linking: every name of a script found, every target sound, and lines turned into operations on numbers.
#![tactic(auto)]

mod bodies;
mod declared;
mod linked;
mod linking;
mod lookup;
mod operation;
mod stop;
mod symbols;
mod tables;
mod targets;

pub use declared::{Channel, Declared};
pub use linked::{Linked, Unlinked};
pub use linking::link;
pub use operation::{Exchange, Operation};
pub use stop::Stop;

#[cfg(test)]
mod tests;
