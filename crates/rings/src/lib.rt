// Rings of elements, each on a part of a lent bank of cells, for every kind of element.
#![tactic(auto)]

mod calls;
mod laws;
mod numbers;
mod ring;

pub use calls::zero_all;
pub use laws::{rings_count_held, rings_keep_order, rings_keep_turns, rings_stay_apart};
pub use ring::{Ring, RingError};
