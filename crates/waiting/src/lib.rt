// Who waits at which channel: one waiting line, from which each channel's two queues are read.
#![tactic(auto)]

mod cases;
mod laws;
mod line;
mod marks;
mod queues;
mod sets;
mod wish;

pub use laws::queues_keep_order;
pub use line::Waiting;
pub use wish::{Entry, Queue, Side, Wish};
