// The rules of a channel, for every kind of element: sending, receiving and closing, over a ring and the waiting line.
#![tactic(auto)]

mod channel;
mod closing;
mod errors;
mod laws;
mod making;
mod rules;

pub use channel::{Carries, Channel, Received, Sent};
pub use errors::{CloseError, ReceiveError, SendError};
pub use laws::{channels_keep_order, channels_keep_places, channels_stay_settled};
