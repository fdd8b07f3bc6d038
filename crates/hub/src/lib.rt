// The channels of a run, of both kinds, and who waits at them.
#![tactic(auto)]

mod asking;
mod clearing;
mod closing;
mod deal;
mod hub;
mod item;
mod making;
mod port;
mod taking;

pub use deal::Deal;
pub use hub::Hub;
pub use port::Port;
pub use taking::enough;
