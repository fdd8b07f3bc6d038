// Words of a script's text, read and listed, and the refusals that every layer above gives.
#![tactic(auto)]

mod field;
mod name;
mod page;
mod reading;
mod refusal;
mod spelling;

pub use field::Field;
pub use name::Name;
pub use page::Page;
pub use reading::{Word, cut, next_word};
pub use refusal::{Fault, Refusal};
