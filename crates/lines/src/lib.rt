// Lines of a script as data: a two-byte mark and its fields, listed, and what each is to the script around it.
#![tactic(auto)]

mod line;
mod listing;
mod roles;

pub use line::{Kind, Line, Operand, Role};
pub use listing::put_line;
