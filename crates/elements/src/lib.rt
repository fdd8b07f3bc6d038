// What channels carry: the trait of an element kind, and two kinds, values and handles.
#![tactic(auto)]

mod element;
mod handle;
mod value;

pub use element::{Element, enough_cells, is_zero, same};
pub use handle::Handle;
pub use value::Value;
