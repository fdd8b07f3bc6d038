// Calls as data.
ghost use Rattle.std.specs.Prelude.{◌≡◌, length, min};

use elements::{Handle, Value};

// How many cells of each kind are handed over with a call.
#[derive(Clone, Copy)]
pub struct Cells {
    pub values: usize,
    pub handles: usize,
}

impl Cells {
    // So many, and no more than there are.
    pub(crate) fn within(self, values: &[Value], handles: &[Handle]) -> Cells
        ensures { result ≡ record { values = min self.values (length values.now); handles = min self.handles (length handles.now) } }
    {
        Cells {
            values: self.values.min(values.len()),
            handles: self.handles.min(handles.len()),
        }
    }
}

// A step, or a question about a routine, a channel, or the element at a place of a channel's buffer, 0 the oldest.
#[derive(Clone, Copy)]
pub enum Call {
    Step(Cells),
    Routine(usize),
    Channel(usize),
    Element(usize, usize, Cells),
}
