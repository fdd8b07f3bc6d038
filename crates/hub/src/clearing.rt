// Clearing the cells of all channels.
ghost use Rattle.std.specs.Prelude.{◌≡◌, ◌≤◌, if◌then◌else◌, Ok, Err};
ghost use Rattle.lines.specs.declared.line.Kind.TheVariants.{Value as ValueKind, Handle as HandleKind};
ghost use Rattle.elements.specs.Codes.{value_zero, nil_handle};
ghost use Rattle.rings.specs.Contents.{cleared};
ghost use Rattle.words.specs.declared.refusal.Refusal.TheVariants.{Small};
ghost use Rattle.hub.specs.Boards.{enough as has_enough, cells, cells_of};

use crate::hub::Hub;
use crate::taking::enough;
use elements::{Handle, Value};
use lines::Kind;
use rings::zero_all;
use words::Refusal;

impl Hub {
    // How many cells of that kind the channels have together.
    fn cells(&self, kind: Kind) -> usize
        ensures is { result ≡ cells kind self.now.ports }
        ensures fit { result ≤ cells_of kind }
    {
        self.ports.iter().map(|port| port.cells(kind)).sum()
    }

    // Sets all cells of all channels, and no other cell, to the zero element. The cells of a kind follow one another from the
    // first of the bank on.
    pub fn clear(&self, values: &mut [Value], handles: &mut [Handle]) -> Result<(), Refusal>
        ensures answer { result ≡ (if has_enough values.old handles.old then Ok tt else Err Small) }
        ensures values { values.new ≡ (if has_enough values.old handles.old then cleared 0 (cells ValueKind self.now.ports) value_zero values.old else values.old) }
        ensures handles { handles.new ≡ (if has_enough values.old handles.old then cleared 0 (cells HandleKind self.now.ports) nil_handle handles.old else handles.old) }
    {
        if !enough(values, handles) {
            return Err(Refusal::Small);
        }
        zero_all(&mut values[..self.cells(Kind::Value)]);
        zero_all(&mut handles[..self.cells(Kind::Handle)]);
        Ok(())
    }
}
