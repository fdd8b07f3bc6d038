// A started script, and its steps.
ghost use Rattle.std.specs.Prelude.{◌≡◌, ◌+◌, ◌<◌, ◌≤◌, ◌++◌, ◌==◌, length};
ghost use Rattle.std.specs.List.{All, IsDistinct};
ghost use Rattle.std.proofs.lemmas.Map.Keys.{IsDistinct-prop};
ghost use Rattle.runs.specs.Steps.{step};
ghost use Rattle.words.specs.Pages.{Printed};
ghost use Rattle.script.specs.Texts.{show};
ghost use Rattle.hub.specs.Boards.{Placed};
ghost use Rattle.machine.specs.Memory.{Stepped, refused, seen_run};
ghost use Rattle.machine.specs.Placing.{placed_prop};

use crate::memory::Memory;
use elements::{Handle, Value};
use hub::enough;
use linking::Linked;
use pickers::Picker;
use reports::Report;
use words::Refusal;

// A linked script with the memory of its run. Nobody in it has two turns, or waits twice, or waits and has a turn; its channels
// are those of the script, and lie one behind the other in the cells that there are: each step keeps this. Ghost fields say so, and
// no Model, whose invariant would not be seen elsewhere.
#[derive(Drop)]
pub struct Started {
    pub(crate) linked: Linked,
    pub(crate) memory: Memory,
    ghost few: { length memory.routines ≤ 64 },
    ghost count: { length memory.turns + length memory.hub.line ≤ length memory.routines },
    ghost there: { All (λ r. r < length memory.routines) (memory.turns ++ memory.hub.line) },
    ghost once: { IsDistinct ◌==◌ (memory.turns ++ memory.hub.line) } by { IsDistinct-prop ◌==◌ (memory.turns ++ memory.hub.line) },
    ghost channels: { length memory.hub.ports ≡ length linked.program.channels },
    ghost placed: { Placed 0 0 0 memory.hub.ports } by { placed_prop 0 0 0 memory.hub.ports },
}

impl Started {
    // Makes one step: the first routine of the run queue takes its turn. Refused, with nothing changed, where either kind has too few
    // cells, and then where the run is over.
    pub fn step<P: Picker>(
        &mut self,
        picker: &mut P,
        values: &mut [Value],
        handles: &mut [Handle],
    ) -> Result<Report, Refusal>
        ensures stepped { Stepped (refused (seen_run self.old.memory values.old handles.old) values.old handles.old) (step self.old.linked.program (seen_run self.old.memory values.old handles.old) (P.meaning picker.old)) (P.meaning picker.old) self.old.memory values.old handles.old result (P.meaning picker.new) self.new.memory values.new handles.new }
        ensures script { self.new.linked ≡ self.old.linked }
    {
        if !enough(values, handles) {
            return Err(Refusal::Small);
        }
        if self.memory.is_over() {
            return Err(Refusal::Over);
        }
        let Started { linked, memory } = self;
        let report = memory.turn(linked, picker, values, handles);
        // tells that the channels still lie in their cells
        prove!(memory.hub.waiting() <= 64);
        Ok(report)
    }

    // Writes the text of the script at the front of `out`, and answers its length.
    pub fn list(&self, out: &mut [u8]) -> Result<usize, Refusal>
        ensures { Printed (length (show self.now.linked.script)) out.old (show self.now.linked.script) out.new result }
    {
        self.linked.list(out)
    }
}
