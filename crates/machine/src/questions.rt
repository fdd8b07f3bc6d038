// The questions about a started script. They change nothing, and are answered after the run has ended, too.
ghost use Rattle.std.specs.Prelude.{◌≡◌, List};
ghost use Rattle.elements.specs.declared.value.Value.{Value as Number};
ghost use Rattle.elements.specs.declared.handle.Handle.{Handle as Holder};
ghost use Rattle.runs.specs.Questions.{routine_question, channel_question, element_question};
ghost use Rattle.runs.specs.Runs.{text_line};
ghost use Rattle.hub.specs.Boards.{Enough, enough};
ghost use Rattle.machine.specs.Memory.{seen_run};

use crate::started::Started;
use crate::turns::{operation_at, text_line};
use elements::{Handle, Value};
use linking::Linked;
use routines::Routine;
use runs::{ChannelAnswer, RoutineAnswer};
use words::Refusal;

// The text line that a routine is at, 0 at its body's end.
fn line_of(linked: &Linked, x: &Routine) -> usize
    ensures { result ≡ text_line linked.now.program x.now }
{
    text_line(linked, x, operation_at(linked.operations(x.body), x.line)) as usize
}

impl Started {
    // Where that routine stands. Absent where there is no such routine.
    pub fn routine(&self, number: usize) -> Result<RoutineAnswer, Refusal>
        ensures { result ≡ routine_question self.now.linked.program self.now.memory number }
    {
        let routine = self.memory.routines.get(number).ok_or(Refusal::Absent)?;
        Ok(RoutineAnswer {
            state: routine.state,
            line: line_of(&self.linked, routine),
            values: routine.values,
            handles: routine.handles,
        })
    }

    // How that channel stands, whatever its cells hold. Absent where there is no such channel.
    pub fn channel(&self, number: usize) -> Result<ChannelAnswer, Refusal>
        ensures { (vs : List Number) (hs : List Holder) → Enough vs hs → result ≡ channel_question (seen_run self.now.memory vs hs).hub number }
    {
        self.memory.hub.channel(number)
    }

    // The code of the element at a place of that channel's buffer, 0 the oldest. Small where either kind has too few cells, and
    // then Absent where there is no such channel or place.
    pub fn element(
        &self,
        channel: usize,
        place: usize,
        values: &[Value],
        handles: &[Handle],
    ) -> Result<u32, Refusal>
        ensures { result ≡ element_question (seen_run self.now.memory values.now handles.now).hub channel place (enough values.now handles.now) }
    {
        self.memory.hub.element(channel, place, values, handles)
    }
}
