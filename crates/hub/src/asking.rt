// Asking how a channel stands, and for the code of an element that it buffers.
ghost use Rattle.std.specs.Prelude.{◌≡◌, List, length};
ghost use Rattle.elements.specs.declared.value.Value.{Value as Number};
ghost use Rattle.elements.specs.declared.handle.Handle.{Handle as Holder};
ghost use Rattle.waiting.specs.Queues.{queue};
ghost use Rattle.runs.specs.Questions.{channel_question, element_question};
ghost use Rattle.hub.specs.Boards.{Enough, seen, enough as has_enough};
ghost use Rattle.hub.specs.Deals.{channel_answer};

use crate::hub::Hub;
use crate::taking::enough;
use elements::{Handle, Value};
use runs::ChannelAnswer;
use waiting::{Queue, Side};
use words::Refusal;

impl Hub {
    // How many entries that queue of a channel has.
    fn queued(&self, side: Side, channel: u8) -> usize
        ensures { result ≡ length (queue side channel self.now.line self.now.wishes) }
    {
        self.waiting.count(Queue { side, channel })
    }

    // How that channel stands. Absent where there is no such channel.
    pub fn channel(&self, number: usize) -> Result<ChannelAnswer, Refusal>
        ensures is { result ≡ channel_answer self.now number }
        ensures seen { (vs : List Number) (hs : List Holder) → Enough vs hs → result ≡ channel_question (seen self.now vs hs) number }
    {
        let port = self.ports.get(number).ok_or(Refusal::Absent)?;
        let receivers = self.queued(Side::Receivers, number as u8);
        let senders = self.queued(Side::Senders, number as u8);
        Ok(port.told(receivers, senders))
    }

    // The code of the element at a place of that channel's buffer, 0 the oldest. Small where either kind has too few cells, and
    // then Absent where there is no such channel or place.
    pub fn element(
        &self,
        number: usize,
        place: usize,
        values: &[Value],
        handles: &[Handle],
    ) -> Result<u32, Refusal>
        ensures { result ≡ element_question (seen self.now values.now handles.now) number place (has_enough values.now handles.now) }
    {
        if !enough(values, handles) {
            return Err(Refusal::Small);
        }
        self.ports
            .get(number)
            .and_then(|port| port.look(values, handles, place))
            .map(|item| item.code())
            .ok_or(Refusal::Absent)
    }
}
