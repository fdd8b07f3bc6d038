// Taking a case.
ghost use Rattle.std.specs.Prelude.{◌≡◌, Some, None, if◌then◌else◌};
ghost use Rattle.waiting.specs.declared.wish.Wish.TheVariants.{Send, Receive};
ghost use Rattle.hub.specs.Boards.{Enough, enough as has_enough, seen};
ghost use Rattle.hub.specs.Deals.{may_take, dealt, answer, board_after, values_after, handles_after, Took};

use crate::deal::Deal;
use crate::hub::Hub;
use elements::{Handle, Value, enough_cells};
use routines::Item;
use waiting::Wish;

// Whether both kinds have all cells that a script can need.
pub fn enough(values: &[Value], handles: &[Handle]) -> bool
    ensures { result ≡ has_enough values.now handles.now }
{
    enough_cells(values) && enough_cells(handles)
}

impl Hub {
    #[tactic(auto, using(crate::proofs::Sends::send_took))]
    fn send(
        &mut self,
        values: &mut [Value],
        handles: &mut [Handle],
        number: u8,
        e: Item,
    ) -> Option<Deal>
        requires { Enough values.old handles.old }
        ensures { Took (may_take self.old values.old handles.old (Send number e)) (dealt self.old values.old handles.old (Send number e)) self.old values.old handles.old result self.new values.new handles.new }
    {
        let port = self.ports.get_mut(usize::from(number))?;
        let sent = port.send(&mut self.waiting, values, handles, e);
        Deal::of_send(number, e.of_kind(port.kind), sent)
    }

    #[tactic(auto, using(crate::proofs::Receives::receive_took))]
    fn receive(&mut self, values: &mut [Value], handles: &mut [Handle], number: u8) -> Option<Deal>
        requires { Enough values.old handles.old }
        ensures { Took (may_take self.old values.old handles.old (Receive number)) (dealt self.old values.old handles.old (Receive number)) self.old values.old handles.old result self.new values.new handles.new }
    {
        let port = self.ports.get_mut(usize::from(number))?;
        let got = port.receive(&mut self.waiting, values, handles);
        Deal::of_receive(port.kind, number, got)
    }

    // Takes a case that can go: how its routine passes by it, and who is released. None, and nothing changes, where there are
    // too few cells or no such channel, or the case cannot go.
    pub fn take(
        &mut self,
        values: &mut [Value],
        handles: &mut [Handle],
        wish: Wish<Item>,
    ) -> Option<Deal>
        ensures answer { result ≡ (if may_take self.old values.old handles.old wish then Some (answer (dealt self.old values.old handles.old wish)) else None) }
        ensures board { self.new ≡ (if may_take self.old values.old handles.old wish then board_after (dealt self.old values.old handles.old wish) self.old else self.old) }
        ensures values { values.new ≡ (if may_take self.old values.old handles.old wish then values_after self.old.ports (dealt self.old values.old handles.old wish).drawn (dealt self.old values.old handles.old wish).stored values.old else values.old) }
        ensures handles { handles.new ≡ (if may_take self.old values.old handles.old wish then handles_after self.old.ports (dealt self.old values.old handles.old wish).drawn (dealt self.old values.old handles.old wish).stored handles.old else handles.old) }
        ensures seen { seen self.new values.new handles.new ≡ (if may_take self.old values.old handles.old wish then (dealt self.old values.old handles.old wish).hub else seen self.old values.old handles.old) }
    {
        if !enough(values, handles) {
            return None;
        }
        match wish {
            Wish::Send(number, e) => self.send(values, handles, number, e),
            Wish::Receive(number) => self.receive(values, handles, number),
        }
    }
}
