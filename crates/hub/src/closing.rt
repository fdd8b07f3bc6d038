// Closing a channel.
ghost use Rattle.std.specs.Prelude.{◌≡◌, ◌-◌, ◌++◌, List, Some, None, length, if◌then◌else◌, vec_len, vec_capacity};
ghost use Rattle.elements.specs.declared.value.Value.{Value as Number};
ghost use Rattle.elements.specs.declared.handle.Handle.{Handle as Holder};
ghost use Rattle.runs.specs.Taking.{leaving, closed_at};
ghost use Rattle.hub.specs.Boards.{seen};
ghost use Rattle.hub.specs.Deals.{may_close, leaving_from, board_closed};

use crate::hub::Hub;
use routines::Item;
use waiting::Entry;

impl Hub {
    // Closes that channel: all who wait there are released, receivers first, and noted in order; the answer is how many. None,
    // and nothing changes, where there is no such channel, it was closed before, or there is no room to note 64.
    pub fn close(&mut self, number: usize, freed: &mut Vec<Entry<Item>>) -> Option<usize>
        ensures answer { result ≡ (if may_close number (vec_capacity freed.old - vec_len freed.old) self.old then Some (length (leaving_from number self.old)) else None) }
        ensures items { freed.new.items ≡ (if may_close number (vec_capacity freed.old - vec_len freed.old) self.old then freed.old.items ++ leaving_from number self.old else freed.old.items) }
        ensures room { vec_capacity freed.new ≡ vec_capacity freed.old }
        ensures board { self.new ≡ (if may_close number (vec_capacity freed.old - vec_len freed.old) self.old then board_closed number self.old else self.old) }
        ensures seen { (vs : List Number) (hs : List Holder) → seen self.new vs hs ≡ (if may_close number (vec_capacity freed.old - vec_len freed.old) self.old then closed_at (seen self.old vs hs) number else seen self.old vs hs) }
        ensures leaving { (vs : List Number) (hs : List Holder) → leaving_from number self.old ≡ leaving (seen self.old vs hs) number }
    {
        let port = self.ports.get_mut(number)?;
        port.channel.close(&mut self.waiting, freed).ok()
    }
}
