// The channels of a run as data, and what can be asked of them.
ghost use Rattle.std.specs.Prelude.{◌≡◌, ◌≤◌, List, length, if◌then◌else◌};
ghost use Rattle.std.specs.List.{slice_get};
ghost use Rattle.std.specs.Option.{option_map};
ghost use Rattle.elements.specs.declared.value.Value.{Value as Number};
ghost use Rattle.elements.specs.declared.handle.Handle.{Handle as Holder};
ghost use Rattle.waiting.specs.Queues.{queue, Orderly};
ghost use Rattle.waiting.specs.Laws.{may_join};
ghost use Rattle.runs.specs.Runs.{channel, joins};
ghost use Rattle.runs.specs.Cases.{can_go};
ghost use Rattle.channels.specs.Settled.{some};
ghost use Rattle.hub.specs.Boards.{Placed, Enough, seen, has_room as room, has_some as element};
ghost use Rattle.hub.specs.Deals.{port, board_joined};

use crate::port::Port;
use lines::Kind;
use routines::Item;
use std::marker::Model;
use waiting::{Queue, Side, Waiting, Wish};

// The channels by their numbers, and who waits at them.
#[derive(Drop)]
pub struct Hub {
    pub(crate) ports: Vec<Port>,
    pub(crate) waiting: Waiting<Item>,
}

impl Model for Hub {
    ghost use Rattle.hub.specs.Boards.{Board, Placed};

    ghost Value = { Board };

    ghost view = { λ h. record { ports = h.ports.items; line = h.waiting.line; wishes = h.waiting.table } };

    ghost invariant = { λ h. Placed 0 0 0 h.ports.items };
}

impl Hub {
    // How many routines wait; and what is true of every hub, which a Model's invariant does not tell elsewhere: a caller has
    // it from this call.
    #[tactic(auto, using(crate::proofs::Boards::few_channels))]
    pub fn waiting(&self) -> usize
        ensures is { result ≡ length self.now.line }
        ensures few { result ≤ 64 }
        ensures once { Orderly 64 self.now.line }
        ensures whole { length self.now.wishes ≡ 64 }
        ensures placed { Placed 0 0 0 self.now.ports }
        ensures channels { length self.now.ports ≤ 32 }
    {
        self.waiting.len()
    }

    // The kind of that channel, if there is one.
    pub fn kind(&self, number: usize) -> Option<Kind>
        ensures is { result ≡ option_map (λ p. p.kind) (slice_get self.now.ports number) }
        ensures seen { (vs : List Number) (hs : List Holder) → result ≡ option_map (λ c. c.kind) (slice_get (seen self.now vs hs).channels number) }
    {
        self.ports.get(number).map(|port| port.kind)
    }

    // Whether that channel is there and was closed.
    pub fn is_closed(&self, number: usize) -> bool
        ensures is { result ≡ (port self.now.ports number).channel.closed }
        ensures seen { (vs : List Number) (hs : List Holder) → result ≡ (channel (seen self.now vs hs) number).closed }
    {
        self.ports
            .get(number)
            .is_some_and(|port| port.channel.is_closed())
    }

    // Whether that channel is closed or buffers less than its capacity.
    fn has_room(&self, number: u8) -> bool
        ensures is { result ≡ room (port self.now.ports number).channel }
        ensures placed { Placed 0 0 0 self.now.ports }
    {
        self.ports
            .get(usize::from(number))
            .is_some_and(|port| port.has_room())
    }

    // Whether that channel is closed or buffers an element.
    fn has_some(&self, number: u8) -> bool
        ensures is { result ≡ element (port self.now.ports number).channel }
        ensures placed { Placed 0 0 0 self.now.ports }
    {
        self.ports
            .get(usize::from(number))
            .is_some_and(|port| port.has_some())
    }

    // Whether somebody waits at that channel, on that side.
    fn someone_waits(&self, side: Side, channel: u8) -> bool
        ensures { result ≡ some (queue side channel self.now.line self.now.wishes) }
    {
        self.waiting.first(Queue { side, channel }).is_some()
    }

    // Whether a case can go; one that never goes is None. A channel that is not there counts as open, empty and of capacity 0.
    #[tactic(auto, using(crate::proofs::Boards::send_goes, crate::proofs::Boards::receive_goes))]
    pub fn can_go(&self, wish: Option<Wish<Item>>) -> bool
        ensures { (vs : List Number) (hs : List Holder) → Enough vs hs → result ≡ can_go (seen self.now vs hs) wish }
    {
        match wish {
            None => false,
            Some(Wish::Send(number, _)) => self.has_room(number)
                || self.someone_waits(Side::Receivers, number),
            Some(Wish::Receive(number)) => self.has_some(number)
                || self.someone_waits(Side::Senders, number),
        }
    }

    // The routine joins the end of the line with its cases, and with each stands behind all others. False, and nothing
    // changes, where there is no such routine, it has over 8 cases or it waits already.
    pub fn join(&mut self, routine: u8, wishes: &[Option<Wish<Item>>]) -> bool
        ensures answer { result ≡ may_join routine (length wishes.now) self.old.line }
        ensures board { self.new ≡ (if result then board_joined routine wishes.now self.old else self.old) }
        ensures seen { (vs : List Number) (hs : List Holder) → seen self.new vs hs ≡ (if result then joins routine wishes.now (seen self.old vs hs) else seen self.old vs hs) }
    {
        self.waiting.join(routine, wishes)
    }
}
