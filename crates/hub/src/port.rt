// A channel of either kind.
ghost use Rattle.std.specs.Prelude.{◌≡◌, ◌≤◌, None, if◌then◌else◌};
ghost use Rattle.std.specs.List.{slice_get};
ghost use Rattle.routines.specs.Items.{as_kind};
ghost use Rattle.channels.specs.Rules.{sent, after_sent, line_sent, laid_sent};
ghost use Rattle.channels.specs.Receives.{got, after_got, line_got, laid_got};
ghost use Rattle.linking.specs.Sound.{cells_for};
ghost use Rattle.hub.specs.Boards.{base_for as first_cell, new_port, buffered, declared, has_room as room, has_some as element};
ghost use Rattle.hub.specs.Ports.{told_of, there, seen_in, zero_of, values_sent, handles_sent, values_got, handles_got};

use crate::item::items;
use channels::{Channel, ReceiveError, Received, SendError, Sent};
use elements::{Handle, Value};
use lines::Kind;
use linking::Declared;
use routines::Item;
use runs::ChannelAnswer;
use waiting::Waiting;

#[derive(Clone, Copy)]
pub struct Port {
    pub(crate) kind: Kind,
    pub(crate) channel: Channel,
}

// Where the cells of a channel of that kind begin, the earlier ones having so many cells of each kind.
fn base_for(kind: Kind, values: usize, handles: usize) -> usize
    ensures { result ≡ first_cell kind values handles }
{
    match kind {
        Kind::Value => values,
        Kind::Handle => handles,
    }
}

impl Port {
    // A new channel, open and empty, behind earlier ones that have so many cells of each kind.
    #[tactic(auto, using(crate::proofs::Laid::room_for))]
    pub(crate) fn new(number: u8, values: usize, handles: usize, declared: Declared) -> Port
        requires small { declared.capacity ≤ 64 }
        requires values { values ≤ 512 }
        requires handles { handles ≤ 128 }
        ensures { result ≡ new_port number values handles declared }
    {
        let Declared { kind, capacity } = declared;
        let base = base_for(kind, values, handles);
        let channel = Channel::new(number, base, capacity as usize).unwrap();
        Port { kind, channel }
    }

    // Whether it is closed or buffers less than its capacity.
    pub(crate) fn has_room(&self) -> bool
        ensures { result ≡ room self.now.channel }
    {
        self.channel.is_closed() || self.channel.count() < self.channel.capacity()
    }

    // Whether it is closed or buffers an element.
    pub(crate) fn has_some(&self) -> bool
        ensures { result ≡ element self.now.channel }
    {
        self.channel.is_closed() || self.channel.count() > 0
    }

    // How it stands, with so many entries in its two queues.
    pub(crate) fn told(&self, receivers: usize, senders: usize) -> ChannelAnswer
        ensures { result ≡ told_of self.now receivers senders }
    {
        ChannelAnswer {
            kind: self.kind,
            capacity: self.channel.capacity(),
            count: self.channel.count(),
            closed: self.channel.is_closed(),
            receivers,
            senders,
        }
    }

    // The element at a place of its buffer, 0 the oldest.
    pub(crate) fn look(&self, values: &[Value], handles: &[Handle], place: usize) -> Option<Item>
        ensures { result ≡ (if there self.now.kind self.now.channel.ring values.now handles.now then slice_get (buffered self.now.kind self.now.channel.ring values.now handles.now) place else None) }
    {
        match self.kind {
            Kind::Value => self.channel.look(values, place).map(Item::Value),
            Kind::Handle => self.channel.look(handles, place).map(Item::Handle),
        }
    }

    // How many cells of that kind it has.
    pub(crate) fn cells(&self, kind: Kind) -> usize
        ensures { result ≡ cells_for kind (declared self.now) }
    {
        if self.kind == kind {
            self.channel.capacity()
        } else {
            0
        }
    }

    // Takes a send of an element of its kind.
    pub(crate) fn send(
        &mut self,
        waiting: &mut Waiting<Item>,
        values: &mut [Value],
        handles: &mut [Handle],
        e: Item,
    ) -> Result<Sent<Item>, SendError>
        ensures answer { result ≡ sent (seen_in self.old values.old handles.old waiting.old) }
        ensures line { waiting.new ≡ line_sent result waiting.old }
        ensures values { values.new ≡ values_sent self.old.kind result self.old.channel.ring e values.old }
        ensures handles { handles.new ≡ handles_sent self.old.kind result self.old.channel.ring e handles.old }
        ensures port { self.new ≡ record self.old { channel = laid_sent result self.old.channel } }
        ensures buffer { buffered self.new.kind self.new.channel.ring values.new handles.new ≡ (after_sent result (as_kind self.old.kind e) (seen_in self.old values.old handles.old waiting.old)).buffer }
    {
        match self.kind {
            Kind::Value => self.channel.send(waiting, values, e.value()),
            Kind::Handle => self.channel.send(waiting, handles, e.handle()),
        }
    }

    // Takes a receive.
    pub(crate) fn receive(
        &mut self,
        waiting: &mut Waiting<Item>,
        values: &mut [Value],
        handles: &mut [Handle],
    ) -> Result<Received<Item, Item>, ReceiveError>
        ensures answer { result ≡ got (as_kind self.old.kind) (zero_of self.old.kind) (seen_in self.old values.old handles.old waiting.old) }
        ensures line { waiting.new ≡ line_got result waiting.old }
        ensures values { values.new ≡ values_got self.old.kind result self.old.channel.ring values.old }
        ensures handles { handles.new ≡ handles_got self.old.kind result self.old.channel.ring handles.old }
        ensures port { self.new ≡ record self.old { channel = laid_got result self.old.channel } }
        ensures buffer { buffered self.new.kind self.new.channel.ring values.new handles.new ≡ (after_got (as_kind self.old.kind) (zero_of self.old.kind) result (seen_in self.old values.old handles.old waiting.old)).buffer }
    {
        match self.kind {
            Kind::Value => items::<Value>(self.channel.receive(waiting, values)),
            Kind::Handle => items::<Handle>(self.channel.receive(waiting, handles)),
        }
    }
}
