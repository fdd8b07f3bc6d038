// Making a channel, and what can be asked of it.
ghost use Rattle.std.specs.Prelude.{◌≡◌, None, if◌then◌else◌};
ghost use Rattle.std.specs.List.{slice_get};
ghost use Rattle.rings.specs.Layouts.{Sound, covers, held};
ghost use Rattle.channels.specs.Seen.{new_channel};

use crate::channel::Channel;
use elements::Element;
use rings::Ring;

impl Channel {
    // An open channel of that number, whose buffer has the `capacity` cells from `base` on.
    pub fn new(number: u8, base: usize, capacity: usize) -> Option<Channel>
        ensures { result ≡ new_channel number base capacity }
    {
        let ring = Ring::new(base, capacity)?;
        Some(Channel {
            number,
            ring,
            closed: false,
        })
    }

    pub fn number(&self) -> u8
        ensures { result ≡ self.now.number }
    {
        self.number
    }

    // How many elements it can buffer.
    pub fn capacity(&self) -> usize
        ensures { result ≡ self.now.ring.capacity }
    {
        self.ring.capacity()
    }

    // How many elements it buffers; and what is true of its ring, as under the ring's `count`.
    pub fn count(&self) -> usize
        ensures is { result ≡ self.now.ring.count }
        ensures sound { Sound self.now.ring }
    {
        self.ring.count()
    }

    pub fn is_closed(&self) -> bool
        ensures { result ≡ self.now.closed }
    {
        self.closed
    }

    // The element at a place of its buffer, 0 the oldest. None, too, where the bank lacks a cell of it.
    pub fn look<E: Element>(&self, bank: &[E], place: usize) -> Option<E>
        ensures { result ≡ (if covers self.now.ring bank.now then slice_get (held self.now.ring bank.now) place else None) }
    {
        self.ring.look(bank, place).ok()
    }
}
