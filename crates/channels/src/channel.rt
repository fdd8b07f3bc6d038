// A channel as data, and what its calls answer.
ghost use Rattle.std.specs.Prelude.{◌≡◌};

use elements::Element;
use rings::Ring;
use waiting::Entry;

// The buffer of a channel, and whether it was closed. Who waits at it stands in the waiting line, under its number. The
// line and a bank are lent to each call apart: one line serves the channels of every kind, a bank those of one.
#[derive(Clone, Copy)]
pub struct Channel {
    pub(crate) number: u8,
    pub(crate) ring: Ring,
    pub(crate) closed: bool,
}

// What a waiting sender offers holds an element of the kind. `Into` says by a relation what it gives, and a rule needs
// the element itself.
pub trait Carries<E: Element>: Copy {
    ghost carried: { Self → E };

    fn carried_element(self) -> E
        ensures { result ≡ carried self };
}

// Where a sent element went: an `Option` of the receiver would not say it.
#[derive(Clone, Copy)]
pub enum Sent<X> {
    // To the first queued receiver, who waits no more.
    Handed(Entry<X>),
    // Into the buffer, as its newest.
    Buffered,
}

// What a receive came by.
#[derive(Clone, Copy)]
pub enum Received<E, X> {
    // The oldest buffered element; and the first queued sender, whose element is the newest in the buffer now.
    Taken(E, Option<Entry<X>>),
    // The element of the first queued sender, who waits no more.
    Handed(E, Entry<X>),
    // Nothing is buffered, no sender waits and the channel is closed: the zero element, with flag 0.
    Drained,
}
