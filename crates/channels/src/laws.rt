// What every channel keeps, for users of channels to cite.
ghost use Rattle.channels.specs.Settled.{SendsSettle, ReceivesSettle, LeavingSettles, JoiningSettles, ClosingFreesAll};
ghost use Rattle.channels.specs.Orders.{FirstInFirstOut};
ghost use Rattle.channels.specs.Places.{NthCell};

use elements::Element;

// At most the capacity is buffered; a receiver waits only at an open channel with an empty buffer, a sender only at an
// open one with a full buffer: every send and receive keeps this, and so does whoever leaves, and whoever joins with
// cases that cannot go. After a close nobody waits.
pub fn channels_stay_settled<E: Element, X: Copy>()
    ensures sends { SendsSettle E X }
    ensures receives { ReceivesSettle E X }
    ensures leaving { LeavingSettles E X }
    ensures joining { JoiningSettles E X }
    ensures closing { ClosingFreesAll X }
{}

// Along any list of sends, receives, joins, departures and closes on a settled channel: what was buffered and what was
// accepted is what was received, in order, followed by what is buffered.
pub fn channels_keep_order<E: Element, X: Copy>()
    ensures { FirstInFirstOut E X }
{}

// Along any list of sends, receives and closes on a new channel, whatever cells and queues each of them meets: the n-th
// element that it buffers is written n mod capacity cells after its base, and nothing else is written.
#[tactic(auto, using(crate::proofs::Places::nth_cell))]
pub fn channels_keep_places<E: Element, X: Copy>()
    ensures { NthCell E X }
{}
