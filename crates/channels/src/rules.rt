// Taking a send and taking a receive. `seen` stands in their contracts: what a rule speaks of is the channel with its bank
// and the waiting line, three values that are lent apart, and a Model is what one value stands for.
ghost use Rattle.std.specs.Prelude.{◌≡◌, ◌<◌, true, List, ◌++◌, length};
ghost use Rattle.waiting.specs.Queues.{first as first_of, released};
ghost use Rattle.rings.specs.Layouts.{covers, held};
ghost use Rattle.channels.specs.Seen.{seen, queued};
ghost use Rattle.channels.specs.Rules.{sent, after_sent, line_sent, cells_sent, laid_sent, offered};
ghost use Rattle.channels.specs.Receives.{got, got_from, after_got, line_got, cells_got, laid_got, after_filled, cells_filled, laid_filled};
ghost use Rattle.waiting.specs.declared.wish.Side.TheVariants.{Receivers, Senders};
ghost use Rattle.waiting.specs.Laws.{Served};

use crate::channel::{Carries, Channel, Received, Sent};
use crate::errors::{ReceiveError, SendError};
use elements::Element;
use waiting::{Entry, Queue, Side, Waiting, Wish};

// The element that a queued sender offers. Definitions take `carried` and `nought` apart: no bound of theirs joins the two.
fn offered_by<E: Element, X: Carries<E>>(sender: Entry<X>) -> E
    ensures { result ≡ offered X.carried E.nought sender }
{
    match sender.wish {
        Wish::Send(_, x) => x.carried_element(),
        Wish::Receive(_) => E::zero(),
    }
}

impl Channel {
    // The queue of those who wait at it on that side.
    fn queue(&self, side: Side) -> Queue
        ensures { result ≡ record { side = side; channel = self.now.number } }
    {
        Queue {
            side,
            channel: self.number,
        }
    }

    // Takes a send: the first queued receiver gets the element, or it is buffered.
    pub fn send<E: Element, X: Copy>(
        &mut self,
        waiting: &mut Waiting<X>,
        bank: &mut [E],
        e: E,
    ) -> Result<Sent<X>, SendError>
        ensures answer { result ≡ sent (seen self.old bank.old waiting.old) }
        ensures after { seen self.new bank.new waiting.new ≡ after_sent result e (seen self.old bank.old waiting.old) }
        ensures line { waiting.new ≡ line_sent result waiting.old }
        ensures cells { bank.new ≡ cells_sent result self.old.ring e bank.old }
        ensures channel { self.new ≡ laid_sent result self.old }
    {
        if !self.ring.lies_in(bank) {
            return Err(SendError::ShortBank);
        }
        if self.closed {
            return Err(SendError::Closed);
        }
        if let Some(receiver) = waiting.release_first(self.queue(Side::Receivers)) {
            return Ok(Sent::Handed(receiver));
        }
        // only `Full` can come, since the bank was asked about first. Not `From` and `?`: a ring has reasons for which a send
        // has none, and `From` would have to answer these too
        self.ring.put(bank, e).map_err(|_| SendError::Full)?;
        Ok(Sent::Buffered)
    }

    // The element of the first queued sender comes into the buffer, where there is room now.
    fn refill<E: Element, X: Carries<E>>(
        &mut self,
        waiting: &mut Waiting<X>,
        bank: &mut [E],
    ) -> Option<Entry<X>>
        requires there { covers self.old.ring bank.old ≡ true }
        requires room { length (held self.old.ring bank.old) < self.old.ring.capacity }
        ensures answer { result ≡ first_of (queued Senders self.old waiting.old) }
        ensures after { seen self.new bank.new waiting.new ≡ after_filled X.carried E.nought result (seen self.old bank.old waiting.old) }
        ensures line { waiting.new ≡ record waiting.old { line = released result waiting.old.line } }
        ensures cells { bank.new ≡ cells_filled X.carried E.nought result self.old.ring bank.old }
        ensures channel { self.new ≡ laid_filled result self.old }
    {
        let sender = waiting.release_first(self.queue(Side::Senders))?;
        let _ = self.ring.put(bank, offered_by(sender));
        Some(sender)
    }

    // With an empty buffer: the element of the first queued sender, or nothing.
    fn receive_unbuffered<E: Element, X: Carries<E>>(
        &self,
        waiting: &mut Waiting<X>,
    ) -> Result<Received<E, X>, ReceiveError>
        ensures answer { result ≡ got_from X.carried E.nought (first_of (queued Senders self.now waiting.old)) self.now.closed }
        ensures line { waiting.new ≡ line_got result waiting.old }
        ensures queues { (bank : List E) → seen self.now bank waiting.new ≡ after_got X.carried E.nought result (seen self.now bank waiting.old) }
    {
        match waiting.release_first(self.queue(Side::Senders)) {
            Some(sender) => Ok(Received::Handed(offered_by(sender), sender)),
            None if self.closed => Ok(Received::Drained),
            None => Err(ReceiveError::Empty),
        }
    }

    // Takes a receive: the oldest buffered element, else that of the first queued sender, else none.
    pub fn receive<E: Element, X: Carries<E>>(
        &mut self,
        waiting: &mut Waiting<X>,
        bank: &mut [E],
    ) -> Result<Received<E, X>, ReceiveError>
        ensures answer { result ≡ got X.carried E.nought (seen self.old bank.old waiting.old) }
        ensures after { seen self.new bank.new waiting.new ≡ after_got X.carried E.nought result (seen self.old bank.old waiting.old) }
        ensures line { waiting.new ≡ line_got result waiting.old }
        ensures cells { bank.new ≡ cells_got X.carried E.nought result self.old.ring bank.old }
        ensures channel { self.new ≡ laid_got result self.old }
    {
        if !self.ring.lies_in(bank) {
            return Err(ReceiveError::ShortBank);
        }
        match self.ring.take(bank) {
            Ok(e) => Ok(Received::Taken(e, self.refill(waiting, bank))),
            // only `Empty` can come, as in `send`, and it is no refusal here
            Err(_) => self.receive_unbuffered(waiting),
        }
    }

    // The next routine that a close releases: the first queued receiver, and where none is left the first queued
    // sender. It leaves every queue.
    pub fn release_next<X: Copy>(&self, waiting: &mut Waiting<X>) -> Option<Entry<X>>
        ensures answer { result ≡ first_of (queued Receivers self.now waiting.old ++ queued Senders self.now waiting.old) }
        ensures line { waiting.new ≡ record waiting.old { line = released result waiting.old.line } }
        ensures served { Served result waiting.old waiting.new }
    {
        // `or_else` does not say that the line is left alone where its closure is not called.
        match waiting.release_first(self.queue(Side::Receivers)) {
            Some(receiver) => Some(receiver),
            None => waiting.release_first(self.queue(Side::Senders)),
        }
    }
}
