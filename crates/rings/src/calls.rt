// The calls on a ring and its bank.
ghost use Rattle.std.specs.Prelude.{◌≡◌, ◌+◌, ◌<◌, ◌≤◌, [], length, replicate, is_ok, if◌then◌else◌, ◌==◌, nat_le};
ghost use Rattle.rings.specs.Contents.{around};
ghost use Rattle.rings.specs.Layouts.{Sound, covers, held};
ghost use Rattle.rings.specs.Answers.{put_answer, take_answer, look_answer, clear_answer, lengthened, shortened, grown, shrunk, stored, emptied, wiped};

use crate::ring::{Ring, RingError};
use elements::Element;

// Sets each cell to the zero element. `fill` asks for a clone that cannot fail, which no kind owes, and `E::zero` itself
// as the closure is not covered: its result names the kind.
pub fn zero_all<E: Element>(cells: &mut [E])
    ensures { cells.new ≡ replicate (length cells.old) E.nought }
{
    let zero = E::zero();
    cells.fill_with(move || zero);
}

// The bank is lent anew at each call, so that `self` and `bank` stand side by side, what is held (`held`) is of both, and
// each call asks `lies_in` first: a value of the two would end with the loan, and what was asked of one bank says nothing of
// the next.
impl Ring {
    // Whether it holds no element.
    pub fn is_empty(&self) -> bool
        ensures { result ≡ (self.now.count == 0) }
    {
        self.count == 0
    }

    // Whether it holds as many elements as it has cells.
    pub fn is_full(&self) -> bool
        ensures { result ≡ nat_le self.now.capacity self.now.count }
    {
        self.count >= self.capacity
    }

    // Whether a bank has all cells of the ring; and what is true of every ring, as under `count`.
    pub fn lies_in<E: Element>(&self, bank: &[E]) -> bool
        ensures covers { result ≡ covers self.now bank.now }
        ensures sound { Sound self.now }
    {
        self.base + self.capacity <= bank.len()
    }

    // The cell that lies `offset` cells after that of the oldest element, going round at the end; counted from `base`.
    fn after(&self, offset: usize) -> usize
        requires { (0 < self.now.capacity) × (offset ≤ self.now.capacity) }
        ensures value { result ≡ around self.now.first offset self.now.capacity }
        ensures bound { result < self.now.capacity }
    {
        (self.first + offset) % self.capacity
    }

    // Buffers an element.
    #[tactic(auto, using(crate::proofs::Holding::length_held, crate::proofs::Holding::held_put))]
    pub fn put<E: Element>(&mut self, bank: &mut [E], e: E) -> Result<(), RingError>
        ensures answer { result ≡ put_answer self.old bank.old }
        ensures ring { self.new ≡ grown result self.old }
        ensures cells { bank.new ≡ stored result self.old e bank.old }
        ensures held { held self.new bank.new ≡ lengthened result e (held self.old bank.old) }
    {
        if !self.lies_in(bank) {
            return Err(RingError::ShortBank);
        }
        if self.is_full() {
            return Err(RingError::Full);
        }
        bank[self.base + self.after(self.count)] = e;
        self.count += 1;
        Ok(())
    }

    // Takes the oldest element out. Its cell is left as it is.
    #[tactic(auto, using(crate::proofs::Holding::contents_none, crate::proofs::Holding::held_take))]
    pub fn take<E: Element>(&mut self, bank: &[E]) -> Result<E, RingError>
        ensures answer { result ≡ take_answer self.old bank.now }
        ensures ring { self.new ≡ shrunk result self.old }
        ensures held { held self.new bank.now ≡ shortened result (held self.old bank.now) }
    {
        if !self.lies_in(bank) {
            return Err(RingError::ShortBank);
        }
        if self.is_empty() {
            return Err(RingError::Empty);
        }
        let e = bank[self.base + self.first];
        self.first = self.after(1);
        self.count -= 1;
        Ok(e)
    }

    // The element at a place, 0 the oldest.
    #[tactic(auto, using(crate::proofs::Holding::places))]
    pub fn look<E: Element>(&self, bank: &[E], place: usize) -> Result<E, RingError>
        ensures { result ≡ look_answer self.now bank.now place }
    {
        if !self.lies_in(bank) {
            return Err(RingError::ShortBank);
        }
        if place >= self.count {
            return Err(RingError::NoSuchPlace);
        }
        Ok(bank[self.base + self.after(place)])
    }

    // Sets the cells of the ring, and no other cell, to the zero element, and begins afresh.
    #[tactic(auto, using(crate::proofs::Holding::contents_none))]
    pub fn clear<E: Element>(&mut self, bank: &mut [E]) -> Result<(), RingError>
        ensures answer { result ≡ clear_answer self.old bank.old }
        ensures ring { self.new ≡ emptied result self.old }
        ensures cells { bank.new ≡ wiped result self.old E.nought bank.old }
        ensures held { held self.new bank.new ≡ (if is_ok result then [] else held self.old bank.old) }
    {
        if !self.lies_in(bank) {
            return Err(RingError::ShortBank);
        }
        zero_all(&mut bank[self.base..self.base + self.capacity]);
        self.first = 0;
        self.count = 0;
        Ok(())
    }
}
