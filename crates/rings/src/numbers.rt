// A ring's numbers.
ghost use Rattle.std.specs.Prelude.{◌≡◌};
ghost use Rattle.rings.specs.Layouts.{Sound, made};

use crate::ring::Ring;

// The largest capacity.
const MOST: usize = 64;

impl Ring {
    // A ring that holds nothing, on `capacity` cells from `base` on: at most 64, and none past the largest number.
    pub fn new(base: usize, capacity: usize) -> Option<Ring>
        ensures { result ≡ made base capacity }
    {
        if capacity > MOST || base.checked_add(capacity).is_none() {
            return None;
        }
        Some(Ring {
            base,
            capacity,
            first: 0,
            count: 0,
        })
    }

    // The first of its cells.
    pub fn base(&self) -> usize
        ensures { result ≡ self.now.base }
    {
        self.base
    }

    // How many cells it has.
    pub fn capacity(&self) -> usize
        ensures { result ≡ self.now.capacity }
    {
        self.capacity
    }

    // How many elements it holds; and what is true of every ring, which a Model's invariant does not tell elsewhere: a
    // caller has it from this call.
    pub fn count(&self) -> usize
        ensures is { result ≡ self.now.count }
        ensures sound { Sound self.now }
    {
        self.count
    }
}
