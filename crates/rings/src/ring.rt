// A ring: where its part of a bank lies, and which of the part's cells are in use.
use std::marker::Model;

// The ring has the `capacity` cells from `base` on. Its oldest element lies `first` cells after `base`, and it holds
// `count` elements, in cell after cell, the first cell following the last.
// Numbers, and no Vec or VecDeque: the caller lends the cells at each call, and nothing here may allocate.
#[derive(Clone, Copy)]
pub struct Ring {
    pub(crate) base: usize,
    pub(crate) capacity: usize,
    pub(crate) first: usize,
    pub(crate) count: usize,
}

// Clauses see its numbers.
impl Model for Ring {
    ghost use Rattle.rings.specs.Layouts.{Layout, Sound};

    ghost Value = { Layout };

    ghost view = { λ r. record { base = r.base; capacity = r.capacity; first = r.first; count = r.count } };

    ghost invariant = { λ r. Sound (view r) };

    ghost inverse = { λ l. record { base = l.base; capacity = l.capacity; first = l.first; count = l.count } };
}

// Why a call was refused.
#[derive(Clone, Copy, PartialEq, Eq, Debug)]
pub enum RingError {
    // The bank ends before the ring does.
    ShortBank,
    // All cells of the ring are in use.
    Full,
    // No cell of the ring is in use.
    Empty,
    // No element is held at the place asked for.
    NoSuchPlace,
}
