// The waiting line as data.
use crate::wish::Wish;
use std::marker::Model;

// The routines that wait, the one that has waited longest first, and a table of their cases: a row for each routine,
// with room for 8, so that who joins needs no memory. No queue is kept: each is read from these two. A row is a Vec and
// no ArrayVec of 8 (tried: making one asks that 8 cases of type X fit in memory, which callers of `new` would have to show).
// Two things are told again, as sets of routines: who waits at all, and in the marks, for each queue, who stands in it. So
// no call reads the cases of those who wait elsewhere, and where one routine alone stands in a queue its front is at hand.
#[derive(Drop)]
pub struct Waiting<X> {
    pub(crate) line: Vec<u8>,
    pub(crate) table: Vec<Vec<Option<Wish<X>>>>,
    pub(crate) present: u64,
    pub(crate) marks: Vec<u64>,
}

impl<X> Model for Waiting<X> {
    ghost use Rattle.std.specs.Prelude.{◌≡◌, ◌≤◌, length, map, vec_items, vec_len, vec_capacity};
    ghost use Rattle.std.specs.List.{All};
    ghost use Rattle.waiting.specs.Lines.{State};
    ghost use Rattle.waiting.specs.Queues.{Orderly};
    ghost use Rattle.waiting.specs.Marks.{IsPresent, Exact};

    ghost Value = { State X };

    ghost view = { λ w. record { line = w.line.items; table = map vec_items w.table.items } };

    ghost invariant = { λ w. Orderly 64 w.line.items × (64 ≤ vec_capacity w.line) × (vec_len w.table ≡ 64) × All (λ row. (length row.items ≤ 8) × (8 ≤ vec_capacity row)) w.table.items × IsPresent w.line.items w.present × (vec_len w.marks ≡ 512) × Exact w.line.items (map vec_items w.table.items) w.marks.items };
}
