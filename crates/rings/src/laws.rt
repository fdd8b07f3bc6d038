// What holds of every ring, for users of rings to cite.
ghost use Rattle.rings.specs.Laws.{KeepsOrder, KeepsTurns, CountsHeld, StaysApart};

use elements::Element;

// After any list of puts and takes on a fresh ring, refused ones among them: what was put is what was taken followed by
// what is held, the n-th element put was written n modulo the capacity cells after the base and nothing else was
// written, and at most the capacity is held.
#[tactic(auto, using(crate::proofs::Histories::keeps_order))]
pub fn rings_keep_order<E: Element>()
    ensures { KeepsOrder E }
{}

// The n-th element put goes n modulo the capacity cells after the base, whatever bank each call is handed.
#[tactic(auto, using(crate::proofs::Turns::keeps_turns))]
pub fn rings_keep_turns<E: Element>()
    ensures { KeepsTurns E }
{}

// A ring's count is the number of elements held.
#[tactic(auto, using(crate::proofs::Holding::length_held))]
pub fn rings_count_held<E: Element>()
    ensures { CountsHeld E }
{}

// Two rings without a cell in common leave each other's elements alone.
pub fn rings_stay_apart<E: Element>()
    ensures { StaysApart E }
{}
