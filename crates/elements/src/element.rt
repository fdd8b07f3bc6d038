// What an element kind is.
ghost use Rattle.std.specs.Prelude.{◌≡◌, ℕ, length, ◌==◌, nat_le};
ghost use Rattle.elements.specs.Same.{Tells, OneCodeEach};

pub trait Element: Copy {
    // How many cells a bank of this kind has.
    const CELLS: usize;

    ghost CELLS: { ℕ };

    ghost nought: { Self };

    ghost coded: { Self → ℕ };

    // what a variable of the kind can hold
    ghost holds: { Self → Type 0 };

    // The element that a cell holds before anything is put there. Not `Default`: std's promises `is_default`, of which each
    // maker of a kind would have to show besides that it is `nought`. So `Handle::nil` keeps its name too.
    fn zero() -> Self
        ensures { result ≡ nought };

    // The number that an element is shown as. Not `Into`, which says by a relation what it gives; a law needs the number.
    fn code(self) -> u32
        ensures value { result ≡ coded self }
        ensures held { holds self };

    ghost laws: { OneCodeEach nought coded holds };
}

// Whether a bank has all the cells of its kind.
pub fn enough_cells<E: Element>(bank: &[E]) -> bool
    ensures { result ≡ nat_le E.CELLS (length bank.now) }
{
    E::CELLS <= bank.len()
}

// Whether an element is the zero element: exactly when its code is 0. By codes, here and in `same`. Tried: `Copy + PartialEq`,
// which asks more of whoever makes a kind, to derive `==` (a maker's `Pair` does not) and to prove one more law, that
// `==` tells what codes tell: without it neither clause of the two closes.
pub fn is_zero<E: Element>(e: E) -> bool
    ensures codes { result ≡ (E.coded e == 0) }
    ensures elements { Tells result (e ≡ E.nought) }
{
    e.code() == 0
}

// Whether two elements are one: exactly when their codes are.
pub fn same<E: Element>(a: E, b: E) -> bool
    ensures codes { result ≡ (E.coded a == E.coded b) }
    ensures elements { Tells result (a ≡ b) }
{
    a.code() == b.code()
}
