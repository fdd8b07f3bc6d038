// A name, held by value.
use std::marker::Model;

// The letters of a name, with zeros after them: no String, since reading allocates nothing. Nor the kit's `ArrayString<8>`:
// tried, and a Name may be `Copy` only where its letters give its fields back (`inverse`), but an `ArrayString` has bytes of
// unused room, of which no clause says anything. A contract sees the letters alone.
#[derive(Clone, Copy, PartialEq, Eq)]
pub struct Name {
    pub(crate) letters: [u8; 8],
}

impl Model for Name {
    ghost use Rattle.std.specs.Prelude.{ℕ, List};

    ghost Value = { List ℕ };

    ghost use Rattle.words.specs.Spelled.{spelled, padded, Padded};

    ghost view = { λ n. spelled n.letters };

    ghost invariant = { λ n. Padded n.letters };

    ghost inverse = { λ bs. record { letters = padded bs } };

    ghost inverse_ok = { λ n h i. record { letters = h i } };
}
