// Pairs of bytes as elements.
ghost use Rattle.std.specs.Prelude.{◌<◌};
ghost use Rattle.maker.specs.Pairs.{no_pair, pair_code};
ghost use Rattle.std.proofs.Common.{rules};

use channels::Carries;
use elements::Element;
use std::fmt;

#[derive(Clone, Copy)]
pub struct Pair {
    pub high: u8,
    pub low: u8,
}

impl fmt::Display for Pair {
    fn fmt<W: fmt::Write>(&self, f: &mut fmt::Formatter<W>) -> fmt::Result {
        write!(f, "({}, {})", self.high, self.low)
    }
}

impl Element for Pair {
    const CELLS: usize = 16;

    ghost CELLS = { 16 };

    ghost nought = { no_pair };

    ghost coded = { λ p. pair_code p };

    ghost holds = { λ p. (p.high < 256) × (p.low < 256) };

    ghost laws = { Prim.search rules };

    fn zero() -> Pair {
        Pair { high: 0, low: 0 }
    }

    fn code(self) -> u32 {
        256 * u32::from(self.high) + u32::from(self.low)
    }
}

impl Carries<Pair> for Pair {
    ghost carried = { λ p. p };

    fn carried_element(self) -> Pair {
        self
    }
}
