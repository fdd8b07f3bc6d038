// The turning picker: the cases take turns, upward from the last answer and round again.
ghost use Rattle.std.specs.Prelude.{◌≡◌};
ghost use Rattle.pickers.specs.Meaning.{Meaning};
ghost use Rattle.pickers.specs.Turning.{turning as turning_from, fresh_turning};
ghost use Rattle.pickers.specs.TurningFacts.{turning_lawful};

use crate::picker::{Picker, Query};
use crate::ready::{lowest, lowest_from};

// Answers the lowest ready case above its last answer, else the lowest ready case.
#[derive(Drop)]
pub struct Turning {
    last: u8,
}

impl Turning {
    // A new one goes on as if its last answer had been 7, so that the first is the lowest ready case. Not `Default`: the zero
    // that a derive gives is the wrong last answer, and by hand it would say no more than `new`.
    pub fn new() -> Turning
        ensures value { result.last ≡ 7 }
        ensures means { turning_from result.last ≡ fresh_turning }
    {
        Turning { last: 7 }
    }
}

impl Picker for Turning {
    ghost meaning = { λ t. turning_from t.last };

    ghost lawful = { λ t. turning_lawful t.last };

    fn pick(&mut self, query: Query) -> Option<u8> {
        let above = lowest_from(query.ready, u32::from(self.last) + 1);
        let case = above.or_else(|| lowest(query.ready))?;
        self.last = case;
        Some(case)
    }
}
