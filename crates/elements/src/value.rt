// Signed numbers of 32 bits as elements.
ghost use Rattle.std.specs.Prelude.{FitsSigned};
ghost use Rattle.std.specs.Int.{w32};
ghost use Rattle.elements.specs.Codes.{value_code, value_zero};
ghost use Rattle.std.proofs.Common.{rules};

use crate::element::Element;

#[derive(Clone, Copy, PartialEq, Eq, Debug)]
pub struct Value {
    pub number: i32,
}

impl Element for Value {
    const CELLS: usize = 512;

    ghost CELLS = { 512 };

    ghost nought = { value_zero };

    ghost coded = { value_code };

    ghost holds = { λ v. FitsSigned w32 v.number };

    ghost laws = { Prim.search rules };

    fn zero() -> Value {
        Value { number: 0 }
    }

    fn code(self) -> u32 {
        self.number.cast_unsigned()
    }
}
