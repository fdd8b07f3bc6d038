// Sums and differences of values.
ghost use Rattle.std.specs.Prelude.{◌≡◌, ◌+◌, ◌-◌, ◌%◌, ◌^◌};
ghost use Rattle.elements.specs.Codes.{value_code};
ghost use Rattle.routines.specs.Registers.{plus, minus};

use elements::Value;

// The sum, modulo 2^32.
#[tactic(auto, using(crate::proofs::Sums::sum_is))]
pub fn sum(a: Value, b: Value) -> Value
    ensures value { result ≡ plus a b }
    ensures code { value_code result ≡ (value_code a + value_code b) % 2 ^ 32 }
{
    Value {
        number: a.number.wrapping_add(b.number),
    }
}

// The difference, modulo 2^32.
#[tactic(auto, using(crate::proofs::Sums::difference_is))]
pub fn difference(a: Value, b: Value) -> Value
    ensures value { result ≡ minus a b }
    ensures code { value_code result ≡ (value_code a + 2 ^ 32 - value_code b) % 2 ^ 32 }
{
    Value {
        number: a.number.wrapping_sub(b.number),
    }
}
