// Ready sets: which of the cases 0 to 7 are ready, as a number whose binary digit k is 1 where case k is ready.
// Every `u8` is such a set, as the rule has it, so that a struct around it would hold nothing more.
ghost use Rattle.std.specs.Prelude.{◌≡◌, ◌<◌, true, length};
ghost use Rattle.pickers.specs.Sets.{has as has_case, cases, onward, first, OneOf};

use std::num::NonZeroU8;

// How many cases are ready.
#[tactic(auto, using(crate::specs::SetFacts::cases_ones))]
pub fn count(ready: u8) -> u32
    ensures { result ≡ length (cases ready) }
{
    ready.count_ones()
}

// Whether a case is ready, whatever its number.
#[tactic(auto, unfolding(crate::specs::Sets::has))]
pub fn has(ready: u8, case: u32) -> bool
    ensures value { result ≡ has_case ready case }
    ensures bound { result ≡ true → case < 8 }
{
    case < 8 && (ready >> case) % 2 == 1
}

// The lowest ready case that is not below `from`, if there is one. `within` is said too, here and below: by it a picker that
// reads the set by these calls keeps its laws.
#[tactic(auto, using(crate::specs::SetFacts::found_from))]
pub fn lowest_from(ready: u8, from: u32) -> Option<u8>
    ensures value { result ≡ first (onward from (cases ready)) }
    ensures within { OneOf ready result }
{
    let high = NonZeroU8::new(ready.checked_shr(from)?)?;
    Some((from + high.trailing_zeros()) as u8)
}

// The lowest ready case, if there is one.
#[tactic(auto, using(crate::specs::SetFacts::onward_all))]
pub fn lowest(ready: u8) -> Option<u8>
    ensures value { result ≡ first (cases ready) }
    ensures within { OneOf ready result }
{
    lowest_from(ready, 0)
}
