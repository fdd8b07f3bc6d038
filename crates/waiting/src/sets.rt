// Sets of the 64 routines: a number, whose binary digit r is 1 where routine r is in the set.
ghost use Rattle.std.specs.Prelude.{◌≡◌, ℕ, ◌<◌, ◌&&◌, ◌||◌, not, ◌==◌, IfSome};
ghost use Rattle.waiting.specs.Marks.{has as has_routine};

// Whether a routine is in a set, whatever its number.
pub(crate) fn has(set: u64, routine: u8) -> bool
    ensures { result ≡ has_routine set routine }
{
    routine < 64 && (set >> routine) & 1 == 1
}

// The set with the routine in it.
#[tactic(auto, using(crate::proofs::Digits::has_with))]
pub(crate) fn with(set: u64, routine: u8) -> u64
    requires { routine < 64 }
    ensures { (k : ℕ) → has_routine result k ≡ (has_routine set k || k == routine) }
{
    set | 1 << routine
}

// The set without the routine.
#[tactic(auto, using(crate::proofs::Digits::has_without))]
pub(crate) fn without(set: u64, routine: u8) -> u64
    requires { routine < 64 }
    ensures { (k : ℕ) → has_routine result k ≡ (has_routine set k && not (k == routine)) }
{
    set & !(1 << routine)
}

// The routine of a set that has no other.
#[tactic(auto, using(crate::proofs::Digits::has_only))]
pub(crate) fn only(set: u64) -> Option<u8>
    ensures { IfSome result (λ r. (k : ℕ) → has_routine set k ≡ (k == r)) }
{
    let lowest = set.trailing_zeros();
    if lowest < 64 && set == 1 << lowest {
        Some(lowest as u8)
    } else {
        None
    }
}
