// Choosing a case of a select: a picker is asked only where two or more cases are ready.
ghost use Rattle.std.specs.Prelude.{◌≡◌, Some};
ghost use Rattle.pickers.specs.Choosing.{chosen, after_choice, taken};
ghost use Rattle.pickers.specs.Sets.{OneOf};
ghost use Rattle.pickers.specs.Shown.{shown};

use crate::picker::{Picker, Query, ask};
use crate::ready::{count, lowest};
use std::fmt;

// What was chosen, and whether the picker was asked for it.
#[derive(Clone, Copy)]
pub enum Choice {
    NoneReady,
    OneReady(u8),
    Asked(Option<u8>),
}

impl fmt::Display for Choice {
    ghost output = { λ c. Some (shown c) };

    fn fmt<W: fmt::Write>(&self, f: &mut fmt::Formatter<W>) -> fmt::Result {
        match *self {
            Choice::NoneReady => write!(f, "none not asked"),
            Choice::OneReady(case) => write!(f, "{case} not asked"),
            Choice::Asked(None) => write!(f, "none asked"),
            Choice::Asked(Some(case)) => write!(f, "{case} asked"),
        }
    }
}

// No case of an empty set, the one case of a set of one, and else what the picker answers.
pub fn choose<P: Picker>(picker: &mut P, query: Query) -> Choice
    ensures value { result ≡ chosen (P.meaning picker.old) query }
    ensures then { P.meaning picker.new ≡ after_choice (P.meaning picker.old) query }
    ensures ready { OneOf query.ready (taken result) }
{
    if count(query.ready) >= 2 {
        return Choice::Asked(ask(picker, query));
    }
    lowest(query.ready).map_or(Choice::NoneReady, Choice::OneReady)
}
