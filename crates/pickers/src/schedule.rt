// The schedule picker: plays a list of picks, each for one routine, from the front.
ghost use Rattle.std.specs.Prelude.{◌≡◌, ◌<◌, true, Some};
ghost use Rattle.pickers.specs.Meaning.{Meaning};
ghost use Rattle.pickers.specs.Schedule.{serves as serves_query, scheduled};
ghost use Rattle.pickers.specs.ScheduleFacts.{scheduled_lawful};
ghost use Rattle.pickers.specs.Shown.{pick_shown};

use crate::picker::{Picker, Query};
use crate::ready::has;
use std::fmt;

// One pick: this routine takes this case. Any numbers may stand here.
#[derive(Clone, Copy)]
pub struct Pick {
    pub routine: u32,
    pub case: u32,
}

impl fmt::Display for Pick {
    ghost output = { λ p. Some (pick_shown p) };

    fn fmt<W: fmt::Write>(&self, f: &mut fmt::Formatter<W>) -> fmt::Result {
        write!(f, "PK {} {}", self.routine, self.case)
    }
}

impl Pick {
    // Whether it names this routine and a ready case.
    fn serves(&self, query: Query) -> bool
        ensures value { result ≡ serves_query self.now query }
        ensures bound { result ≡ true → self.now.case < 8 }
    {
        self.routine == query.routine && has(query.ready, self.case)
    }
}

// The picks that are left of a list that the caller lends.
#[derive(Drop)]
pub struct Schedule<'a> {
    picks: &'a [Pick],
}

impl<'a> Schedule<'a> {
    // The schedule of the whole list.
    pub fn new(picks: &'a [Pick]) -> Schedule<'a>
        ensures value { result.picks.now ≡ picks.now }
        ensures means { scheduled result.picks.now ≡ scheduled picks.now }
    {
        Schedule { picks }
    }
}

impl<'a> Picker for Schedule<'a> {
    ghost meaning = { λ s. scheduled s.picks.now };

    ghost lawful = { λ s. scheduled_lawful s.picks.now };

    // Answers the first pick's case and drops that pick, if it names this routine and a ready case.
    fn pick(&mut self, query: Query) -> Option<u8> {
        let (first, rest) = self.picks.split_first()?;
        if !first.serves(query) {
            return None;
        }
        self.picks = rest;
        Some(first.case as u8)
    }
}
