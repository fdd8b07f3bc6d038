// The laws over every list of calls.
ghost use Rattle.calls.specs.Carried.{KeptFollow};
ghost use Rattle.calls.specs.Laws.{AlwaysLawful, CallsFollow};

// Of every program that running can take and every picker that keeps its laws, after every list of calls; and a list of
// calls may be made in parts: the answers, the run and what is kept are those of the parts, one after the other.
pub fn laws_hold()
    ensures laws { AlwaysLawful }
    ensures parts { CallsFollow }
    ensures kept { KeptFollow }
{}
