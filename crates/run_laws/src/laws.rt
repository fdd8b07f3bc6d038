// What holds of every run, for users of runs to cite.
ghost use Rattle.run_laws.specs.Orderly.{BeginsOrderly, StaysOrderly, NeverFewer, ChannelsStay};
ghost use Rattle.run_laws.specs.Settled.{BeginsSettled, StaysSettled, StaysLawful};
ghost use Rattle.run_laws.specs.Waits.{NobodyWaitsIdly, StallsWhenAllWait, ChannelsGuarded, SoundHasFewCases};
ghost use Rattle.run_laws.specs.Elements.{StepKeepsElements, KeepsElements, ElementsInOrder};
ghost use Rattle.run_laws.specs.Moves.{StepKeepsMoves, KeepsMoves, MovesInOrder};

// At the start and after every step nobody has two turns, or waits twice, or waits and has a turn; no routine is
// forgotten, and every channel keeps its kind and its capacity.
pub fn runs_stay_orderly()
    ensures begins { BeginsOrderly }
    ensures stays { StaysOrderly }
    ensures fewer { NeverFewer }
    ensures channels { ChannelsStay }
{}

// With a picker that keeps its laws every step keeps a run settled. In a settled run nobody waits while a case of its
// line can go; a step stalls just when all who live wait; every channel buffers at most its capacity, and receivers wait
// only where a channel is open and empty, senders only where it is open and full.
pub fn runs_stay_settled()
    ensures begins { BeginsSettled }
    ensures stays { StaysSettled }
    ensures lawful { StaysLawful }
    ensures few { SoundHasFewCases }
    ensures waits { NobodyWaitsIdly }
    ensures stalls { StallsWhenAllWait }
    ensures channels { ChannelsGuarded }
{}

// In a step, in any list of steps, and from the start on: what a channel accepts is what is received from it, in order,
// and then what it buffers.
pub fn runs_keep_elements()
    ensures step { StepKeepsElements }
    ensures steps { KeepsElements }
    ensures start { ElementsInOrder }
{}

// Likewise the moves naming a routine are those that it reports passing by, in order, and then the one that it was
// released with, while its turn is still to come.
pub fn runs_keep_moves()
    ensures step { StepKeepsMoves }
    ensures steps { KeepsMoves }
    ensures start { MovesInOrder }
{}
