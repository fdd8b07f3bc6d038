// What a step of a run did, as data.
ghost use Rattle.std.specs.Prelude.{◌≡◌};
ghost use Rattle.reports.specs.Causes.{number_of};

// Why a run panics.
#[derive(Clone, Copy, PartialEq, Eq, Debug)]
pub enum Panic {
    // a send on a closed channel
    ClosedSend = 1,
    // a close of a closed channel, and of nil
    ClosedTwice,
    NilClose,
    // a 65th start
    Crowded,
}

impl Panic {
    // The number that is printed for it, as `Refusal::number` of words says of its own.
    pub fn number(self) -> u8
        ensures { result ≡ number_of self }
    {
        self as u8
    }
}

// How a routine passes a case.
#[derive(Clone, Copy)]
pub enum Pass {
    // on that channel, an element of that code
    Sent(u8, u32),
    Received(u8, u32),
    // a closed, empty channel
    Drained(u8),
    Default,
}

// What a routine did in its turn.
#[derive(Clone, Copy)]
pub enum Deed {
    Plain,
    Waits,
    // that case, in that way
    Passes(u8, Pass),
    // that channel, which released so many
    Closes(u8, u8),
    // that number
    Prints(i32),
    // that routine
    Starts(u8),
    Ends,
    Finishes,
    Panics(Panic),
    Departs,
}

// A turn of a routine at a text line, 0 at a body's end; or a stall with so many living routines.
#[derive(Clone, Copy)]
pub enum Event {
    Turn(u8, u32, Deed),
    Stall(u8),
}

// Which case was picked for which routine. Not a schedule's `Pick`, in which any numbers may stand: these are bytes, so
// that a report stays short.
#[derive(Clone, Copy)]
pub struct Picked {
    pub routine: u8,
    pub case: u8,
}

// An element that a channel took from a routine or gave to one.
#[derive(Clone, Copy)]
pub struct Move {
    pub channel: u8,
    pub code: u32,
    pub routine: u8,
}

// What a step did: its event, the pick if a picker named a case, and the element that was accepted and the one that was
// received, if any.
#[derive(Clone, Copy)]
pub struct Report {
    pub event: Event,
    pub picked: Option<Picked>,
    pub accepted: Option<Move>,
    pub received: Option<Move>,
}
