// Whose turn it is, and what is told of a turn.
ghost use Rattle.std.specs.Prelude.{◌≡◌};
ghost use Rattle.machine.specs.Memory.{told};
ghost use Rattle.runs.specs.Steps.{shown, accepted_of, received_of, either};

use reports::{Deed, Event, Move, Pass, Report};
use routines::{Passed, Release, Routine};

// A routine, the text line that it is at (0 at its body's end), and how it stands.
#[derive(Clone, Copy)]
pub(crate) struct Turn {
    pub(crate) number: u8,
    pub(crate) line: u32,
    pub(crate) routine: Routine,
}

impl Turn {
    // The report of a turn that moves no element.
    pub(crate) fn only(&self, deed: Deed) -> Report
        ensures { result ≡ told self.now.number self.now.line deed }
    {
        Report {
            event: Event::Turn(self.number, self.line, deed),
            picked: None,
            accepted: None,
            received: None,
        }
    }
}

// How a pass is told.
pub(crate) fn pass_of(passed: Passed) -> Pass
    ensures { result ≡ shown passed }
{
    match passed {
        Passed::Sent(channel, e) => Pass::Sent(channel, e.code()),
        Passed::Received(channel, e) => Pass::Received(channel, e.code()),
        Passed::Drained(channel) => Pass::Drained(channel),
        Passed::Broken => Pass::Default,
    }
}

// What a channel accepted of a routine that passes so.
fn accepted_of(routine: u8, passed: Passed) -> Option<Move>
    ensures { result ≡ accepted_of routine passed }
{
    match passed {
        Passed::Sent(channel, e) => Some(Move {
            channel,
            code: e.code(),
            routine,
        }),
        _ => None,
    }
}

// What a routine that passes so received.
fn received_of(routine: u8, passed: Passed) -> Option<Move>
    ensures { result ≡ received_of routine passed }
{
    match passed {
        Passed::Received(channel, e) => Some(Move {
            channel,
            code: e.code(),
            routine,
        }),
        _ => None,
    }
}

// What was accepted of the routine that passes, or else of the one that it releases; and what either received.
pub(crate) fn accepted(routine: u8, passed: Passed, released: Option<Release>) -> Option<Move>
    ensures { result ≡ either accepted_of routine passed released }
{
    accepted_of(routine, passed).or(released.and_then(|w| accepted_of(w.routine, w.passed)))
}

pub(crate) fn received(routine: u8, passed: Passed, released: Option<Release>) -> Option<Move>
    ensures { result ≡ either received_of routine passed released }
{
    received_of(routine, passed).or(released.and_then(|w| received_of(w.routine, w.passed)))
}
