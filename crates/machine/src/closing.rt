// A turn that closes a channel.
ghost use Rattle.std.specs.Prelude.{◌≡◌, ◌+◌, ◌<◌, ◌≤◌, ◌^◌, Bool, false, length};
ghost use Rattle.std.specs.List.{All};
ghost use Rattle.std.specs.VecDeque.{deque_capacity};
ghost use Rattle.reports.specs.declared.report.Deed.TheVariants.{Closes};
ghost use Rattle.routines.specs.Registers.{at_line};
ghost use Rattle.runs.specs.Orderly.{Orderly};
ghost use Rattle.runs.specs.Runs.{goes_on, release_all};
ghost use Rattle.runs.specs.Taking.{dismissed};
ghost use Rattle.hub.specs.Boards.{Board};
ghost use Rattle.hub.specs.Deals.{port, leaving_from};
ghost use Rattle.machine.specs.Memory.{Front, told, run_of, dismissed_all, closing_memory};

use crate::memory::Memory;
use crate::turn::Turn;
use reports::{Deed, Report};
use routines::{Item, Passed, Release, Routine, State};
use std::collections::VecDeque;
use waiting::{Entry, Wish};

// How a close of that channel releases who waits with that entry.
fn dismissed(w: &Entry<Item>, channel: u8) -> Release
    ensures { result ≡ dismissed w.now channel w.now.wish }
{
    let passed = match w.wish {
        Wish::Send(_, _) => Passed::Broken,
        Wish::Receive(_) => Passed::Drained(channel),
    };
    Release {
        routine: w.routine,
        case: w.case,
        passed,
    }
}

// Those whom a close of that channel freed join the run queue, in order, and will pass by their cases. Not a method of
// `Memory`, since `freed` is lent from there too.
fn release_all(
    routines: &mut [Routine],
    turns: &mut VecDeque<u8>,
    channel: u8,
    freed: &[Entry<Item>],
)
    requires there { All (λ w. w.routine < length routines.old) freed.now }
    requires room { length turns.old.items + length freed.now ≤ deque_capacity turns.old }
    ensures run { (h : Board) (over : Bool) → run_of routines.new h turns.new.items over ≡ release_all (dismissed_all channel freed.now) (run_of routines.old h turns.old.items over) }
    ensures room { deque_capacity turns.new ≡ deque_capacity turns.old }
{
    for entry in freed {
        let w = dismissed(entry, channel);
        routines[w.routine as usize].state = State::Released(w.case, w.passed);
        turns.push_back_reserved(w.routine);
    }
}

impl Memory {
    // Closes that channel, which is open, and releases all who wait there; the answer is how many.
    fn dismiss(&mut self, channel: u8) -> u8
        requires orderly { Orderly (length self.old.routines) self.old.turns self.old.hub.line }
        requires there { channel < length self.old.hub.ports }
        requires open { (port self.old.hub.ports channel).channel.closed ≡ false }
        ensures count { result ≡ length (leaving_from channel self.old.hub) }
        ensures memory { self.new ≡ closing_memory channel self.old }
    {
        self.freed.clear();
        // It is there and open, and there is room to note all: it closes.
        let _ = self.hub.close(channel as usize, &mut self.freed);
        release_all(&mut self.routines, &mut self.turns, channel, &self.freed);
        self.freed.len() as u8
    }

    // The turn that closes that channel.
    #[tactic(auto, using(crate::proofs::Dismissals::closing_front))]
    pub(crate) fn close(&mut self, turn: &Turn, channel: u8) -> Report
        requires front { Front turn.now.number self.old }
        requires next { turn.now.routine.line + 1 < 2 ^ 64 }
        requires orderly { Orderly (length self.old.routines) self.old.turns self.old.hub.line }
        requires there { channel < length self.old.hub.ports }
        requires open { (port self.old.hub.ports channel).channel.closed ≡ false }
        ensures report { result ≡ told turn.now.number turn.now.line (Closes channel (length (leaving_from channel self.old.hub))) }
        ensures memory { self.new ≡ goes_on turn.now.number (at_line (turn.now.routine.line + 1) turn.now.routine) (closing_memory channel self.old) }
    {
        let count = self.dismiss(channel);
        let x = turn.routine;
        self.done(
            turn,
            Routine {
                line: x.line + 1,
                ..x
            },
            Deed::Closes(channel, count),
        )
    }
}
