// A run, as memory keeps it, and what changes it apart from the channels.
ghost use Rattle.std.specs.Prelude.{◌≡◌, ◌<◌, ◌≤◌, length};
ghost use Rattle.runs.specs.Runs.{goes_on, release, stopped, living};
ghost use Rattle.runs.specs.Steps.{with_born, ended};
ghost use Rattle.machine.specs.Memory.{Front};

use hub::Hub;
use routines::{Item, Release, Routine, State};
use std::collections::VecDeque;
use std::marker::Model;
use waiting::Entry;

// The routines by their numbers, the channels with those who wait, and the run queue, at whose front the routine stands whose
// turn it is. A step allocates nothing: `freed` is for those whom its close releases.
#[derive(Drop)]
pub(crate) struct Memory {
    pub(crate) routines: Vec<Routine>,
    pub(crate) hub: Hub,
    pub(crate) turns: VecDeque<u8>,
    pub(crate) over: bool,
    pub(crate) freed: Vec<Entry<Item>>,
}

impl Model for Memory {
    ghost use Rattle.std.specs.Prelude.{◌≤◌, vec_capacity};
    ghost use Rattle.std.specs.VecDeque.{deque_capacity};
    ghost use Rattle.runs.specs.Runs.{Parts};
    ghost use Rattle.hub.specs.Boards.{Board};

    ghost Value = { Parts Board };

    ghost view = { λ m. record { routines = m.routines.items; hub = m.hub; turns = m.turns.items; over = m.over } };

    ghost invariant = { λ m. (64 ≤ vec_capacity m.routines) × (64 ≤ deque_capacity m.turns) × (64 ≤ vec_capacity m.freed) };
}

impl Memory {
    // The turn of that routine is done: it goes on as `x`, ready, at the end of the run queue.
    pub(crate) fn go_on(&mut self, r: u8, x: Routine)
        requires { Front r self.old }
        ensures { self.new ≡ goes_on r x self.old }
    {
        self.routines[r as usize] = Routine {
            state: State::Ready,
            ..x
        };
        self.turns.rotate_left(1);
    }

    pub(crate) fn is_over(&self) -> bool
        ensures { result ≡ self.now.over }
    {
        self.over
    }

    // The run is over, and all stands as it is.
    pub(crate) fn stop(&mut self)
        ensures { self.new ≡ stopped self.old }
    {
        self.over = true;
    }

    // A released routine joins the run queue, and will pass by the case that it was released with.
    pub(crate) fn release(&mut self, w: Release)
        requires room { length self.old.turns < 64 }
        requires there { w.routine < length self.old.routines }
        ensures { self.new ≡ release w self.old }
    {
        self.routines[w.routine as usize].state = State::Released(w.case, w.passed);
        self.turns.push_back_reserved(w.routine);
    }

    // A routine is started in that body, with a copy of all registers.
    pub(crate) fn start(&mut self, body: usize, x: Routine)
        requires room { length self.old.turns < 64 }
        requires few { length self.old.routines < 64 }
        ensures { self.new ≡ with_born body x self.old }
    {
        self.turns.push_back_reserved(self.routines.len() as u8);
        self.routines.push_reserved(x.born(body));
    }

    // The routine whose turn it is has ended.
    pub(crate) fn end(&mut self, r: u8, x: Routine)
        requires { Front r self.old }
        ensures { self.new ≡ ended r x self.old }
    {
        self.routines[r as usize] = Routine {
            state: State::Ended,
            ..x
        };
        let _ = self.turns.pop_front();
    }

    // How many routines live.
    pub(crate) fn living(&self) -> u8
        requires { length self.now.routines ≤ 64 }
        ensures { result ≡ living self.now }
    {
        let lives = |x: &&Routine| !matches!(x.state, State::Ended);
        self.routines.iter().filter(lives).count() as u8
    }
}
