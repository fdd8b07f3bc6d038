// A routine as data, and how one begins.
ghost use Rattle.std.specs.Prelude.{◌≡◌, Some};
ghost use Rattle.routines.specs.Registers.{first, born};
ghost use Rattle.routines.specs.States.{state_word};

use crate::item::Item;
use elements::{Element, Handle, Value};
use std::fmt;

// How a routine passes by a case, in its own turn or when it was released. Channels go by their number. Not a report's `Pass`: that has
// the code of an element, and a default, by which nobody is released.
#[derive(Clone, Copy)]
pub enum Passed {
    Sent(u8, Item),
    Received(u8, Item),
    // a closed, empty channel
    Drained(u8),
    // a send that a closed channel breaks: taken there, or released from by a close
    Broken,
}

// A routine that is released: by which of its cases, and how it will pass by it.
#[derive(Clone, Copy)]
pub struct Release {
    pub routine: u8,
    pub case: u8,
    pub passed: Passed,
}

#[derive(Clone, Copy)]
pub enum State {
    Ready,
    Waiting,
    // by that case, in that way; its turn is still to come
    Released(u8, Passed),
    Ended,
}

impl fmt::Display for State {
    ghost output = { λ state. Some (state_word state) };

    fn fmt<W: fmt::Write>(&self, f: &mut fmt::Formatter<W>) -> fmt::Result {
        match *self {
            State::Ready => write!(f, "ready"),
            State::Waiting => write!(f, "waiting"),
            State::Released(_, _) => write!(f, "released"),
            State::Ended => write!(f, "ended"),
        }
    }
}

// Which body it runs, the line of it that it is at, counted from 0, and its registers.
#[derive(Clone, Copy)]
pub struct Routine {
    pub body: usize,
    pub line: usize,
    pub state: State,
    pub values: [Value; 8],
    pub handles: [Handle; 4],
}

impl Routine {
    // The routine that a run begins with: ready at the first line of that body, its registers zero and nil.
    pub fn first(body: usize) -> Routine
        ensures { result ≡ first body }
    {
        Routine {
            body,
            line: 0,
            state: State::Ready,
            values: [Value::zero(); 8],
            handles: [Handle::nil(); 4],
        }
    }

    // A routine that this one starts: ready at the first line of that body, with a copy of all registers.
    pub fn born(&self, body: usize) -> Routine
        ensures { result ≡ born body self.now }
    {
        Routine {
            body,
            line: 0,
            state: State::Ready,
            values: self.values,
            handles: self.handles,
        }
    }
}
