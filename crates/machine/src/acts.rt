// Turns that concern one routine alone: plain lines, printing, starting another, ending.
ghost use Rattle.std.specs.Prelude.{◌≡◌, ◌+◌, ◌<◌, ◌^◌, length};
ghost use Rattle.reports.specs.declared.report.Deed.TheVariants.{Plain, Prints, Starts, Ends, Finishes};
ghost use Rattle.routines.specs.Registers.{written, goes_to, plain, value_at, at_line};
ghost use Rattle.runs.specs.Runs.{goes_on, stopped};
ghost use Rattle.runs.specs.Steps.{with_born, ended};
ghost use Rattle.machine.specs.Memory.{Front, told};
ghost use Rattle.machine.specs.Needs.{LowOperation};

use crate::memory::Memory;
use crate::turn::Turn;
use elements::{Handle, Value};
use linking::Operation;
use reports::{Deed, Report};
use routines::{Routine, difference, sum};

// What a plain line writes into the registers.
fn write(x: &mut Routine, operation: &Operation)
    requires { LowOperation 32 operation.now }
    ensures { x.new ≡ written operation.now x.old }
{
    match *operation {
        Operation::Set(v, number) => x.set_value(v, Value { number }),
        Operation::Add(v, w) => x.set_value(v, sum(x.value(v), x.value(w))),
        Operation::Sub(v, w) => x.set_value(v, difference(x.value(v), x.value(w))),
        Operation::Hold(h, channel) => x.set_handle(h, Handle::to_channel(channel as u16)),
        Operation::Clear(h) => x.set_handle(h, Handle::nil()),
        _ => {}
    }
}

// The line that the routine goes to.
fn goes_to(x: &Routine, operation: &Operation) -> usize
    requires { x.now.line + 1 < 2 ^ 64 }
    ensures { result ≡ goes_to operation.now x.now }
{
    match *operation {
        Operation::Jump(target) => target as usize,
        Operation::JumpNegative(v, target) if x.value(v).number < 0 => target as usize,
        _ => x.line + 1,
    }
}

// How the routine stands after a plain line.
fn after(x: &Routine, operation: &Operation) -> Routine
    requires next { x.now.line + 1 < 2 ^ 64 }
    requires low { LowOperation 32 operation.now }
    ensures { result ≡ plain operation.now x.now }
{
    let mut y = *x;
    write(&mut y, operation);
    y.line = goes_to(x, operation);
    y
}

impl Memory {
    // The turn is done, and the routine goes on as `x`.
    pub(crate) fn done(&mut self, turn: &Turn, x: Routine, deed: Deed) -> Report
        requires { Front turn.now.number self.old }
        ensures report { result ≡ told turn.now.number turn.now.line deed }
        ensures memory { self.new ≡ goes_on turn.now.number x self.old }
    {
        self.go_on(turn.number, x);
        turn.only(deed)
    }

    // The run ends in this turn, and all stands as it is.
    pub(crate) fn halt(&mut self, turn: &Turn, deed: Deed) -> Report
        ensures report { result ≡ told turn.now.number turn.now.line deed }
        ensures memory { self.new ≡ stopped self.old }
    {
        self.stop();
        turn.only(deed)
    }

    pub(crate) fn plain(&mut self, turn: &Turn, operation: &Operation) -> Report
        requires front { Front turn.now.number self.old }
        requires next { turn.now.routine.line + 1 < 2 ^ 64 }
        requires low { LowOperation 32 operation.now }
        ensures report { result ≡ told turn.now.number turn.now.line Plain }
        ensures memory { self.new ≡ goes_on turn.now.number (plain operation.now turn.now.routine) self.old }
    {
        self.done(turn, after(&turn.routine, operation), Deed::Plain)
    }

    pub(crate) fn print(&mut self, turn: &Turn, register: u8) -> Report
        requires front { Front turn.now.number self.old }
        requires next { turn.now.routine.line + 1 < 2 ^ 64 }
        ensures report { result ≡ told turn.now.number turn.now.line (Prints (value_at turn.now.routine register).number) }
        ensures memory { self.new ≡ goes_on turn.now.number (at_line (turn.now.routine.line + 1) turn.now.routine) self.old }
    {
        let x = turn.routine;
        let number = x.value(register).number;
        self.done(
            turn,
            Routine {
                line: x.line + 1,
                ..x
            },
            Deed::Prints(number),
        )
    }

    // Starts a routine in that body.
    pub(crate) fn start_another(&mut self, turn: &Turn, body: usize) -> Report
        requires front { Front turn.now.number self.old }
        requires few { length self.old.routines < 64 }
        requires room { length self.old.turns < 64 }
        requires next { turn.now.routine.line + 1 < 2 ^ 64 }
        ensures report { result ≡ told turn.now.number turn.now.line (Starts (length self.old.routines)) }
        ensures memory { self.new ≡ goes_on turn.now.number (at_line (turn.now.routine.line + 1) turn.now.routine) (with_born body turn.now.routine self.old) }
    {
        let number = self.routines.len() as u8;
        let x = turn.routine;
        self.start(body, x);
        self.done(
            turn,
            Routine {
                line: x.line + 1,
                ..x
            },
            Deed::Starts(number),
        )
    }

    // The body's end; that of routine 0 finishes the run.
    pub(crate) fn end_turn(&mut self, turn: &Turn) -> Report
        requires front { Front turn.now.number self.old }
        ensures report { result ≡ told turn.now.number turn.now.line Ends }
        ensures memory { self.new ≡ ended turn.now.number turn.now.routine self.old }
    {
        self.end(turn.number, turn.routine);
        turn.only(Deed::Ends)
    }

    pub(crate) fn finish(&mut self, turn: &Turn) -> Report
        requires front { Front turn.now.number self.old }
        ensures report { result ≡ told turn.now.number turn.now.line Finishes }
        ensures memory { self.new ≡ stopped (ended turn.now.number turn.now.routine self.old) }
    {
        self.end(turn.number, turn.routine);
        self.halt(turn, Deed::Finishes)
    }
}
