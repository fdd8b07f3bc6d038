// The turn of the routine at the front of the run queue.
ghost use Rattle.std.specs.Prelude.{◌≡◌, ◌+◌, ◌<◌, ◌≤◌, drop, length, None, IfSome};
ghost use Rattle.std.specs.List.{slice_get};
ghost use Rattle.reports.specs.declared.report.Event.TheVariants.{Stall};
ghost use Rattle.runs.specs.Orderly.{Orderly};
ghost use Rattle.runs.specs.Runs.{living, stopped, routine, operation_at, text_line};
ghost use Rattle.runs.specs.Steps.{at_operation, branch_at, branches_at, turn_in, step};
ghost use Rattle.hub.specs.Boards.{Enough};
ghost use Rattle.machine.specs.Memory.{Front, Made, seen_run, passed_on, passed_report, released_with};
ghost use Rattle.machine.specs.Needs.{Fit};

use crate::cases::{exchange_of, target_of};
use crate::memory::Memory;
use crate::turn::{Turn, pass_of};
use elements::{Handle, Value};
use linking::{Exchange, Linked, Operation};
use pickers::Picker;
use reports::{Deed, Event, Panic, Report};
use routines::{Passed, Routine, State};

impl Memory {
    // A turn at that operation of a body, or at the body's end. A send or a receive is a select of one case, which goes on
    // to the next line.
    #[tactic(auto, using(crate::proofs::Fits::fit_low, crate::proofs::Fits::fit_next, crate::proofs::Fits::quiet_meaning))]
    pub(crate) fn act<P: Picker>(
        &mut self,
        turn: &Turn,
        operation: Option<Operation>,
        operations: &[Operation],
        picker: &mut P,
        values: &mut [Value],
        handles: &mut [Handle],
    ) -> Report
        requires enough { Enough values.old handles.old }
        requires few { length self.old.hub.ports ≤ 32 }
        requires orderly { Orderly (length self.old.routines) self.old.turns self.old.hub.line }
        requires front { Front turn.now.number self.old }
        requires fit { Fit (length self.old.hub.ports) operations.now turn.now.routine.line operation }
        requires end { operation ≡ None → turn.now.line ≡ 0 }
        ensures made { Made (at_operation (seen_run self.old values.old handles.old) (P.meaning picker.old) turn.now.number turn.now.line turn.now.routine (drop (turn.now.routine.line + 1) operations.now) operation) result self.old self.new values.old values.new handles.old handles.new }
        ensures then { P.meaning picker.new ≡ (at_operation (seen_run self.old values.old handles.old) (P.meaning picker.old) turn.now.number turn.now.line turn.now.routine (drop (turn.now.routine.line + 1) operations.now) operation).meaning }
    {
        match operation {
            Some(Operation::Alone(exchange)) => {
                let case = [Operation::Case(exchange, turn.routine.line as u32 + 1)];
                self.select(turn, &case, picker, values, handles)
            }
            Some(Operation::Select(count)) => {
                let cases = &operations[turn.routine.line + 1..][..count as usize];
                self.select(turn, cases, picker, values, handles)
            }
            _ => self.act_alone(turn, operation),
        }
    }
}

// What case k of that operation exchanges, and the line that it goes on to; there is none at another line.
fn branch_of(
    operation: Option<Operation>,
    operations: &[Operation],
    line: usize,
    k: u8,
) -> (Option<Exchange<usize>>, usize)
    requires { IfSome operation (λ o. line < length operations.now) }
    ensures { record { exchange = result.0; target = result.1 } ≡ branch_at (branches_at line (drop (line + 1) operations.now) operation) k }
{
    match operation {
        Some(Operation::Alone(exchange)) if k == 0 => (Some(exchange), line + 1),
        Some(Operation::Select(count)) if u32::from(k) < count => {
            match operations[line + 1..].get(k as usize) {
                Some(case) => (exchange_of(case), target_of(case)),
                None => (None, 0),
            }
        }
        _ => (None, 0),
    }
}

impl Memory {
    // The turn of a routine that was released: it passes by the case that it was released with. Its elements moved then.
    fn pass_on(
        &mut self,
        turn: &Turn,
        exchange: Option<Exchange<usize>>,
        target: usize,
        k: u8,
        passed: Passed,
    ) -> Report
        requires { Front turn.now.number self.old }
        ensures report { result ≡ passed_report turn.now.number turn.now.line k passed }
        ensures memory { self.new ≡ passed_on turn.now.number (record { exchange = exchange; target = target }) passed self.old }
    {
        if let Passed::Broken = passed {
            return self.halt(turn, Deed::Panics(Panic::ClosedSend));
        }
        self.pass(turn.number, exchange, target, passed);
        turn.only(Deed::Passes(k, pass_of(passed)))
    }

    // Nobody has a turn: the run is over.
    fn stall(&mut self) -> Report
        requires { length self.old.routines ≤ 64 }
        ensures report { result ≡ record { event = Stall (living self.old); picked = None; accepted = None; received = None } }
        ensures memory { self.new ≡ stopped self.old }
    {
        let living = self.living();
        self.stop();
        Report {
            event: Event::Stall(living),
            picked: None,
            accepted: None,
            received: None,
        }
    }
}

// The text line of that operation of a body, counted from 1, and 0 at the body's end.
pub(crate) fn text_line(linked: &Linked, x: &Routine, operation: Option<Operation>) -> u32
    requires { operation_at linked.now.program x.now ≡ operation }
    ensures { result ≡ text_line linked.now.program x.now }
{
    match operation {
        Some(_) => (linked.opening_line(x.body) + 1 + x.line) as u32,
        None => 0,
    }
}

// The operation at that line of a body, if it is not at the end.
pub(crate) fn operation_at(operations: &[Operation], line: usize) -> Option<Operation>
    ensures { result ≡ slice_get operations.now line }
{
    operations.get(line).copied()
}

// By which case a routine in that state was released, and how it passes by it, if it was.
fn released_with(state: State) -> Option<(u8, Passed)>
    ensures { result ≡ released_with state }
{
    match state {
        State::Released(k, passed) => Some((k, passed)),
        _ => None,
    }
}

impl Memory {
    // The turn of that routine, which is at the front of the run queue.
    fn turn_of<P: Picker>(
        &mut self,
        number: u8,
        linked: &Linked,
        picker: &mut P,
        values: &mut [Value],
        handles: &mut [Handle],
    ) -> Report
        requires enough { Enough values.old handles.old }
        requires orderly { Orderly (length self.old.routines) self.old.turns self.old.hub.line }
        requires front { Front number self.old }
        requires channels { length self.old.hub.ports ≡ length linked.now.program.channels }
        ensures made { Made (turn_in linked.now.program (seen_run self.old values.old handles.old) (P.meaning picker.old) number (routine self.old number) (routine self.old number).state) result self.old self.new values.old values.new handles.old handles.new }
        ensures then { P.meaning picker.new ≡ (turn_in linked.now.program (seen_run self.old values.old handles.old) (P.meaning picker.old) number (routine self.old number) (routine self.old number).state).meaning }
    {
        let routine = self.routines[number as usize];
        let operations = linked.operations(routine.body);
        let operation = operation_at(operations, routine.line);
        let turn = Turn {
            number,
            line: text_line(linked, &routine, operation),
            routine,
        };
        match released_with(routine.state) {
            Some((k, passed)) => {
                let (exchange, target) = branch_of(operation, operations, routine.line, k);
                self.pass_on(&turn, exchange, target, k, passed)
            }
            None => self.act(&turn, operation, operations, picker, values, handles),
        }
    }

    // The turn of the first routine of the run queue; with nobody in it the run stalls.
    pub(crate) fn turn<P: Picker>(
        &mut self,
        linked: &Linked,
        picker: &mut P,
        values: &mut [Value],
        handles: &mut [Handle],
    ) -> Report
        requires enough { Enough values.old handles.old }
        requires orderly { Orderly (length self.old.routines) self.old.turns self.old.hub.line }
        requires channels { length self.old.hub.ports ≡ length linked.now.program.channels }
        ensures made { Made (step linked.now.program (seen_run self.old values.old handles.old) (P.meaning picker.old)) result self.old self.new values.old values.new handles.old handles.new }
        ensures then { P.meaning picker.new ≡ (step linked.now.program (seen_run self.old values.old handles.old) (P.meaning picker.old)).meaning }
    {
        match self.turns.front() {
            None => self.stall(),
            Some(&number) => self.turn_of(number, linked, picker, values, handles),
        }
    }
}
