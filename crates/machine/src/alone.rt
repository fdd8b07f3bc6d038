// A turn at a line that is no select, or at a body's end.
ghost use Rattle.std.specs.Prelude.{◌≡◌, ◌+◌, ◌^◌, ◌<◌, ◌≤◌, List, length, nat_lt, None, IfSome};
ghost use Rattle.linking.specs.declared.operation.Operation.{Operation as Op};
ghost use Rattle.runs.specs.Cases.{channel_for};
ghost use Rattle.runs.specs.Orderly.{Orderly};
ghost use Rattle.runs.specs.Steps.{at_operation, starting, closing};
ghost use Rattle.machine.specs.Memory.{Front, MadeBy};
ghost use Rattle.machine.specs.Needs.{LowOperand, LowOperation, Quiet, is_plain};

use crate::cases::channel_meant;
use crate::memory::Memory;
use crate::turn::Turn;
use lines::Operand;
use linking::Operation;
use reports::{Deed, Panic, Report};

impl Memory {
    // Starts a routine in that body, unless 64 were started before.
    fn start_in(&mut self, turn: &Turn, body: usize) -> Report
        requires front { Front turn.now.number self.old }
        requires orderly { Orderly (length self.old.routines) self.old.turns self.old.hub.line }
        requires next { turn.now.routine.line + 1 < 2 ^ 64 }
        ensures { MadeBy (λ run m. starting run m turn.now.number turn.now.line turn.now.routine body (nat_lt (length run.routines) 64)) result self.old self.new }
    {
        if self.routines.len() < 64 {
            return self.start_another(turn, body);
        }
        self.halt(turn, Deed::Panics(Panic::Crowded))
    }

    // Closes the channel that is meant: nil and a closed one panic.
    fn close_meant(&mut self, turn: &Turn, operand: Operand<usize>) -> Report
        requires front { Front turn.now.number self.old }
        requires orderly { Orderly (length self.old.routines) self.old.turns self.old.hub.line }
        requires next { turn.now.routine.line + 1 < 2 ^ 64 }
        requires few { length self.old.hub.ports ≤ 32 }
        requires low { LowOperand (length self.old.hub.ports) operand }
        ensures { MadeBy (λ run m. closing run m turn.now.number turn.now.line turn.now.routine (channel_for run.hub.channels turn.now.routine operand)) result self.old self.new }
    {
        match channel_meant(&self.hub, &turn.routine, operand) {
            None => self.halt(turn, Deed::Panics(Panic::NilClose)),
            Some(channel) if self.hub.is_closed(usize::from(channel)) => {
                self.halt(turn, Deed::Panics(Panic::ClosedTwice))
            }
            Some(channel) => self.close(turn, channel),
        }
    }

    // A turn at a line that is no select, or at the body's end.
    pub(crate) fn act_alone(&mut self, turn: &Turn, operation: Option<Operation>) -> Report
        requires front { Front turn.now.number self.old }
        requires orderly { Orderly (length self.old.routines) self.old.turns self.old.hub.line }
        requires few { length self.old.hub.ports ≤ 32 }
        requires next { IfSome operation (λ _. turn.now.routine.line + 1 < 2 ^ 64) }
        requires low { IfSome operation (LowOperation (length self.old.hub.ports)) }
        requires quiet { Quiet operation }
        requires end { operation ≡ None → turn.now.line ≡ 0 }
        ensures { (rest : List Op) → MadeBy (λ run m. at_operation run m turn.now.number turn.now.line turn.now.routine rest operation) result self.old self.new }
    {
        match operation {
            None if turn.number == 0 => self.finish(turn),
            None => self.end_turn(turn),
            Some(Operation::Close(operand)) => self.close_meant(turn, operand),
            Some(Operation::Start(body)) => self.start_in(turn, body),
            Some(Operation::Print(register)) => self.print(turn, register),
            Some(operation) => {
                prove!(is_plain(&operation));
                self.plain(turn, &operation)
            }
        }
    }
}

// Whether the line only writes registers or jumps; the only other lines are selects, closes, starts and prints.
fn is_plain(operation: &Operation) -> bool
    ensures { result ≡ is_plain operation.now }
{
    !matches!(
        operation,
        Operation::Alone(_)
            | Operation::Select(_)
            | Operation::Close(_)
            | Operation::Start(_)
            | Operation::Print(_)
    )
}
