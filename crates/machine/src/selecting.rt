// A turn at a select.
ghost use Rattle.std.specs.Prelude.{◌≡◌, ◌≤◌, length, map, true};
ghost use Rattle.std.specs.List.{All};
ghost use Rattle.waiting.specs.Laws.{may_join};
ghost use Rattle.pickers.specs.Meaning.{Meaning};
ghost use Rattle.pickers.specs.Sets.{OneOf};
ghost use Rattle.pickers.specs.Choosing.{taken};
ghost use Rattle.runs.specs.Cases.{branch, default_from, wishes_of, ready_set};
ghost use Rattle.runs.specs.Orderly.{Orderly};
ghost use Rattle.runs.specs.Steps.{selecting, chosen_case};
ghost use Rattle.hub.specs.Boards.{Enough, seen};
ghost use Rattle.machine.specs.Memory.{Front, Made, seen_run, unready, unready_report};
ghost use Rattle.machine.specs.Needs.{Low};

use crate::cases::{default_of, ready, wishes};
use crate::memory::Memory;
use crate::turn::Turn;
use elements::{Handle, Value};
use linking::Operation;
use pickers::{Choice, Picker, Query, choose};
use reports::{Deed, Pass, Picked, Report};
use routines::{Item, Routine};
use waiting::Wish;

impl Memory {
    // No case can go: the default is passed, and without one the routine waits.
    fn none_ready(&mut self, turn: &Turn, cases: &[Operation], row: &[Option<Wish<Item>>]) -> Report
        requires front { Front turn.now.number self.old }
        requires short { length cases.now ≤ 8 }
        requires joins { may_join turn.now.number (length row.now) self.old.hub.line ≡ true }
        ensures report { result ≡ unready_report turn.now.number turn.now.line (default_from 0 (map branch cases.now)) }
        ensures memory { self.new ≡ unready turn.now.number turn.now.routine row.now (default_from 0 (map branch cases.now)) self.old }
    {
        match default_of(cases) {
            None => self.wait(turn, row),
            Some((k, target)) => {
                let x = Routine {
                    line: target,
                    ..turn.routine
                };
                self.done(turn, x, Deed::Passes(k, Pass::Default))
            }
        }
    }

    // A case was chosen, or none: it is taken, the turn passes by the default or waits, or the run departs.
    fn take_chosen(
        &mut self,
        turn: &Turn,
        cases: &[Operation],
        row: &[Option<Wish<Item>>],
        choice: Choice,
        values: &mut [Value],
        handles: &mut [Handle],
    ) -> Report
        requires enough { Enough values.old handles.old }
        requires few { length self.old.hub.ports ≤ 32 }
        requires orderly { Orderly (length self.old.routines) self.old.turns self.old.hub.line }
        requires front { Front turn.now.number self.old }
        requires short { length cases.now ≤ 8 }
        requires low { All (λ o. Low (length self.old.hub.ports) (branch o).exchange) cases.now }
        requires row { row.now ≡ wishes_of (seen self.old.hub values.old handles.old).channels turn.now.routine (map branch cases.now) }
        requires ready { OneOf (ready_set (seen self.old.hub values.old handles.old) row.now) (taken choice) }
        ensures { (m : Meaning) → Made (chosen_case (seen_run self.old values.old handles.old) m turn.now.number turn.now.line turn.now.routine (map branch cases.now) choice) result self.old self.new values.old values.new handles.old handles.new }
    {
        match choice {
            Choice::NoneReady => self.none_ready(turn, cases, row),
            Choice::OneReady(k) => self.take(turn, cases, k, None, values, handles),
            Choice::Asked(None) => self.halt(turn, Deed::Departs),
            Choice::Asked(Some(case)) => {
                let picked = Picked {
                    routine: turn.number,
                    case,
                };
                self.take(turn, cases, case, Some(picked), values, handles)
            }
        }
    }

    // Of at most 8 cases one that can go is taken: the only one, or of more the one that the picker names. Where it names
    // none, the run departs.
    pub(crate) fn select<P: Picker>(
        &mut self,
        turn: &Turn,
        cases: &[Operation],
        picker: &mut P,
        values: &mut [Value],
        handles: &mut [Handle],
    ) -> Report
        requires enough { Enough values.old handles.old }
        requires few { length self.old.hub.ports ≤ 32 }
        requires orderly { Orderly (length self.old.routines) self.old.turns self.old.hub.line }
        requires front { Front turn.now.number self.old }
        requires short { length cases.now ≤ 8 }
        requires low { All (λ o. Low (length self.old.hub.ports) (branch o).exchange) cases.now }
        ensures made { Made (selecting (seen_run self.old values.old handles.old) (P.meaning picker.old) turn.now.number turn.now.line turn.now.routine (map branch cases.now)) result self.old self.new values.old values.new handles.old handles.new }
        ensures then { P.meaning picker.new ≡ (selecting (seen_run self.old values.old handles.old) (P.meaning picker.old) turn.now.number turn.now.line turn.now.routine (map branch cases.now)).meaning }
    {
        let row = wishes(&self.hub, &turn.routine, cases);
        let row = &row[..cases.len()];
        let query = Query {
            routine: u32::from(turn.number),
            ready: ready(&self.hub, row),
        };
        let choice = choose(picker, query);
        self.take_chosen(turn, cases, row, choice, values, handles)
    }
}
