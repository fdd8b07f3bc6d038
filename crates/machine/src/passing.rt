// Passing by a case: one that is taken in this turn, or one that the routine was released with.
ghost use Rattle.std.specs.Prelude.{◌≡◌, ◌<◌, ◌≤◌, length, map, true, IfSome};
ghost use Rattle.std.specs.List.{All};
ghost use Rattle.pickers.specs.Meaning.{Meaning};
ghost use Rattle.routines.specs.Registers.{at_line};
ghost use Rattle.waiting.specs.Laws.{may_join};
ghost use Rattle.reports.specs.declared.report.Deed.TheVariants.{Waits};
ghost use Rattle.runs.specs.Runs.{goes_on, routine};
ghost use Rattle.runs.specs.Cases.{branch, can_go, wish_of};
ghost use Rattle.runs.specs.Orderly.{Orderly};
ghost use Rattle.runs.specs.Steps.{released_run, written_by, taking, branch_at};
ghost use Rattle.hub.specs.Boards.{seen, Enough};
ghost use Rattle.machine.specs.Memory.{Front, Made, seen_run, settled, settled_report, waits_in, told};
ghost use Rattle.machine.specs.Needs.{Low};

use crate::cases::{exchange_of, target_of, wish_of};
use crate::memory::Memory;
use crate::turn::{Turn, accepted, pass_of, received};
use elements::{Handle, Value};
use hub::Deal;
use linking::{Exchange, Operation};
use reports::{Deed, Event, Panic, Picked, Report};
use routines::{Item, Passed, Release, Routine, State};
use waiting::Wish;

impl Memory {
    // The routine passes by the case: its registers are written, and it goes on to the case's target.
    pub(crate) fn pass(
        &mut self,
        r: u8,
        exchange: Option<Exchange<usize>>,
        target: usize,
        passed: Passed,
    )
        requires { Front r self.old }
        ensures { self.new ≡ goes_on r (at_line target (written_by exchange passed (routine self.old r))) self.old }
    {
        let mut x = self.routines[r as usize];
        if let Some(exchange) = exchange {
            x.land(exchange, passed);
        }
        x.line = target;
        self.go_on(r, x);
    }

    // Whoever is released joins the run queue.
    fn release_one(&mut self, released: Option<Release>)
        requires room { IfSome released (λ w. length self.old.turns < 64) }
        requires there { IfSome released (λ w. w.routine < length self.old.routines) }
        ensures { self.new ≡ released_run released self.old }
    {
        if let Some(w) = released {
            self.release(w);
        }
    }

    // The routine passes by case k so, and whoever it releases joins the run queue before it; a broken send panics.
    pub(crate) fn settle(
        &mut self,
        turn: &Turn,
        k: u8,
        exchange: Option<Exchange<usize>>,
        target: usize,
        picked: Option<Picked>,
        deal: Deal,
    ) -> Report
        requires front { Front turn.now.number self.old }
        requires room { IfSome deal.released (λ w. length self.old.turns < 64) }
        requires there { IfSome deal.released (λ w. w.routine < length self.old.routines) }
        ensures report { result ≡ settled_report turn.now.number turn.now.line k picked deal.passed deal.released }
        ensures memory { self.new ≡ settled turn.now.number (record { exchange = exchange; target = target }) deal.passed deal.released self.old }
    {
        let Deal { passed, released } = deal;
        if let Passed::Broken = passed {
            self.stop();
            return Report {
                picked,
                ..turn.only(Deed::Panics(Panic::ClosedSend))
            };
        }
        self.release_one(released);
        self.pass(turn.number, exchange, target, passed);
        Report {
            event: Event::Turn(turn.number, turn.line, Deed::Passes(k, pass_of(passed))),
            picked,
            accepted: accepted(turn.number, passed, released),
            received: received(turn.number, passed, released),
        }
    }

    // No case can go: the routine joins the queues with all of them.
    pub(crate) fn wait(&mut self, turn: &Turn, row: &[Option<Wish<Item>>]) -> Report
        requires front { Front turn.now.number self.old }
        requires joins { may_join turn.now.number (length row.now) self.old.hub.line ≡ true }
        ensures report { result ≡ told turn.now.number turn.now.line Waits }
        ensures memory { self.new ≡ waits_in turn.now.number turn.now.routine row.now self.old }
    {
        let _ = self.hub.join(turn.number, row);
        self.routines[turn.number as usize] = Routine {
            state: State::Waiting,
            ..turn.routine
        };
        let _ = self.turns.pop_front();
        turn.only(Deed::Waits)
    }

    // Takes case k, which can go.
    pub(crate) fn take(
        &mut self,
        turn: &Turn,
        cases: &[Operation],
        k: u8,
        picked: Option<Picked>,
        values: &mut [Value],
        handles: &mut [Handle],
    ) -> Report
        requires enough { Enough values.old handles.old }
        requires few { length self.old.hub.ports ≤ 32 }
        requires orderly { Orderly (length self.old.routines) self.old.turns self.old.hub.line }
        requires front { Front turn.now.number self.old }
        requires within { k < length cases.now }
        requires low { All (λ o. Low (length self.old.hub.ports) (branch o).exchange) cases.now }
        requires goes { can_go (seen self.old.hub values.old handles.old) (wish_of (seen self.old.hub values.old handles.old).channels turn.now.routine (branch_at (map branch cases.now) k).exchange) ≡ true }
        ensures { (m : Meaning) → Made (taking (seen_run self.old values.old handles.old) m turn.now.number turn.now.line turn.now.routine (map branch cases.now) k picked) result self.old self.new values.old values.new handles.old handles.new }
    {
        let case = &cases[k as usize];
        let exchange = exchange_of(case);
        let Some(wish) = wish_of(&self.hub, &turn.routine, exchange) else {
            unreachable!()
        };
        let Some(deal) = self.hub.take(values, handles, wish) else {
            unreachable!()
        };
        self.settle(turn, k, exchange, target_of(case), picked, deal)
    }
}
