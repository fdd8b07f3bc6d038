// What the lines read so far add up to, and which line fits after them.
ghost use Rattle.std.specs.Prelude.{◌≡◌, ◌+◌, ◌<◌, ◌≤◌, false, nat_lt};
ghost use Rattle.script.specs.Rules.{cells as cells_of, total as total_of, misplaced as is_misplaced, full as is_full, declaring, acting, after as after_line};

use lines::{Kind, Role};
use words::Name;

#[derive(Clone, Copy, Default)]
pub struct Tally {
    // channels and bodies declared, and lines of bodies. Not left to the lists of names: the rules are defined over a tally alone,
    // and with the lists' lengths beside it `misplaced` would take one number more and `full` two
    pub channels: usize,
    pub bodies: usize,
    pub lines: usize,
    // the capacities of each kind of channel together
    pub values: u32,
    pub handles: u32,
    // case lines that the last select still asks for, and whether its default came. Not an `Option` of both: `Some` with none due
    // would say what `None` says, so each step that counts down would test for it; now `due` alone says it
    pub due: u32,
    pub defaulted: bool,
}

// How many cells there are for channels of that kind. Not `CELLS` of the kind's elements: for two numbers, reading would
// depend on a crate of which it uses nothing else.
fn cells(kind: Kind) -> u32
    ensures { result ≡ cells_of kind }
{
    match kind {
        Kind::Value => 512,
        Kind::Handle => 128,
    }
}

// A kind and a capacity go side by side, as in the variant of `Role` that they come from: `Declared` of linking, a struct of
// the two, lies above, and one here would be made of a role and taken apart again.
impl Tally {
    // The capacities of that kind together.
    fn total(self, kind: Kind) -> u32
        ensures { result ≡ total_of self kind }
    {
        match kind {
            Kind::Value => self.values,
            Kind::Handle => self.handles,
        }
    }

    // Whether one more channel of that kind asks for more cells than there are.
    fn overfilled(self, kind: Kind, capacity: u32) -> bool
        ensures { result ≡ nat_lt (cells_of kind) (total_of self kind + capacity) }
    {
        u64::from(self.total(kind)) + u64::from(capacity) > u64::from(cells(kind))
    }

    // Whether a line of that role stands in the wrong part.
    pub(crate) fn misplaced(self, role: &Role<Name>) -> bool
        ensures { result ≡ is_misplaced self role.now }
    {
        match role {
            Role::Declares(_, _, _) => self.bodies > 0,
            Role::Opens(_) => self.due > 0,
            Role::Selects(_) | Role::Acts => self.bodies == 0 || self.due > 0,
            Role::Case => self.due == 0,
            Role::Default => self.due == 0 || self.defaulted,
        }
    }

    // Whether a line of that role passes a limit.
    pub(crate) fn full(self, role: &Role<Name>) -> bool
        ensures { result ≡ is_full self role.now }
    {
        match role {
            Role::Declares(kind, _, capacity) => self.channels >= 32
                || *capacity > 64
                || self.overfilled(*kind, *capacity),
            Role::Opens(_) => self.bodies >= 32,
            Role::Selects(cases) => self.lines >= 512 || *cases > 8,
            Role::Acts | Role::Case | Role::Default => self.lines >= 512,
        }
    }

    // Whether case lines are still due after a line of that role. It may pass a limit, which `after` may not.
    pub(crate) fn leaves_due(self, role: &Role<Name>) -> bool
        ensures { result ≡ nat_lt 0 (after_line self role.now).due }
    {
        match role {
            Role::Declares(_, _, _) => self.due > 0,
            Role::Opens(_) | Role::Acts => false,
            Role::Selects(cases) => *cases > 0,
            Role::Case | Role::Default => self.due > 1,
        }
    }

    // One more channel of that kind.
    fn declaring(self, kind: Kind, capacity: u32) -> Tally
        requires few { self.channels < 32 }
        requires within { total_of self kind + capacity ≤ cells_of kind }
        ensures { result ≡ declaring self kind capacity }
    {
        let mut tally = self;
        tally.channels += 1;
        match kind {
            Kind::Value => tally.values += capacity,
            Kind::Handle => tally.handles += capacity,
        }
        tally
    }

    // One more line of a body, after which that many cases are due.
    fn acting(self, due: u32, defaulted: bool) -> Tally
        requires { self.lines < 512 }
        ensures { result ≡ acting self due defaulted }
    {
        Tally {
            lines: self.lines + 1,
            due,
            defaulted,
            ..self
        }
    }

    // What a line of that role makes of it.
    pub(crate) fn after(self, role: &Role<Name>) -> Tally
        requires { is_full self role.now ≡ false }
        ensures { result ≡ after_line self role.now }
    {
        match role {
            Role::Declares(kind, _, capacity) => self.declaring(*kind, *capacity),
            Role::Opens(_) => Tally {
                bodies: self.bodies + 1,
                due: 0,
                ..self
            },
            Role::Selects(cases) => self.acting(*cases, false),
            Role::Acts => self.acting(0, self.defaulted),
            Role::Case => self.acting(self.due.saturating_sub(1), self.defaulted),
            Role::Default => self.acting(self.due.saturating_sub(1), true),
        }
    }
}
