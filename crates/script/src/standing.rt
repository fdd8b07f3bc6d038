// What the lines read so far leave: by it the next line is judged.
ghost use Rattle.std.specs.Prelude.{◌≡◌, IfOk};
ghost use Rattle.script.specs.Rules.{fresh, twice as is_twice, AdmitsRole};

use crate::lookup::find;
use crate::tally::Tally;
use lines::Role;
use std::alloc::{AllocError, Global};
use std::marker::Model;
use words::{Name, Refusal};

// What the lines add up to, and the names that they declare. There is room for all names from the beginning.
#[derive(Drop)]
pub struct Standing {
    tally: Tally,
    channels: Vec<Name>,
    bodies: Vec<Name>,
}

impl Model for Standing {
    ghost use Rattle.std.specs.Prelude.{◌≡◌, ◌≤◌, length, vec_capacity};
    ghost use Rattle.script.specs.Rules.{Standing};

    ghost Value = { Standing };

    ghost view = { λ s. record { tally = s.tally; channels = s.channels.items; bodies = s.bodies.items } };

    ghost invariant = { λ s. (32 ≤ vec_capacity s.channels) × (32 ≤ vec_capacity s.bodies) × (length s.channels.items ≡ s.tally.channels) × (length s.bodies.items ≡ s.tally.bodies) };
}

impl Standing {
    // Before the first line.
    pub(crate) fn new(heap: Global) -> Result<Standing, AllocError>
        ensures { IfOk result (λ s. s ≡ fresh) }
    {
        let channels = Vec::with_capacity(heap, 32)?;
        let bodies = Vec::with_capacity(heap, 32)?;
        Ok(Standing {
            tally: Tally::default(),
            channels,
            bodies,
        })
    }

    // Leaves nothing in it.
    pub(crate) fn clear(&mut self)
        ensures { self.new ≡ fresh }
    {
        self.channels.clear();
        self.bodies.clear();
        self.tally = Tally::default();
    }

    // Whether the line declares a name again.
    fn twice(&self, role: &Role<Name>) -> bool
        ensures { result ≡ is_twice self.now role.now }
    {
        match role {
            Role::Declares(_, name, _) => find(&self.channels, name).is_some(),
            Role::Opens(name) => find(&self.bodies, name).is_some(),
            _ => false,
        }
    }

    // Takes a line of that role in, if nothing speaks against it.
    pub(crate) fn admit(&mut self, role: &Role<Name>, last: bool) -> Result<(), Refusal>
        ensures { AdmitsRole self.old role.now last self.new result }
    {
        if self.tally.misplaced(role) || last && self.tally.leaves_due(role) {
            return Err(Refusal::Misplaced);
        }
        if self.tally.full(role) {
            return Err(Refusal::Full);
        }
        if self.twice(role) {
            return Err(Refusal::Twice);
        }
        match role {
            Role::Declares(_, name, _) => self.channels.push_reserved(*name),
            Role::Opens(name) => self.bodies.push_reserved(*name),
            _ => {}
        }
        self.tally = self.tally.after(role);
        Ok(())
    }
}
