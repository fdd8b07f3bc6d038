// What linking makes of the lines of a script.
ghost use Rattle.linking.specs.Links.{link_script};
ghost use Rattle.linking.specs.Stages.{Makes};

use crate::declared::{Body, Channel};
use crate::stop::Stop;
use crate::symbols::Symbols;
use lines::Line;
use std::alloc::Global;
use std::marker::Model;
use words::{Fault, Name, Refusal};

// The channels by their numbers, the linked bodies by theirs, and the number of the body `main`.
#[derive(Drop)]
pub struct Tables {
    pub(crate) channels: Vec<Channel>,
    pub(crate) bodies: Vec<Body>,
    pub(crate) main: usize,
}

impl Model for Tables {
    ghost use Rattle.std.specs.Prelude.{map};
    ghost use Rattle.linking.specs.Programs.{Program};

    ghost Value = { Program };

    ghost view = { λ t. record { channels = map (λ c. c.declared) t.channels.items; bodies = t.bodies.items; main = t.main } };
}

impl Tables {
    // Links the lines of a script; that there is no `main` is found last.
    pub(crate) fn of(lines: &[Line<Name>], heap: Global) -> Result<Tables, Stop>
        ensures { Makes (λ t. t) (link_script lines.now) result }
    {
        let symbols = Symbols::of(lines, heap)?;
        let bodies = symbols.link_bodies(lines, heap)?;
        let main = symbols.main().ok_or(Refusal::Unknown.at(0))?;
        let Symbols {
            channels,
            bodies: _,
        } = symbols;
        Ok(Tables {
            channels,
            bodies,
            main,
        })
    }
}
