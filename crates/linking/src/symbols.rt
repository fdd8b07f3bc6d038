// What the names of a script stand for.
ghost use Rattle.std.specs.Prelude.{◌≡◌, IfOk};
ghost use Rattle.lines.specs.Roles.{role as role_of};
ghost use Rattle.script.specs.Rules.{opens as opened};
ghost use Rattle.linking.specs.Naming.{declared as channel_declared, named_channels, body_names, known};

use crate::declared::{Channel, Declared};
use lines::{Line, Role};
use std::alloc::{AllocError, Global};
use std::marker::Model;
use words::Name;

// The channels and the bodies by their numbers.
#[derive(Drop)]
pub struct Symbols {
    pub(crate) channels: Vec<Channel>,
    pub(crate) bodies: Vec<Name>,
}

impl Model for Symbols {
    ghost use Rattle.std.specs.Prelude.{map};
    ghost use Rattle.linking.specs.Naming.{Known};

    ghost Value = { Known };

    ghost view = { λ s. record {
      names = map (λ c. c.name) s.channels.items;
      channels = map (λ c. c.declared) s.channels.items;
      bodies = s.bodies.items;
    } };
}

// The channel that a line declares, if it declares one.
fn declared(line: &Line<Name>) -> Option<Channel>
    ensures { result ≡ channel_declared (role_of line.now) }
{
    match line.role() {
        Role::Declares(kind, name, capacity) => Some(Channel {
            name,
            declared: Declared { kind, capacity },
        }),
        _ => None,
    }
}

// The name of the body that a line opens, if it opens one.
pub(crate) fn opened(line: &Line<Name>) -> Option<Name>
    ensures { result ≡ opened (role_of line.now) }
{
    match line.role() {
        Role::Opens(name) => Some(name),
        _ => None,
    }
}

// The lines and the heap go side by side, here and through linking: both are lent by who links, the lines are cut to those of
// a body on the way, and a struct of the two would say nothing.

// The channels that the lines declare. Apart from `bodies` and `of`: tried with both chains in `of`, and no proof closed;
// tried as one generic function that takes a closure, whose contract is longer than both, and no proof closed either.
fn channels(lines: &[Line<Name>], heap: Global) -> Result<Vec<Channel>, AllocError>
    ensures { IfOk result (λ found. found.items ≡ named_channels lines.now) }
{
    lines.iter().filter_map(declared).collect(heap)
}

// The names of the bodies that the lines open.
fn bodies(lines: &[Line<Name>], heap: Global) -> Result<Vec<Name>, AllocError>
    ensures { IfOk result (λ found. found.items ≡ body_names lines.now) }
{
    lines.iter().filter_map(opened).collect(heap)
}

impl Symbols {
    // All that the lines declare.
    pub(crate) fn of(lines: &[Line<Name>], heap: Global) -> Result<Symbols, AllocError>
        ensures { IfOk result (λ s. s ≡ known lines.now) }
    {
        Ok(Symbols {
            channels: channels(lines, heap)?,
            bodies: bodies(lines, heap)?,
        })
    }
}
