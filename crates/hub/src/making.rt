// Making a hub.
ghost use Rattle.std.specs.Prelude.{◌≡◌, true, List, map, IfOk};
ghost use Rattle.elements.specs.declared.value.Value.{Value as Number};
ghost use Rattle.elements.specs.declared.handle.Handle.{Handle as Holder};
ghost use Rattle.runs.specs.Runs.{new_hub};
ghost use Rattle.hub.specs.Boards.{seen, laid, can_be_laid, new_board};

use crate::hub::Hub;
use crate::port::Port;
use lines::Kind;
use linking::{Channel, Linked};
use std::alloc::{AllocError, Global};
use waiting::Waiting;

// The channels by their numbers: the cells of each begin after those of the earlier ones of its kind.
fn lay(channels: &[Channel], heap: Global) -> Result<Vec<Port>, AllocError>
    requires { can_be_laid 0 0 0 (map (λ c. c.declared) channels.now) ≡ true }
    ensures { IfOk result (λ ps. ps.items ≡ laid 0 0 0 (map (λ c. c.declared) channels.now)) }
{
    let mut ports: Vec<Port> = Vec::with_capacity(heap, channels.len())?;
    let mut values = 0;
    let mut handles = 0;
    for channel in channels {
        let port = Port::new(ports.len() as u8, values, handles, channel.declared);
        values += port.cells(Kind::Value);
        handles += port.cells(Kind::Handle);
        ports.push_reserved(port);
    }
    Ok(ports)
}

impl Hub {
    // The channels of a linked script, open and empty, with nobody waiting. Only want of memory is an open answer.
    pub fn new(linked: &Linked, heap: Global) -> Result<Hub, AllocError>
        ensures board { IfOk result (λ h. h ≡ new_board linked.now.program.channels) }
        ensures seen { IfOk result (λ h. (vs : List Number) (hs : List Holder) → seen h vs hs ≡ new_hub linked.now.program.channels) }
    {
        let ports = lay(linked.channels(), heap)?;
        let waiting = Waiting::new(heap)?;
        Ok(Hub { ports, waiting })
    }
}
