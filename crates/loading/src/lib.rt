// Loading: from a text to the linked script that it is.
#![tactic(auto)]

ghost use Rattle.loading.specs.Loads.{Loads, LoadsExactly};

use linking::{Linked, Stop, link};
use script::Empty;
use script_laws::read_exactly;
use std::alloc::Global;

// The linked script that a text is, or why it is none: reading's fault, else linking's. Only want of memory is an open answer.
#[tactic(auto, using(crate::proofs::Loads::loads_exactly))]
pub fn load(text: &[u8], heap: Global) -> Result<Linked, Stop>
    ensures value { Loads text.now result }
    ensures exact { LoadsExactly text.now result }
{
    let empty = Empty::new(heap)?;
    let script = read_exactly(empty, text).map_err(|unread| unread.fault)?;
    link(script, heap).map_err(|unlinked| unlinked.stop)
}
