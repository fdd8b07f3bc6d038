// Linking a script that was read, and listing one that is linked.
ghost use Rattle.std.specs.Prelude.{◌≡◌, length};
ghost use Rattle.words.specs.Pages.{Printed};
ghost use Rattle.script.specs.Texts.{show};
ghost use Rattle.linking.specs.Answers.{Links, Exact};

use crate::linked::{Linked, Unlinked};
use crate::tables::Tables;
use script::Read;
use std::alloc::Global;
use words::Refusal;

// Links the script, or gives it back as it was with its first fault. Only want of memory is an open answer.
pub fn link(script: Read, heap: Global) -> Result<Linked, Unlinked>
    ensures value { Links script result }
    ensures exact { Exact script result }
{
    match Tables::of(script.lines(), heap) {
        Ok(program) => Ok(Linked { script, program }),
        Err(stop) => Err(Unlinked { script, stop }),
    }
}

impl Linked {
    // Writes the text of the script at the front of `out`, and answers its length.
    pub fn list(&self, out: &mut [u8]) -> Result<usize, Refusal>
        ensures { Printed (length (show self.now.script)) out.old (show self.now.script) out.new result }
    {
        self.script.list(out)
    }
}
