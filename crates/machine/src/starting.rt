// Starting a linked script.
ghost use Rattle.std.specs.Prelude.{◌≡◌, IfOk};
ghost use Rattle.machine.specs.Starts.{first_memory, Starts};

use crate::memory::Memory;
use crate::started::Started;
use elements::{Handle, Value};
use hub::{Hub, enough};
use linking::Linked;
use routines::Routine;
use std::alloc::{AllocError, Global};
use std::collections::VecDeque;
use words::Refusal;

// Why a script was not started.
#[derive(Clone, Copy, Debug, PartialEq, Eq)]
pub enum StartError {
    Refused(Refusal),
    // memory was wanting; nothing is said of the script
    Memory,
}

// A refused start: the script as it was, and why.
#[derive(Drop)]
pub struct Unstarted {
    pub linked: Linked,
    pub error: StartError,
}

impl Memory {
    // The memory of a run at its start: routine 0 has its turn, at the first line of `main`.
    fn new(linked: &Linked, heap: Global) -> Result<Memory, AllocError>
        ensures { IfOk result (λ m. m ≡ first_memory linked.now.program) }
    {
        let mut routines = Vec::with_capacity(heap, 64)?;
        let mut turns = VecDeque::with_capacity(heap, 64)?;
        let freed = Vec::with_capacity(heap, 64)?;
        let hub = Hub::new(linked, heap)?;
        routines.push_reserved(Routine::first(linked.main()));
        turns.push_back_reserved(0);
        Ok(Memory {
            routines,
            hub,
            turns,
            over: false,
            freed,
        })
    }
}

// Starts the script: all cells of its channels are set to the zero element, and no other cell is written. Where either kind
// has too few cells, or memory is wanting, the script comes back and nothing has changed. Nothing allocates after this.
pub fn start(
    linked: Linked,
    values: &mut [Value],
    handles: &mut [Handle],
    heap: Global,
) -> Result<Started, Unstarted>
    ensures { Starts linked values.old handles.old result values.new handles.new }
{
    if !enough(values, handles) {
        let error = StartError::Refused(Refusal::Small);
        return Err(Unstarted { linked, error });
    }
    match Memory::new(&linked, heap) {
        Ok(memory) => {
            let _ = memory.hub.clear(values, handles);
            // tells that the channels lie in their cells
            prove!(memory.hub.waiting() <= 64);
            Ok(Started { linked, memory })
        }
        Err(_) => {
            let error = StartError::Memory;
            Err(Unstarted { linked, error })
        }
    }
}
