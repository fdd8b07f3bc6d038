// What the questions about a run answer.
use elements::{Handle, Value};
use lines::Kind;
use routines::State;

// Where a routine stands: its state, its text line, 0 at its body's end, and its registers.
#[derive(Clone, Copy)]
pub struct RoutineAnswer {
    pub state: State,
    pub line: usize,
    pub values: [Value; 8],
    pub handles: [Handle; 4],
}

// How a channel stands, how many elements it buffers, and how many entries its two queues have.
#[derive(Clone, Copy)]
pub struct ChannelAnswer {
    pub kind: Kind,
    pub capacity: usize,
    pub count: usize,
    pub closed: bool,
    pub receivers: usize,
    pub senders: usize,
}
