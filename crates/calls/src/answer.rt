// Answers to calls, as data.
use reports::Report;
use runs::{ChannelAnswer, RoutineAnswer};
use words::Refusal;

// An element is answered by its code.
#[derive(Clone, Copy)]
pub enum Answer {
    Report(Report),
    Routine(RoutineAnswer),
    Channel(ChannelAnswer),
    Element(u32),
    Refused(Refusal),
}
