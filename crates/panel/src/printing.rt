// Answers, printed as lines.
ghost use Rattle.std.specs.Prelude.{◌≡◌, Some, codes};
ghost use Rattle.std.specs.List.{flat_map};
ghost use Rattle.panel.specs.Shown.{kind_word, closed_word, show_value, show_handle, show_routine, show_channel};

use calls::Answer;
use elements::{Handle, Value};
use lines::Kind;
use reports::Report;
use runs::{ChannelAnswer, RoutineAnswer};
use std::io::Write;
use std::{fmt, io};

fn kind_word(kind: Kind) -> &'static str
    ensures { result.now ≡ kind_word kind }
{
    match kind {
        Kind::Value => "value",
        Kind::Handle => "handle",
    }
}

fn closed_word(closed: bool) -> &'static str
    ensures { result.now ≡ closed_word closed }
{
    if closed { "closed" } else { "open" }
}

// The value registers, each behind a space.
#[derive(Clone, Copy)]
struct Values([Value; 8]);

impl fmt::Display for Values {
    ghost output = { λ x. Some (flat_map show_value x.0) };

    fn fmt<W: fmt::Write>(&self, f: &mut fmt::Formatter<W>) -> fmt::Result {
        for value in self.0 {
            write!(f, " {}", value.number)?;
        }
        Ok(())
    }
}

// A handle register behind a space: the number of its channel, or nil.
#[derive(Clone, Copy)]
struct Register(Handle);

impl fmt::Display for Register {
    ghost output = { λ x. Some (show_handle x.0) };

    fn fmt<W: fmt::Write>(&self, f: &mut fmt::Formatter<W>) -> fmt::Result {
        match self.0.number() {
            Some(number) => write!(f, " {number}"),
            None => write!(f, " nil"),
        }
    }
}

// The handle registers.
#[derive(Clone, Copy)]
struct Handles([Handle; 4]);

impl fmt::Display for Handles {
    ghost output = { λ x. Some (flat_map show_handle x.0) };

    fn fmt<W: fmt::Write>(&self, f: &mut fmt::Formatter<W>) -> fmt::Result {
        for handle in self.0 {
            write!(f, "{}", Register(handle))?;
        }
        Ok(())
    }
}

// The line for where a routine stands.
#[derive(Clone, Copy)]
struct RoutineLine(RoutineAnswer);

impl fmt::Display for RoutineLine {
    ghost output = { λ x. Some (show_routine x.0) };

    fn fmt<W: fmt::Write>(&self, f: &mut fmt::Formatter<W>) -> fmt::Result {
        let x = self.0;
        let values = Values(x.values);
        let handles = Handles(x.handles);
        write!(f, "ro {} {}{values}{handles}", x.state, x.line)
    }
}

// The line for how a channel stands.
#[derive(Clone, Copy)]
struct ChannelLine(ChannelAnswer);

impl fmt::Display for ChannelLine {
    ghost output = { λ x. Some (show_channel x.0) };

    fn fmt<W: fmt::Write>(&self, f: &mut fmt::Formatter<W>) -> fmt::Result {
        let x = self.0;
        let kind = kind_word(x.kind);
        let closed = closed_word(x.closed);
        write!(
            f,
            "ch {kind} {} {} {closed} {} {}",
            x.capacity, x.count, x.receivers, x.senders
        )
    }
}

// No report is longer than 128 bytes.
fn print_report<W: Write>(out: &mut W, report: &Report) -> io::Result<()> {
    let mut lines = [0u8; 128];
    let Ok(len) = report.print(&mut lines) else {
        unreachable!()
    };
    out.write_all(&lines[..len])
}

fn print_answer<W: Write>(out: &mut W, answer: &Answer) -> io::Result<()> {
    match *answer {
        Answer::Report(report) => print_report(out, &report),
        Answer::Routine(routine) => writeln!(out, "{}", RoutineLine(routine)),
        Answer::Channel(channel) => writeln!(out, "{}", ChannelLine(channel)),
        Answer::Element(code) => writeln!(out, "el {code}"),
        Answer::Refused(refusal) => writeln!(out, "NO {}", refusal.number()),
    }
}

// Prints the answers, in order.
pub(crate) fn print_answers<W: Write>(out: &mut W, answers: &[Answer]) -> io::Result<()> {
    for answer in answers {
        print_answer(out, answer)?;
    }
    Ok(())
}
