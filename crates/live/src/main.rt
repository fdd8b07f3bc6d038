// Runs a script from standard input on the turning picker and prints each report, until the run ends or 100,000 steps are
// made. A refused script prints only `NO n l`.
#![tactic(auto)]

use calls::{Answer, Call, Cells, carry_out};
use elements::{Element, Handle, Value};
use linking::{Linked, Stop};
use loading::load;
use machine::{StartError, Started, start};
use pickers::Turning;
use std::alloc::AllocError;
use std::io;
use std::io::{BufWriter, Read, Write};

// A step with all cells that a script can need.
const STEP: Call = Call::Step(Cells {
    values: Value::CELLS,
    handles: Handle::CELLS,
});

// Standard input, as far as one byte past the longest script.
fn input(rt: &HostRuntime) -> io::Result<Vec<u8>> {
    let mut text = Vec::new(rt.alloc());
    rt.stdin().take(32769).read_to_end(&mut text)?;
    Ok(text)
}

// Prints the reports, and answers whether all are reports: a refused step says that the run is over.
fn print_reports<W: Write>(out: &mut W, answers: &[Answer]) -> io::Result<bool> {
    let mut line = [0u8; 128];
    for answer in answers {
        let Answer::Report(report) = answer else {
            return Ok(false);
        };
        if let Ok(len) = report.print(&mut line) {
            out.write_all(&line[..len])?;
        }
    }
    Ok(true)
}

// Steps the run with those cells, 100 steps at a time, and prints its reports.
fn print_steps(
    rt: &HostRuntime,
    mut run: Started,
    values: &mut [Value],
    handles: &mut [Handle],
) -> io::Result<()> {
    let mut picker = Turning::new();
    let mut out = BufWriter::new(rt.alloc(), io::writer(rt))?;
    let mut answers = Vec::with_capacity(rt.alloc(), 100)?;
    for _ in 0..1000_u32 {
        answers.clear();
        let _ = carry_out(
            &mut run,
            &mut picker,
            values,
            handles,
            &[STEP; 100],
            &mut answers,
        );
        if !print_reports(&mut out, &answers)? {
            break;
        }
    }
    out.flush()
}

// Starts the script with all cells that a script can need.
fn print_run(rt: &HostRuntime, script: Linked) -> io::Result<()> {
    let mut values = vec![in rt.alloc(); Value::zero(); Value::CELLS]?;
    let mut handles = vec![in rt.alloc(); Handle::nil(); Handle::CELLS]?;
    match start(script, &mut values, &mut handles, rt.alloc()) {
        Ok(run) => print_steps(rt, run, &mut values, &mut handles),
        Err(unstarted) => match unstarted.error {
            StartError::Refused(refusal) => println!(rt; "{}", refusal.at(0)),
            StartError::Memory => Err(AllocError.into()),
        },
    }
}

fn main(rt: HostRuntime) -> io::Result<()> {
    let text = input(&rt)?;
    match load(&text, rt.alloc()) {
        Ok(script) => print_run(&rt, script),
        Err(Stop::Faulty(fault)) => println!(rt; "{}", fault),
        Err(Stop::Memory) => Err(AllocError.into()),
    }
}
