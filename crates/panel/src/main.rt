// Reads a script and calls on it from standard input, carries the calls out on the turning picker and prints what each
// answers. A refused script prints only `NO n l`, and so does a call line out of form.
#![tactic(auto)]

ghost use Rattle.std.specs.Prelude.{◌≡◌, Ok, true, length, vec_items};
ghost use Rattle.linking.specs.declared.stop.Stop.TheVariants.{Memory};
ghost use Rattle.linking.specs.Stages.{Makes};
ghost use Rattle.pickers.specs.Turning.{fresh_turning};
ghost use Rattle.runs.specs.Runs.{started};
ghost use Rattle.hub.specs.Boards.{enough};
ghost use Rattle.machine.specs.Memory.{seen_run};
ghost use Rattle.machine.specs.declared.starting.StartError.TheVariants.{Memory as OutOfMemory};
ghost use Rattle.calls.specs.Calls.{answers};
ghost use Rattle.panel.specs.Answers.{answer_text, program_answers};

mod printing;
mod reading;

use calls::{Answer, Call, carry_out};
use elements::{Element, Handle, Value};
use linking::{Linked, Stop};
use loading::load;
use machine::{StartError, Started, Unstarted, start};
use pickers::Turning;
use printing::print_answers;
use reading::{calls_of, parted};
use std::alloc::{AllocError, Global};
use std::io;
use std::io::{BufWriter, Read, Write};

// Why a script that was not started stops the program.
fn stop_of(unstarted: Unstarted) -> Stop
    ensures { unstarted.error ≡ OutOfMemory → result ≡ Memory }
{
    match unstarted.error {
        StartError::Refused(refusal) => Stop::Faulty(refusal.at(0)),
        StartError::Memory => Stop::Memory,
    }
}

// The script's run, with all cells that a script can need.
fn started(
    script: Linked,
    values: &mut [Value],
    handles: &mut [Handle],
    heap: Global,
) -> Result<Started, Stop>
    requires { enough values.old handles.old ≡ true }
    ensures run { Makes (λ s. seen_run s.memory values.new handles.new) (Ok (started script.program)) result }
    ensures script { Makes (λ s. s.linked) (Ok script) result }
    ensures values { length values.new ≡ length values.old }
    ensures handles { length handles.new ≡ length handles.old }
{
    start(script, values, handles, heap).map_err(stop_of)
}

// What the calls on the run answer, with a new turning picker.
fn carried(
    mut run: Started,
    values: &mut [Value],
    handles: &mut [Handle],
    calls: &[Call],
    heap: Global,
) -> Result<Vec<Answer>, Stop>
    requires { enough values.old handles.old ≡ true }
    ensures { Makes vec_items (Ok (answers run.linked.program (record { run = seen_run run.memory values.old handles.old; meaning = fresh_turning }) calls.now)) result }
{
    let mut answers = Vec::with_capacity(heap, calls.len())?;
    let mut picker = Turning::new();
    carry_out(&mut run, &mut picker, values, handles, calls, &mut answers).map_err(
        |refusal| refusal.at(0),
    )?;
    Ok(answers)
}

// What the calls on the script answer, with those cells.
fn answers_on(
    script: Linked,
    values: &mut [Value],
    handles: &mut [Handle],
    calls: &[Call],
    heap: Global,
) -> Result<Vec<Answer>, Stop>
    requires { enough values.old handles.old ≡ true }
    ensures { Makes vec_items (Ok (program_answers script.program calls.now)) result }
{
    let run = started(script, values, handles, heap)?;
    carried(run, values, handles, calls, heap)
}

// What the calls on the script answer, where it has all cells that a script can need.
fn answers_of(script: Linked, calls: &[Call], heap: Global) -> Result<Vec<Answer>, Stop>
    ensures { Makes vec_items (Ok (program_answers script.program calls.now)) result }
{
    let mut values = vec![in heap; Value::zero(); Value::CELLS]?;
    let mut handles = vec![in heap; Handle::nil(); Handle::CELLS]?;
    answers_on(script, &mut values, &mut handles, calls, heap)
}

// What the input's calls on its script answer.
fn answered(input: &[u8], heap: Global) -> Result<Vec<Answer>, Stop>
    ensures { Makes vec_items (answer_text input.now) result }
{
    let (text, lines) = parted(input);
    let script = load(text, heap)?;
    let calls = calls_of(lines, heap)?;
    answers_of(script, &calls, heap)
}

fn main(rt: HostRuntime) -> io::Result<()> {
    let mut input = Vec::new(rt.alloc());
    rt.stdin().read_to_end(&mut input)?;
    let mut out = BufWriter::new(rt.alloc(), io::writer(&rt))?;
    match answered(&input, rt.alloc()) {
        Ok(answers) => print_answers(&mut out, &answers)?,
        Err(Stop::Faulty(fault)) => writeln!(out, "{fault}")?,
        Err(Stop::Memory) => return Err(AllocError.into()),
    }
    out.flush()
}
