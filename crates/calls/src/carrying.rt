// Carrying out calls on a started script.
ghost use Rattle.std.specs.Prelude.{◌≡◌, ◌-◌, ◌≤◌, length, vec_len, vec_capacity};
ghost use Rattle.runs.specs.Questions.{element_question};
ghost use Rattle.hub.specs.Boards.{Enough};
ghost use Rattle.machine.specs.Memory.{seen_run};
ghost use Rattle.calls.specs.Calls.{enough as enough_handed, told};
ghost use Rattle.calls.specs.declared.answer.Answer.TheVariants.{Report as OfReport};
ghost use Rattle.calls.specs.Carried.{Made, Carried, CarriedOut, LawsFromStart, may_begin, played};
ghost use Rattle.calls.specs.Filled.{FilledFromStart};
ghost use Rattle.calls.specs.declared.call.Call.TheVariants.{Step as Stepping};

use crate::answer::Answer;
use crate::call::{Call, Cells};
use elements::{Handle, Value};
use hub::enough;
use machine::Started;
use pickers::Picker;
use reports::Report;
use words::Refusal;

// The report of a step, or why there is none.
fn report_of(stepped: Result<Report, Refusal>) -> Answer
    ensures { result ≡ told OfReport stepped }
{
    stepped.map_or_else(Answer::Refused, Answer::Report)
}

// A step that is handed no more than those cells.
fn step<P: Picker>(
    run: &mut Started,
    picker: &mut P,
    values: &mut [Value],
    handles: &mut [Handle],
    cells: Cells,
) -> Answer
    requires { Enough values.old handles.old }
    ensures made { Made run.old.linked.program (Stepping cells) (record { memory = run.old.memory; values = values.old; handles = handles.old }) (P.meaning picker.old) result (record { memory = run.new.memory; values = values.new; handles = handles.new }) (P.meaning picker.new) }
    ensures script { run.new.linked ≡ run.old.linked }
{
    let some = cells.within(values, handles);
    report_of(run.step(
        picker,
        &mut values[..some.values],
        &mut handles[..some.handles],
    ))
}

// The code of an element, asked for with no more than those cells.
fn code_at(
    run: &Started,
    number: usize,
    place: usize,
    values: &[Value],
    handles: &[Handle],
    cells: Cells,
) -> Result<u32, Refusal>
    requires { Enough values.now handles.now }
    ensures { result ≡ element_question (seen_run run.now.memory values.now handles.now).hub number place (enough_handed cells) }
{
    let some = cells.within(values, handles);
    run.element(
        number,
        place,
        &values[..some.values],
        &handles[..some.handles],
    )
}

// What that call answers.
fn answer<P: Picker>(
    run: &mut Started,
    picker: &mut P,
    values: &mut [Value],
    handles: &mut [Handle],
    call: Call,
) -> Answer
    requires { Enough values.old handles.old }
    ensures made { Made run.old.linked.program call (record { memory = run.old.memory; values = values.old; handles = handles.old }) (P.meaning picker.old) result (record { memory = run.new.memory; values = values.new; handles = handles.new }) (P.meaning picker.new) }
    ensures script { run.new.linked ≡ run.old.linked }
{
    match call {
        Call::Step(cells) => step(run, picker, values, handles, cells),
        Call::Routine(number) => run
            .routine(number)
            .map_or_else(Answer::Refused, Answer::Routine),
        Call::Channel(number) => run
            .channel(number)
            .map_or_else(Answer::Refused, Answer::Channel),
        Call::Element(number, place, cells) => {
            code_at(run, number, place, values, handles, cells).map_or_else(
                Answer::Refused,
                Answer::Element,
            )
        }
    }
}

// Carries out the calls, with room for the answers.
fn carry_all<P: Picker>(
    run: &mut Started,
    picker: &mut P,
    values: &mut [Value],
    handles: &mut [Handle],
    calls: &[Call],
    answers: &mut Vec<Answer>,
)
    requires enough { Enough values.old handles.old }
    requires room { length calls.now ≤ vec_capacity answers.old - vec_len answers.old }
    ensures carried { Carried run.old.linked.program calls.now (record { memory = run.old.memory; values = values.old; handles = handles.old }) (P.meaning picker.old) answers.old.items (record { memory = run.new.memory; values = values.new; handles = handles.new }) (P.meaning picker.new) answers.new.items }
    ensures script { run.new.linked ≡ run.old.linked }
    ensures room { vec_capacity answers.new ≡ vec_capacity answers.old }
{
    for call in calls {
        let answer = answer(run, picker, values, handles, *call);
        answers.push_reserved(answer);
    }
}

// Whether there are cells enough, and room for the answers.
fn may_begin(values: &[Value], handles: &[Handle], room: usize, calls: &[Call]) -> bool
    ensures { result ≡ may_begin values.now handles.now room calls.now }
{
    enough(values, handles) && calls.len() <= room
}

// Carries out the calls in order, each handed no more cells than it says, and notes the answers behind those that were noted
// before. Small, and nothing is done, where there are fewer than 512 value cells or 128 handle cells, or no room for all
// answers. Nothing allocates.
pub fn carry_out<P: Picker>(
    run: &mut Started,
    picker: &mut P,
    values: &mut [Value],
    handles: &mut [Handle],
    calls: &[Call],
    answers: &mut Vec<Answer>,
) -> Result<(), Refusal>
    ensures carried { CarriedOut run.old.linked.program (may_begin values.old handles.old (vec_capacity answers.old - vec_len answers.old) calls.now) calls.now (record { memory = run.old.memory; values = values.old; handles = handles.old }) (P.meaning picker.old) answers.old.items result (record { memory = run.new.memory; values = values.new; handles = handles.new }) (P.meaning picker.new) answers.new.items }
    ensures laws { LawsFromStart run.old.linked.program (played (record { memory = run.old.memory; values = values.old; handles = handles.old }) (P.meaning picker.old)) calls.now }
    ensures cells { FilledFromStart run.old.linked.program (played (record { memory = run.old.memory; values = values.old; handles = handles.old }) (P.meaning picker.old)) calls.now (record { memory = run.old.memory; values = values.old; handles = handles.old }) }
    ensures script { run.new.linked ≡ run.old.linked }
    ensures room { vec_capacity answers.new ≡ vec_capacity answers.old }
{
    let room = answers.capacity() - answers.len();
    if !may_begin(values, handles, room, calls) {
        return Err(Refusal::Small);
    }
    carry_all(run, picker, values, handles, calls, answers);
    Ok(())
}
