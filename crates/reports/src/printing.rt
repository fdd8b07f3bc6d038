// Printing a report.
ghost use Rattle.std.specs.Prelude.{◌≡◌, ◌^◌, ◌<◌, ◌≤◌, ◌++◌, [], ◌∷◌, map, IfOk};
ghost use Rattle.words.specs.Shows.{show_fields, field_said};
ghost use Rattle.words.specs.Pages.{Prints, Printed};
ghost use Rattle.reports.specs.Shows.{natural, text_line, way, show_turn, show_event, show_picked, show_move, show_report};
ghost use Rattle.std.specs.Int.Signed.{mag};
ghost use Rattle.words.specs.Words.{number};
ghost use Rattle.reports.specs.Bounds.{FitsPass, FitsDeed, FitsEvent, FitsPicked, FitsMove};
ghost use Rattle.reports.specs.Prints.{PrintsShort};

use crate::report::{Deed, Event, Move, Pass, Picked, Report};
use words::{Field, Page, Refusal};

// The words of numbers, and that these fit their types. Not `From` for `Field`: a clause of `From` could say the word only,
// and it is from these calls that each text knows its bounds.
fn small(n: u8) -> Field
    ensures said { field_said result ≡ natural n }
    ensures fits { n < 2 ^ 8 }
{
    Field::Natural(u32::from(n))
}

fn wide(n: u32) -> Field
    ensures said { field_said result ≡ natural n }
    ensures fits { n < 2 ^ 32 }
{
    Field::Natural(n)
}

fn integer(v: i32) -> Field
    ensures said { field_said result ≡ number v }
    ensures fits { mag v < 2 ^ 31 }
{
    Field::Integer(v)
}

// Each of these writes its text next, where there is room for it, and tells that its numbers fit their types.
fn put_line(page: &mut Page, mark: &[u8], fields: &[Field]) -> Result<(), Refusal>
    ensures { Prints page.old (text_line mark.now (map field_said fields.now)) page.new result }
{
    page.put_fields(mark, fields)?;
    page.end_line()
}

fn put_way(page: &mut Page, pass: Pass) -> Result<(), Refusal>
    ensures printed { Prints page.old (show_fields (way pass) ++ (10 ∷ [])) page.new result }
    ensures fits { FitsPass pass }
{
    match pass {
        Pass::Sent(channel, code) => put_line(page, b" s", &[small(channel), wide(code)]),
        Pass::Received(channel, code) => put_line(page, b" r", &[small(channel), wide(code)]),
        Pass::Drained(channel) => put_line(page, b" z", &[small(channel)]),
        Pass::Default => put_line(page, b" d", &[]),
    }
}

// A routine and a line go side by side, as in the variant `Turn` of an event, and a case and its pass as in `Passes`: a variant
// cannot be handed on by itself, so a struct of what is in it would be made only to be taken apart.
fn put_pass(page: &mut Page, routine: u8, line: u32, case: u8, pass: Pass) -> Result<(), Refusal>
    ensures printed { Prints page.old (show_turn routine line (Deed.Passes case pass)) page.new result }
    ensures fits { FitsDeed (Deed.Passes case pass) }
{
    page.put_fields(b"ps", &[small(routine), wide(line), small(case)])?;
    put_way(page, pass)
}

fn put_turn(page: &mut Page, routine: u8, line: u32, deed: Deed) -> Result<(), Refusal>
    ensures printed { Prints page.old (show_turn routine line deed) page.new result }
    ensures fits { FitsEvent (Event.Turn routine line deed) }
{
    let r = small(routine);
    let p = wide(line);
    match deed {
        Deed::Plain => put_line(page, b"pl", &[r, p]),
        Deed::Waits => put_line(page, b"wt", &[r, p]),
        Deed::Passes(case, pass) => put_pass(page, routine, line, case, pass),
        Deed::Closes(channel, n) => put_line(page, b"cl", &[r, p, small(channel), small(n)]),
        Deed::Prints(value) => put_line(page, b"sy", &[r, p, integer(value)]),
        Deed::Starts(n) => put_line(page, b"go", &[r, p, small(n)]),
        Deed::Ends => put_line(page, b"en", &[r, p]),
        Deed::Finishes => put_line(page, b"fi", &[r, p]),
        Deed::Panics(cause) => put_line(page, b"pn", &[r, p, small(cause.number())]),
        Deed::Departs => put_line(page, b"dp", &[r, p]),
    }
}

fn put_event(page: &mut Page, event: Event) -> Result<(), Refusal>
    ensures printed { Prints page.old (show_event event) page.new result }
    ensures fits { FitsEvent event }
{
    match event {
        Event::Turn(routine, line, deed) => put_turn(page, routine, line, deed),
        Event::Stall(n) => put_line(page, b"st", &[small(n)]),
    }
}

// Apart from `put_move`: but for the `None` the two have nothing in common, and each `fits` is of its own type.
fn put_picked(page: &mut Page, picked: Option<Picked>) -> Result<(), Refusal>
    ensures printed { Prints page.old (show_picked picked) page.new result }
    ensures fits { FitsPicked picked }
{
    match picked {
        None => Ok(()),
        Some(x) => put_line(page, b"PK", &[small(x.routine), small(x.case)]),
    }
}

fn put_move(page: &mut Page, mark: &[u8; 2], moved: Option<Move>) -> Result<(), Refusal>
    ensures printed { Prints page.old (show_move mark.now moved) page.new result }
    ensures fits { FitsMove moved }
{
    match moved {
        None => Ok(()),
        Some(x) => put_line(
            page,
            mark,
            &[small(x.channel), wide(x.code), small(x.routine)],
        ),
    }
}

impl Report {
    fn put(&self, page: &mut Page) -> Result<(), Refusal>
        ensures { PrintsShort page.old (show_report self.now) page.new result }
    {
        put_event(page, self.event)?;
        put_picked(page, self.picked)?;
        put_move(page, b"ac", self.accepted)?;
        put_move(page, b"rv", self.received)
    }

    // Writes the report's text at the front of `out` and answers its length; refuses an `out` of fewer than 128 bytes,
    // and leaves it as it was. Apart from the listing of a script, as the line beside that says.
    pub fn print(&self, out: &mut [u8]) -> Result<usize, Refusal>
        ensures printed { Printed 128 out.old (show_report self.now) out.new result }
        ensures short { IfOk result (λ n. n ≤ 128) }
    {
        if out.len() < 128 {
            return Err(Refusal::Small);
        }
        let mut page = Page::new(out);
        self.put(&mut page)?;
        Ok(page.len())
    }
}
