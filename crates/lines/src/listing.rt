// Listing a line.
ghost use Rattle.std.specs.Prelude.{◌≡◌};
ghost use Rattle.words.specs.Shows.{field_said};
ghost use Rattle.words.specs.Pages.{Put};
ghost use Rattle.lines.specs.Shows.{show_line, from_operand};

use crate::line::{Line, Operand};
use words::Field::{Handle, Integer, Name as Named, Natural, Value};
use words::{Field, Name, Page, Refusal};

// What is listed of a channel operand. No `From`: an `into()` among the fields would not say what it makes.
fn operand(channel: Operand<Name>) -> Field
    ensures { field_said result ≡ from_operand channel }
{
    match channel {
        Operand::Named(name) => Named(name),
        Operand::Held(h) => Handle(h),
    }
}

// Writes a line next, without its end; writes nothing where it does not fit.
pub fn put_line(page: &mut Page, line: Line<Name>) -> Result<(), Refusal>
    ensures { Put page.old (show_line line) page.new result }
{
    match line {
        Line::Set(a, b) => page.put_fields(b"SV", &[Value(a), Integer(b)]),
        Line::Add(a, b) => page.put_fields(b"AD", &[Value(a), Value(b)]),
        Line::Sub(a, b) => page.put_fields(b"SB", &[Value(a), Value(b)]),
        Line::Jump(a) => page.put_fields(b"JP", &[Natural(a)]),
        Line::JumpNegative(a, b) => page.put_fields(b"JN", &[Value(a), Natural(b)]),
        Line::Hold(a, b) => page.put_fields(b"HL", &[Handle(a), Named(b)]),
        Line::Clear(a) => page.put_fields(b"HN", &[Handle(a)]),
        Line::Send(a, b) => page.put_fields(b"SD", &[operand(a), Value(b)]),
        Line::Receive(a, b, c) => page.put_fields(b"RC", &[operand(a), Value(b), Value(c)]),
        Line::SendHandle(a, b) => page.put_fields(b"SH", &[Named(a), Handle(b)]),
        Line::ReceiveHandle(a, b, c) => page.put_fields(b"RH", &[Named(a), Handle(b), Value(c)]),
        Line::Close(a) => page.put_fields(b"CL", &[operand(a)]),
        Line::Select(a) => page.put_fields(b"SE", &[Natural(a)]),
        Line::CaseSend(a, b, c) => page.put_fields(b"CS", &[operand(a), Value(b), Natural(c)]),
        Line::CaseReceive(a, b, c, d) => page.put_fields(
            b"CR",
            &[operand(a), Value(b), Value(c), Natural(d)],
        ),
        Line::CaseSendHandle(a, b, c) => page.put_fields(b"GS", &[Named(a), Handle(b), Natural(c)]),
        Line::CaseReceiveHandle(a, b, c, d) => page.put_fields(
            b"GR",
            &[Named(a), Handle(b), Value(c), Natural(d)],
        ),
        Line::CaseDefault(a) => page.put_fields(b"CD", &[Natural(a)]),
        Line::Start(a) => page.put_fields(b"GO", &[Named(a)]),
        Line::Print(a) => page.put_fields(b"PR", &[Value(a)]),
        Line::ValueChannel(a, b) => page.put_fields(b"VC", &[Named(a), Natural(b)]),
        Line::HandleChannel(a, b) => page.put_fields(b"HC", &[Named(a), Natural(b)]),
        Line::Routine(a) => page.put_fields(b"RT", &[Named(a)]),
    }
}
