// Reading a line: its mark chooses what fields it has.
ghost use Rattle.std.specs.Prelude.{◌≡◌, slice_index};
ghost use Rattle.lines.specs.Lines.{formats, chosen, read_line};

use crate::fields::Fields;
use crate::kinds::{Channel, Handle, HandleValue, TwoValues, Value};
use lines::Line;
use words::{Fault, Name};

// The line with that mark and those fields.
fn with_mark(mark: &[u8; 2], fields: Fields<'_>) -> Result<Line<Name>, Fault>
    ensures { result ≡ chosen formats fields.entry.line (slice_index mark.now 0) (slice_index mark.now 1) fields.entry.rest.now }
{
    match mark {
        b"SV" => fields.make::<(Value, i32), _>(|(v, n)| Line::Set(v, n)),
        b"AD" => fields.make::<TwoValues, _>(|(v, w)| Line::Add(v, w)),
        b"SB" => fields.make::<TwoValues, _>(|(v, w)| Line::Sub(v, w)),
        b"JP" => fields.make::<u32, _>(Line::Jump),
        b"JN" => fields.make::<(Value, u32), _>(|(v, to)| Line::JumpNegative(v, to)),
        b"HL" => fields.make::<(Handle, Name), _>(|(h, c)| Line::Hold(h, c)),
        b"HN" => fields.make::<Handle, _>(Line::Clear),
        b"SD" => fields.make::<(Channel, Value), _>(|(c, v)| Line::Send(c, v)),
        b"RC" => fields.make::<(Channel, TwoValues), _>(|(c, (v, w))| Line::Receive(c, v, w)),
        b"SH" => fields.make::<(Name, Handle), _>(|(c, h)| Line::SendHandle(c, h)),
        b"RH" => fields.make::<(Name, HandleValue), _>(|(c, (h, w))| Line::ReceiveHandle(c, h, w)),
        b"CL" => fields.make::<Channel, _>(Line::Close),
        b"SE" => fields.make::<u32, _>(Line::Select),
        b"CS" => fields.make::<(Channel, (Value, u32)), _>(|(c, (v, to))| Line::CaseSend(c, v, to)),
        b"CR" => fields.make::<(Channel, (TwoValues, u32)), _>(|(c, ((v, w), to))| {
            Line::CaseReceive(c, v, w, to)
        }),
        b"GS" => fields.make::<(Name, (Handle, u32)), _>(|(c, (h, to))| {
            Line::CaseSendHandle(c, h, to)
        }),
        b"GR" => fields.make::<(Name, (HandleValue, u32)), _>(|(c, ((h, w), to))| {
            Line::CaseReceiveHandle(c, h, w, to)
        }),
        b"CD" => fields.make::<u32, _>(Line::CaseDefault),
        b"GO" => fields.make::<Name, _>(Line::Start),
        b"PR" => fields.make::<Value, _>(Line::Print),
        b"VC" => fields.make::<(Name, u32), _>(|(c, n)| Line::ValueChannel(c, n)),
        b"HC" => fields.make::<(Name, u32), _>(|(c, n)| Line::HandleChannel(c, n)),
        b"RT" => fields.make::<Name, _>(Line::Routine),
        _ => Err(Fault::broken(fields.line)),
    }
}

// A line, without its end: a mark of two bytes and its fields.
pub fn read_line(bytes: &[u8], line: usize) -> Result<Line<Name>, Fault>
    ensures { result ≡ read_line line bytes.now }
{
    match bytes.split_first_chunk() {
        Some((mark, rest)) => with_mark(mark, Fields { rest, line }),
        None => Err(Fault::broken(line)),
    }
}
