// Where a line may lead in its body.
ghost use Rattle.std.specs.Prelude.{◌≡◌, Some as Target};
ghost use Rattle.std.specs.List.{slice_get};
ghost use Rattle.lines.specs.Roles.{role};
ghost use Rattle.script_laws.specs.Lawful.{is_case};
ghost use Rattle.linking.specs.Parts.{target as target_of, case_line, wild as is_wild};

use lines::{Line, Role};
use words::Name;

// The line of its body that a line leads to, counted from 0.
fn target(line: &Line<Name>) -> Option<u32>
    ensures { result ≡ target_of line.now }
{
    match *line {
        Line::Jump(t)
        | Line::JumpNegative(_, t)
        | Line::CaseSend(_, _, t)
        | Line::CaseReceive(_, _, _, t)
        | Line::CaseSendHandle(_, _, t)
        | Line::CaseReceiveHandle(_, _, _, t)
        | Line::CaseDefault(t) => Some(t),
        _ => None,
    }
}

// Whether it is a case line, the default too.
fn stands_as_case(line: &Line<Name>) -> bool
    ensures { result ≡ is_case (role line.now) }
{
    matches!(line.role(), Role::Case | Role::Default)
}

// Whether line t of the body is a case line.
fn case_at(body: &[Line<Name>], t: usize) -> bool
    ensures { result ≡ case_line (slice_get body.now t) }
{
    body.get(t).is_some_and(stands_as_case)
}

// Whether line t lies beyond the end of the body, or is a case line.
fn out_of_reach(body: &[Line<Name>], t: usize) -> bool
    ensures { result ≡ is_wild body.now (Target t) }
{
    t > body.len() || case_at(body, t)
}

// Whether a line leads to no place in its body where it may.
pub(crate) fn wild(body: &[Line<Name>], line: &Line<Name>) -> bool
    ensures { result ≡ is_wild body.now (target_of line.now) }
{
    target(line).is_some_and(|t| out_of_reach(body, t as usize))
}
