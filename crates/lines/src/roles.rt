// What a line is to the script around it.
ghost use Rattle.std.specs.Prelude.{◌≡◌};
ghost use Rattle.lines.specs.Roles.{role as role_of};

use crate::line::{Kind, Line, Role};

impl<N: Copy> Line<N> {
    pub fn role(self) -> Role<N>
        ensures { result ≡ role_of self }
    {
        match self {
            Line::ValueChannel(name, capacity) => Role::Declares(Kind::Value, name, capacity),
            Line::HandleChannel(name, capacity) => Role::Declares(Kind::Handle, name, capacity),
            Line::Routine(name) => Role::Opens(name),
            Line::Select(cases) => Role::Selects(cases),
            Line::CaseSend(_, _, _)
            | Line::CaseReceive(_, _, _, _)
            | Line::CaseSendHandle(_, _, _)
            | Line::CaseReceiveHandle(_, _, _, _) => Role::Case,
            Line::CaseDefault(_) => Role::Default,
            _ => Role::Acts,
        }
    }
}
