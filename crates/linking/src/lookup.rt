// Looking up what the names of a line stand for.
ghost use Rattle.std.specs.Prelude.{◌≡◌, map};
ghost use Rattle.std.specs.List.{slice_get};
ghost use Rattle.script.specs.Rules.{place};
ghost use Rattle.linking.specs.Naming.{suits as is_suited, suited as suits_at, channel as channel_of};
ghost use Rattle.linking.specs.Naming.{operand as found_operand, exchange as found_exchange};
ghost use Rattle.linking.specs.Naming.{alone as alone_of, case as case_of, operation};
ghost use Rattle.linking.specs.Links.{main_name};

use crate::declared::Channel;
use crate::operation::{Exchange, Operation};
use crate::symbols::Symbols;
use lines::{Kind, Line, Operand};
use script::find;
use words::Name;

// Whether that kind is wanted: any is, where none is named.
fn suits(wanted: Option<Kind>, kind: Kind) -> bool
    ensures { result ≡ is_suited wanted kind }
{
    wanted.is_none_or(|other| other == kind)
}

// Whether there is a channel of that number, of the kind that is wanted.
fn suited(channels: &[Channel], wanted: Option<Kind>, number: usize) -> bool
    ensures { result ≡ suits_at wanted (slice_get (map (λ c. c.declared) channels.now) number) }
{
    channels
        .get(number)
        .is_some_and(|c| suits(wanted, c.declared.kind))
}

impl Symbols {
    // The number of the channel of that name, if it is of the kind that is wanted.
    fn channel(&self, wanted: Option<Kind>, name: Name) -> Option<usize>
        ensures { result ≡ channel_of self.now wanted name }
    {
        find(&self.channels, &name).filter(|number| suited(&self.channels, wanted, *number))
    }

    // A channel operand by its number.
    fn operand(&self, wanted: Option<Kind>, operand: Operand<Name>) -> Option<Operand<usize>>
        ensures { result ≡ found_operand self.now wanted operand }
    {
        match operand {
            Operand::Named(name) => self.channel(wanted, name).map(Operand::Named),
            Operand::Held(register) => Some(Operand::Held(register)),
        }
    }

    // The number of the body of that name.
    fn body(&self, name: Name) -> Option<usize>
        ensures { result ≡ place name self.now.bodies }
    {
        find(&self.bodies, &name)
    }

    // The number of the body `main`.
    pub(crate) fn main(&self) -> Option<usize>
        ensures { result ≡ place main_name self.now.bodies }
    {
        self.body(Name::new(b"main")?)
    }
}

impl Symbols {
    // A send or a receive with its channel's number.
    fn exchange(&self, exchange: Exchange<Name>) -> Option<Exchange<usize>>
        ensures { result ≡ found_exchange self.now exchange }
    {
        Some(match exchange {
            Exchange::Send(o, v) => Exchange::Send(self.operand(Some(Kind::Value), o)?, v),
            Exchange::Receive(o, v, w) => {
                Exchange::Receive(self.operand(Some(Kind::Value), o)?, v, w)
            }
            Exchange::SendHandle(x, h) => {
                Exchange::SendHandle(self.channel(Some(Kind::Handle), x)?, h)
            }
            Exchange::ReceiveHandle(x, h, w) => {
                Exchange::ReceiveHandle(self.channel(Some(Kind::Handle), x)?, h, w)
            }
        })
    }

    // This and `case` share `exchange`; what is left of each is the variant that it makes.
    fn alone(&self, exchange: Exchange<Name>) -> Option<Operation>
        ensures { result ≡ alone_of self.now exchange }
    {
        self.exchange(exchange).map(Operation::Alone)
    }

    fn case(&self, exchange: Exchange<Name>, target: u32) -> Option<Operation>
        ensures { result ≡ case_of self.now exchange target }
    {
        self.exchange(exchange).map(|e| Operation::Case(e, target))
    }

    // What a line stands for: nothing, if one of its names stands for nothing.
    pub(crate) fn operation(&self, line: &Line<Name>) -> Option<Operation>
        ensures { result ≡ operation self.now line.now }
    {
        Some(match *line {
            Line::Set(v, n) => Operation::Set(v, n),
            Line::Add(v, w) => Operation::Add(v, w),
            Line::Sub(v, w) => Operation::Sub(v, w),
            Line::Jump(t) => Operation::Jump(t),
            Line::JumpNegative(v, t) => Operation::JumpNegative(v, t),
            Line::Hold(h, x) => Operation::Hold(h, self.channel(Some(Kind::Value), x)?),
            Line::Clear(h) => Operation::Clear(h),
            Line::Send(o, v) => self.alone(Exchange::Send(o, v))?,
            Line::Receive(o, v, w) => self.alone(Exchange::Receive(o, v, w))?,
            Line::SendHandle(x, h) => self.alone(Exchange::SendHandle(x, h))?,
            Line::ReceiveHandle(x, h, w) => self.alone(Exchange::ReceiveHandle(x, h, w))?,
            Line::Close(o) => Operation::Close(self.operand(None, o)?),
            Line::Select(n) => Operation::Select(n),
            Line::CaseSend(o, v, t) => self.case(Exchange::Send(o, v), t)?,
            Line::CaseReceive(o, v, w, t) => self.case(Exchange::Receive(o, v, w), t)?,
            Line::CaseSendHandle(x, h, t) => self.case(Exchange::SendHandle(x, h), t)?,
            Line::CaseReceiveHandle(x, h, w, t) => self.case(Exchange::ReceiveHandle(x, h, w), t)?,
            Line::CaseDefault(t) => Operation::Default(t),
            Line::Start(x) => Operation::Start(self.body(x)?),
            Line::Print(v) => Operation::Print(v),
            Line::ValueChannel(_, _) | Line::HandleChannel(_, _) | Line::Routine(_) => return None,
        })
    }
}
