// The cases of a line: what each exchanges, what it waits for, and which of them can go.
ghost use Rattle.std.specs.Prelude.{◌≡◌, ◌≤◌, ◌<◌, List, length, map, take, IfSome};
ghost use Rattle.std.specs.List.{All};
ghost use Rattle.elements.specs.declared.value.Value.{Value as Number};
ghost use Rattle.elements.specs.declared.handle.Handle.{Handle as Holder};
ghost use Rattle.lines.specs.declared.line.Operand.TheVariants.{Held};
ghost use Rattle.runs.specs.Cases.{channel_of, branch, channel_for, wish_of, wishes_of, ready_set, default_from};
ghost use Rattle.hub.specs.Boards.{seen, Enough};
ghost use Rattle.machine.specs.Needs.{LowOperand, Low};

use hub::Hub;
use lines::{Kind, Operand};
use linking::{Exchange, Operation};
use routines::{Item, Routine};
use waiting::Wish;

// What a case line exchanges: nothing, where it is the default.
pub(crate) fn exchange_of(case: &Operation) -> Option<Exchange<usize>>
    ensures { result ≡ (branch case.now).exchange }
{
    match *case {
        Operation::Case(exchange, _) => Some(exchange),
        _ => None,
    }
}

// The line that a case line goes on to.
pub(crate) fn target_of(case: &Operation) -> usize
    ensures { result ≡ (branch case.now).target }
{
    match *case {
        Operation::Case(_, target) | Operation::Default(target) => target as usize,
        _ => 0,
    }
}

// The value channel that a handle register names: an altered handle acts as nil.
fn held_channel(hub: &Hub, x: &Routine, register: u8) -> Option<u8>
    requires { length hub.now.ports ≤ 32 }
    ensures is { (vs : List Number) (hs : List Holder) → result ≡ channel_for (seen hub.now vs hs).channels x.now (Held register) }
    ensures there { IfSome result (λ c. c < length hub.now.ports) }
{
    let number = x.handle(register).number()?;
    let is_value = hub.kind(number as usize)? == Kind::Value;
    is_value.then_some(number as u8)
}

// The channel that is meant, if one is.
pub(crate) fn channel_meant(hub: &Hub, x: &Routine, operand: Operand<usize>) -> Option<u8>
    requires few { length hub.now.ports ≤ 32 }
    requires low { LowOperand (length hub.now.ports) operand }
    ensures is { (vs : List Number) (hs : List Holder) → result ≡ channel_for (seen hub.now vs hs).channels x.now operand }
    ensures there { IfSome result (λ c. c < length hub.now.ports) }
{
    match operand {
        Operand::Named(number) => Some(number as u8),
        Operand::Held(register) => held_channel(hub, x, register),
    }
}

// What a case waits for: on a nil channel for nothing, and so does the default.
pub(crate) fn wish_of(
    hub: &Hub,
    x: &Routine,
    exchange: Option<Exchange<usize>>,
) -> Option<Wish<Item>>
    requires few { length hub.now.ports ≤ 32 }
    requires low { Low (length hub.now.ports) exchange }
    ensures is { (vs : List Number) (hs : List Holder) → result ≡ wish_of (seen hub.now vs hs).channels x.now exchange }
    ensures there { IfSome result (λ w. channel_of w < length hub.now.ports) }
{
    match exchange? {
        Exchange::Send(operand, v) => {
            let channel = channel_meant(hub, x, operand)?;
            Some(Wish::Send(channel, Item::Value(x.value(v))))
        }
        Exchange::Receive(operand, _, _) => channel_meant(hub, x, operand).map(Wish::Receive),
        Exchange::SendHandle(channel, h) => {
            Some(Wish::Send(channel as u8, Item::Handle(x.handle(h))))
        }
        Exchange::ReceiveHandle(channel, _, _) => Some(Wish::Receive(channel as u8)),
    }
}

// What each of at most 8 cases waits for; nothing behind the last.
pub(crate) fn wishes(hub: &Hub, x: &Routine, cases: &[Operation]) -> [Option<Wish<Item>>; 8]
    requires few { length hub.now.ports ≤ 32 }
    requires short { length cases.now ≤ 8 }
    requires low { All (λ o. Low (length hub.now.ports) (branch o).exchange) cases.now }
    ensures { (vs : List Number) (hs : List Holder) → take (length cases.now) result ≡ wishes_of (seen hub.now vs hs).channels x.now (map branch cases.now) }
{
    let mut row = [None; 8];
    for (k, case) in cases.iter().enumerate() {
        row[k] = wish_of(hub, x, exchange_of(case));
    }
    row
}

// The ready set of a row of at most 8 cases: its binary digit k is 1 where case k can go.
pub(crate) fn ready(hub: &Hub, row: &[Option<Wish<Item>>]) -> u8
    requires { length row.now ≤ 8 }
    ensures { (vs : List Number) (hs : List Holder) → Enough vs hs → result ≡ ready_set (seen hub.now vs hs) row.now }
{
    let mut set = 0;
    for wish in row.iter().rev() {
        set = 2 * set + u8::from(hub.can_go(*wish));
    }
    set
}

// The number of the default among the cases, and the line that it goes on to.
pub(crate) fn default_of(cases: &[Operation]) -> Option<(u8, usize)>
    requires { length cases.now ≤ 8 }
    ensures { result ≡ default_from 0 (map branch cases.now) }
{
    for (k, case) in cases.iter().enumerate() {
        if exchange_of(case).is_none() {
            return Some((k as u8, target_of(case)));
        }
    }
    None
}
