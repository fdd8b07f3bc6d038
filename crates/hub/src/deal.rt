// What taking a case does to routines.
ghost use Rattle.std.specs.Prelude.{◌≡◌};
ghost use Rattle.routines.specs.Items.{as_kind};
ghost use Rattle.routines.specs.declared.routine.Passed.TheVariants.{Sent as Passes};
ghost use Rattle.runs.specs.Taking.{offer, released_by};
ghost use Rattle.hub.specs.Ports.{sent_answer, got_answer};

use channels::{ReceiveError, Received, SendError, Sent};
use elements::{Element, Value};
use lines::Kind;
use routines::{Item, Passed, Release};
use waiting::{Entry, Wish};

// How the routine passes by its case, and who is released and how.
#[derive(Clone, Copy)]
pub struct Deal {
    pub passed: Passed,
    pub released: Option<Release>,
}

// The routine of that entry is released by its case, and passes by it so.
pub(crate) fn released_by(entry: Entry<Item>, passed: Passed) -> Release
    ensures { result ≡ released_by entry passed }
{
    Release {
        routine: entry.routine,
        case: entry.case,
        passed,
    }
}

// The element that a waiting case offers; a receive offers the zero element.
fn offer(wish: Wish<Item>) -> Item
    ensures { result ≡ offer wish }
{
    match wish {
        Wish::Send(_, e) => e,
        Wish::Receive(_) => Item::Value(Value::zero()),
    }
}

// A waiting sender whose element came to a channel of that kind is released.
fn sender_released(kind: Kind, number: u8, sender: Entry<Item>) -> Release
    ensures { result ≡ released_by sender (Passes number (as_kind kind (offer sender.wish))) }
{
    released_by(
        sender,
        Passed::Sent(number, offer(sender.wish).of_kind(kind)),
    )
}

impl Deal {
    // A send of that element on the channel of that number; None where it cannot go.
    pub(crate) fn of_send(number: u8, e: Item, sent: Result<Sent<Item>, SendError>) -> Option<Deal>
        ensures { result ≡ sent_answer number e sent }
    {
        let (passed, released) = match sent {
            Ok(Sent::Handed(receiver)) => (
                Passed::Sent(number, e),
                Some(released_by(receiver, Passed::Received(number, e))),
            ),
            Ok(Sent::Buffered) => (Passed::Sent(number, e), None),
            Err(SendError::Closed) => (Passed::Broken, None),
            Err(_) => return None,
        };
        Some(Deal { passed, released })
    }

    // A receive from the channel of that kind and number; None where it cannot go.
    pub(crate) fn of_receive(
        kind: Kind,
        number: u8,
        got: Result<Received<Item, Item>, ReceiveError>,
    ) -> Option<Deal>
        ensures { result ≡ got_answer kind number got }
    {
        let (passed, sender) = match got.ok()? {
            Received::Taken(e, sender) => (Passed::Received(number, e), sender),
            Received::Handed(e, sender) => (Passed::Received(number, e), Some(sender)),
            Received::Drained => (Passed::Drained(number), None),
        };
        let released = sender.map(|sender| sender_released(kind, number, sender));
        Some(Deal { passed, released })
    }
}
