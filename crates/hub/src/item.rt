// Elements of one kind as items.
ghost use Rattle.std.specs.Prelude.{◌≡◌};
ghost use Rattle.routines.specs.declared.item.Item.{Item};
ghost use Rattle.routines.specs.declared.item.Item.TheVariants.{Value as OfValue, Handle as OfHandle};
ghost use Rattle.hub.specs.Ports.{as_item};

use channels::{ReceiveError, Received};
use elements::{Handle, Value};
use routines::Item;

// `Into` says by a relation what it gives, and a rule needs the item itself.
pub(crate) trait AsItem: Copy {
    ghost item: { Self → Item };

    fn as_item(self) -> Item
        ensures { result ≡ item self };
}

impl AsItem for Value {
    ghost item = { λ v. OfValue v };

    fn as_item(self) -> Item {
        Item::Value(self)
    }
}

impl AsItem for Handle {
    ghost item = { λ h. OfHandle h };

    fn as_item(self) -> Item {
        Item::Handle(self)
    }
}

// What a receive came by, its element as an item.
pub(crate) fn items<E: AsItem>(
    got: Result<Received<E, Item>, ReceiveError>,
) -> Result<Received<Item, Item>, ReceiveError>
    ensures { result ≡ as_item E.item got }
{
    Ok(match got? {
        Received::Taken(e, sender) => Received::Taken(e.as_item(), sender),
        Received::Handed(e, sender) => Received::Handed(e.as_item(), sender),
        Received::Drained => Received::Drained,
    })
}
