// What a waiting sender offers, as an element of the kind that the channel has.
ghost use Rattle.routines.specs.Items.{as_value, as_handle};

use crate::item::Item;
use channels::Carries;
use elements::{Handle, Value};

impl Carries<Value> for Item {
    ghost carried = { as_value };

    fn carried_element(self) -> Value {
        self.value()
    }
}

impl Carries<Handle> for Item {
    ghost carried = { as_handle };

    fn carried_element(self) -> Handle {
        self.handle()
    }
}
