// What a routine sends or receives: an element of one of the two kinds.
ghost use Rattle.std.specs.Prelude.{◌≡◌};
ghost use Rattle.routines.specs.Items.{code_of, as_value, as_handle, as_kind};

use elements::{Element, Handle, Value};
use lines::Kind;

#[derive(Clone, Copy)]
pub enum Item {
    Value(Value),
    Handle(Handle),
}

impl Item {
    // The number that it is shown as.
    pub fn code(self) -> u32
        ensures { result ≡ code_of self }
    {
        match self {
            Item::Value(value) => value.code(),
            Item::Handle(handle) => handle.code(),
        }
    }

    // The value that it is; of a handle the zero element.
    pub fn value(self) -> Value
        ensures { result ≡ as_value self }
    {
        match self {
            Item::Value(value) => value,
            Item::Handle(_) => Value::zero(),
        }
    }

    // The handle that it is; of a value the zero element.
    pub fn handle(self) -> Handle
        ensures { result ≡ as_handle self }
    {
        match self {
            Item::Value(_) => Handle::nil(),
            Item::Handle(handle) => handle,
        }
    }

    // The same element, if it is of that kind, and else the zero element of the kind.
    pub fn of_kind(self, kind: Kind) -> Item
        ensures { result ≡ as_kind kind self }
    {
        match kind {
            Kind::Value => Item::Value(self.value()),
            Kind::Handle => Item::Handle(self.handle()),
        }
    }
}
