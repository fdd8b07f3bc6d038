// What a script declares: its channels and its bodies.
use crate::operation::Operation;
use lines::Kind;
use script::Named;
use std::marker::Model;
use words::Name;

// A channel, as its line declares it.
#[derive(Clone, Copy)]
pub struct Declared {
    pub kind: Kind,
    pub capacity: u32,
}

// A channel with its name.
#[derive(Clone, Copy)]
pub struct Channel {
    pub(crate) name: Name,
    pub declared: Declared,
}

impl Named for Channel {
    ghost named = { λ c. c.name };

    fn name(&self) -> Name {
        self.name
    }
}

// A linked body: the text line that opens it, and its operations.
#[derive(Drop)]
pub struct Body {
    pub(crate) line: usize,
    pub(crate) operations: Vec<Operation>,
}

impl Model for Body {
    ghost use Rattle.linking.specs.Programs.{Block};

    ghost Value = { Block };

    ghost view = { λ b. record { line = b.line; operations = b.operations.items } };
}
