// A script in the making: its lines, and what they leave. A contract sees these two.
use crate::standing::Standing;
use lines::Line;
use std::marker::Model;
use words::Name;

// The room for everything that a script can hold is there from the beginning.
#[derive(Drop)]
pub struct Draft {
    pub(crate) lines: Vec<Line<Name>>,
    pub(crate) standing: Standing,
}

impl Model for Draft {
    ghost use Rattle.std.specs.Prelude.{◌≤◌, length, vec_capacity};
    ghost use Rattle.script.specs.Drafts.{Made, Within};

    ghost Value = { Made };

    ghost view = { λ d. record { lines = d.lines.items; standing = d.standing } };

    ghost invariant = { λ d. (576 ≤ vec_capacity d.lines) × Within d.standing.tally (length d.lines.items) };
}
