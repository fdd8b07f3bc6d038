// The states of a script: empty, and read. Each is moved into the next.
ghost use Rattle.std.specs.Prelude.{◌≡◌};
ghost use Rattle.script.specs.Drafts.{blank};

use crate::draft::Draft;
use std::marker::Model;
use words::Fault;

// A script with nothing in it, and room for all that a script can hold.
#[derive(Drop)]
pub struct Empty {
    pub(crate) draft: Draft,
    ghost none: { draft ≡ blank },
}

// A script as it was read. A contract sees its lines.
#[derive(Drop)]
pub struct Read {
    pub(crate) draft: Draft,
    // how many bytes its text has: a listing that does not fit is refused before anything is written, and without this it
    // would go over the lines once more to know it
    pub(crate) size: usize,
}

impl Model for Read {
    ghost use Rattle.std.specs.Prelude.{◌≡◌, ℕ, List, length};
    ghost use Rattle.lines.specs.declared.line.Line.{Line};
    ghost use Rattle.script.specs.Kept.{Kept};
    ghost use Rattle.script.specs.Texts.{show};

    ghost Value = { List (Line (List ℕ)) };

    ghost view = { λ s. s.draft.lines };

    ghost invariant = { λ s. (s.size ≡ length (show s.draft.lines)) × ∥ Kept s.draft.lines ∥₁ };
}

// A refused reading: the script, empty as before, and why.
#[derive(Drop)]
pub struct Unread {
    pub script: Empty,
    pub fault: Fault,
}
