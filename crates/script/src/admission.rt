// Taking one line more into a draft, or refusing it.
ghost use Rattle.std.specs.Prelude.{◌≡◌, ◌<◌, ◌++◌, ◌∷◌, [], length, vec_capacity, IfOk};
ghost use Rattle.script.specs.Drafts.{blank, Admits};

use crate::draft::Draft;
use crate::standing::Standing;
use lines::Line;
use std::alloc::{AllocError, Global};
use words::{Fault, Name};

impl Draft {
    // A draft with nothing in it.
    pub(crate) fn new(heap: Global) -> Result<Draft, AllocError>
        ensures { IfOk result (λ d. d ≡ blank) }
    {
        let lines = Vec::with_capacity(heap, 576)?;
        let standing = Standing::new(heap)?;
        Ok(Draft { lines, standing })
    }

    // Leaves nothing in it.
    pub(crate) fn clear(&mut self)
        ensures { self.new ≡ blank }
    {
        self.lines.clear();
        self.standing.clear();
    }

    // Its lines, in order.
    pub(crate) fn lines(&self) -> &[Line<Name>]
        ensures { result.now ≡ self.now.lines }
    {
        self.lines.as_slice()
    }

    // Takes in line `number`, if nothing speaks against it.
    pub(crate) fn admit(
        &mut self,
        line: &Line<Name>,
        number: usize,
        last: bool,
    ) -> Result<(), Fault>
        ensures { Admits self.old line.now number last self.new result }
    {
        self.standing
            .admit(&line.role(), last)
            .map_err(|refusal| refusal.at(number))?;
        keep(&mut self.lines, line);
        Ok(())
    }
}

// Puts a copy behind the others, for which there is room, and leaves the room as it is: that is two clauses, since a struct
// that holds a list with its room would stand round one field, for this one call. Over any type: where it is a `Line`, the
// check does not load what a line holds (tried: by reference, by value, with a copy in a local: "not told which modules hold
// the type", or not covered).
fn keep<T: Copy>(list: &mut Vec<T>, item: &T)
    requires { length list.old.items < vec_capacity list.old }
    ensures items { list.new.items ≡ list.old.items ++ (item.now ∷ []) }
    ensures room { vec_capacity list.new ≡ vec_capacity list.old }
{
    list.push_reserved(*item);
}
