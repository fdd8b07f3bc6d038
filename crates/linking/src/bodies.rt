// Linking the lines of bodies.
ghost use Rattle.std.specs.Prelude.{◌≡◌, ◌+◌, ◌^◌, ◌<◌, not, length, vec_items};
ghost use Rattle.std.specs.List.{prefix_len};
ghost use Rattle.lines.specs.Roles.{role as role_of};
ghost use Rattle.script_laws.specs.Lawful.{is_opens};
ghost use Rattle.linking.specs.Parts.{own as own_of, parts};
ghost use Rattle.linking.specs.Links.{link_line, link_part, link_parts};
ghost use Rattle.linking.specs.Stages.{Makes};

use crate::declared::Body;
use crate::operation::Operation;
use crate::stop::Stop;
use crate::symbols::{Symbols, opened};
use crate::targets::wild;
use lines::Line;
use std::alloc::Global;
use words::{Fault, Name, Refusal};

// Whether the line opens a body.
fn opens(line: &Line<Name>) -> bool
    ensures { result ≡ is_opens (role_of line.now) }
{
    opened(line).is_some()
}

// How many lines stand before the next that opens a body. Apart from `own`: tried in one with it, by `take_while`,
// `position` and `split`, and no proof closed of where the slice ends.
fn own_count(lines: &[Line<Name>]) -> usize
    ensures { result ≡ prefix_len (λ l. not (is_opens (role_of l))) lines.now }
{
    lines.iter().take_while(|line| !opens(line)).count()
}

// The lines before the next that opens a body.
fn own(lines: &[Line<Name>]) -> &[Line<Name>]
    ensures { result.now ≡ own_of lines.now }
{
    &lines[..own_count(lines)]
}

impl Symbols {
    // Links text line `number`, a line of that body.
    fn link_line(
        &self,
        body: &[Line<Name>],
        number: usize,
        line: &Line<Name>,
    ) -> Result<Operation, Fault>
        ensures { result ≡ link_line self.now body.now number line.now }
    {
        let operation = self.operation(line).ok_or(Refusal::Unknown.at(number))?;
        if wild(body, line) {
            return Err(Refusal::Wild.at(number));
        }
        Ok(operation)
    }

    // Links the body of those lines, which text line `number` opens. A loop: tried by `try_collect`, and no proof closed
    // of which fault comes first.
    fn link_body(&self, number: usize, lines: &[Line<Name>], heap: Global) -> Result<Body, Stop>
        requires { number + length lines.now < 2 ^ 64 }
        ensures { Makes (λ b. b) (link_part self.now (record { line = number; lines = lines.now })) result }
    {
        let mut operations = Vec::with_capacity(heap, lines.len())?;
        for (i, line) in lines.iter().enumerate() {
            operations.push(self.link_line(lines, number + 1 + i, line)?)?;
        }
        Ok(Body {
            line: number,
            operations,
        })
    }

    // Links all bodies of a script's lines. A loop, as `link_body`: tried by `try_collect` too, with the same end.
    pub(crate) fn link_bodies(&self, lines: &[Line<Name>], heap: Global) -> Result<Vec<Body>, Stop>
        ensures { Makes vec_items (link_parts self.now (parts 1 lines.now)) result }
    {
        let mut bodies = Vec::with_capacity(heap, self.bodies.len())?;
        for (i, line) in lines.iter().enumerate() {
            if opens(line) {
                bodies.push(self.link_body(i + 1, own(&lines[i + 1..]), heap)?)?;
            }
        }
        Ok(bodies)
    }
}
