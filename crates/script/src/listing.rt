// Listing a script that was read.
ghost use Rattle.std.specs.Prelude.{◌≡◌, [], ◌∷◌, ◌++◌, length};
ghost use Rattle.words.specs.Pages.{Prints, Printed};
ghost use Rattle.lines.specs.Shows.{show_line};
ghost use Rattle.script.specs.Kept.{Kept};
ghost use Rattle.script.specs.Texts.{show};

use crate::state::Read;
use lines::{Line, put_line};
use words::{Name, Page, Refusal};

// Writes a line and its end next, where there is room for them. Apart from `put_line` of reports, which is given a mark and
// fields: here the line chooses both, and what is common is the one call that ends it.
fn put_ended(page: &mut Page, line: Line<Name>) -> Result<(), Refusal>
    ensures { Prints page.old (show_line line ++ (10 ∷ [])) page.new result }
{
    put_line(page, line)?;
    page.end_line()
}

fn put_lines(page: &mut Page, lines: &[Line<Name>]) -> Result<(), Refusal>
    ensures { Prints page.old (show lines.now) page.new result }
{
    for line in lines {
        put_ended(page, *line)?;
    }
    Ok(())
}

impl Read {
    // Its lines, in order.
    pub fn lines(&self) -> &[Line<Name>]
        ensures lines { result.now ≡ self.now }
        ensures kept { ∥ Kept self.now ∥₁ }
    {
        self.draft.lines()
    }

    // Writes the text of the script at the front of `out`, and answers its length. Apart from a report's `print`: one
    // function over what writes would owe the text that comes of it as a premise, and a public call has none.
    pub fn list(&self, out: &mut [u8]) -> Result<usize, Refusal>
        ensures { Printed (length (show self.now)) out.old (show self.now) out.new result }
    {
        if out.len() < self.size {
            return Err(Refusal::Small);
        }
        let mut page = Page::new(out);
        put_lines(&mut page, self.lines())?;
        Ok(page.len())
    }
}
