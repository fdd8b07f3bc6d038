// Reading a text line by line into a draft.
ghost use Rattle.std.specs.Prelude.{◌≡◌, ◌+◌, ◌≤◌, length};
ghost use Rattle.words.specs.Words.{span};
ghost use Rattle.script.specs.Drafts.{reading, outcome, Reads};
ghost use Rattle.script.specs.Texts.{read_piece as piece_read};

use crate::draft::Draft;
use line_reader::read_line;
use lines::Line;
use words::{Fault, Name};

// Line `number` with its end, if it has one: no byte but the last can be one.
fn read_piece(bytes: &[u8], number: usize) -> Result<Line<Name>, Fault>
    requires { length bytes.now ≤ span 10 bytes.now + 1 }
    ensures { result ≡ piece_read number bytes.now }
{
    let Some((end, line)) = bytes.split_last() else {
        return Err(Fault::broken(number));
    };
    if *end != b'\n' {
        return Err(Fault::broken(number));
    }
    read_line(line, number)
}

impl Draft {
    // Reads one line more.
    fn read_one(&mut self, bytes: &[u8], number: usize, last: bool) -> Result<(), Fault>
        requires { length bytes.now ≤ span 10 bytes.now + 1 }
        ensures { Reads self.old number bytes.now last self.new result }
    {
        // not `?`: tried: a `Line<Name>` is then kept over the branch, and the check does not load what it holds (as in `keep`)
        match read_piece(bytes, number) {
            Ok(line) => self.admit(&line, number, last),
            Err(fault) => Err(fault),
        }
    }

    // Reads all lines of the text, up to the first fault.
    pub(crate) fn read_text(&mut self, text: &[u8]) -> Result<(), Fault>
        ensures { outcome result self.new ≡ reading self.old 1 text.now }
    {
        // where the line read last ends, so that the last line is known: to `peek` at the next asks for a `while let`
        let mut end = 0;
        for (place, bytes) in text.split_inclusive(|b| *b == b'\n').enumerate() {
            end += bytes.len();
            self.read_one(bytes, place + 1, end == text.len())?;
        }
        Ok(())
    }
}
