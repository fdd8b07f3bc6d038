// Why a call is refused, and at which line of the text.
ghost use Rattle.std.specs.Prelude.{◌≡◌};
ghost use Rattle.words.specs.Refusals.{number_of, fault};
ghost use Rattle.words.specs.Refusals.{broken as broken_at};

use std::fmt;

#[derive(Clone, Copy, Debug, PartialEq, Eq)]
pub enum Refusal {
    Overlong = 1,
    Broken,
    Misplaced,
    Full,
    Twice,
    Unknown,
    Wild,
    Small,
    Over,
    Absent,
}

impl Refusal {
    // The number that is printed for it. As `Panic::number` of reports: `as` is of one enum, so a trait for the two would have
    // this line twice.
    pub fn number(self) -> u8
        ensures { result ≡ number_of self }
    {
        self as u8
    }

    // It, at that line.
    pub fn at(self, line: usize) -> Fault
        ensures { result ≡ fault self line }
    {
        Fault {
            refusal: self,
            line,
        }
    }
}

// A refusal of a text, at a line counted from 1, or 0 for the whole text.
#[derive(Clone, Copy, Debug, PartialEq, Eq)]
pub struct Fault {
    pub refusal: Refusal,
    pub line: usize,
}

impl Fault {
    // A number, a word or a line out of form.
    pub fn broken(line: usize) -> Fault
        ensures { result ≡ broken_at line }
    {
        Refusal::Broken.at(line)
    }
}

impl fmt::Display for Fault {
    ghost use Rattle.std.specs.Prelude.{Some};
    ghost use Rattle.words.specs.Refusals.{show_fault};

    ghost output = { λ f. Some (show_fault f) };

    fn fmt<W: fmt::Write>(&self, f: &mut fmt::Formatter<W>) -> fmt::Result {
        write!(f, "NO {} {}", self.refusal.number(), self.line)
    }
}
