// The fields of a line, read one after another.
ghost use Rattle.std.specs.Prelude.{◌≡◌, IfOk};
ghost use Rattle.words.specs.Words.{said, said_word};
ghost use Rattle.lines.specs.Lines.{read_field};
ghost use Rattle.line_reader.specs.Reads.{Reads, ReadsPicked, Makes, Spelt, to_the_end};

use crate::kinds::Kind;
use lines::Line;
use words::{Fault, Name, Word, next_word};

// What is left of line `line`.
#[derive(Drop)]
pub(crate) struct Fields<'a> {
    pub(crate) rest: &'a [u8],
    pub(crate) line: usize,
}

impl<'a> Fields<'a> {
    // A space and a word.
    #[tactic(auto, using(std::proofs::lemmas::List::take_rest), unfolding(lines::specs::Lines::read_field))]
    fn word(&mut self) -> Result<Word<'a>, Fault>
        ensures field { Reads read_field self.old (said_word result) self.new }
        ensures names { IfOk result (λ w. Spelt (said w)) }
    {
        let [b' ', rest @ ..] = self.rest else {
            return Err(Fault::broken(self.line));
        };
        let (word, rest) = next_word(rest, self.line)?;
        self.rest = rest;
        Ok(word)
    }

    // A space and a word of one kind, from which `pick` takes what is read.
    pub(crate) fn only<T, F: FnOnce(Word<'a>) -> Option<T>>(&mut self, pick: F) -> Result<T, Fault>
        requires { F.IsAlwaysCallable pick }
        ensures { ReadsPicked (F.post pick) self.old result self.new }
    {
        let word = self.word()?;
        pick(word).ok_or(Fault::broken(self.line))
    }

    // All fields of the line, which ends after them.
    fn all<K: Kind>(mut self) -> Result<K::Out, Fault>
        ensures { result ≡ to_the_end K.reader self.entry.line self.entry.rest.now }
    {
        let read = K::read(&mut self)?;
        match self.rest {
            [] => Ok(read),
            _ => Err(Fault::broken(self.line)),
        }
    }

    // What `make` makes of them.
    pub(crate) fn make<K: Kind, F: FnOnce(K::Out) -> Line<Name>>(
        self,
        make: F,
    ) -> Result<Line<Name>, Fault>
        requires { F.IsAlwaysCallable make }
        ensures { Makes K.reader (F.post make) self.entry result }
    {
        self.all::<K>().map(make)
    }
}
