// The linked state of a script, and what linking answers where it refuses.
ghost use Rattle.std.specs.Prelude.{◌≡◌, map, slice_index_or};
ghost use Rattle.script.specs.Kept.{Kept};
ghost use Rattle.linking.specs.Programs.{no_block};
ghost use Rattle.linking.specs.Sound.{Sound};

use crate::declared::Channel;
use crate::operation::Operation;
use crate::stop::Stop;
use crate::tables::Tables;
use script::Read;

// A script with its program: the script keeps the rules of the language, every number in the program is in range, every target
// sound. Ghost fields say so, and no Model, whose invariant would not be seen where a program runs.
#[derive(Drop)]
pub struct Linked {
    pub(crate) script: Read,
    pub(crate) program: Tables,
    ghost kept: { ∥ Kept script ∥₁ },
    ghost sound: { ∥ Sound program ∥₁ },
}

// A refused linking: the script as it was, and why.
#[derive(Drop)]
pub struct Unlinked {
    pub script: Read,
    pub stop: Stop,
}

impl Linked {
    // The channels, by their numbers.
    pub fn channels(&self) -> &[Channel]
        ensures { map (λ c. c.declared) result.now ≡ self.now.program.channels }
    {
        &self.program.channels
    }

    // The number of the body `main`.
    pub fn main(&self) -> usize
        ensures { result ≡ self.now.program.main }
    {
        self.program.main
    }

    // The operations of a body: none, if there is no body of that number.
    pub fn operations(&self, body: usize) -> &[Operation]
        ensures { result.now ≡ (slice_index_or self.now.program.bodies body no_block).operations }
    {
        match self.program.bodies.get(body) {
            Some(found) => &found.operations,
            None => &[],
        }
    }

    // The text line that opens a body, counted from 1: 0, if there is no body of that number.
    pub fn opening_line(&self, body: usize) -> usize
        ensures { result ≡ (slice_index_or self.now.program.bodies body no_block).line }
    {
        match self.program.bodies.get(body) {
            Some(found) => found.line,
            None => 0,
        }
    }
}
