// Fields: what is listed after a mark, each a word of its own.
ghost use Rattle.std.specs.Prelude.{◌≡◌, ◌+◌, ◌≤◌, length};
ghost use Rattle.std.specs.Fmt.{decimal};
ghost use Rattle.words.specs.Shows.{show_word, field_said};

use crate::name::Name;

// Not a `Word` with another name in it: a word has one kind of number, and here one may also be without a sign. An enum
// can have no Model, so clauses say `field_said`.
#[derive(Clone, Copy)]
pub enum Field {
    Name(Name),
    Integer(i32),
    Natural(u32),
    Value(u8),
    Handle(u8),
}

// How many digits the number has.
pub(crate) fn digits(n: u32) -> usize
    ensures value { result ≡ length (decimal n) }
    ensures bound { result ≤ n + 1 }
{
    if n < 10 { 1 } else { digits(n / 10) + 1 }
}

impl Field {
    // How many bytes its word has.
    pub(crate) fn width(&self) -> usize
        ensures { result ≡ length (show_word (field_said self.now)) }
    {
        match self {
            Field::Name(name) => name.as_bytes().len(),
            Field::Integer(z) => usize::from(*z < 0) + digits(z.unsigned_abs()),
            Field::Natural(n) => digits(*n),
            Field::Value(n) => 1 + digits(u32::from(*n)),
            Field::Handle(n) => 1 + digits(u32::from(*n)),
        }
    }
}
