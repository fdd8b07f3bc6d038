// What a picker is: a query, and the trait that every picker implements, with its meaning and its laws.
ghost use Rattle.std.specs.Prelude.{◌≡◌};
ghost use Rattle.pickers.specs.Meaning.{Meaning, answer, after, Lawful};
ghost use Rattle.pickers.specs.Sets.{OneOf};

// What a picker is asked: the routine whose select has ready cases, and the set of them. In the set, a small number,
// the binary digit k is 1 where case k is ready.
#[derive(Clone, Copy)]
pub struct Query {
    pub routine: u32,
    pub ready: u8,
}

// Answers each query with a ready case, or with none.
pub trait Picker {
    // Which answer it gives to each query after each list of queries.
    ghost meaning: { Self → Meaning };

    // Its answer is none or a case of the set; to an empty set it answers none and keeps its meaning.
    ghost lawful: { (x : Self) → Lawful (meaning x) };

    // The answer and the meaning afterwards are those that the meaning has for the query. The functions that pass the
    // call on say so again, and that the answer is of the set: who calls `ask` or `choose` sees only their contracts.
    fn pick(&mut self, query: Query) -> Option<u8>
        ensures value { result ≡ answer (meaning self.old) query }
        ensures then { meaning self.new ≡ after (meaning self.old) query };
}

// The picker's answer to a query, which by its laws is none or a ready case.
pub(crate) fn ask<P: Picker>(picker: &mut P, query: Query) -> Option<u8>
    ensures value { result ≡ answer (P.meaning picker.old) query }
    ensures then { P.meaning picker.new ≡ after (P.meaning picker.old) query }
    ensures within { OneOf query.ready result }
{
    picker.pick(query)
}
