// Asking a picker a list of queries: its answers, and its answers recorded as picks that a schedule can play again.
ghost use Rattle.std.specs.Prelude.{◌≡◌, ◌+◌, ◌<◌, ◌≤◌, ◌++◌, Some, IfOk, length, vec_len, vec_capacity};
ghost use Rattle.std.specs.Option.{option_to_list};
ghost use Rattle.pickers.specs.Meaning.{answers, after_all, after_asking};
ghost use Rattle.pickers.specs.Recording.{AllWithin, Rule, noted, pick_of, picks_of, Replayed};

use crate::picker::{Picker, Query};
use crate::schedule::Pick;
use std::alloc::{AllocError, Global};

// A note on a query and a picker's answer to it.
trait Note: Sized + Drop {
    // Which note they give, if they give one.
    ghost rule: { Rule Self };

    fn note(query: Query, answer: Option<u8>) -> Option<Self>
        ensures { result ≡ rule query answer };
}

// Every answer is noted.
impl Note for Option<u8> {
    ghost rule = { λ _ o. Some o };

    fn note(_query: Query, answer: Option<u8>) -> Option<Option<u8>> {
        Some(answer)
    }
}

// A pick is noted where a case is named.
impl Note for Pick {
    ghost rule = { pick_of };

    fn note(query: Query, answer: Option<u8>) -> Option<Pick> {
        answer.map(|case| Pick {
            routine: query.routine,
            case: u32::from(case),
        })
    }
}

// Puts one more note, if there is one, after the others. That there is room, and how much afterwards, are clauses here and in
// `note_each`: the list is handed out as a Vec, so a struct that holds it with its room would be put round it and taken off.
fn add<T: Drop>(notes: &mut Vec<T>, note: Option<T>)
    requires { vec_len notes.old < vec_capacity notes.old }
    ensures items { notes.new.items ≡ notes.old.items ++ option_to_list note }
    ensures len { vec_len notes.new ≤ vec_len notes.old + 1 }
    ensures capacity { vec_capacity notes.new ≡ vec_capacity notes.old }
{
    if let Some(note) = note {
        notes.push_reserved(note);
    }
}

// Asks the queries, one after the other, and keeps the notes on the answers. Whatever the notes are, the answers lie in
// their sets, and the picks made of them give them again. A picker and queries, here and below, are lent apart by who asks,
// as is the heap: a struct of them would be made for one call. What the answers are is said in each contract, since a caller
// sees no other; it is one definition, `answers`.
fn note_each<P: Picker, T: Note>(picker: &mut P, queries: &[Query], notes: &mut Vec<T>)
    requires { vec_len notes.old + length queries.now ≤ vec_capacity notes.old }
    ensures items { notes.new.items ≡ notes.old.items ++ noted T.rule queries.now (answers (P.meaning picker.old) queries.now) }
    ensures then { P.meaning picker.new ≡ after_all (P.meaning picker.old) queries.now }
    ensures within { AllWithin queries.now (answers (P.meaning picker.old) queries.now) }
    ensures replayed { let os = answers (P.meaning picker.old) queries.now in Replayed (picks_of queries.now os) queries.now os }
{
    for query in queries {
        let answer = picker.pick(*query);
        add(notes, T::note(*query, answer));
    }
}

// The notes on the picker's answers to the queries. Where there is no memory for them, none is asked.
fn note_all<P: Picker, T: Note>(
    heap: Global,
    picker: &mut P,
    queries: &[Query],
) -> Result<Vec<T>, AllocError>
    ensures value { IfOk result (λ v. v.items ≡ noted T.rule queries.now (answers (P.meaning picker.old) queries.now)) }
    ensures then { P.meaning picker.new ≡ after_asking result (P.meaning picker.old) queries.now }
    ensures within { IfOk result (λ _. AllWithin queries.now (answers (P.meaning picker.old) queries.now)) }
    ensures replayed { let os = answers (P.meaning picker.old) queries.now in
        IfOk result (λ _. Replayed (picks_of queries.now os) queries.now os) }
{
    let mut notes = Vec::with_capacity(heap, queries.len())?;
    note_each(picker, queries, &mut notes);
    Ok(notes)
}

// The picker's answers to the queries, one after the other. Where there is no memory for them, none is asked.
#[tactic(auto, using(crate::proofs::Along::every_answer))]
pub fn ask_all<P: Picker>(
    heap: Global,
    picker: &mut P,
    queries: &[Query],
) -> Result<Vec<Option<u8>>, AllocError>
    ensures value { IfOk result (λ v. v.items ≡ answers (P.meaning picker.old) queries.now) }
    ensures then { P.meaning picker.new ≡ after_asking result (P.meaning picker.old) queries.now }
    ensures within { IfOk result (λ v. AllWithin queries.now v.items) }
{
    note_all::<P, Option<u8>>(heap, picker, queries)
}

// The picks that the picker's answers to the queries make. Where there is no memory for them, none is asked.
pub fn record_picks<P: Picker>(
    heap: Global,
    picker: &mut P,
    queries: &[Query],
) -> Result<Vec<Pick>, AllocError>
    ensures value { IfOk result (λ v. v.items ≡ picks_of queries.now (answers (P.meaning picker.old) queries.now)) }
    ensures then { P.meaning picker.new ≡ after_asking result (P.meaning picker.old) queries.now }
    ensures replayed { IfOk result (λ v. Replayed v.items queries.now (answers (P.meaning picker.old) queries.now)) }
{
    note_all::<P, Pick>(heap, picker, queries)
}
