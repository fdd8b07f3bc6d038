// The entries of the input: picks and queries, read from lines. A refused line is told by its number alone, so that reading
// gives an `Option`: an error type, as `FromStr` wants one, would say no more.
use pickers::{Pick, Query};

// What one line says.
pub(crate) enum Entry {
    Pick(Pick),
    Query(Query),
}

// A whole number.
fn read_number(word: &str) -> Option<u32> {
    word.parse().ok()
}

// A pick, from the words after `PK`: a routine and a case.
fn read_pick(text: &str) -> Option<Pick> {
    let (routine, case) = text.trim().split_once(' ')?;
    Some(Pick {
        routine: read_number(routine)?,
        case: read_number(case.trim())?,
    })
}

// The set of the cases that the words name, each from 0 to 7.
fn read_set(text: &str) -> Option<u8> {
    text.split_whitespace().try_fold(0, |ready, word| {
        Some(ready | 1u8.checked_shl(read_number(word)?)?)
    })
}

// A query: a routine, and the cases that are ready.
fn read_query(text: &str) -> Option<Query> {
    let (routine, cases) = text.split_once(' ').unwrap_or((text, ""));
    Some(Query {
        routine: read_number(routine)?,
        ready: read_set(cases)?,
    })
}

// The entry of a line, if it has the form of one.
pub(crate) fn read_entry(line: &str) -> Option<Entry> {
    let line = line.trim();
    match line.strip_prefix("PK ") {
        Some(rest) => read_pick(rest).map(Entry::Pick),
        None => read_query(line).map(Entry::Query),
    }
}
