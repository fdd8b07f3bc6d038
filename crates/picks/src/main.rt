// Runs a turning picker and a schedule over a list of ready sets.
//
// Standard input has one entry to a line, its words apart by blanks:
//     PK ROUTINE CASE      a pick of the schedule; the picks are played in their order, wherever they stand
//     ROUTINE CASE ..      a query: a routine and its ready cases, each from 0 to 7
//
// For each query it prints what each picker's select takes, and whether the picker was asked. Then it prints the
// turning picker's answers as picks, in the form in which a schedule is read.
#![tactic(auto)]

mod entries;

use entries::{Entry, read_entry};
use pickers::{Choice, Pick, Query, Schedule, Turning, choose, record_picks};

// The picks and the queries of the input, each in its order. It tells of a line that is neither.
fn read(rt: &HostRuntime) -> anyhow::Result<(Vec<Pick>, Vec<Query>)> {
    let mut picks = Vec::new(rt.alloc());
    let mut queries = Vec::new(rt.alloc());
    for (number, line) in (1u64..).zip(rt.lines(rt.alloc())) {
        match read_entry(line?.as_str()) {
            Some(Entry::Pick(pick)) => picks.push(pick)?,
            Some(Entry::Query(query)) => queries.push(query)?,
            None => println!(rt; "line {number} is neither a pick nor a query")?,
        }
    }
    Ok((picks, queries))
}

// Puts each query to both pickers and prints what they choose. The result is the queries at which a picker was asked.
fn answer(rt: &HostRuntime, picks: &[Pick], queries: &[Query]) -> anyhow::Result<Vec<Query>> {
    let mut asked = Vec::new(rt.alloc());
    let mut turning = Turning::new();
    let mut schedule = Schedule::new(picks);
    for &query in queries {
        let turned = choose(&mut turning, query);
        let played = choose(&mut schedule, query);
        println!(rt;
            "routine {}: turning {turned}, schedule {played}",
            query.routine
        )?;
        if matches!(turned, Choice::Asked(_)) {
            asked.push(query)?;
        }
    }
    Ok(asked)
}

// Prints the answers of a fresh turning picker as picks.
fn record(rt: &HostRuntime, asked: &[Query]) -> anyhow::Result<()> {
    let picks = record_picks(rt.alloc(), &mut Turning::new(), asked)?;
    for pick in &picks {
        println!(rt; "{pick}")?;
    }
    Ok(())
}

fn main(rt: HostRuntime) -> anyhow::Result<()> {
    let (picks, queries) = read(&rt)?;
    let asked = answer(&rt, &picks, &queries)?;
    record(&rt, &asked)
}
