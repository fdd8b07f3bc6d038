// Joining the line, leaving it, and the queues that are read from it.
ghost use Rattle.std.specs.Prelude.{◌≡◌, ◌<◌, ◌≤◌, [], false, length, filter, cond, None, slice_index_or, vec_len, vec_capacity, IfOk, IfSome};
ghost use Rattle.std.specs.List.{All};
ghost use Rattle.waiting.specs.Lines.{nobody};
ghost use Rattle.waiting.specs.Queues.{queue, places, first as first_of, waits as is_waiting, Orderly, cases, without};
ghost use Rattle.waiting.specs.Marks.{has as has_routine, IsSetOf};
ghost use Rattle.waiting.specs.Laws.{may_join, Absent, Joined, Parted, Served};
ghost use Rattle.waiting.specs.Runs.{step, joins, leaves, releases};

use crate::cases::Cases;
use crate::line::Waiting;
use crate::marks::{mark, unmark};
use crate::sets::{has, only, with, without};
use crate::wish::{Entry, Queue, Wish};
use std::alloc::{AllocError, Global};

// Writes a routine's cases into its row, which has room for them: joining needs no memory. A loop, since
// `extend_from_slice` succeeds where there is room, but its contract lets the room grow: it does not say that no memory is
// taken, and a step may take none. That there is room, and that the room stays (here and in `strike`), are clauses: a struct of a
// list with its room would stand round one field, for one call each.
fn lay<X: Copy>(row: &mut Vec<Option<Wish<X>>>, wishes: &[Option<Wish<X>>])
    requires { length wishes.now ≤ vec_capacity row.old }
    ensures items { row.new.items ≡ wishes.now }
    ensures room { vec_capacity row.new ≡ vec_capacity row.old }
{
    row.clear();
    for wish in wishes {
        row.push_reserved(*wish);
    }
}

// Where a routine stands in the line. It is sought from the end: who joined last is found first, however many wait.
fn place_of(line: &[u8], routine: u8) -> Option<usize>
    ensures some { IfSome result (λ i. (i < length line.now) × (slice_index_or line.now i 0 ≡ routine)) }
    ensures none { result ≡ None → is_waiting routine line.now ≡ false }
{
    let mut i = line.len();
    while 0 < i {
        i -= 1;
        if line[i] == routine {
            return Some(i);
        }
    }
    None
}

// Takes the routine out of the line, and leaves the others in their order.
fn strike(line: &mut Vec<u8>, routine: u8)
    requires { Orderly 64 line.old.items }
    ensures items { line.new.items ≡ without routine line.old.items }
    ensures room { vec_capacity line.new ≡ vec_capacity line.old }
{
    if let Some(i) = place_of(line, routine) {
        let _ = line.remove(i);
    }
}

// A table of 64 empty rows, with room for 8 cases in each.
fn blank<X: Copy>(heap: Global) -> Result<Vec<Vec<Option<Wish<X>>>>, AllocError>
    ensures len { IfOk result (λ t. vec_len t ≡ 64) }
    ensures rows { IfOk result (λ t. All (λ row. (row.items ≡ []) × (8 ≤ vec_capacity row)) t.items) }
{
    (0..64_usize)
        .map(|_| Vec::with_capacity(heap, 8))
        .try_collect(heap)
}

impl<X: Copy> Waiting<X> {
    // A line in which nobody waits, with room for 64 routines of 8 cases.
    pub fn new(heap: Global) -> Result<Waiting<X>, AllocError>
        ensures { IfOk result (λ w. w ≡ nobody) }
    {
        let line = Vec::with_capacity(heap, 64)?;
        let table = blank(heap)?;
        let marks = vec![in heap; 0; 512]?;
        Ok(Waiting {
            line,
            table,
            present: 0,
            marks,
        })
    }

    // How many routines wait: at most 64, each of them one of the 64 and none twice.
    pub fn len(&self) -> usize
        ensures is { result ≡ length self.now.line }
        ensures few { result ≤ 64 }
        ensures once { Orderly 64 self.now.line }
        ensures whole { length self.now.table ≡ 64 }
    {
        self.line.len()
    }

    // Whether that routine waits.
    pub fn waits(&self, routine: u8) -> bool
        ensures { result ≡ is_waiting routine self.now.line }
    {
        has(self.present, routine)
    }

    // The cases of a routine.
    fn cases_of(&self, routine: u8) -> Cases<'_, X>
        ensures who { result.routine ≡ routine }
        ensures what { result.wishes.now ≡ cases routine self.now.table }
    {
        let wishes = match self.table.get(routine as usize) {
            Some(row) => row.as_slice(),
            None => &[],
        };
        Cases { routine, wishes }
    }

    // The routines that stand in that queue.
    fn standing(&self, q: Queue) -> u64
        ensures { IsSetOf q.side q.channel self.now.line self.now.table result }
    {
        self.marks[q.slot()]
    }

    // The first place of a routine in that queue, if it is one of the set.
    fn front_of(&self, routine: u8, set: u64, q: Queue) -> Option<Entry<X>>
        ensures { result ≡ cond (has_routine set routine) (first_of (places q.side q.channel routine 0 (cases routine self.now.table))) None }
    {
        if !has(set, routine) {
            return None;
        }
        self.cases_of(routine).first_in(q)
    }

    // The first place, along the line, of a routine of the set.
    fn front_along(&self, set: u64, q: Queue) -> Option<Entry<X>>
        ensures { result ≡ first_of (queue q.side q.channel (filter (has_routine set) self.now.line) self.now.table) }
    {
        self.line
            .iter()
            .find_map(|routine| self.front_of(*routine, set, q))
    }

    // The front of that queue. Mostly nobody stands in it, or one routine alone.
    pub fn first(&self, q: Queue) -> Option<Entry<X>>
        ensures { result ≡ first_of (queue q.side q.channel self.now.line self.now.table) }
    {
        let set = self.standing(q);
        if set == 0 {
            return None;
        }
        match only(set) {
            Some(routine) => self.cases_of(routine).first_in(q),
            None => self.front_along(set, q),
        }
    }

    // How many places a routine has in that queue, if it is one of the set.
    fn count_of(&self, routine: u8, set: u64, q: Queue) -> usize
        ensures is { result ≡ cond (has_routine set routine) (length (places q.side q.channel routine 0 (cases routine self.now.table))) 0 }
        ensures few { result ≤ 8 }
    {
        if !has(set, routine) {
            return 0;
        }
        self.cases_of(routine).count_in(q)
    }

    // How many places that queue has.
    pub fn count(&self, q: Queue) -> usize
        ensures { result ≡ length (queue q.side q.channel self.now.line self.now.table) }
    {
        let set = self.standing(q);
        self.line
            .iter()
            .map(|routine| self.count_of(*routine, set, q))
            .sum()
    }

    // Whether a routine with so many cases may join.
    fn may_join(&self, routine: u8, cases: usize) -> bool
        ensures { result ≡ may_join routine cases self.now.line }
    {
        routine < 64 && cases <= 8 && !self.waits(routine)
    }

    // The routine joins the end of the line with its cases, and with each stands behind all others.
    // False, and nothing changes, where there is no such routine, it has over 8 cases or it waits already. A bool, like
    // `insert` of a set: the caller has what it needs to know which of these it was.
    pub fn join(&mut self, routine: u8, wishes: &[Option<Wish<X>>]) -> bool
        ensures answer { result ≡ may_join routine (length wishes.now) self.old.line }
        ensures behind { Joined result routine wishes.now self.old self.new }
        ensures steps { self.new ≡ step (joins routine wishes.now) self.old }
    {
        if !self.may_join(routine, wishes.len()) {
            return false;
        }
        lay(&mut self.table[routine as usize], wishes);
        mark(&mut self.marks, routine, wishes);
        self.line.push_reserved(routine);
        self.present = with(self.present, routine);
        true
    }

    // The routine leaves every queue, and the others keep their order; the answer is whether it waited.
    pub fn leave(&mut self, routine: u8) -> bool
        ensures answer { result ≡ is_waiting routine self.old.line }
        ensures gone { Absent routine self.new }
        ensures order { Parted routine self.old self.new }
        ensures steps { self.new ≡ step (leaves routine) self.old }
    {
        if !self.waits(routine) {
            return false;
        }
        unmark(&mut self.marks, routine, &self.table[routine as usize]);
        strike(&mut self.line, routine);
        self.present = without(self.present, routine);
        true
    }

    // The front of that queue, which leaves every queue of every channel; the others keep their order.
    pub fn release_first(&mut self, q: Queue) -> Option<Entry<X>>
        ensures answer { result ≡ first_of (queue q.side q.channel self.old.line self.old.table) }
        ensures served { Served result self.old self.new }
        ensures steps { self.new ≡ step (releases q) self.old }
    {
        let entry = self.first(q)?;
        let _ = self.leave(entry.routine);
        Some(entry)
    }
}
