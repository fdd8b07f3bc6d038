// The marks of the queues: for each queue the set of the routines that stand in it.
ghost use Rattle.std.specs.Prelude.{◌≡◌, ℕ, ◌<◌, ◌==◌, ◌&&◌, ◌||◌, not, length};
ghost use Rattle.waiting.specs.Queues.{stands};
ghost use Rattle.waiting.specs.Marks.{slot, marked, case_stands, Marked, Unmarked};
ghost use Rattle.waiting.specs.declared.wish.Side.{Side};

use crate::sets::{with, without};
use crate::wish::{Queue, Side, Wish};

impl Queue {
    // Where the set of this queue lies.
    pub(crate) fn slot(self) -> usize
        ensures is { result ≡ slot self.side self.channel }
        ensures within { result < 512 }
    {
        let pair = 2 * self.channel as usize;
        match self.side {
            Side::Receivers => pair,
            Side::Senders => pair + 1,
        }
    }

    // The queue where a case that waits for this stands.
    fn of<X: Copy>(wish: Wish<X>) -> Queue
        ensures { (s : Side) (c : ℕ) → stands s c wish ≡ (slot result.side result.channel == slot s c) }
    {
        match wish {
            Wish::Send(channel, _) => Queue {
                side: Side::Senders,
                channel,
            },
            Wish::Receive(channel) => Queue {
                side: Side::Receivers,
                channel,
            },
        }
    }
}

// Marks the routine in the queue where this case stands.
fn mark_case<X: Copy>(marks: &mut [u64], routine: u8, case: Option<Wish<X>>)
    requires one { routine < 64 }
    requires whole { length marks.old ≡ 512 }
    ensures { (s : Side) (c k : ℕ) → marked s c k marks.new ≡ (marked s c k marks.old || (k == routine && case_stands s c case)) }
{
    if let Some(wish) = case {
        let slot = Queue::of(wish).slot();
        marks[slot] = with(marks[slot], routine);
    }
}

// Takes the mark of the routine away from the queue where this case stands.
fn unmark_case<X: Copy>(marks: &mut [u64], routine: u8, case: Option<Wish<X>>)
    requires one { routine < 64 }
    requires whole { length marks.old ≡ 512 }
    ensures { (s : Side) (c k : ℕ) → marked s c k marks.new ≡ (marked s c k marks.old && not (k == routine && case_stands s c case)) }
{
    if let Some(wish) = case {
        let slot = Queue::of(wish).slot();
        marks[slot] = without(marks[slot], routine);
    }
}

// Marks the routine in every queue where one of its cases stands.
pub(crate) fn mark<X: Copy>(marks: &mut [u64], routine: u8, wishes: &[Option<Wish<X>>])
    requires one { routine < 64 }
    requires whole { length marks.old ≡ 512 }
    ensures { Marked routine wishes.now marks.old marks.new }
{
    for wish in wishes {
        mark_case(marks, routine, *wish);
    }
}

// Takes the marks of the routine away from there.
pub(crate) fn unmark<X: Copy>(marks: &mut [u64], routine: u8, wishes: &[Option<Wish<X>>])
    requires one { routine < 64 }
    requires whole { length marks.old ≡ 512 }
    ensures { Unmarked routine wishes.now marks.old marks.new }
{
    for wish in wishes {
        unmark_case(marks, routine, *wish);
    }
}
