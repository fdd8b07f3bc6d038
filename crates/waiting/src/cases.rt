// The cases of one routine, and the places that they have in a queue.
ghost use Rattle.std.specs.Prelude.{◌≡◌, ◌≤◌, length};
ghost use Rattle.waiting.specs.Queues.{stands as stands_at, place, places, first as first_of};

use crate::wish::{Entry, Queue, Side, Wish};

impl Queue {
    // Whether a case stands in this queue.
    fn stands<X: Copy>(self, wish: Wish<X>) -> bool
        ensures { result ≡ stands_at self.side self.channel wish }
    {
        match (self.side, wish) {
            (Side::Receivers, Wish::Receive(c)) => c == self.channel,
            (Side::Senders, Wish::Send(c, _)) => c == self.channel,
            _ => false,
        }
    }

    // The place of one case of a routine in this queue.
    fn place<X: Copy>(self, routine: u8, case: u8, wish: Option<Wish<X>>) -> Option<Entry<X>>
        ensures { result ≡ place self.side self.channel routine case wish }
    {
        match wish {
            Some(wish) if self.stands(wish) => Some(Entry {
                routine,
                case,
                wish,
            }),
            _ => None,
        }
    }
}

// The cases of one routine: at most 8.
#[derive(Drop)]
pub(crate) struct Cases<'a, X> {
    pub(crate) routine: u8,
    pub(crate) wishes: &'a [Option<Wish<X>>],
    pub(crate) ghost few: { length wishes.now ≤ 8 },
}

impl<'a, X: Copy> Cases<'a, X> {
    // The first of their places in that queue. Apart from `count_in`: what both do is `place`; the chain before it has its closure in
    // its type, which no function can name as its result. `as u8` loses nothing, since there are at most 8 cases.
    pub(crate) fn first_in(&self, q: Queue) -> Option<Entry<X>>
        ensures { result ≡ first_of (places q.side q.channel self.now.routine 0 self.now.wishes.now) }
    {
        self.wishes
            .iter()
            .enumerate()
            .find_map(|(case, wish)| q.place(self.routine, case as u8, *wish))
    }

    // How many places they have in that queue.
    pub(crate) fn count_in(&self, q: Queue) -> usize
        ensures is { result ≡ length (places q.side q.channel self.now.routine 0 self.now.wishes.now) }
        ensures few { result ≤ 8 }
    {
        self.wishes
            .iter()
            .enumerate()
            .filter_map(|(case, wish)| q.place(self.routine, case as u8, *wish))
            .count()
    }
}
