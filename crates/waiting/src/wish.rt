// What one case of a waiting routine waits for, and a place in a queue.

// What a case waits for: to send an element on a channel, or to receive one from it.
#[derive(Debug, Clone, Copy, PartialEq, Eq)]
pub enum Wish<X> {
    Send(u8, X),
    Receive(u8),
}

// The two sides of a channel at which routines wait.
#[derive(Debug, Clone, Copy, PartialEq, Eq)]
pub enum Side {
    Receivers,
    Senders,
}

// One of the two queues of a channel.
#[derive(Debug, Clone, Copy, PartialEq, Eq)]
pub struct Queue {
    pub side: Side,
    pub channel: u8,
}

// A place in a queue: the routine, its case, and what that case waits for.
#[derive(Debug, Clone, Copy, PartialEq, Eq)]
pub struct Entry<X> {
    pub routine: u8,
    pub case: u8,
    pub wish: Wish<X>,
}
