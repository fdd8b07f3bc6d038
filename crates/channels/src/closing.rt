// Closing a channel: all who wait at it are released.
ghost use Rattle.std.specs.Prelude.{◌≡◌, ◌+◌, ◌-◌, ◌≤◌, ◌++◌, length, is_ok, if◌then◌else◌, vec_len, vec_capacity};
ghost use Rattle.channels.specs.Closes.{freed_at, line_closed, closing};
ghost use Rattle.channels.specs.Seen.{shut};

use crate::channel::Channel;
use crate::errors::CloseError;
use waiting::{Entry, Waiting};

impl Channel {
    // Releases all receivers and then all senders, each routine by its first entry met, and notes them in order. The list is
    // the caller's, so that there is room in it is asked here and no fact of a type.
    fn release_all<X: Copy>(&self, waiting: &mut Waiting<X>, freed: &mut Vec<Entry<X>>) -> usize
        requires { vec_len freed.old + length waiting.old.line ≤ vec_capacity freed.old }
        ensures value { result ≡ length (freed_at self.now waiting.old) }
        ensures items { freed.new.items ≡ freed.old.items ++ freed_at self.now waiting.old }
        ensures line { waiting.new ≡ line_closed self.now waiting.old }
        ensures room { vec_capacity freed.new ≡ vec_capacity freed.old }
    {
        let before = freed.len();
        // a loop: each turn changes the line and the list, of which a closure's caller would learn nothing
        while let Some(entry) = self.release_next(waiting) {
            freed.push_reserved(entry);
        }
        freed.len() - before
    }

    // Closes the channel: all receivers and then all senders are released, each routine by its first entry met, and
    // noted in order.
    pub fn close<X: Copy>(
        &mut self,
        waiting: &mut Waiting<X>,
        freed: &mut Vec<Entry<X>>,
    ) -> Result<usize, CloseError>
        ensures answer { result ≡ closing self.old.closed (vec_capacity freed.old - vec_len freed.old) (length (freed_at self.old waiting.old)) }
        ensures channel { self.new ≡ (if is_ok result then shut self.old else self.old) }
        ensures items { freed.new.items ≡ (if is_ok result then freed.old.items ++ freed_at self.old waiting.old else freed.old.items) }
        ensures line { waiting.new ≡ (if is_ok result then line_closed self.old waiting.old else waiting.old) }
        ensures room { vec_capacity freed.new ≡ vec_capacity freed.old }
    {
        if self.closed {
            return Err(CloseError::AlreadyClosed);
        }
        if freed.capacity() - freed.len() < 64 {
            return Err(CloseError::NoRoom);
        }
        // So all who wait can be noted.
        prove!(waiting.len() <= 64);
        let count = self.release_all(waiting, freed);
        self.closed = true;
        Ok(count)
    }
}
