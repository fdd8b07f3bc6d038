// Why a call on a channel was refused, and what is printed of it. Nothing changes by a refused call.
ghost use Rattle.std.specs.Prelude.{Some};
ghost use Rattle.channels.specs.Printed.{send_refusal, receive_refusal, close_refusal};

use std::fmt;

// Each call has errors of its own, so that a caller meets only what can come of it.

// Why a send was refused.
#[derive(Clone, Copy, Debug, PartialEq, Eq)]
pub enum SendError {
    // The bank has not all cells of the channel.
    ShortBank,
    // The channel is closed.
    Closed,
    // No receiver waits and the buffer is full.
    Full,
}

// Why a receive was refused.
#[derive(Clone, Copy, Debug, PartialEq, Eq)]
pub enum ReceiveError {
    // The bank has not all cells of the channel.
    ShortBank,
    // Nothing is buffered, no sender waits and the channel is open.
    Empty,
}

// Why a close was refused.
#[derive(Clone, Copy, Debug, PartialEq, Eq)]
pub enum CloseError {
    // It was closed before.
    AlreadyClosed,
    // There is no room to note 64 routines.
    NoRoom,
}

impl fmt::Display for SendError {
    ghost output = { λ why. Some (send_refusal why) };

    fn fmt<W: fmt::Write>(&self, f: &mut fmt::Formatter<W>) -> fmt::Result {
        match *self {
            SendError::ShortBank => write!(f, "the bank is too short"),
            SendError::Closed => write!(f, "the channel is closed"),
            SendError::Full => write!(f, "the buffer is full"),
        }
    }
}

impl fmt::Display for ReceiveError {
    ghost output = { λ why. Some (receive_refusal why) };

    fn fmt<W: fmt::Write>(&self, f: &mut fmt::Formatter<W>) -> fmt::Result {
        match *self {
            ReceiveError::ShortBank => write!(f, "the bank is too short"),
            ReceiveError::Empty => write!(f, "nothing is there"),
        }
    }
}

impl fmt::Display for CloseError {
    ghost output = { λ why. Some (close_refusal why) };

    fn fmt<W: fmt::Write>(&self, f: &mut fmt::Formatter<W>) -> fmt::Result {
        match *self {
            CloseError::AlreadyClosed => write!(f, "closed before"),
            CloseError::NoRoom => write!(f, "no room"),
        }
    }
}
