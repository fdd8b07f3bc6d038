// Handles as elements: nil, or the number of a value channel.
ghost use Rattle.std.specs.Prelude.{◌≡◌};
ghost use Rattle.elements.specs.Codes.{nil_handle, handle_to, handle_code, handle_number, HandleHolds};
ghost use Rattle.std.proofs.Common.{rules};

use crate::element::Element;

// A number of 16 bits may name no channel. Its code, the number + 1, always fits 32 bits.
#[derive(Clone, Copy, PartialEq, Eq, Debug)]
pub struct Handle {
    channel: Option<u16>,
}

impl Handle {
    // The handle that names nothing.
    pub fn nil() -> Handle
        ensures { result ≡ nil_handle }
    {
        Handle { channel: None }
    }

    // The handle of the value channel with this number.
    pub fn to_channel(number: u16) -> Handle
        ensures { result ≡ handle_to number }
    {
        Handle {
            channel: Some(number),
        }
    }

    // The number of the channel that it names, if it names one.
    pub fn number(self) -> Option<u16>
        ensures { result ≡ handle_number self }
    {
        self.channel
    }
}

impl Element for Handle {
    const CELLS: usize = 128;

    ghost CELLS = { 128 };

    ghost nought = { nil_handle };

    ghost coded = { handle_code };

    ghost holds = { HandleHolds };

    ghost laws = { Prim.search rules };

    fn zero() -> Handle {
        Handle::nil()
    }

    fn code(self) -> u32 {
        self.number().map_or(0, |number| u32::from(number) + 1)
    }
}
