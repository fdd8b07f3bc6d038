// Why a script was not linked.
ghost use Rattle.std.specs.Prelude.{◌≡◌};
ghost use Rattle.linking.specs.declared.stop.Stop.TheVariants.{Faulty, Memory};

use std::alloc::{AllocError, AllocFailed};
use words::Fault;

// Not an `Option` of the fault: it is an error, and `?` makes it from each of its causes.
#[derive(Clone, Copy, Debug, PartialEq, Eq)]
pub enum Stop {
    // the script's first fault
    Faulty(Fault),
    // memory was wanting; nothing is said of the script
    Memory,
}

impl From<Fault> for Stop {
    ghost from_gives = { λ fault stop. stop ≡ Faulty fault };

    fn from(fault: Fault) -> Stop {
        Stop::Faulty(fault)
    }
}

impl From<AllocError> for Stop {
    ghost from_gives = { λ _ stop. stop ≡ Memory };

    fn from(_error: AllocError) -> Stop {
        Stop::Memory
    }
}

impl<T: Drop> From<AllocFailed<T>> for Stop {
    ghost from_gives = { λ _ stop. stop ≡ Memory };

    fn from(_refused: AllocFailed<T>) -> Stop {
        Stop::Memory
    }
}
