//! Why a number is not written.

ghost use Rattle.std.specs.Prelude.{◌≡◌};
ghost use Rattle.icu_decimal.specs.declared.write_fault.WriteFault.TheVariants.{Memory, Sink};
ghost use Rattle.icu_decimal.specs.WriteFaults.{write_fault_number};

use std::alloc::AllocError;
use thiserror::Error;

/// Why an abstract formatter does not write a number: `Sink` where `1.6K` is written to a sink with room for two bytes.
#[derive(Clone, Copy, Debug, Drop, PartialEq, Eq, Error)]
pub enum WriteFault {
    /// The sink refused, as one with room for two bytes refuses `1.6K`; it has taken a beginning.
    #[error("the sink refused")]
    Sink,
    /// Out of memory: the number has more than sixteen digits, as 12345678901234567. Nothing was written.
    #[error("out of memory")]
    Memory,
}

impl WriteFault {
    /// The number of the error: 1 of `Sink`, 2 of `Memory`. It does not allocate.
    pub fn number(&self) -> u8
        ensures { result ≡ write_fault_number self.now }
    {
        match *self {
            WriteFault::Sink => 1,
            WriteFault::Memory => 2,
        }
    }
}

impl From<AllocError> for WriteFault {
    ghost from_gives = { λ _ e. e ≡ Memory };

    fn from(_refused: AllocError) -> WriteFault {
        WriteFault::Memory
    }
}

impl From<writeable::Error> for WriteFault {
    ghost from_gives = { λ _ e. e ≡ Sink };

    fn from(_refused: writeable::Error) -> WriteFault {
        WriteFault::Sink
    }
}
