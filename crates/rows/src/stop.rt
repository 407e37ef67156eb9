//! Why a row is not answered by what its call returns, and what answers it then.

use std::alloc::{AllocError, AllocFailed};

/// Why a row has no answer.
#[derive(Clone, Copy, Drop)]
pub enum Stop {
    /// A call refused, with this number; the row is answered by `error 1`.
    Refused(u8),
    /// A call refused, and the words of the refusal were written: they answer the row.
    Written,
    /// The row names no call, or passes it what it does not take; it is answered by `?`.
    Unknown,
    /// Out of memory, which ends the program.
    Memory,
}

impl From<AllocError> for Stop {
    fn from(_refused: AllocError) -> Stop {
        Stop::Memory
    }
}

impl<T: Drop> From<AllocFailed<T>> for Stop {
    fn from(_refused: AllocFailed<T>) -> Stop {
        Stop::Memory
    }
}
