//! Why a run ended early: its reader, its writer, or memory.

ghost use Rattle.std.specs.Prelude.{◌≡◌};

use crate::byte_writer::ByteWriteFault;
use std::alloc::AllocError;
use thiserror::Error;

/// Why a run ended before it had answered all lines: `Read` where the reader failed after `ab`,
/// line feed, `c`.
#[derive(Clone, Copy, Debug, PartialEq, Eq, Error)]
pub enum RunError {
    /// The reader failed, as one whose read was interrupted.
    #[error("the reader failed")]
    Read,
    /// The writer failed, as one whose flush did, or took no byte of a piece that was not empty.
    #[error("the writer failed")]
    Write,
    /// Out of memory, in the run or in the answerer, as for the text of an
    /// answer.
    #[error("out of memory")]
    Memory,
}

impl RunError {
    ghost use Rattle.locale_numbers_lines.specs.Outcomes.{run_error_number};

    /// Its number: 1 for Read, 2 for Write, 3 for Memory. Does not allocate.
    pub fn number(&self) -> u8
        ensures value { result ≡ run_error_number self.now }
    {
        match self {
            Self::Read => 1,
            Self::Write => 2,
            Self::Memory => 3,
        }
    }
}

impl From<ByteWriteFault> for RunError {
    ghost use Rattle.locale_numbers_lines.specs.declared.run_error.RunError.TheVariants.{Write};

    ghost from_gives = { λ _ refusal. refusal ≡ Write };

    fn from(_fault: ByteWriteFault) -> RunError {
        RunError::Write
    }
}

impl From<AllocError> for RunError {
    ghost use Rattle.locale_numbers_lines.specs.declared.run_error.RunError.TheVariants.{Memory};

    ghost from_gives = { λ _ refusal. refusal ≡ Memory };

    fn from(_fault: AllocError) -> RunError {
        RunError::Memory
    }
}
