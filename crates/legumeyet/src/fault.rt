//! Why a call ended before it had done what was asked, and with which status.

ghost use Rattle.std.specs.Prelude.{◌≡◌};
ghost use Rattle.std.specs.IoError.{error_kind};
ghost use Rattle.std.specs.declared.io.ErrorKind.TheVariants.{OutOfMemory};
ghost use Rattle.legumeyet.specs.CallFaults.{call_status};

use locale_numbers::{ProgramFault, RunError};
use std::{fmt, io};

/// Why a call ended before it had done what was asked.
///
/// `{}` writes what standard error is told after the command's name: `fault: book json`, or `write error: ` and what the
/// system says.
#[derive(Clone, Copy, Debug)]
pub enum CallFault {
    /// The book is at fault, or it was out of memory.
    Program(ProgramFault),
    /// Standard input can't be read.
    Read(io::Error),
    /// Standard output can't be written.
    Write(io::Error),
}

impl CallFault {
    /// Out of memory.
    pub const MEMORY: CallFault = CallFault::Program(ProgramFault::Run(RunError::Memory));

    /// The fault that a failed read of standard input is: `MEMORY` of an error of the kind `OutOfMemory`.
    pub fn of_read(error: io::Error) -> CallFault
        ensures memory { error_kind error ≡ OutOfMemory → call_status result ≡ 6 }
        ensures read { ¬ (error_kind error ≡ OutOfMemory) → result ≡ CallFault.Read error }
    {
        if error.kind() == io::ErrorKind::OutOfMemory {
            CallFault::MEMORY
        } else {
            CallFault::Read(error)
        }
    }

    /// The status of the call: 5 where standard input or output failed, else that of the fault of the program.
    pub fn status(&self) -> u8
        ensures value { result ≡ call_status self.now }
    {
        match self {
            CallFault::Program(fault) => fault.status(),
            CallFault::Read(_) | CallFault::Write(_) => 5,
        }
    }
}

impl fmt::Display for CallFault {
    fn fmt<W: fmt::Write>(&self, f: &mut fmt::Formatter<W>) -> fmt::Result {
        match self {
            CallFault::Program(fault) => write!(f, "{fault}"),
            CallFault::Read(error) => write!(f, "read error: {error}"),
            CallFault::Write(error) => write!(f, "write error: {error}"),
        }
    }
}
