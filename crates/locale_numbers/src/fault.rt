//! Why the program ended before it had answered all lines, and with which status.

ghost use Rattle.std.specs.Prelude.{◌≡◌, Some};
ghost use Rattle.std.specs.IoError.{error_kind};
ghost use Rattle.std.specs.declared.io.ErrorKind.TheVariants.{OutOfMemory};
ghost use Rattle.locale_numbers.specs.Program.{IsOfFile};

use locale_numbers_book::BookError;
use locale_numbers_lines::RunError;
use std::error::Error;
use std::{fmt, io};

/// Why the program ended before it had answered all lines: `Usage` of the words `b` and `0`.
///
/// `{}` writes the line that the program puts on standard error: `fault: usage`, `fault: file`,
/// `fault: book WORD` with the word of the refusal, `fault: read`, `fault: write` or
/// `fault: memory`.
#[derive(Clone, Copy, Debug, PartialEq, Eq)]
pub enum ProgramFault {
    /// The words that the program was started with are not known, as three words.
    Usage,
    /// The file of the book can't be opened, as `/no/such/book.json`, or not be read to its end.
    File,
    /// The book is refused, as the text `[1` by `BookError::Json`, or it was out of memory while it was read.
    Book(BookError),
    /// The reader or the writer failed, as `RunError::Read` says of the reader, or it was out of memory while lines
    /// were answered.
    Run(RunError),
}

impl ProgramFault {
    ghost use Rattle.locale_numbers.specs.Fault.{status_of};

    /// The fault that a failed call on the book's file is.
    ///
    /// Of an error of the kind `OutOfMemory` it is `Book(BookError::Memory)`, of any other, as `NotFound`, `File`. Does
    /// not allocate.
    pub fn of_file(error: io::Error) -> ProgramFault
        ensures of_file { IsOfFile result }
        ensures memory { error_kind error ≡ OutOfMemory → result ≡ ProgramFault.Book BookError.Memory }
        ensures file { ¬ (error_kind error ≡ OutOfMemory) → result ≡ ProgramFault.File }
    {
        if error.kind() == io::ErrorKind::OutOfMemory {
            ProgramFault::Book(BookError::Memory)
        } else {
            ProgramFault::File
        }
    }

    /// The status with which the program ends: 2 for usage, 3 for the file, 4 for the book, 5 for
    /// a failed read or write, 6 for out of memory, wherever it arose.
    ///
    /// Of `Book(BookError::Json)` it is 4, of `Book(BookError::Memory)` 6. Does not allocate.
    pub fn status(&self) -> u8
        ensures value { result ≡ status_of self.now }
    {
        match self {
            ProgramFault::Usage => 2,
            ProgramFault::File => 3,
            ProgramFault::Book(BookError::Memory) | ProgramFault::Run(RunError::Memory) => 6,
            ProgramFault::Book(_) => 4,
            ProgramFault::Run(_) => 5,
        }
    }

    /// Its number, which is its status: 3 for File.
    pub fn number(&self) -> u8
        ensures value { result ≡ status_of self.now }
    {
        self.status()
    }
}

impl fmt::Display for ProgramFault {
    ghost use Rattle.locale_numbers.specs.Fault.{line_of};

    ghost output = { λ fault. Some (line_of fault) };

    fn fmt<W: fmt::Write>(&self, f: &mut fmt::Formatter<W>) -> fmt::Result {
        match self {
            ProgramFault::Usage => write!(f, "fault: usage"),
            ProgramFault::File => write!(f, "fault: file"),
            ProgramFault::Book(BookError::Memory) | ProgramFault::Run(RunError::Memory) => {
                write!(f, "fault: memory")
            }
            ProgramFault::Book(refusal) => write!(f, "fault: book {}", refusal.word()),
            ProgramFault::Run(RunError::Read) => write!(f, "fault: read"),
            ProgramFault::Run(RunError::Write) => write!(f, "fault: write"),
        }
    }
}

impl Error for ProgramFault {}
