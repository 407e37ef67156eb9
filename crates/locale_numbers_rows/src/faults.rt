//! Refusals and faults by their names: number, word or status, and text.

use locale_numbers::{BookError, ByteReadFault, ByteWriteFault, ProgramFault, RunError};
use rows::{Stop, put};

fn book_error_named(name: &str) -> Result<BookError, Stop> {
    match name {
        "Json" => Ok(BookError::Json),
        "Shape" => Ok(BookError::Shape),
        "Tag" => Ok(BookError::Tag),
        "System" => Ok(BookError::System),
        "Text" => Ok(BookError::Text),
        "Digits" => Ok(BookError::Digits),
        "Condition" => Ok(BookError::Condition),
        "Types" => Ok(BookError::Types),
        "Exponents" => Ok(BookError::Exponents),
        "Duplicate" => Ok(BookError::Duplicate),
        "Cycle" => Ok(BookError::Cycle),
        "Memory" => Ok(BookError::Memory),
        "Unit" => Ok(BookError::Unit),
        "Code" => Ok(BookError::Code),
        _ => Err(Stop::Unknown),
    }
}

fn run_error_named(name: &str) -> Result<RunError, Stop> {
    match name {
        "Read" => Ok(RunError::Read),
        "Write" => Ok(RunError::Write),
        "Memory" => Ok(RunError::Memory),
        _ => Err(Stop::Unknown),
    }
}

fn program_fault_named(names: &[&str]) -> Result<ProgramFault, Stop> {
    match names {
        [name] if *name == "Usage" => Ok(ProgramFault::Usage),
        [name] if *name == "File" => Ok(ProgramFault::File),
        [kind, name] if *kind == "Book" => Ok(ProgramFault::Book(book_error_named(name)?)),
        [kind, name] if *kind == "Run" => Ok(ProgramFault::Run(run_error_named(name)?)),
        _ => Err(Stop::Unknown),
    }
}

/// Writes the number, the word or the status, and the text of the fault with this name.
pub fn answer(call: &str, passed: &[&str], out: &mut String) -> Result<(), Stop> {
    match passed {
        [] if call == "ByteReadFault" => put(out, &ByteReadFault),
        [] if call == "ByteWriteFault" => put(out, &ByteWriteFault),
        [name] if call == "BookError" => {
            let fault = book_error_named(name)?;
            write!(out, "{}, {}, {fault}", fault.number(), fault.word())?;
            Ok(())
        }
        [name] if call == "RunError" => {
            let fault = run_error_named(name)?;
            write!(out, "{}, {fault}", fault.number())?;
            Ok(())
        }
        names if call == "ProgramFault" => {
            let fault = program_fault_named(names)?;
            write!(out, "{}, {}, {fault}", fault.status(), fault.number())?;
            Ok(())
        }
        _ => Err(Stop::Unknown),
    }
}
