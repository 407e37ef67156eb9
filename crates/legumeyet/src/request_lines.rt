//! The request lines of standard input, and their answers.

ghost use Rattle.std.specs.Prelude.{◌≡◌, ◌≤◌, IfSome};
ghost use Rattle.locale_numbers.specs.Words.{capacity_named};

use crate::fault::CallFault;
use crate::remembering::Remembering;
use locale_numbers::{Book, ProgramFault, RunError, Tracked, read_words, run};

/// How many formatters a word of `--capacity` says: 512 of `512`. `None` where it says none, as `+1`.
pub fn capacity_of(word: &str) -> Option<usize>
    ensures value { result ≡ capacity_named word.now }
    ensures room { IfSome result (λ capacity. 1 ≤ capacity) }
{
    match read_words(&["book", word]) {
        Ok(words) => Some(words.capacity),
        Err(_) => None,
    }
}

/// Answers the request lines of standard input, and keeps so many formatters.
pub fn answer_lines(rt: &HostRuntime, book: &Book, capacity: usize) -> Result<u8, CallFault>
    requires room { 1 ≤ capacity }
{
    let mut reader = Tracked::new(Remembering::new(rt.stdin()));
    let mut writer = Tracked::new(Remembering::new(rt.stdout()));
    match run(rt.alloc(), book, capacity, &mut reader, &mut writer) {
        Ok(_) => Ok(0),
        Err(RunError::Read) => Err(CallFault::Read(reader.into_inner().into_error())),
        Err(RunError::Write) => Err(CallFault::Write(writer.into_inner().into_error())),
        Err(RunError::Memory) => Err(CallFault::Program(ProgramFault::Run(RunError::Memory))),
    }
}
