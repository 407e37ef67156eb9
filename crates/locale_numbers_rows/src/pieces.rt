//! A reader that gives little at a time, and may fail.
ghost use Rattle.std.specs.Prelude.{◌≡◌, None, false};

use crate::giving::Giving;
use locale_numbers::{ByteReadFault, ByteReader};
use std::alloc::Global;
use std::cell::Cell;

/// Gives bytes as it is told to. Where it watches a writer, it notes how many bytes were written when it had given how
/// many, at each read at which there are more of them than at the one before.
#[derive(Drop)]
pub struct Pieces<'a> {
    pub rest: &'a [u8],
    pub giving: Giving,
    pub given: usize,
    pub written: &'a Cell<usize>,
    pub seen: usize,
    pub watches: bool,
    pub notes: String,
    pub failed: bool,
}

impl<'a> Pieces<'a> {
    /// A reader of bytes, beside a writer that counts those that were written.
    pub fn new(
        alloc: Global,
        rest: &'a [u8],
        giving: Giving,
        written: &'a Cell<usize>,
        watches: bool,
    ) -> Pieces<'a>
        ensures { result.failed ≡ false }
    {
        Pieces {
            rest,
            giving,
            given: 0,
            written,
            seen: 0,
            watches,
            notes: String::new(alloc),
            failed: false,
        }
    }
}

// Notes how many bytes were written after how many that were given; false where there is no memory for that.
fn is_noted(notes: &mut String, written: usize, given: usize) -> bool {
    write!(notes, ", {written} behind {given}").is_ok()
}

impl<'a> ByteReader for Pieces<'a> {
    ghost remaining = { λ _. None };

    ghost failed = { λ pieces. pieces.failed };

    ghost reads_left = { λ pieces. pieces.giving.reads };

    fn read(&mut self, buffer: &mut [u8]) -> Result<usize, ByteReadFault> {
        let written = self.written.get();
        let is_new = self.watches && written != self.seen;
        if self.giving.reads == 0
            || (self.giving.ends_badly && self.rest.is_empty())
            || (is_new && !is_noted(&mut self.notes, written, self.given))
        {
            self.failed = true;
            return Err(ByteReadFault);
        }
        self.seen = written;
        self.giving.reads -= 1;
        let count = self.giving.at_first.min(buffer.len()).min(self.rest.len());
        self.giving.at_first = self.giving.at_once;
        self.given = self.given.saturating_add(count);
        let (given, rest) = self.rest.split_at(count);
        let front = &mut buffer[..count];
        front.copy_from_slice(given);
        self.rest = rest;
        Ok(count)
    }

    fn has_failed(&self) -> bool {
        self.failed
    }
}
