//! A writer that takes little at a time, and may fail.
ghost use Rattle.std.specs.Prelude.{◌≡◌, Some, false};

use crate::taking::Taking;
use locale_numbers::{ByteWriteFault, ByteWriter};
use std::alloc::Global;
use std::cell::Cell;

/// Takes bytes as it is told to, counts them where its reader looks, and counts its flushes.
#[derive(Drop)]
pub struct Narrow<'a> {
    pub taken: Vec<u8>,
    pub taking: Taking,
    pub written: &'a Cell<usize>,
    pub flushes: u64,
    pub failed: bool,
}

impl<'a> Narrow<'a> {
    /// A writer that holds nothing yet.
    pub fn new(alloc: Global, taking: Taking, written: &'a Cell<usize>) -> Narrow<'a>
        ensures { result.failed ≡ false }
    {
        Narrow {
            taken: Vec::new(alloc),
            taking,
            written,
            flushes: 0,
            failed: false,
        }
    }
}

impl<'a> ByteWriter for Narrow<'a> {
    ghost contents = { λ narrow. Some narrow.taken.items };

    ghost failed = { λ narrow. narrow.failed };

    fn write(&mut self, piece: &[u8]) -> Result<usize, ByteWriteFault> {
        let count = self.taking.at_once.min(self.taking.room).min(piece.len());
        if count == 0 && !piece.is_empty() {
            self.failed = true;
            return if self.taking.takes_none {
                Ok(0)
            } else {
                Err(ByteWriteFault)
            };
        }
        match self.taken.extend_from_slice(&piece[..count]) {
            Ok(()) => {
                self.taking.room -= count;
                self.written.set(self.taken.len());
                Ok(count)
            }
            Err(_) => {
                self.failed = true;
                Err(ByteWriteFault)
            }
        }
    }

    fn flush(&mut self) -> Result<(), ByteWriteFault> {
        self.flushes = self.flushes.saturating_add(1);
        if self.taking.flush_fails {
            self.failed = true;
            return Err(ByteWriteFault);
        }
        Ok(())
    }

    fn has_failed(&self) -> bool {
        self.failed
    }
}
