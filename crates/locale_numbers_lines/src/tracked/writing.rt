//! A tracked writer of std is a sink of bytes.

use super::Tracked;
use crate::byte_writer::{ByteWriteFault, ByteWriter};
use std::io;

impl<W: io::Write> ByteWriter for Tracked<W> {
    ghost contents = { λ t. W.contents t.inner };

    ghost failed = { λ t. t.failed };

    fn write(&mut self, piece: &[u8]) -> Result<usize, ByteWriteFault> {
        match self.inner.write(piece) {
            Ok(count) => {
                if count == 0 && !piece.is_empty() {
                    self.failed = true;
                }
                Ok(count)
            }
            Err(_) => {
                self.failed = true;
                Err(ByteWriteFault)
            }
        }
    }

    fn flush(&mut self) -> Result<(), ByteWriteFault> {
        let flushed = self.inner.flush();
        self.failed = flushed.is_err();
        match flushed {
            Ok(()) => Ok(()),
            Err(_) => Err(ByteWriteFault),
        }
    }

    fn has_failed(&self) -> bool {
        self.failed
    }
}
