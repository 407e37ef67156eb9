//! A tracked reader of std is a source of bytes, which counts down its reads.

use super::Tracked;
use crate::byte_reader::{ByteReadFault, ByteReader};
use std::io;

impl<R: io::Read> ByteReader for Tracked<R> {
    ghost remaining = { λ t. R.remaining t.inner };

    ghost failed = { λ t. t.failed };

    ghost reads_left = { λ t. t.reads_left };

    fn read(&mut self, buffer: &mut [u8]) -> Result<usize, ByteReadFault> {
        if self.reads_left == 0 {
            self.failed = true;
            return Err(ByteReadFault);
        }
        match self.inner.read(buffer) {
            Ok(count) => {
                if count > 0 {
                    self.reads_left -= 1;
                }
                Ok(count)
            }
            Err(_) => {
                self.failed = true;
                Err(ByteReadFault)
            }
        }
    }

    fn has_failed(&self) -> bool {
        self.failed
    }
}
