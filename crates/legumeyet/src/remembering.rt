//! A reader or a writer that remembers why it failed.

ghost use Rattle.std.specs.Prelude.{◌≡◌, None};

use std::io::{self, Read, Write};

/// A reader or a writer of which the last call that failed is remembered, with what the system said.
#[derive(Drop)]
pub struct Remembering<T> {
    inner: T,
    error: Option<io::Error>,
}

impl<T> Remembering<T> {
    /// One of which no call has failed.
    pub fn new(inner: T) -> Self
        ensures none { result.error ≡ None }
        ensures inner { result.inner ≡ inner }
    {
        Remembering { inner, error: None }
    }

    /// Why the last call that failed did so, or an error of no system where none has.
    pub fn into_error(self) -> io::Error
    where
        T: Drop,
    {
        self.error.unwrap_or(io::Error::other("unknown"))
    }
}

impl<R: Read> Read for Remembering<R> {
    ghost remaining = { λ reader. R.remaining reader.inner };

    fn read(&mut self, buf: &mut [u8]) -> io::Result<usize> {
        let read = self.inner.read(buf);
        if let Err(error) = read {
            self.error = Some(error);
        }
        read
    }
}

impl<W: Write> Write for Remembering<W> {
    ghost contents = { λ writer. W.contents writer.inner };

    fn write(&mut self, buf: &[u8]) -> io::Result<usize> {
        let written = self.inner.write(buf);
        if let Err(error) = written {
            self.error = Some(error);
        }
        written
    }

    fn flush(&mut self) -> io::Result<()> {
        let flushed = self.inner.flush();
        if let Err(error) = flushed {
            self.error = Some(error);
        }
        flushed
    }
}
