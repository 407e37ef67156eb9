//! A source of bytes that knows whether a read has failed, as a trait.

ghost use Rattle.std.specs.Prelude.{◌≡◌, ℕ, ◌≤◌, ◌<◌, Bool, false, List, length, Option, IfOk, is_err};
ghost use Rattle.std.specs.Io.KnownBytes.{ReadConsumes};

use thiserror::Error;

/// A read failed, as one that was interrupted; the reader knows why.
#[derive(Clone, Copy, Debug, PartialEq, Eq, Error)]
#[error("a read failed")]
pub struct ByteReadFault;

/// Bytes that come piece by piece, from a reader that knows whether a read has failed: `one`, line
/// feed, `two` may come as `one` and as the rest.
///
/// An implementation states what its reader will give where it can: then a caller's contract can
/// name those bytes. A reader of a file or a socket states nothing, and none is claimed.
pub trait ByteReader {
    // The bytes that it will give from here on, where it tells them.
    ghost remaining: { Self → Option (List ℕ) };

    // Whether a read has failed.
    ghost failed: { Self → Bool };

    // How many more reads can give bytes; the next one then fails.
    ghost reads_left: { Self → ℕ };

    // Where it may be read: everywhere, where an implementation names no condition.
    ghost may_read: { Self → Type 0 } = { λ _. Unit {0} };

    /// Fills a beginning of `buffer`, and returns how many bytes that is: 2, where of `one` a buffer of
    /// two bytes gets `on`.
    ///
    /// Of a buffer that has room, 0 is the end of the bytes. A failed read gives none, and is the last:
    /// the condition is that none has failed before, and that it may be read.
    fn read(&mut self, buffer: &mut [u8]) -> Result<usize, ByteReadFault>
        requires well { failed self.old ≡ false }
        requires allowed { may_read self.old }
        ensures bound { IfOk result (λ count. count ≤ length buffer.new) }
        ensures bytes { ReadConsumes (remaining self.old) (remaining self.new) result buffer.new }

        // Not for ever: each read that gives a byte leaves fewer that can.
        ensures fewer { IfOk result (λ count. 0 < count → reads_left self.new < reads_left self.old) }

        // A failed read sets it for good, and nothing else does.
        ensures fault { failed self.new ≡ is_err result };

    /// Whether a read has failed: true after one that returned [`ByteReadFault`].
    fn has_failed(&self) -> bool
        ensures value { result ≡ failed self.now };
}
