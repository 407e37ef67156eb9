//! A sink of bytes that knows whether a write or a flush has failed, as a trait.

ghost use Rattle.std.specs.Prelude.{◌≡◌, ℕ, ◌≤◌, Bool, false, List, length, Option, IfOk, is_err};
ghost use Rattle.std.specs.Io.KnownBytes.{Keeps, WriteAppends};
ghost use Rattle.locale_numbers_lines.specs.ByteIo.{write_fails};

use thiserror::Error;

/// A write or a flush failed, as one of a closed pipe, or a write took no byte; the writer knows
/// why.
#[derive(Clone, Copy, Debug, PartialEq, Eq, Error)]
#[error("a write failed")]
pub struct ByteWriteFault;

/// A place for bytes, which knows whether a write or a flush has failed: one that holds `on` and
/// takes `e` holds `one`.
///
/// An implementation states the bytes that its writer holds where it can: then a caller's contract
/// can name those bytes. A writer to a file or a socket states nothing, and none is claimed.
pub trait ByteWriter {
    // The bytes that it holds, where it tells them.
    ghost contents: { Self → Option (List ℕ) };

    // Whether a write or a flush has failed.
    ghost failed: { Self → Bool };

    /// Takes a beginning of `piece`, and returns how many bytes that is: 2, where of `one` it takes
    /// `on`.
    ///
    /// A write that takes no byte of a piece that is not empty counts as failed. The condition is that no
    /// write and no flush has failed before.
    fn write(&mut self, piece: &[u8]) -> Result<usize, ByteWriteFault>
        requires well { failed self.old ≡ false }
        ensures bound { IfOk result (λ count. count ≤ length piece.now) }
        ensures bytes { WriteAppends (contents self.old) (contents self.new) result piece.now }

        // A failed write sets it for good, and nothing else does.
        ensures fault { failed self.new ≡ write_fails result piece.now };

    /// Sends on what it has taken and still keeps back: where it took `one` and has sent `on`, the
    /// `e`. The condition is that no write and no flush has failed before.
    fn flush(&mut self) -> Result<(), ByteWriteFault>
        requires well { failed self.old ≡ false }
        ensures bytes { Keeps (contents self.old) (contents self.new) }
        ensures fault { failed self.new ≡ is_err result };

    /// Whether a write or a flush has failed: true after a write that takes no byte of `a`.
    fn has_failed(&self) -> bool
        ensures value { result ≡ failed self.now };
}
