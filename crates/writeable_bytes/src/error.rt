//! That bytes are too few for a text.

ghost use Rattle.std.specs.Prelude.{◌≡◌};
ghost use Rattle.writeable_bytes.specs.Numbers.{too_small_number};

use thiserror::Error;

/// The bytes are too few for the text: two for `a,b`, which needs 3.
#[derive(Clone, Copy, Debug, Drop, PartialEq, Eq, Error)]
#[error("the text needs {needed} bytes")]
pub struct TooSmall {
    /// How many bytes the text has, or the greatest `usize` where it has more.
    pub needed: usize,
}

impl TooSmall {
    /// The number of the error: 1 of `TooSmall`. It does not allocate.
    pub fn number(&self) -> u8
        ensures { result ≡ too_small_number }
    {
        1
    }
}
