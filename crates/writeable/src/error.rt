//! The one error of a sink: it had no room for all that it was given.

ghost use Rattle.std.specs.Prelude.{◌≡◌, codes, Some};
ghost use Rattle.writeable.specs.Numbers.{refused_number};

use std::fmt;

/// A sink refused, as one with room for two bytes refuses `a,b`; it has taken a beginning of what
/// was to be written.
///
/// It is returned only where `has_refused` of the sink is true afterwards. Its `Display` is `the sink refused`.
#[derive(Clone, Copy, Debug, PartialEq, Eq)]
pub struct Error;

impl Error {
    /// The number of the error: 1 of `Error`. It does not allocate.
    pub fn number(&self) -> u8
        ensures { result ≡ refused_number }
    {
        1
    }
}

impl fmt::Display for Error {
    ghost output = { λ _. Some (codes "the sink refused") };

    fn fmt<W: fmt::Write>(&self, f: &mut fmt::Formatter<W>) -> fmt::Result {
        write!(f, "the sink refused")
    }
}

impl std::error::Error for Error {}
