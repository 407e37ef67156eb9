//! Readers and writers of std, made into those that a run takes.

mod reading;
mod writing;

ghost use Rattle.std.specs.Prelude.{◌≡◌, false};
ghost use Rattle.locale_numbers_lines.specs.Run.{most};

use std::marker::Model;

/// A reader or a writer of std that remembers whether a call of it has failed.
///
/// `Tracked::new(rt.stdin())` is a [`ByteReader`], `Tracked::new(rt.stdout())` a [`ByteWriter`].
/// An interrupted read or write is a failed one: nothing is tried twice. Once 18,446,744,073,709,551,615
/// reads have given bytes the next one fails.
///
/// [`ByteReader`]: crate::ByteReader
/// [`ByteWriter`]: crate::ByteWriter
#[derive(Debug, Drop)]
pub struct Tracked<T> {
    inner: T,
    failed: bool,
    reads_left: u64,
}

impl<T> Model for Tracked<T> {
    ghost use Rattle.locale_numbers_lines.specs.Tracking.{Tracking, tracking_code};

    ghost Value = { Tracking T };

    ghost coded = { tracking_code T.code };

    ghost view = { λ t. record { inner = t.inner; failed = t.failed; reads_left = t.reads_left } };
}

impl<T> Tracked<T> {
    /// Tracks `inner`, of which no call has failed so far: `has_failed` returns false, as of
    /// `Tracked::new(rt.stdin())`.
    pub fn new(inner: T) -> Self
        ensures inner { result.inner ≡ inner }
        ensures fresh { result.failed ≡ false }
        ensures reads { result.reads_left ≡ most }
    {
        Tracked {
            inner,
            failed: false,
            reads_left: u64::MAX,
        }
    }

    /// Gives back what it tracked: of `Tracked::new(list)` the list, with all that was written to it.
    pub fn into_inner(self) -> T
        ensures value { result ≡ self.inner }
    {
        let Tracked {
            inner,
            failed: _,
            reads_left: _,
        } = self;
        inner
    }
}
