//! The count of the turns that the loops over digits make, which only proofs read.

ghost use Rattle.std.specs.Prelude.{◌≡◌, ◌+◌, ◌<◌};

use std::marker::Model;
use std::sync::ledger::{Blank, Book, Ledger, Share};

/// How many turns the loops over digits have made. It takes no bytes, and only the loops change it: rounding
/// `99.999` at 4 by `Expand` adds at most seven.
///
/// Proofs count with it, so nothing can be read from it when a program runs.
#[derive(Drop)]
pub struct Turns<L: Ledger> {
    book: Book<L>,
    share: Share<L>,
}

impl<L: Ledger> Model for Turns<L> {
    ghost use Rattle.std.specs.Prelude.{ℕ, ◌<◌};

    ghost Value = { ℕ };

    ghost view = { λ s. s.book.total };

    ghost invariant = { λ s. 0 < s.share.parts };
}

impl<L: Ledger> Turns<L> {
    /// No turns yet, counted in the ledger of a blank: the count is 0. It does not allocate.
    ///
    /// The condition is that the blank has the name and the parts of L, and that there is a part.
    pub fn new(blank: Blank) -> Turns<L>
        requires name { blank.name ≡ L.name }
        requires parts { blank.parts ≡ L.parts }
        requires some { 0 < L.parts }
        ensures { result ≡ 0 }
    {
        let (book, share) = blank.open();
        Turns { book, share }
    }

    // One turn more.
    pub(crate) fn turn(&mut self)
        ensures { self.new ≡ self.old + 1 }
    {
        self.book.add(&mut self.share, 1);
    }
}
