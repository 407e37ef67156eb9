//! What words are of, and words that are borrowed.

ghost use Rattle.std.specs.Prelude.{◌≡◌};
ghost use Rattle.writeable.specs.PartName.{name_of};
ghost use Rattle.icu_dimension_words.specs.WordsText.{kind_part};

use crate::parts;
use writeable::Part;

/// What the words are of: which part they are.
#[derive(Clone, Copy, Debug, PartialEq, Eq)]
pub enum WordKind {
    /// A unit of measurement: its words are the part `UNIT`, as `kilometers` of `5 kilometers`.
    Unit,
    /// A currency: its name is the part `CURRENCY`, as `US dollars` of `5.00 US dollars`.
    Currency,
}

impl WordKind {
    // The part that the words are.
    pub(crate) fn part(self) -> Part
        ensures { name_of result ≡ kind_part self }
    {
        match self {
            WordKind::Unit => parts::UNIT,
            WordKind::Currency => parts::CURRENCY,
        }
    }
}

/// Words that are borrowed.
#[derive(Clone, Copy, Debug)]
pub enum BorrowedWord<'l> {
    /// Texts before and after the number: nothing and ` kilometer`.
    Around(&'l str, &'l str),
    /// A text without the number: `متر`.
    Bare(&'l str),
}
