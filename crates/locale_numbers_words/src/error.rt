//! Why arrays are no words.

ghost use Rattle.std.specs.Prelude.{◌≡◌};
ghost use Rattle.locale_numbers_words.specs.WordsError.{number_of, word_of};

use thiserror::Error;

/// Why arrays are no words of a book: `Unit` of the name pattern `["en",[["other",[""," "]]]]`.
///
/// The numbers and the words are those of the faults of a book. The first faulty entry decides, and in an entry the least
/// number.
#[derive(Clone, Copy, Debug, Drop, PartialEq, Eq, Error)]
pub enum WordsError {
    /// A file is not two arrays, or an entry has not its form: an unknown or repeated category, slots without `other`, or
    /// a width that is not `short`, `narrow` or `long`.
    #[error("shape")]
    Shape,
    /// A locale is refused, as `e` or `en-u-nu-thai`.
    #[error("tag")]
    Tag,
    /// A tab or a line feed is in a text, as in the name `US\tdollars`.
    #[error("text")]
    Text,
    /// An earlier entry of the same array has the same key and says something else, as another name of `USD` in `en`.
    #[error("duplicate")]
    Duplicate,
    /// Out of memory.
    #[error("memory")]
    Memory,
    /// The place of the name, `¤`, is not once in the two texts of a name pattern.
    #[error("unit")]
    Unit,
    /// The code of a currency is not three letters `A` to `Z`, as `usd`.
    #[error("code")]
    Code,
    /// The name of a unit is none, as `Kilometer`, or is twice in a table.
    #[error("measure")]
    Measure,
}

impl WordsError {
    /// The number of the fault among those of a book: 2 for `Shape`, 15 for `Measure`. It does not allocate.
    pub fn number(&self) -> u8
        ensures { result ≡ number_of self.now }
    {
        match self {
            WordsError::Shape => 2,
            WordsError::Tag => 3,
            WordsError::Text => 5,
            WordsError::Duplicate => 10,
            WordsError::Memory => 12,
            WordsError::Unit => 13,
            WordsError::Code => 14,
            WordsError::Measure => 15,
        }
    }

    /// The word of the fault, in lower case: `measure` for `Measure`. It does not allocate.
    pub fn word(&self) -> &'static str
        ensures { result.now ≡ word_of self.now }
    {
        match self {
            WordsError::Shape => "shape",
            WordsError::Tag => "tag",
            WordsError::Text => "text",
            WordsError::Duplicate => "duplicate",
            WordsError::Memory => "memory",
            WordsError::Unit => "unit",
            WordsError::Code => "code",
            WordsError::Measure => "measure",
        }
    }
}
