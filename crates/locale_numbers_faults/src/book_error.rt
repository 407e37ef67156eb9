//! Why a text is no book.

ghost use Rattle.std.specs.Prelude.{◌≡◌, codes};
ghost use Rattle.locale_numbers_faults.specs.BookError.{number_of, word_of};

use thiserror::Error;

/// Why a text is no book: `Json` of `[1`.
///
/// Of a text that is read as JSON the first faulty entry decides, and in an entry the least number.
#[derive(Clone, Copy, Debug, Drop, PartialEq, Eq, Error)]
pub enum BookError {
    /// The bytes are no JSON text, as `[1`; `Memory` where reading them runs out of memory.
    #[error("json")]
    Json,
    /// The JSON value is neither five arrays or six nor a pair of these and of five arrays of units, as `[]`, or an entry
    /// has not its form.
    #[error("shape")]
    Shape,
    /// A locale, or the parent of one, is refused, as `e` or `en-u-nu-thai`.
    #[error("tag")]
    Tag,
    /// A name of a numbering system is not 3 to 8 lower-case letters and digits, nor empty or a code where it may be:
    /// `Thai`, `th`.
    #[error("system")]
    System,
    /// A tab or a line feed is in a text that is written, as a tab for the minus sign or in the symbol of a currency.
    #[error("text")]
    Text,
    /// The digits of a system are not ten characters, as the nine of `012345678`, or a tab or a line feed is among
    /// them.
    #[error("digits")]
    Digits,
    /// The condition of a plural category is not one, as `i is 1`.
    #[error("condition")]
    Condition,
    /// The types of patterns do not rise strictly, as 6 and then 3.
    #[error("types")]
    Types,
    /// The exponents of patterns are refused: one falls, is above its type, as 4 at type 3, or is more than 15 below
    /// it.
    #[error("exponents")]
    Exponents,
    /// An earlier entry of the same array has the same key, as `EN` after `en`.
    #[error("duplicate")]
    Duplicate,
    /// The parents of a locale lead back to it, under the entries up to its own: `en` for `en`, or `en-US` for `en`.
    #[error("cycle")]
    Cycle,
    /// Out of memory, as for the tables of `SAMPLE_BOOK`.
    #[error("memory")]
    Memory,
    /// The place of the unit, `¤`, is not once in two texts of a pattern that belong together, as in `(` and `)`.
    #[error("unit")]
    Unit,
    /// The code of a currency is not three letters `A` to `Z`, as `CH` or `chf`.
    #[error("code")]
    Code,
}

impl BookError {
    /// The number of the fault: 1 for `Json` to 14 for `Code`, in the order of the cases.
    pub fn number(&self) -> u8
        ensures { result ≡ number_of self.now }
    {
        match self {
            BookError::Json => 1,
            BookError::Shape => 2,
            BookError::Tag => 3,
            BookError::System => 4,
            BookError::Text => 5,
            BookError::Digits => 6,
            BookError::Condition => 7,
            BookError::Types => 8,
            BookError::Exponents => 9,
            BookError::Duplicate => 10,
            BookError::Cycle => 11,
            BookError::Memory => 12,
            BookError::Unit => 13,
            BookError::Code => 14,
        }
    }

    /// The word of the fault, in lower case: `json` for `Json`, `code` for `Code`.
    pub fn word(&self) -> &'static str
        ensures { result.now ≡ word_of self.now }
    {
        match self {
            BookError::Json => "json",
            BookError::Shape => "shape",
            BookError::Tag => "tag",
            BookError::System => "system",
            BookError::Text => "text",
            BookError::Digits => "digits",
            BookError::Condition => "condition",
            BookError::Types => "types",
            BookError::Exponents => "exponents",
            BookError::Duplicate => "duplicate",
            BookError::Cycle => "cycle",
            BookError::Memory => "memory",
            BookError::Unit => "unit",
            BookError::Code => "code",
        }
    }
}
