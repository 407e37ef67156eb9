//! Why a book has no formatter for a tag.

ghost use Rattle.std.specs.Prelude.{◌≡◌};
ghost use Rattle.locale_numbers_book.specs.TagFormatters.{formatter_error_number};
ghost use Rattle.locale_numbers_book.specs.declared.formatter_error.FormatterError.TheVariants.{Memory};

use std::alloc::AllocError;
use thiserror::Error;

/// Why a book has no formatter for a tag: `Table` of `fr` in `SAMPLE_BOOK`.
#[derive(Clone, Copy, Debug, Drop, PartialEq, Eq, Error)]
pub enum FormatterError {
    /// The text is no locale tag, as `e`.
    #[error("no locale tag")]
    Tag,
    /// The book lacks a table for the tag, as `SAMPLE_BOOK` the symbols of `fr`.
    #[error("no table for the tag")]
    Table,
    /// Out of memory, as for a tag of two variants: `de-1996-fonipa`.
    #[error("out of memory")]
    Memory,
    /// The text that should name a currency is not three capitals, as `eur` or `EURO`.
    #[error("no code of a currency")]
    Code,
}

impl FormatterError {
    /// The number of the error: 1 of `Tag`, 2 of `Table`, 3 of `Memory`, 4 of `Code`. It does not allocate.
    pub fn number(&self) -> u8
        ensures { result ≡ formatter_error_number self.now }
    {
        match *self {
            FormatterError::Tag => 1,
            FormatterError::Table => 2,
            FormatterError::Memory => 3,
            FormatterError::Code => 4,
        }
    }
}

impl From<AllocError> for FormatterError {
    ghost from_gives = { λ _ e. e ≡ Memory };

    fn from(_refused: AllocError) -> FormatterError {
        FormatterError::Memory
    }
}
