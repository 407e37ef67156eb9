//! A caller of the laws of units of `locale_numbers`.

ghost use Rattle.std.specs.Prelude.{IfOk};
ghost use Rattle.locale_numbers_rows.specs.EnglishLines.{FindsEnglishUnits};

use locale_numbers::laws::requests_have_codes;
use locale_numbers::{Book, BookError};
use std::alloc::Global;

/// The book of a text, by which lines of `en` with a unit are as the laws of units ask for: `written_unit_reads_back`
/// holds of that of `currency-EUR`.
pub fn english_book(alloc: Global, text: &[u8]) -> Result<Book, BookError>
    ensures { IfOk result FindsEnglishUnits }
{
    requests_have_codes();
    Book::from_json(alloc, text)
}
