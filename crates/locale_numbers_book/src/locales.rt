//! The locales of a book.

ghost use Rattle.std.specs.Prelude.{◌≡◌, length, slice_get};
ghost use Rattle.std.specs.Option.{option_copied};
ghost use Rattle.locale_numbers_book.specs.Tables.{locales_in, usual_locales};

use crate::book::Book;
use icu_decimal::provider::{DataIdentifier, DecimalSymbols};
use icu_locale_core::DataLocale;
use indexmap::IndexMap;
use locale_numbers_tables::Seed;

// The locale with this index, of the entries without a system.
fn usual_locale(
    symbols: &IndexMap<DataIdentifier, DecimalSymbols, Seed>,
    index: usize,
) -> Option<&DataLocale>
    ensures { option_copied result ≡ slice_get (usual_locales symbols.now.entries) index }
{
    let mut left = index;
    for (id, _) in symbols.iter() {
        if id.attributes.is_empty() {
            if left == 0 {
                return Some(&id.locale);
            }
            left -= 1;
        }
    }
    None
}

// How many entries are without a system.
fn usual_count(symbols: &IndexMap<DataIdentifier, DecimalSymbols, Seed>) -> usize
    ensures { result ≡ length (usual_locales symbols.now.entries) }
{
    let mut count: usize = 0;
    for (id, _) in symbols.iter() {
        if id.attributes.is_empty() {
            count += 1;
        }
    }
    count
}

impl Book {
    /// How many locales the book has symbols for, under no numbering system: 2 in `SAMPLE_BOOK`. A locale that finds
    /// those of its parents is not among them. It does not allocate.
    pub fn locale_count(&self) -> usize
        ensures { result ≡ length (locales_in self.now) }
    {
        usual_count(&self.symbols.map)
    }

    /// The locale with this index among those of [`Book::locale_count`], each of which is there once, in the order of
    /// the book; `None` from the count on. In `SAMPLE_BOOK` `ar-EG` of 1, and `None` of 2. It does not allocate.
    pub fn locale(&self, index: usize) -> Option<&DataLocale>
        ensures { option_copied result ≡ slice_get (locales_in self.now) index }
    {
        usual_locale(&self.symbols.map, index)
    }
}
