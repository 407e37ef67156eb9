//! A book as a provider of signs.

use crate::book::Book;
use crate::providers::found;
use icu_decimal::provider::{DataError, DataIdentifier, DataProvider};
use locale_numbers_signs::{NumberSigns, NumberSignsV1};

/// The signs of the entry with this locale and this system, or with none where the attributes are empty.
///
/// Of `["de","","E","·","‰","≈",["","–",""],["","+"],["≤",""]]` `de` with no system has `E` before exponents; `de` with
/// `arab` has no entry, nor has `de-AT`. `IdentifierNotFound`: the book has no such entry. It does not allocate.
impl DataProvider<NumberSignsV1> for Book {
    ghost use Rattle.locale_numbers_book.specs.Tables.{signs_under};

    ghost table = { signs_under };

    fn load(&self, id: &DataIdentifier) -> Result<&NumberSigns, DataError> {
        found(self.signs.map.get(id))
    }
}
