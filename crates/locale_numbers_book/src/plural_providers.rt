//! A book as a provider of plurals beside its rules: without plurals it has nothing under any identifier.

ghost use Rattle.std.specs.Prelude.{◌≡◌};
ghost use Rattle.std.specs.Option.{option_copied};
ghost use Rattle.locale_numbers_book.specs.Tables.{ordinals_there, ranges_there};

use crate::book::Book;
use crate::providers::found;
use icu_decimal::plurals::PluralRules;
use icu_decimal::provider::{DataError, DataIdentifier, DataProvider};
use locale_numbers_plurals::{PluralRanges, Plurals, PluralsOrdinalV1, PluralsRangesV1};

// The ordinal rules of the locale that an identifier without a system names.
fn ordinals_at<'p>(plurals: &'p Plurals, id: &DataIdentifier) -> Option<&'p PluralRules>
    ensures { option_copied result ≡ ordinals_there plurals.now id.now }
{
    if !id.attributes.is_empty() {
        return None;
    }
    plurals.ordinal_rules(&id.locale)
}

// The ranges of the locale that an identifier without a system names.
fn ranges_at<'p>(plurals: &'p Plurals, id: &DataIdentifier) -> Option<&'p PluralRanges>
    ensures { option_copied result ≡ ranges_there plurals.now id.now }
{
    if !id.attributes.is_empty() {
        return None;
    }
    plurals.ranges(&id.locale)
}

/// The ordinal rules of the entry with this locale.
///
/// In the world's book those of `en`; `en-AU` has no entry, nor has `en` with attributes. `IdentifierNotFound`: the book
/// has no such entry, or no plurals. It does not allocate.
impl DataProvider<PluralsOrdinalV1> for Book {
    ghost use Rattle.locale_numbers_book.specs.Tables.{ordinals_under};

    ghost table = { ordinals_under };

    fn load(&self, id: &DataIdentifier) -> Result<&PluralRules, DataError> {
        match &self.plurals {
            Some(plurals) => found(ordinals_at(plurals, id)),
            None => Err(DataError::IdentifierNotFound),
        }
    }
}

/// The categories of ranges of the entry with this locale.
///
/// In the world's book `en` has that of `other` and `one`; `en-AU` has no entry. `IdentifierNotFound`: the book has no
/// such entry, or no plurals. It does not allocate.
impl DataProvider<PluralsRangesV1> for Book {
    ghost use Rattle.locale_numbers_book.specs.Tables.{ranges_under};

    ghost table = { ranges_under };

    fn load(&self, id: &DataIdentifier) -> Result<&PluralRanges, DataError> {
        match &self.plurals {
            Some(plurals) => found(ranges_at(plurals, id)),
            None => Err(DataError::IdentifierNotFound),
        }
    }
}
