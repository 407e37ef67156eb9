//! A book as a provider of tables, and of parents.

ghost use Rattle.std.specs.Prelude.{◌≡◌};
ghost use Rattle.std.specs.Option.{option_copied};
ghost use Rattle.std.specs.Result.{result_map_both};
ghost use Rattle.icu_decimal.specs.Choice.{answered};
ghost use Rattle.icu_decimal_chains.specs.Chains.{Follows, walk};
ghost use Rattle.icu_locale_core.specs.TagPreferences.{DataLocaleMeaning};
ghost use Rattle.locale_numbers_book.specs.Tables.{parent_under, steps_in};

use crate::book::Book;
use icu_decimal::plurals::PluralRules;
use icu_decimal::provider::{
    CompactPatterns, DataError, DataIdentifier, DataProvider, DecimalCompactLongV1,
    DecimalCompactShortV1, DecimalDigitsV1, DecimalSymbols, DecimalSymbolsV1, ParentProvider,
    PluralsCardinalV1,
};
use icu_locale_core::DataLocale;

// What is there, or that nothing is.
pub(crate) fn found<T>(there: Option<&T>) -> Result<&T, DataError>
    ensures { result_map_both (λ table. table.now) (λ error. error) result ≡ answered (option_copied there.entry) }
{
    there.ok_or(DataError::IdentifierNotFound)
}

/// The symbols of the entry with this locale and this system, or with none where the attributes are empty.
///
/// In `SAMPLE_BOOK`, `en` with no system has `.` and `,`; `en` with `thai` has no entry, nor has `en-US`.
/// `IdentifierNotFound`: the book has no such entry. It does not allocate.
impl DataProvider<DecimalSymbolsV1> for Book {
    ghost use Rattle.locale_numbers_book.specs.Tables.{symbols_under};

    ghost table = { symbols_under };

    fn load(&self, id: &DataIdentifier) -> Result<&DecimalSymbols, DataError> {
        found(self.symbols.map.get(id))
    }
}

/// The ten digits of the entry with this system, from zero up.
///
/// In `SAMPLE_BOOK` those of `und` with `thai` are `๐` to `๙`; `deva` has no entry, nor has `thai` under a locale other
/// than `und`. `IdentifierNotFound`: the book has no such entry. It does not allocate.
impl DataProvider<DecimalDigitsV1> for Book {
    ghost use Rattle.locale_numbers_book.specs.Tables.{digits_under};

    ghost table = { digits_under };

    fn load(&self, id: &DataIdentifier) -> Result<&[char; 10], DataError> {
        if !id.locale.is_unknown() {
            return Err(DataError::IdentifierNotFound);
        }
        found(self.digits.map.get(&id.attributes))
    }
}

/// The plural rules of the entry with this locale.
///
/// In `SAMPLE_BOOK` those of `en`; `en-US` has no entry, nor has `en` with attributes. `IdentifierNotFound`: the book
/// has no such entry. It does not allocate.
impl DataProvider<PluralsCardinalV1> for Book {
    ghost use Rattle.locale_numbers_book.specs.Tables.{rules_under};

    ghost table = { rules_under };

    fn load(&self, id: &DataIdentifier) -> Result<&PluralRules, DataError> {
        if !id.attributes.is_empty() {
            return Err(DataError::IdentifierNotFound);
        }
        found(self.rules.map.get(&id.locale))
    }
}

/// The short patterns of the entry with this locale and this system, or with none where the attributes are empty.
///
/// In `SAMPLE_BOOK` `en` with no system has `K` from a thousand on. `IdentifierNotFound`: the book has no such entry.
/// It does not allocate.
impl DataProvider<DecimalCompactShortV1> for Book {
    ghost use Rattle.locale_numbers_book.specs.Tables.{short_under};

    ghost table = { short_under };

    fn load(&self, id: &DataIdentifier) -> Result<&CompactPatterns, DataError> {
        found(self.short.map.get(id))
    }
}

/// The long patterns of the entry with this locale and this system, or with none where the attributes are empty.
///
/// In `SAMPLE_BOOK` `en` with no system has `a thousand` for 1000. `IdentifierNotFound`: the book has no such entry. It
/// does not allocate.
impl DataProvider<DecimalCompactLongV1> for Book {
    ghost use Rattle.locale_numbers_book.specs.Tables.{long_under};

    ghost table = { long_under };

    fn load(&self, id: &DataIdentifier) -> Result<&CompactPatterns, DataError> {
        found(self.long.map.get(id))
    }
}

/// The parents of a book: after a locale the one that its sixth array lists, or else the locale without its last part.
/// Without a sixth array no locale has a parent.
///
/// With `[["en-AU","en-001"]]` `en-001` comes after `en-AU`, `en` after `en-US`, and none after `en`; in `SAMPLE_BOOK`
/// none after any. The limit is five for each entry and four, or 0 without a sixth array; it cuts no chain. It does not
/// allocate.
impl ParentProvider for Book {
    ghost use Rattle.locale_numbers_book.specs.Tables.{parent_under, steps_in};

    ghost next = { parent_under };

    ghost limit = { λ book. steps_in book.parents };

    fn parent(&self, locale: &DataLocale) -> Option<DataLocale> {
        match &self.parents {
            Some(parents) => parents.parent(locale),
            None => None,
        }
    }

    fn chain_limit(&self) -> u128
        ensures value { result ≡ steps_in self.now.parents }
        ensures cuts_none { (l : DataLocaleMeaning)
            → Follows (parent_under self.now) l (walk (parent_under self.now) result l) }
    {
        match &self.parents {
            Some(parents) => parents.chain_limit(),
            None => 0,
        }
    }
}
