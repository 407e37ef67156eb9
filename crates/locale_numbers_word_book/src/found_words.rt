//! The words that a currency or a unit has for preferences.

ghost use Rattle.std.specs.Prelude.{◌≡◌, [], IfOk};
ghost use Rattle.locale_numbers_word_book.specs.TagWords.{currency_words_in, unit_words_in};

use crate::locales::put_asked;
use crate::word_book::WordBook;
use icu_decimal::DecimalFormatterPreferences;
use icu_dimension::CurrencyCode;
use icu_dimension_words::PluralWords;
use icu_locale_core::DataLocale;
use locale_numbers_book::Tables;
use locale_numbers_words::{UnitWidth, Words};
use std::alloc::{AllocError, Global};

// The words of a currency, by a list of locales that is filled.
fn currency_words_along<T: Tables>(
    alloc: Global,
    words: &Words,
    tables: &T,
    preferences: &DecimalFormatterPreferences,
    code: CurrencyCode,
    locales: &mut Vec<DataLocale>,
) -> Result<Option<PluralWords>, AllocError>
    requires { locales.old.items ≡ [] }
    ensures { IfOk result (λ found. found ≡ currency_words_in words.now (T.book tables.now) preferences.now code) }
{
    put_asked(words, tables, preferences, locales)?;
    words.currency_words(alloc, code, locales.as_slice())
}

// The words of a unit, by a list of locales that is filled.
fn unit_words_along<T: Tables>(
    alloc: Global,
    words: &Words,
    tables: &T,
    preferences: &DecimalFormatterPreferences,
    width: UnitWidth,
    unit: &str,
    locales: &mut Vec<DataLocale>,
) -> Result<Option<PluralWords>, AllocError>
    requires { locales.old.items ≡ [] }
    ensures { IfOk result
        (λ found. found ≡ unit_words_in words.now (T.book tables.now) preferences.now width unit.now) }
{
    put_asked(words, tables, preferences, locales)?;
    words.unit_words(alloc, width, unit, locales.as_slice())
}

/// The words by which amounts of a currency are named that preferences ask for, with the parents of the tables of a book:
/// of `USD` and `en` ` US dollar` after the number for `one`, and ` US dollars` for `other`.
///
/// `None`: there are none of the language. Without a name the code is the name. It allocates. `AllocError`: out of memory.
pub fn find_currency_words<T: Tables>(
    alloc: Global,
    words: &WordBook,
    tables: &T,
    preferences: &DecimalFormatterPreferences,
    code: CurrencyCode,
) -> Result<Option<PluralWords>, AllocError>
    ensures { IfOk result (λ found. found ≡ currency_words_in words.now (T.book tables.now) preferences.now code) }
{
    let mut locales = Vec::new(alloc);
    let found = currency_words_along(alloc, &words.words, tables, preferences, code, &mut locales);
    drop(locales);
    found
}

/// The words of numbers with a unit of measurement that preferences ask for, with the parents of the tables of a book: of
/// `kilometer` and `en`, long, ` kilometer` after the number for `one`, and ` kilometers` for `other`.
///
/// `None`: the words of the language have neither the unit nor both of its parts. It allocates. `AllocError`: out of memory.
pub fn find_unit_words<T: Tables>(
    alloc: Global,
    words: &WordBook,
    tables: &T,
    preferences: &DecimalFormatterPreferences,
    width: UnitWidth,
    unit: &str,
) -> Result<Option<PluralWords>, AllocError>
    ensures { IfOk result
        (λ found. found ≡ unit_words_in words.now (T.book tables.now) preferences.now width unit.now) }
{
    let mut locales = Vec::new(alloc);
    let found = unit_words_along(
        alloc,
        &words.words,
        tables,
        preferences,
        width,
        unit,
        &mut locales,
    );
    drop(locales);
    found
}
