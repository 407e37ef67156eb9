//! The locale that a book has symbols of for a tag.

ghost use Rattle.std.specs.Prelude.{◌≡◌, ◌⊎◌, Ok, Err, false, IfOk, IfErr};
ghost use Rattle.std.specs.Result.{IsErrOf};
ghost use Rattle.icu_locale_core.specs.Pieces.{pieces};
ghost use Rattle.icu_locale_core.specs.SingleVariant.{SingleMeaning, MeansSingle};
ghost use Rattle.icu_locale_core.specs.TagAllocation.{tag_may_grow};
ghost use Rattle.locale_numbers_book.specs.FoundLocale.{locale_for};
ghost use Rattle.locale_numbers_book.specs.declared.formatter_error.FormatterError.{FormatterError};

use crate::book::Book;
use crate::formatter_error::FormatterError;
use crate::tag_formatters::preferences_of_tag;
use icu_decimal::provider::{DataError, DataIdentifier, DataMarker, DataProvider, load_by_locale};
use icu_locale_core::DataLocale;
use std::alloc::Global;

// The locales of the entries of symbols, each under the key of its entry.
pub(crate) struct SymbolsLocaleV1;

impl DataMarker for SymbolsLocaleV1 {
    type DataStruct = DataLocale;
}

// The locale of the entry of symbols with this locale and this system. `IdentifierNotFound`: the book has no such entry.
impl DataProvider<SymbolsLocaleV1> for Book {
    ghost use Rattle.locale_numbers_book.specs.FoundLocale.{locale_under};

    ghost table = { locale_under };

    fn load(&self, id: &DataIdentifier) -> Result<&DataLocale, DataError> {
        match self.symbols.map.get_key_value(id) {
            Some((key, _)) => Ok(&key.locale),
            None => Err(DataError::IdentifierNotFound),
        }
    }
}

impl Book {
    /// The locale whose symbols numbers of a tag are written with: of `SAMPLE_UNITS_BOOK` `de` for `de-AT`, which falls back
    /// to it, `de-CH` for `de-CH`, and `en` for `en-u-nu-thai`.
    ///
    /// It is the first of the chain that an entry of symbols is found under, and is borrowed from the book.
    ///
    /// - Tag: the text is no locale tag, as `e`.
    /// - Table: the book has no symbols for it, as `SAMPLE_BOOK` for `fr`.
    /// - Memory: out of memory. A tag of at most one variant and one keyword does not allocate, nor does one of language,
    ///   script and region only.
    pub fn found_locale(&self, alloc: Global, tag: &str) -> Result<&DataLocale, FormatterError>
        ensures value { IfOk result (λ locale. locale_for self.now tag.now ≡ Ok locale.now) }
        ensures fault { IfErr result
            (λ fault. (fault ≡ FormatterError.Memory) ⊎ (locale_for self.now tag.now ≡ Err fault)) }
        ensures room { tag_may_grow (pieces tag.now) ≡ false → ¬ (IsErrOf result FormatterError.Memory) }
        ensures single { (m : SingleMeaning) → MeansSingle (pieces tag.now) m
            → ¬ (IsErrOf result FormatterError.Memory) }
    {
        let preferences = preferences_of_tag(alloc, tag)?;
        match load_by_locale::<SymbolsLocaleV1, Book>(self, &preferences) {
            Ok(locale) => Ok(locale),
            Err(_) => Err(FormatterError::Table),
        }
    }
}
