//! The words of a currency and of a unit for a tag.

ghost use Rattle.std.specs.Prelude.{◌≡◌, ◌⊎◌, ◌↔◌, Err, None, Ok, Some, false, true, IfErr, IfOk};
ghost use Rattle.std.specs.Result.{IsErrOf};
ghost use Rattle.icu_dimension.specs.CurrencyCodes.{is_currency_code};
ghost use Rattle.icu_locale_core.specs.Pieces.{pieces};
ghost use Rattle.icu_locale_core.specs.TagAllocation.{tag_may_grow};
ghost use Rattle.locale_numbers_book.specs.Wanted.{wanted_of};
ghost use Rattle.locale_numbers_words.specs.UnitNames.{is_unit_name};
ghost use Rattle.locale_numbers_word_book.specs.TagWords.{currency_words_for, currency_words_in, found_by, unit_words_for, unit_words_in};
ghost use Rattle.locale_numbers_word_book.specs.declared.error.WordFormatterError.{WordFormatterError};

use crate::error::WordFormatterError;
use crate::found_words::{find_currency_words, find_unit_words};
use crate::word_book::WordBook;
use icu_decimal::DecimalFormatterPreferences;
use icu_dimension::CurrencyCode;
use icu_dimension_words::PluralWords;
use locale_numbers_book::{Book, read_preferences};
use locale_numbers_words::{UnitWidth, is_unit_name};
use std::alloc::Global;

// What a tag prefers.
pub(crate) fn preferences_of_tag(
    alloc: Global,
    tag: &str,
) -> Result<DecimalFormatterPreferences, WordFormatterError>
    ensures value { IfOk result (λ preferences. wanted_of tag.now ≡ Some preferences) }
    ensures fault { IfErr result
        (λ fault. (fault ≡ WordFormatterError.Memory)
        ⊎ ((fault ≡ WordFormatterError.Tag) × (wanted_of tag.now ≡ None))) }
    ensures room { tag_may_grow (pieces tag.now) ≡ false → ¬ (IsErrOf result WordFormatterError.Memory) }
{
    match read_preferences(alloc, tag.as_bytes()) {
        Ok(Some(preferences)) => Ok(preferences),
        Ok(None) => Err(WordFormatterError::Tag),
        Err(refused) => Err(WordFormatterError::from(refused)),
    }
}

// The words of a currency.
fn words_of_code(
    words: &WordBook,
    alloc: Global,
    book: &Book,
    tag: &str,
    code: CurrencyCode,
) -> Result<PluralWords, WordFormatterError>
    ensures value { IfOk result
        (λ found. found_by (λ preferences. currency_words_in words.now book.now preferences code) (wanted_of tag.now)
        ≡ Ok found) }
    ensures fault { IfErr result
        (λ fault. (fault ≡ WordFormatterError.Memory)
        ⊎ (found_by (λ preferences. currency_words_in words.now book.now preferences code) (wanted_of tag.now)
        ≡ Err fault)) }
    ensures known { ¬ (IsErrOf result WordFormatterError.Code) }
    ensures room { tag_may_grow (pieces tag.now) ≡ false → wanted_of tag.now ≡ None
        → ¬ (IsErrOf result WordFormatterError.Memory) }
{
    let preferences = preferences_of_tag(alloc, tag)?;
    match find_currency_words(alloc, words, book, &preferences, code) {
        Ok(Some(found)) => Ok(found),
        Ok(None) => Err(WordFormatterError::Table),
        Err(refused) => Err(WordFormatterError::from(refused)),
    }
}

// The words of a unit whose name is one.
fn words_of_unit(
    words: &WordBook,
    alloc: Global,
    book: &Book,
    tag: &str,
    width: UnitWidth,
    unit: &str,
) -> Result<PluralWords, WordFormatterError>
    ensures value { IfOk result
        (λ found. found_by (λ preferences. unit_words_in words.now book.now preferences width unit.now) (wanted_of tag.now)
        ≡ Ok found) }
    ensures fault { IfErr result
        (λ fault. (fault ≡ WordFormatterError.Memory)
        ⊎ (found_by (λ preferences. unit_words_in words.now book.now preferences width unit.now) (wanted_of tag.now)
        ≡ Err fault)) }
    ensures known { ¬ (IsErrOf result WordFormatterError.Measure) }
    ensures room { tag_may_grow (pieces tag.now) ≡ false → wanted_of tag.now ≡ None
        → ¬ (IsErrOf result WordFormatterError.Memory) }
{
    let preferences = preferences_of_tag(alloc, tag)?;
    match find_unit_words(alloc, words, book, &preferences, width, unit) {
        Ok(Some(found)) => Ok(found),
        Ok(None) => Err(WordFormatterError::Table),
        Err(refused) => Err(WordFormatterError::from(refused)),
    }
}

impl WordBook {
    /// The words by which amounts of a currency are named for a tag, with the parents of a book: of `en` and `USD`
    /// ` US dollar` after the number for `one`, and ` US dollars` for `other`.
    ///
    /// The code is three capitals; one without a name is its own name. It allocates.
    ///
    /// - Code: the code is not three capitals, as `eur`.
    /// - Tag: the text is no locale tag, as `e`.
    /// - Table: no locale of the tag's chain but `und` has a name pattern, as where the words of the language are not there.
    /// - Memory: out of memory. Of what is no tag it is told only where reading the tag allocates.
    pub fn currency_words(
        &self,
        alloc: Global,
        book: &Book,
        tag: &str,
        code: &str,
    ) -> Result<PluralWords, WordFormatterError>
        ensures value { IfOk result (λ found. currency_words_for self.now book.now tag.now code.now ≡ Ok found) }
        ensures fault { IfErr result
            (λ fault. (fault ≡ WordFormatterError.Memory)
            ⊎ (currency_words_for self.now book.now tag.now code.now ≡ Err fault)) }
        ensures code { IsErrOf result WordFormatterError.Code ↔ (is_currency_code code.now ≡ false) }
        ensures room { tag_may_grow (pieces tag.now) ≡ false → wanted_of tag.now ≡ None
            → ¬ (IsErrOf result WordFormatterError.Memory) }
    {
        match CurrencyCode::try_from_str(code) {
            Ok(code) => words_of_code(self, alloc, book, tag, code),
            Err(_) => Err(WordFormatterError::Code),
        }
    }

    /// The words of numbers with a unit of measurement for a tag, with the parents of a book: of `en`, `kilometer` and
    /// `UnitWidth::Long` ` kilometer` after the number for `one`, and ` kilometers` for `other`.
    ///
    /// A unit of two, as `gram-per-liter`, that has no words of its own has those of the first between what the second has
    /// behind another unit. It allocates.
    ///
    /// - Measure: the text is no name of a unit, as `Kilometer`.
    /// - Tag: the text is no locale tag, as `e`.
    /// - Table: the words of the tag's language have neither the unit nor both of its parts, or are not there.
    /// - Memory: out of memory. Of what is no tag it is told only where reading the tag allocates.
    pub fn unit_words(
        &self,
        alloc: Global,
        book: &Book,
        tag: &str,
        width: UnitWidth,
        unit: &str,
    ) -> Result<PluralWords, WordFormatterError>
        ensures value { IfOk result (λ found. unit_words_for self.now book.now tag.now width unit.now ≡ Ok found) }
        ensures fault { IfErr result
            (λ fault. (fault ≡ WordFormatterError.Memory)
            ⊎ (unit_words_for self.now book.now tag.now width unit.now ≡ Err fault)) }
        ensures measure { IsErrOf result WordFormatterError.Measure ↔ (is_unit_name unit.now ≡ false) }
        ensures room { tag_may_grow (pieces tag.now) ≡ false → wanted_of tag.now ≡ None
            → ¬ (IsErrOf result WordFormatterError.Memory) }
    {
        if is_unit_name(unit) {
            words_of_unit(self, alloc, book, tag, width, unit)
        } else {
            Err(WordFormatterError::Measure)
        }
    }
}
