//! The formatters of percents and of amounts of money that a book has for a tag.

ghost use Rattle.std.specs.Prelude.{◌≡◌, ◌⊎◌, Ok, Err, false, IfOk, IfErr};
ghost use Rattle.std.specs.Result.{IsErrOf};
ghost use Rattle.icu_dimension.specs.HeldFormatters.{currency_settings_of, settings_of_percent, sign_of};
ghost use Rattle.icu_locale_core.specs.Pieces.{pieces};
ghost use Rattle.icu_locale_core.specs.SingleVariant.{SingleMeaning, MeansSingle};
ghost use Rattle.icu_locale_core.specs.TagAllocation.{tag_may_grow};
ghost use Rattle.locale_numbers_book.specs.TagFormatters.{currency_for, currency_found_in, found_by, percent_for};
ghost use Rattle.locale_numbers_book.specs.Wanted.{wanted_of};
ghost use Rattle.locale_numbers_book.specs.declared.formatter_error.FormatterError.{FormatterError};

use crate::book::Book;
use crate::formatter_error::FormatterError;
use crate::tag_formatters::preferences_of_tag;
use icu_dimension::{
    CurrencyCode, CurrencyFormatter, CurrencyFormatterOptions, PercentFormatter,
    PercentFormatterOptions,
};
use std::alloc::Global;

// The formatter of amounts of a currency.
fn formatter_of_code<'b>(
    book: &'b Book,
    alloc: Global,
    tag: &str,
    code: CurrencyCode,
    options: CurrencyFormatterOptions,
) -> Result<CurrencyFormatter<'b>, FormatterError>
    ensures value { IfOk result
        (λ formatter. found_by (λ preferences. currency_found_in book.now preferences code options) (wanted_of tag.now)
        ≡ Ok (currency_settings_of formatter)) }
    ensures fault { IfErr result
        (λ fault. (fault ≡ FormatterError.Memory)
        ⊎ (found_by (λ preferences. currency_found_in book.now preferences code options) (wanted_of tag.now)
        ≡ Err fault)) }
    ensures room { tag_may_grow (pieces tag.now) ≡ false → ¬ (IsErrOf result FormatterError.Memory) }
    ensures single { (m : SingleMeaning) → MeansSingle (pieces tag.now) m → ¬ (IsErrOf result FormatterError.Memory) }
{
    let preferences = preferences_of_tag(alloc, tag)?;
    match CurrencyFormatter::try_new_unstable(book, preferences, code, options) {
        Ok(formatter) => Ok(formatter),
        Err(_) => Err(FormatterError::Table),
    }
}

impl Book {
    /// The formatter of percents for a tag: of `SAMPLE_UNITS_BOOK` that of `de` writes 12.5 as `12,5 %`, with a
    /// no-break space, and that of `tr` as `%12,5`.
    ///
    /// Its tables are borrowed from the book.
    ///
    /// - Tag: the text is no locale tag, as `e`.
    /// - Table: the book has no symbols, no digits, no percents or no such sign for it, as `SAMPLE_BOOK`, which has no units.
    /// - Memory: out of memory. A tag of at most one variant and one keyword does not allocate, nor does one of language, script
    ///   and region only.
    pub fn percent_formatter(
        &self,
        alloc: Global,
        tag: &str,
        options: PercentFormatterOptions,
    ) -> Result<PercentFormatter<'_>, FormatterError>
        ensures value { IfOk result
            (λ formatter. percent_for self.now tag.now options ≡ Ok (settings_of_percent formatter)) }
        ensures sign { IfOk result (λ formatter. sign_of formatter ≡ options.sign) }
        ensures fault { IfErr result
            (λ fault. (fault ≡ FormatterError.Memory) ⊎ (percent_for self.now tag.now options ≡ Err fault)) }
        ensures room { tag_may_grow (pieces tag.now) ≡ false → ¬ (IsErrOf result FormatterError.Memory) }
        ensures single { (m : SingleMeaning) → MeansSingle (pieces tag.now) m
            → ¬ (IsErrOf result FormatterError.Memory) }
    {
        let preferences = preferences_of_tag(alloc, tag)?;
        match PercentFormatter::try_new_unstable(self, preferences, options) {
            Ok(formatter) => Ok(formatter),
            Err(_) => Err(FormatterError::Table),
        }
    }

    /// The formatter of amounts of a currency for a tag: of `SAMPLE_UNITS_BOOK` that of `de-CH` and `CHF` writes -5.00
    /// as `CHF-5.00`.
    ///
    /// The code is three capitals; one that the book has no entry for is written by itself, with two digits. The tables
    /// are borrowed from the book. Errors as [`Book::percent_formatter`], `Table` also where the book has no amounts
    /// for the tag, and before these
    ///
    /// - Code: the code is not three capitals, as `eur`.
    pub fn currency_formatter(
        &self,
        alloc: Global,
        tag: &str,
        code: &str,
        options: CurrencyFormatterOptions,
    ) -> Result<CurrencyFormatter<'_>, FormatterError>
        ensures value { IfOk result
            (λ formatter. currency_for self.now tag.now code.now options ≡ Ok (currency_settings_of formatter)) }
        ensures fault { IfErr result
            (λ fault. (fault ≡ FormatterError.Memory) ⊎ (currency_for self.now tag.now code.now options ≡ Err fault)) }
        ensures room { tag_may_grow (pieces tag.now) ≡ false → ¬ (IsErrOf result FormatterError.Memory) }
        ensures single { (m : SingleMeaning) → MeansSingle (pieces tag.now) m
            → ¬ (IsErrOf result FormatterError.Memory) }
    {
        match CurrencyCode::try_from_str(code) {
            Ok(code) => formatter_of_code(self, alloc, tag, code, options),
            Err(_) => Err(FormatterError::Code),
        }
    }
}
