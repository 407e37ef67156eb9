//! The formatters of a book for a tag.

ghost use Rattle.std.specs.Prelude.{◌≡◌, ◌⊎◌, Ok, Err, Some, None, false, IfOk, IfErr};
ghost use Rattle.std.specs.Result.{IsErrOf, result_map_both};
ghost use Rattle.icu_decimal.specs.HeldCompact.{compact_tables_of};
ghost use Rattle.icu_decimal.specs.HeldTables.{tables_of};
ghost use Rattle.icu_locale_core.specs.Pieces.{pieces};
ghost use Rattle.icu_locale_core.specs.SingleVariant.{SingleMeaning, MeansSingle};
ghost use Rattle.icu_locale_core.specs.TagAllocation.{tag_may_grow};
ghost use Rattle.locale_numbers_book.specs.TagFormatters.{compact_grouped, found_beside, long_for, patterns_under, plain_for, plain_grouped, short_for};
ghost use Rattle.locale_numbers_book.specs.Wanted.{wanted_of};
ghost use Rattle.locale_numbers_book.specs.declared.formatter_error.FormatterError.{FormatterError};

use crate::book::Book;
use crate::formatter_error::FormatterError;
use crate::tag_reader::read_preferences;
use icu_decimal::options::{CompactDecimalFormatterOptions, DecimalFormatterOptions};
use icu_decimal::preferences::CompactDecimalFormatterPreferences;
use icu_decimal::provider::DataError;
use icu_decimal::{CompactDecimalFormatter, DecimalFormatter, DecimalFormatterPreferences};
use locale_numbers_formats::CompactWidth;
use std::alloc::Global;

// What a tag prefers.
pub(crate) fn preferences_of_tag(
    alloc: Global,
    tag: &str,
) -> Result<DecimalFormatterPreferences, FormatterError>
    ensures value { IfOk result (λ preferences. wanted_of tag.now ≡ Some preferences) }
    ensures fault { IfErr result
        (λ fault. (fault ≡ FormatterError.Memory) ⊎ ((fault ≡ FormatterError.Tag) × (wanted_of tag.now ≡ None))) }
    ensures room { tag_may_grow (pieces tag.now) ≡ false → ¬ (IsErrOf result FormatterError.Memory) }
    ensures single { (m : SingleMeaning) → MeansSingle (pieces tag.now) m → ¬ (IsErrOf result FormatterError.Memory) }
{
    match read_preferences(alloc, tag.as_bytes()) {
        Ok(Some(preferences)) => Ok(preferences),
        Ok(None) => Err(FormatterError::Tag),
        Err(refused) => Err(FormatterError::from(refused)),
    }
}

// The formatter of compact numbers for preferences, with the patterns of a width.
fn compact_in(
    book: &Book,
    width: CompactWidth,
    preferences: CompactDecimalFormatterPreferences,
    options: CompactDecimalFormatterOptions,
) -> Result<CompactDecimalFormatter<'_>, DataError>
    ensures { result_map_both compact_tables_of (λ error. error) result
        ≡ found_beside (patterns_under width book.now) book.now preferences options.grouping_strategy }
{
    match width {
        CompactWidth::Short => {
            CompactDecimalFormatter::try_new_short_unstable(book, preferences, options)
        }
        CompactWidth::Long => {
            CompactDecimalFormatter::try_new_long_unstable(book, preferences, options)
        }
    }
}

impl Book {
    /// The formatter of plain numbers for a tag, with these options: of `SAMPLE_BOOK` that of `en` and
    /// `GroupingStrategy::Never` writes -1234.5 as `-1234.5`.
    ///
    /// Its tables are those that `answer` finds for the tag with the grouping of the options, and are borrowed from the
    /// book.
    ///
    /// - Tag: the text is no locale tag, as `e`.
    /// - Table: the book has no symbols or no digits for it, as `SAMPLE_BOOK` for `fr`.
    /// - Memory: out of memory. A tag of at most one variant and one keyword does not allocate, nor does one of language, script
    ///   and region only.
    pub fn plain_formatter(
        &self,
        alloc: Global,
        tag: &str,
        options: DecimalFormatterOptions,
    ) -> Result<DecimalFormatter<'_>, FormatterError>
        ensures value { IfOk result
            (λ formatter. plain_grouped self.now tag.now options.grouping_strategy ≡ Ok (tables_of formatter)) }
        ensures fault { IfErr result
            (λ fault. (fault ≡ FormatterError.Memory)
            ⊎ (plain_grouped self.now tag.now options.grouping_strategy ≡ Err fault)) }
        ensures room { tag_may_grow (pieces tag.now) ≡ false → ¬ (IsErrOf result FormatterError.Memory) }
        ensures single { (m : SingleMeaning) → MeansSingle (pieces tag.now) m
            → ¬ (IsErrOf result FormatterError.Memory) }
    {
        let preferences = preferences_of_tag(alloc, tag)?;
        match DecimalFormatter::try_new_unstable(self, preferences, options) {
            Ok(formatter) => Ok(formatter),
            Err(_) => Err(FormatterError::Table),
        }
    }

    /// The formatter of compact numbers for a tag, with the patterns of a width and these options: of `SAMPLE_BOOK`
    /// that of `en` and `CompactWidth::Short` writes 1650 as `1.6K`.
    ///
    /// It borrows its tables from the book. Errors as [`Book::plain_formatter`], `Table` also where the book has no
    /// plural rules or no patterns of the width for the tag.
    pub fn compact_formatter(
        &self,
        alloc: Global,
        tag: &str,
        width: CompactWidth,
        options: CompactDecimalFormatterOptions,
    ) -> Result<CompactDecimalFormatter<'_>, FormatterError>
        ensures value { IfOk result
            (λ formatter. compact_grouped width self.now tag.now options.grouping_strategy
            ≡ Ok (compact_tables_of formatter)) }
        ensures fault { IfErr result
            (λ fault. (fault ≡ FormatterError.Memory)
            ⊎ (compact_grouped width self.now tag.now options.grouping_strategy ≡ Err fault)) }
        ensures room { tag_may_grow (pieces tag.now) ≡ false → ¬ (IsErrOf result FormatterError.Memory) }
        ensures single { (m : SingleMeaning) → MeansSingle (pieces tag.now) m
            → ¬ (IsErrOf result FormatterError.Memory) }
    {
        let preferences = preferences_of_tag(alloc, tag)?;
        match compact_in(self, width, preferences, options) {
            Ok(formatter) => Ok(formatter),
            Err(_) => Err(FormatterError::Table),
        }
    }

    /// The formatter of plain numbers for a tag, with default options: of `SAMPLE_BOOK` that of `en` writes -1234.5 as
    /// `-1,234.5`.
    ///
    /// It is that of [`Book::plain_formatter`] with the grouping `auto`. Errors as there.
    pub fn formatter(
        &self,
        alloc: Global,
        tag: &str,
    ) -> Result<DecimalFormatter<'_>, FormatterError>
        ensures value { IfOk result (λ formatter. plain_for self.now tag.now ≡ Ok (tables_of formatter)) }
        ensures fault { IfErr result
            (λ fault. (fault ≡ FormatterError.Memory) ⊎ (plain_for self.now tag.now ≡ Err fault)) }
        ensures room { tag_may_grow (pieces tag.now) ≡ false → ¬ (IsErrOf result FormatterError.Memory) }
        ensures single { (m : SingleMeaning) → MeansSingle (pieces tag.now) m
            → ¬ (IsErrOf result FormatterError.Memory) }
    {
        self.plain_formatter(alloc, tag, DecimalFormatterOptions::default())
    }

    /// The formatter of compact numbers in short form for a tag, with default options: of `SAMPLE_BOOK` that of `en`
    /// writes 1650 as `1.6K`.
    ///
    /// It is that of [`Book::compact_formatter`] with short patterns and the grouping `min2`. Errors as there.
    pub fn short_formatter(
        &self,
        alloc: Global,
        tag: &str,
    ) -> Result<CompactDecimalFormatter<'_>, FormatterError>
        ensures value { IfOk result (λ formatter. short_for self.now tag.now ≡ Ok (compact_tables_of formatter)) }
        ensures fault { IfErr result
            (λ fault. (fault ≡ FormatterError.Memory) ⊎ (short_for self.now tag.now ≡ Err fault)) }
        ensures room { tag_may_grow (pieces tag.now) ≡ false → ¬ (IsErrOf result FormatterError.Memory) }
        ensures single { (m : SingleMeaning) → MeansSingle (pieces tag.now) m
            → ¬ (IsErrOf result FormatterError.Memory) }
    {
        let options = CompactDecimalFormatterOptions::default();
        self.compact_formatter(alloc, tag, CompactWidth::Short, options)
    }

    /// The formatter of compact numbers in long form for a tag, with default options: of `SAMPLE_BOOK` that of `en`
    /// writes 1650 as `1.6-thousands`.
    ///
    /// It is that of [`Book::compact_formatter`] with long patterns and the grouping `min2`. Errors as there.
    pub fn long_formatter(
        &self,
        alloc: Global,
        tag: &str,
    ) -> Result<CompactDecimalFormatter<'_>, FormatterError>
        ensures value { IfOk result (λ formatter. long_for self.now tag.now ≡ Ok (compact_tables_of formatter)) }
        ensures fault { IfErr result
            (λ fault. (fault ≡ FormatterError.Memory) ⊎ (long_for self.now tag.now ≡ Err fault)) }
        ensures room { tag_may_grow (pieces tag.now) ≡ false → ¬ (IsErrOf result FormatterError.Memory) }
        ensures single { (m : SingleMeaning) → MeansSingle (pieces tag.now) m
            → ¬ (IsErrOf result FormatterError.Memory) }
    {
        let options = CompactDecimalFormatterOptions::default();
        self.compact_formatter(alloc, tag, CompactWidth::Long, options)
    }
}
