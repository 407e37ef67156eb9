//! The formatter of any format that a book has for a tag.

ghost use Rattle.std.specs.Prelude.{◌≡◌, ◌⊎◌, Ok, Err, false, IfOk, IfErr};
ghost use Rattle.std.specs.Result.{IsErrOf};
ghost use Rattle.icu_locale_core.specs.Pieces.{pieces};
ghost use Rattle.icu_locale_core.specs.SingleVariant.{SingleMeaning, MeansSingle};
ghost use Rattle.icu_locale_core.specs.TagAllocation.{tag_may_grow};
ghost use Rattle.locale_numbers_book.specs.FoundFormats.{format_for, formats_for};
ghost use Rattle.locale_numbers_book.specs.declared.formatter_error.FormatterError.{FormatterError};

use crate::book::Book;
use crate::format_finding::{find_both, find_formatter};
use crate::formatter_error::FormatterError;
use crate::tag_formatters::preferences_of_tag;
use locale_numbers_formats::NumberShape;
use locale_numbers_formatter::NumberFormatter;
use std::alloc::Global;

impl Book {
    /// The formatter of a shape for a tag: of `SAMPLE_UNITS_BOOK` that of `de` and percents writes 12.5 as `12,5 %`, with a
    /// no-break space, and that of `de-CH` and amounts of `CHF` writes -5.00 as `CHF-5.00`.
    ///
    /// Its tables are those that `answer` finds for the tag and a form of this shape, and are borrowed from the book.
    ///
    /// - Tag: the text is no locale tag, as `e`.
    /// - Table: the book lacks a table for it, as `SAMPLE_BOOK` the symbols of `fr`, or of scientific numbers the signs; and
    ///   where a compact or a scientific number would have a unit.
    /// - Memory: out of memory. A tag of at most one variant and one keyword does not allocate, nor does one of language, script
    ///   and region only.
    pub fn number_formatter(
        &self,
        alloc: Global,
        tag: &str,
        shape: &NumberShape,
    ) -> Result<NumberFormatter<'_>, FormatterError>
        ensures value { IfOk result (λ formatter. format_for self.now tag.now shape.now ≡ Ok formatter) }
        ensures fault { IfErr result
            (λ fault. (fault ≡ FormatterError.Memory) ⊎ (format_for self.now tag.now shape.now ≡ Err fault)) }
        ensures room { tag_may_grow (pieces tag.now) ≡ false → ¬ (IsErrOf result FormatterError.Memory) }
        ensures single { (m : SingleMeaning) → MeansSingle (pieces tag.now) m
            → ¬ (IsErrOf result FormatterError.Memory) }
    {
        let preferences = preferences_of_tag(alloc, tag)?;
        match find_formatter(self, preferences, shape) {
            Ok(formatter) => Ok(formatter),
            Err(_) => Err(FormatterError::Table),
        }
    }

    /// The formatter of a shape for a tag, as [`Book::number_formatter`], and the second beside it that what people type is
    /// read by too: for `ar-EG` that of `ar-EG-u-nu-latn`, and for `de-AT` and amounts of `EUR` that with the separators of
    /// plain numbers.
    ///
    /// It is the one of [`find_second`](crate::find_second), and so `None` for most tags. Errors as there.
    pub fn number_formatter_with_second(
        &self,
        alloc: Global,
        tag: &str,
        shape: &NumberShape,
    ) -> Result<(NumberFormatter<'_>, Option<NumberFormatter<'_>>), FormatterError>
        ensures value { IfOk result (λ both. formats_for self.now tag.now shape.now ≡ Ok both) }
        ensures fault { IfErr result
            (λ fault. (fault ≡ FormatterError.Memory) ⊎ (formats_for self.now tag.now shape.now ≡ Err fault)) }
        ensures room { tag_may_grow (pieces tag.now) ≡ false → ¬ (IsErrOf result FormatterError.Memory) }
        ensures single { (m : SingleMeaning) → MeansSingle (pieces tag.now) m
            → ¬ (IsErrOf result FormatterError.Memory) }
    {
        let preferences = preferences_of_tag(alloc, tag)?;
        match find_both(self, preferences, shape) {
            Ok(both) => Ok(both),
            Err(_) => Err(FormatterError::Table),
        }
    }
}
