//! The formatters of numbers with words for a tag.

ghost use Rattle.std.specs.Prelude.{◌≡◌, ◌⊎◌, ◌↔◌, Err, None, Ok, false, IfErr, IfOk};
ghost use Rattle.std.specs.Result.{IsErrOf};
ghost use Rattle.icu_dimension.specs.CurrencyCodes.{is_currency_code};
ghost use Rattle.icu_locale_core.specs.Pieces.{pieces};
ghost use Rattle.icu_locale_core.specs.TagAllocation.{tag_may_grow};
ghost use Rattle.locale_numbers_book.specs.Wanted.{wanted_of};
ghost use Rattle.locale_numbers_words.specs.UnitNames.{is_unit_name};
ghost use Rattle.locale_numbers_word_book.specs.TagWords.{found_by};
ghost use Rattle.locale_numbers_word_book.specs.WordFormats.{currency_format_for, currency_format_in, unit_format_for, unit_format_in};
ghost use Rattle.locale_numbers_word_book.specs.declared.error.WordFormatterError.{WordFormatterError};

use crate::error::WordFormatterError;
use crate::format_finding::{find_currency_formatter, find_unit_formatter};
use crate::tag_words::preferences_of_tag;
use crate::word_book::WordBook;
use crate::word_formatter::WordFormatter;
use icu_decimal::options::GroupingStrategy;
use icu_dimension::CurrencyCode;
use locale_numbers_book::Book;
use locale_numbers_words::{UnitWidth, is_unit_name};
use std::alloc::Global;

// The formatter of amounts of a currency.
fn formatter_of_code<'b>(
    words: &WordBook,
    alloc: Global,
    book: &'b Book,
    tag: &str,
    code: CurrencyCode,
    grouping: GroupingStrategy,
) -> Result<WordFormatter<'b>, WordFormatterError>
    ensures value { IfOk result
        (λ found. found_by (λ preferences. currency_format_in words.now book.now preferences code grouping)
        (wanted_of tag.now) ≡ Ok found) }
    ensures fault { IfErr result
        (λ fault. (fault ≡ WordFormatterError.Memory)
        ⊎ (found_by (λ preferences. currency_format_in words.now book.now preferences code grouping)
        (wanted_of tag.now) ≡ Err fault)) }
    ensures known { ¬ (IsErrOf result WordFormatterError.Code) }
    ensures room { tag_may_grow (pieces tag.now) ≡ false → wanted_of tag.now ≡ None
        → ¬ (IsErrOf result WordFormatterError.Memory) }
{
    let preferences = preferences_of_tag(alloc, tag)?;
    match find_currency_formatter(alloc, words, book, &preferences, code, grouping) {
        Ok(Some(found)) => Ok(found),
        Ok(None) => Err(WordFormatterError::Table),
        Err(refused) => Err(WordFormatterError::from(refused)),
    }
}

// The formatter of numbers with a unit whose name is one.
fn formatter_of_unit<'b>(
    words: &WordBook,
    alloc: Global,
    book: &'b Book,
    tag: &str,
    width: UnitWidth,
    unit: &str,
    grouping: GroupingStrategy,
) -> Result<WordFormatter<'b>, WordFormatterError>
    ensures value { IfOk result
        (λ found. found_by (λ preferences. unit_format_in words.now book.now preferences width unit.now grouping)
        (wanted_of tag.now) ≡ Ok found) }
    ensures fault { IfErr result
        (λ fault. (fault ≡ WordFormatterError.Memory)
        ⊎ (found_by (λ preferences. unit_format_in words.now book.now preferences width unit.now grouping)
        (wanted_of tag.now) ≡ Err fault)) }
    ensures known { ¬ (IsErrOf result WordFormatterError.Measure) }
    ensures room { tag_may_grow (pieces tag.now) ≡ false → wanted_of tag.now ≡ None
        → ¬ (IsErrOf result WordFormatterError.Memory) }
{
    let preferences = preferences_of_tag(alloc, tag)?;
    match find_unit_formatter(alloc, words, book, &preferences, width, unit, grouping) {
        Ok(Some(found)) => Ok(found),
        Ok(None) => Err(WordFormatterError::Table),
        Err(refused) => Err(WordFormatterError::from(refused)),
    }
}

impl WordBook {
    /// The formatter of amounts of a currency with its name for a tag, of the tables of a book: of `en` and `USD` that
    /// which writes 5.00 as `5.00 US dollars`.
    ///
    /// It writes the digits that an amount has; `fractions` says how many the currency has. It borrows the tables of the
    /// book, and owns its words. Errors as [`WordBook::currency_words`], `Table` also where the book has no symbols, no
    /// digits, no patterns of amounts or no plural rules for the tag. It allocates.
    pub fn currency_formatter<'b>(
        &self,
        alloc: Global,
        book: &'b Book,
        tag: &str,
        code: &str,
        grouping: GroupingStrategy,
    ) -> Result<WordFormatter<'b>, WordFormatterError>
        ensures value { IfOk result
            (λ found. currency_format_for self.now book.now tag.now code.now grouping ≡ Ok found) }
        ensures fault { IfErr result
            (λ fault. (fault ≡ WordFormatterError.Memory)
            ⊎ (currency_format_for self.now book.now tag.now code.now grouping ≡ Err fault)) }
        ensures code { IsErrOf result WordFormatterError.Code ↔ (is_currency_code code.now ≡ false) }
        ensures room { tag_may_grow (pieces tag.now) ≡ false → wanted_of tag.now ≡ None
            → ¬ (IsErrOf result WordFormatterError.Memory) }
    {
        match CurrencyCode::try_from_str(code) {
            Ok(code) => formatter_of_code(self, alloc, book, tag, code, grouping),
            Err(_) => Err(WordFormatterError::Code),
        }
    }

    /// The formatter of numbers with a unit of measurement for a tag, of the tables of a book: of `en`, `kilometer` and
    /// `UnitWidth::Long` that which writes 5 as `5 kilometers`.
    ///
    /// It borrows the tables of the book, and owns its words. Errors as [`WordBook::unit_words`], `Table` also where the
    /// book has no symbols, no digits or no plural rules for the tag. It allocates.
    pub fn unit_formatter<'b>(
        &self,
        alloc: Global,
        book: &'b Book,
        tag: &str,
        width: UnitWidth,
        unit: &str,
        grouping: GroupingStrategy,
    ) -> Result<WordFormatter<'b>, WordFormatterError>
        ensures value { IfOk result
            (λ found. unit_format_for self.now book.now tag.now width unit.now grouping ≡ Ok found) }
        ensures fault { IfErr result
            (λ fault. (fault ≡ WordFormatterError.Memory)
            ⊎ (unit_format_for self.now book.now tag.now width unit.now grouping ≡ Err fault)) }
        ensures measure { IsErrOf result WordFormatterError.Measure ↔ (is_unit_name unit.now ≡ false) }
        ensures room { tag_may_grow (pieces tag.now) ≡ false → wanted_of tag.now ≡ None
            → ¬ (IsErrOf result WordFormatterError.Memory) }
    {
        if is_unit_name(unit) {
            formatter_of_unit(self, alloc, book, tag, width, unit, grouping)
        } else {
            Err(WordFormatterError::Measure)
        }
    }
}
