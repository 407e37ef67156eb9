//! A formatter of numbers with words.

ghost use Rattle.std.specs.Prelude.{◌≡◌, ◌↔◌, false, IfOk, IsErrOf, string_bytes};
ghost use Rattle.icu_decimal.specs.BorrowedTables.{borrowed_tables};
ghost use Rattle.icu_dimension_words.specs.HeldWords.{settings_of};
ghost use Rattle.icu_dimension_words.specs.LenientWordLaws.{AreLenientTexts};
ghost use Rattle.icu_dimension_words.specs.LenientWords.{is_leniently_words_readable_by, lenient_words};
ghost use Rattle.icu_dimension_words.specs.WordsReading.{AreWordTexts, HasManyBetween, HasNoDecimal, IsWordsText, is_words_readable_by};
ghost use Rattle.icu_dimension_words.specs.WordsText.{words_formatted, words_text};

use fixed_decimal::Decimal;
use icu_decimal::DecimalTables;
use icu_decimal::error::ReadError;
use icu_decimal::plurals::PluralRules;
use icu_dimension::FractionInfo;
use icu_dimension_words::{
    LenientWordReader, NumberInWords, PluralWords, WordKind, WordTables, format_in_words,
};
use std::alloc::{AllocError, Global};
use std::marker::Model;

/// A formatter of numbers with the words of a unit of measurement or of a currency: the tables and plural rules of a book,
/// which it borrows, and the words, which it owns, so that what they were found in may be dropped.
///
/// That of `en` and long kilometers writes 5 as `5 kilometers`, and that of `en` and the name of `USD` 1.00 as
/// `1.00 US dollars`.
#[derive(Debug, Drop)]
pub struct WordFormatter<'b> {
    decimals: DecimalTables<'b>,
    rules: &'b PluralRules,
    words: PluralWords,
    kind: WordKind,
    fractions: Option<FractionInfo>,
}

impl<'b> Model for WordFormatter<'b> {
    ghost use Rattle.icu_decimal.specs.BorrowedTables.{borrowed_tables};
    ghost use Rattle.locale_numbers_word_book.specs.WordFormats.{WordFormat};

    ghost Value = { WordFormat };

    ghost view = { λ f. record {
      settings = record {
        tables = borrowed_tables f.decimals;
        rules = f.rules.now;
        words = f.words;
        kind = f.kind;
      };
      fractions = f.fractions;
    } };
}

impl<'b> WordFormatter<'b> {
    /// The formatter of these tables, rules and words, and of the digits of a currency, where it is of one: with ` km` after
    /// the number for `other` it writes 5 as `5 km`. It does not allocate.
    pub fn new(
        decimals: &DecimalTables<'b>,
        rules: &'b PluralRules,
        words: PluralWords,
        kind: WordKind,
        fractions: Option<FractionInfo>,
    ) -> Self
        ensures { result ≡ record {
          settings = record {
            tables = borrowed_tables decimals.now;
            rules = rules.now;
            words = words;
            kind = kind;
          };
          fractions = fractions;
        } }
    {
        WordFormatter {
            decimals: *decimals,
            rules,
            words,
            kind,
            fractions,
        }
    }

    /// The digits of the currency, by which an amount is to be rounded before it is written: two of `USD`; `None` of a unit.
    /// It does not allocate.
    pub fn fractions(&self) -> Option<FractionInfo>
        ensures { result ≡ self.now.fractions }
    {
        self.fractions
    }

    /// The words, as another reader takes them beside its own. It does not allocate.
    pub fn words(&self) -> &PluralWords
        ensures { result.now ≡ self.now.settings.words }
    {
        &self.words
    }

    /// What it writes with, as one value. It does not allocate.
    pub fn tables(&self) -> WordTables<'_>
        ensures { settings_of result ≡ self.now.settings }
    {
        WordTables::new(&self.decimals, self.rules, &self.words, self.kind)
    }

    /// The number with its words as it is written: -5 as `-5 kilometers` in English. It does not allocate.
    ///
    /// The words are those of the plural category of the number as it is given, with its digits: `1 kilometer`, and
    /// `1.0 kilometers`. An amount has the digits that it is given with.
    ///
    /// Source: UTS 35, part 2 (general), unit elements, and part 3 (numbers), currencies.
    pub fn format<'l>(&'l self, value: &'l Decimal) -> NumberInWords<'l>
        ensures { result ≡ words_formatted self.now.settings value.now }
    {
        format_in_words(&self.decimals, self.rules, &self.words, self.kind, value)
    }

    /// The text of the number with its words: -5 gives `-5 kilometers` in English.
    ///
    /// It allocates. `AllocError`: out of memory.
    pub fn format_to_string(&self, alloc: Global, value: &Decimal) -> Result<String, AllocError>
        ensures { IfOk result (λ text. string_bytes text ≡ words_text self.now.settings value.now) }
    {
        let tables = self.tables();
        tables.format_to_string(alloc, value)
    }

    /// Whether texts can be read back: in English with ` kilometer` and ` kilometers` after the number they can. It does not
    /// allocate.
    pub fn is_readable(&self) -> bool
        ensures value { result ≡ is_words_readable_by self.now.settings }
        ensures texts { AreWordTexts self.now.settings }
    {
        let tables = self.tables();
        tables.is_readable()
    }

    /// The decimal that is written so: in English `5 kilometers` is 5, and `1 kilometers` is none.
    ///
    /// - Unreadable: the words or the tables can't be read back (`is_readable`).
    /// - NotWritten: no decimal is written so, as `5km` in English.
    /// - Memory: out of memory; only where more than sixteen digits are between the words of a category.
    pub fn read(&self, alloc: Global, text: &str) -> Result<Decimal, ReadError>
        ensures unreadable { IsErrOf result ReadError.Unreadable ↔ (is_words_readable_by self.now.settings ≡ false) }
        ensures not_written { IsErrOf result ReadError.NotWritten → HasNoDecimal self.now.settings text.now }
        ensures memory { IsErrOf result ReadError.Memory → HasManyBetween self.now.settings text.now }
        ensures value { IfOk result (λ v. IsWordsText self.now.settings text.now v) }
    {
        let tables = self.tables();
        tables.read(alloc, text)
    }

    /// The reader of what people type of such a number: in English it reads `5kilometers` and `5` as 5. It reads the words of
    /// another width too, where it is given them (`with_words`).
    ///
    /// `Unreadable`: the words or the tables can't be read so. `Memory`: out of memory. It allocates for each folded text.
    pub fn lenient_reader(&self, alloc: Global) -> Result<LenientWordReader<'_>, ReadError>
        ensures unreadable { IsErrOf result ReadError.Unreadable
            ↔ (is_leniently_words_readable_by self.now.settings ≡ false) }
        ensures not_written { ¬ (IsErrOf result ReadError.NotWritten) }
        ensures readable { IfOk result (λ reader. AreLenientTexts reader) }
        ensures value { IfOk result (λ reader. reader ≡ lenient_words self.now.settings) }
    {
        LenientWordReader::try_new(alloc, &self.decimals, self.rules, &self.words, self.kind)
    }
}
