//! The lenient reader of numbers with words.

ghost use Rattle.std.specs.Prelude.{◌≡◌, ◌↔◌, true, false, IfOk, IsErrOf, OnOk};
ghost use Rattle.icu_decimal_lenient.specs.LenientReading.{is_leniently_readable_by};
ghost use Rattle.icu_decimal_plain.specs.BorrowedTables.{borrowed_tables};
ghost use Rattle.icu_decimal_plain.specs.PlainText.{Tables};
ghost use Rattle.icu_decimal_reading.specs.DecimalOfText.{IsAnswered};
ghost use Rattle.icu_dimension_words.specs.HeldWords.{settings_of};
ghost use Rattle.icu_dimension_words.specs.WordsReading.{AreWordTexts, HasManyBetween, HasNoDecimal, IsWordsText, is_words_readable_by};
ghost use Rattle.icu_dimension_words.specs.LenientWordLaws.{AreLenientTexts};
ghost use Rattle.icu_dimension_words.specs.LenientWords.{is_leniently_words_readable_by, lenient_words, typed_words_reading, with_words};
ghost use Rattle.icu_dimension_words.specs.TypedWords.{typed_words};
ghost use Rattle.icu_dimension_words.specs.WordReadings.{words_reading};

use crate::folded_words::push_words;
use crate::plural_words::PluralWords;
use crate::tables::WordTables;
use crate::typed::{FoldedWords, read_typed};
use crate::word::WordKind;
use fixed_decimal::Decimal;
use icu_decimal_lenient::LenientTables;
use icu_decimal_plain::DecimalTables;
use icu_decimal_plurals::PluralRules;
use icu_decimal_reading::ReadError;
use std::alloc::{AllocError, Global};
use std::marker::Model;

/// What numbers with words are read with leniently: the tables that they are written with, and the words that people may
/// type, folded once.
///
/// A form field makes it once, and reads with it at each key. That of English with ` kilometers` reads `5kilometers` as
/// 5.
#[derive(Drop)]
pub struct LenientWordReader<'b> {
    exact: WordTables<'b>,
    pub(crate) kept: LenientTables<'b>,
    pub(crate) typed: FoldedWords,
}

impl<'b> Model for LenientWordReader<'b> {
    ghost use Rattle.icu_dimension_words.specs.HeldWords.{settings_of};
    ghost use Rattle.icu_dimension_words.specs.HeldTypedWords.{held_words};
    ghost use Rattle.icu_dimension_words.specs.LenientWords.{AreKeptWords, LenientWords};

    ghost Value = { LenientWords };

    ghost view = { λ r. held_words (settings_of r.exact) r.typed.words.items };

    ghost invariant = { λ r. AreKeptWords (settings_of r.exact) r.kept };
}

// The folded words of each category.
fn fold_words(
    alloc: Global,
    kept: &LenientTables<'_>,
    words: &PluralWords,
) -> Result<FoldedWords, AllocError>
    ensures { IfOk result (λ folded. folded.words.items ≡ typed_words kept.now.digits words.now) }
{
    let mut list = Vec::new(alloc);
    push_words(alloc, kept, words, &mut list)?;
    Ok(FoldedWords { words: list })
}

// The tables of a readable formatter, to read leniently with.
fn keep_tables<'b>(
    alloc: Global,
    exact: &WordTables<'b>,
    decimals: &DecimalTables<'b>,
) -> Result<LenientTables<'b>, ReadError>
    requires { (settings_of exact.now).tables ≡ borrowed_tables decimals.now }
    ensures unreadable { IsErrOf result ReadError.Unreadable
        ↔ (is_leniently_words_readable_by (settings_of exact.now) ≡ false) }
    ensures not_written { ¬ (IsErrOf result ReadError.NotWritten) }
    ensures texts { OnOk result (AreWordTexts (settings_of exact.now)) }
    ensures readable { OnOk result (is_leniently_words_readable_by (settings_of exact.now) ≡ true) }
    ensures value { IfOk result (λ kept. kept ≡ (settings_of exact.now).tables) }
{
    if !exact.is_readable() {
        return Err(ReadError::Unreadable);
    }
    LenientTables::new(alloc, decimals)
}

impl<'b> LenientWordReader<'b> {
    /// The lenient reader of what these tables write with these words: that of English with ` kilometer` for `one` and
    /// ` kilometers` for `other` reads `5 kilometers`, `5kilometers` and `5 kilometer` as 5.
    ///
    /// `Unreadable`: `is_readable` of `WordTables` is false, or `is_leniently_readable` of the tables is. `Memory`: out of
    /// memory. It allocates for each folded text.
    pub fn try_new(
        alloc: Global,
        decimals: &DecimalTables<'b>,
        rules: &'b PluralRules,
        words: &'b PluralWords,
        kind: WordKind,
    ) -> Result<Self, ReadError>
        ensures unreadable { IsErrOf result ReadError.Unreadable
            ↔ (is_leniently_words_readable_by (record {
              tables = borrowed_tables decimals.now;
              rules = rules.now;
              words = words.now;
              kind = kind;
            }) ≡ false) }
        ensures not_written { ¬ (IsErrOf result ReadError.NotWritten) }
        ensures readable { IfOk result (λ reader. AreLenientTexts reader) }
        ensures value { IfOk result (λ reader. reader ≡ lenient_words (record {
          tables = borrowed_tables decimals.now;
          rules = rules.now;
          words = words.now;
          kind = kind;
        })) }
    {
        let exact = WordTables::new(decimals, rules, words, kind);
        let kept = match keep_tables(alloc, &exact, decimals) {
            Ok(kept) => kept,
            Err(error) => return Err(error),
        };
        let typed = fold_words(alloc, &kept, words)?;
        Ok(LenientWordReader { exact, kept, typed })
    }

    /// The same reader with more words that may be typed, as those of another width: with ` km` it reads `5km` too. What
    /// it writes, and reads back exactly, stays.
    ///
    /// It allocates for each folded text. `AllocError`: out of memory.
    pub fn with_words(mut self, alloc: Global, words: &PluralWords) -> Result<Self, AllocError>
        ensures { IfOk result (λ reader. reader ≡ with_words self.entry words.now) }
    {
        let reader = &mut self;
        push_words(alloc, &reader.kept, words, &mut reader.typed.words)?;
        Ok(self)
    }

    /// The first step of `read`: the decimal that the formatter writes so. In English `5 kilometers` is 5, and
    /// `5kilometers` and `1 kilometers` are none.
    ///
    /// `NotWritten`: no decimal is written so. `Memory`: out of memory. It allocates where more than sixteen digits are
    /// between the words of a category.
    pub fn read_exactly(&self, alloc: Global, text: &str) -> Result<Decimal, ReadError>
        ensures unreadable { ¬ (IsErrOf result ReadError.Unreadable) }
        ensures not_written { IsErrOf result ReadError.NotWritten → HasNoDecimal self.now.settings text.now }
        ensures memory { IsErrOf result ReadError.Memory → HasManyBetween self.now.settings text.now }
        ensures value { IfOk result (λ v. IsWordsText self.now.settings text.now v) }
        ensures reading { IsAnswered result (words_reading self.now.settings text.now) }
    {
        self.exact.read_readable(alloc, text)
    }

    /// The second step of `read`, for a text that the formatter does not write: in English `5kilometers`, `1 kilometers`
    /// and `5` are 5, 1 and 5. Native digits are not read.
    ///
    /// `NotWritten`: it is a text of no decimal, folded, or of two. `Memory`: out of memory. It allocates.
    pub fn read_leniently(&self, alloc: Global, text: &str) -> Result<Decimal, ReadError>
        ensures unreadable { ¬ (IsErrOf result ReadError.Unreadable) }
        ensures reading { IsAnswered result
            (typed_words_reading self.now.settings.tables self.now.typed text.now) }
    {
        read_typed(alloc, &self.kept, self.typed.words.as_slice(), text)
    }
}
