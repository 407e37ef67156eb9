//! What numbers with words are written with.

ghost use Rattle.std.specs.Prelude.{◌≡◌, ◌==◌, ◌+◌, ◌<◌, IfOk, IfSome, string_bytes};
ghost use Rattle.fixed_decimal.specs.Number.{digit as digit_is};
ghost use Rattle.icu_decimal_plain.specs.BorrowedTables.{borrowed_tables};
ghost use Rattle.icu_dimension_words.specs.HeldWords.{borrowed_word, settings_of};
ghost use Rattle.icu_dimension_words.specs.WordsText.{category_in, has_no_sign, is_just, is_named, named_number, word_for, words_formatted, words_text};

use crate::number_in_words::NumberInWords;
use crate::plural_words::PluralWords;
use crate::word::{BorrowedWord, WordKind};
use fixed_decimal::{Decimal, Sign, UnsignedDecimal};
use icu_decimal_plain::DecimalTables;
use icu_decimal_plurals::{PluralCategory, PluralOperands, PluralRules};
use std::alloc::{AllocError, Global};
use writeable::Writeable;

/// What numbers with words are written with, all of it borrowed: the tables of a formatter of decimals, the plural rules
/// of the language, the words of each category, and what they are of.
///
/// With those of English, ` kilometer` after the number for `one` and ` kilometers` for `other`, 1 is written as
/// `1 kilometer` and 5 as `5 kilometers`.
#[derive(Clone, Copy)]
pub struct WordTables<'b> {
    pub(crate) decimals: DecimalTables<'b>,
    pub(crate) rules: &'b PluralRules,
    pub(crate) words: &'b PluralWords,
    pub(crate) kind: WordKind,
}

// Whether there is no sign.
fn has_no_sign(sign: Sign) -> bool
    ensures { result ≡ has_no_sign sign }
{
    match sign {
        Sign::None => true,
        Sign::Negative | Sign::Positive => false,
    }
}

// How many fraction digits are shown.
fn fraction_len(number: &UnsignedDecimal) -> u16
    ensures { number.now.low + result ≡ 32768 }
{
    (0 - *number.magnitude_range().start() as i32) as u16
}

// How many integer digits are shown.
fn whole_len(number: &UnsignedDecimal) -> u16
    ensures { 32767 + result ≡ number.now.high }
{
    (i32::from(*number.magnitude_range().end()) + 1) as u16
}

// Whether no fraction digit is shown.
#[tactic(auto, using(crate::proofs::JustLemmas::no_fraction))]
fn has_no_fraction(number: &UnsignedDecimal) -> bool
    ensures { result ≡ (number.now.low == 32768) }
{
    fraction_len(number) == 0
}

// Whether one integer digit is shown.
#[tactic(auto, using(crate::proofs::JustLemmas::one_whole))]
fn has_one_digit(number: &UnsignedDecimal) -> bool
    ensures { result ≡ (number.now.high == 32768) }
{
    whole_len(number) == 1
}

// The digit of the ones.
fn ones_digit(number: &UnsignedDecimal) -> u8
    ensures { result ≡ digit_is number.now.count 32768 }
{
    number.digit_at(0)
}

// Whether a digit is all that is shown of a number.
fn is_just(digit: u8, value: &Decimal) -> bool
    ensures { result ≡ is_just digit value.now }
{
    has_no_sign(value.sign)
        && (has_no_fraction(&value.absolute)
            && (has_one_digit(&value.absolute) && ones_digit(&value.absolute) == digit))
}

/// The number that a category is named after: 1 for `one`, and none for `few`. It does not allocate.
pub fn named_number(category: PluralCategory) -> Option<u8>
    ensures value { result ≡ named_number category }
    ensures ten { IfSome result (λ digit. digit < 10) }
{
    match category {
        PluralCategory::Zero => Some(0),
        PluralCategory::One => Some(1),
        PluralCategory::Two => Some(2),
        PluralCategory::Few | PluralCategory::Many | PluralCategory::Other => None,
    }
}

// Whether a category is named after a number.
fn is_named(category: PluralCategory, value: &Decimal) -> bool
    ensures { result ≡ is_named category value.now }
{
    match named_number(category) {
        Some(number) => is_just(number, value),
        None => false,
    }
}

impl<'b> WordTables<'b> {
    /// These tables, these rules, and these words of a unit of measurement or a currency: those of English with
    /// ` kilometers` after the number write 5 as `5 kilometers`. It does not allocate.
    pub fn new(
        decimals: &DecimalTables<'b>,
        rules: &'b PluralRules,
        words: &'b PluralWords,
        kind: WordKind,
    ) -> Self
        ensures { settings_of result
            ≡ record { tables = borrowed_tables decimals.now; rules = rules.now; words = words.now; kind = kind } }
    {
        WordTables {
            decimals: *decimals,
            rules,
            words,
            kind,
        }
    }

    // The category of a number as it is shown.
    fn category(&self, value: &Decimal) -> PluralCategory
        ensures { result ≡ category_in self.now.rules.now value.now }
    {
        let operands = PluralOperands::from_significand_and_exponent(&value.absolute, 0);
        self.rules.category_for(&operands)
    }

    // The words that a number takes.
    pub(crate) fn word_for(&self, value: &Decimal) -> BorrowedWord<'b>
        ensures { borrowed_word result ≡ word_for (settings_of self.now) value.now }
    {
        let category = self.category(value);
        match self.words.own(category) {
            Some(BorrowedWord::Around(before, after)) => BorrowedWord::Around(before, after),
            Some(BorrowedWord::Bare(text)) => {
                if is_named(category, value) {
                    BorrowedWord::Bare(text)
                } else {
                    self.words.others()
                }
            }
            None => self.words.others(),
        }
    }

    /// The number with its words as it is written: -5 as `-5 kilometers` in English. It does not allocate.
    ///
    /// The words are those of the plural category of the number as it is given, with its digits: `1 kilometer`, and
    /// `1.0 kilometers`. A text without the number is taken only by the number that its category is named after.
    ///
    /// Source: UTS 35, part 2 (general), unit elements, and part 3 (numbers), currencies.
    pub fn format<'l>(&'l self, value: &'l Decimal) -> NumberInWords<'l>
        ensures { result ≡ words_formatted (settings_of self.now) value.now }
    {
        let number = self.decimals.format(value);
        NumberInWords::new(number, self.word_for(value), self.kind)
    }

    /// The text of the number with its words: -5 gives `-5 kilometers` in English.
    ///
    /// It allocates. `AllocError`: out of memory.
    pub fn format_to_string(&self, alloc: Global, value: &Decimal) -> Result<String, AllocError>
        ensures { IfOk result (λ text. string_bytes text ≡ words_text (settings_of self.now) value.now) }
    {
        self.format(value).write_to_string(alloc)
    }
}

/// The number with its words as it is written, as by [`WordTables::format`], of tables and words that the caller has: a
/// type that owns its words returns it so. -5 is `-5 kilometers` in English. It does not allocate.
pub fn format_in_words<'l>(
    decimals: &'l DecimalTables<'l>,
    rules: &'l PluralRules,
    words: &'l PluralWords,
    kind: WordKind,
    value: &'l Decimal,
) -> NumberInWords<'l>
    ensures { result ≡ words_formatted
        (record { tables = borrowed_tables decimals.now; rules = rules.now; words = words.now; kind = kind }) value.now }
{
    let tables = WordTables::new(decimals, rules, words, kind);
    NumberInWords::new(decimals.format(value), tables.word_for(value), kind)
}
