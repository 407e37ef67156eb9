//! Reading numbers with words back.

ghost use Rattle.std.specs.Prelude.{◌≡◌, ◌≢◌, ◌↔◌, ℕ, List, ◌++◌, ◌<◌, false, true, IfNone, IfOk, IfSome, IsErrOf};
ghost use Rattle.std.specs.Str.{bytes_eq};
ghost use Rattle.fixed_decimal.specs.TextLaws.{IsDecimal};
ghost use Rattle.icu_decimal_plain.specs.BorrowedTables.{borrowed_tables};
ghost use Rattle.icu_decimal_reading.specs.Readable.{is_readable_by};
ghost use Rattle.icu_dimension_words.specs.HeldWords.{borrowed_word, settings_of};
ghost use Rattle.icu_dimension_words.specs.ReadingSteps.{HasManyIn, HasNoneBare, HasNoneOf, HasNoneWith, is_bare_text};
ghost use Rattle.icu_dimension_words.specs.Words.{around, bare};
ghost use Rattle.icu_dimension_words.specs.WordsLaws.{digit_alone};
ghost use Rattle.icu_dimension_words.specs.WordsReading.{HasManyBetween, HasNoDecimal, IsWordsText, is_one_pair, is_words_readable_by};
ghost use Rattle.icu_dimension_words.specs.WordsText.{word_for};

use crate::readable::{is_one_pair, is_same_text};
use crate::tables::{WordTables, named_number};
use crate::word::BorrowedWord;
use fixed_decimal::Decimal;
use icu_decimal_plurals::PluralCategory;
use icu_decimal_reading::ReadError;
use std::alloc::Global;

// What follows a text at the front of another.
fn strip_before<'t>(text: &'t str, before: &str) -> Option<&'t str>
    ensures some { IfSome result (λ rest. text.now ≡ before.now ++ rest.now) }
    ensures none { IfNone result ((rest : List ℕ) → text.now ≢ before.now ++ rest) }
{
    text.strip_prefix(before)
}

// What comes before a text at the end of another.
fn strip_after<'t>(text: &'t str, after: &str) -> Option<&'t str>
    ensures some { IfSome result (λ front. text.now ≡ front.now ++ after.now) }
    ensures none { IfNone result ((front : List ℕ) → text.now ≢ front ++ after.now) }
{
    text.strip_suffix(after)
}

/// What is between two texts: between nothing and ` km`, of `5 km` `5`, and of `5 m` nothing. It does not allocate.
pub(crate) fn strip_both<'t>(text: &'t str, before: &str, after: &str) -> Option<&'t str>
    ensures some { IfSome result (λ inner. text.now ≡ before.now ++ (inner.now ++ after.now)) }
    ensures none { IfNone result ((inner : List ℕ) → text.now ≢ before.now ++ (inner ++ after.now)) }
{
    match strip_before(text, before) {
        Some(rest) => strip_after(rest, after),
        None => None,
    }
}

// Whether a number takes this pair.
fn takes_pair(tables: &WordTables<'_>, value: &Decimal, before: &str, after: &str) -> bool
    ensures { result ≡ is_one_pair (word_for (settings_of tables.now) value.now)
        (around (record { before = before.now; after = after.now })) }
{
    is_one_pair(tables.word_for(value), BorrowedWord::Around(before, after))
}

// Whether a number takes this text without the number.
fn takes_bare(tables: &WordTables<'_>, value: &Decimal, text: &str) -> bool
    ensures { result ≡ is_bare_text (word_for (settings_of tables.now) value.now) text.now }
{
    match tables.word_for(value) {
        BorrowedWord::Around(_, _) => false,
        BorrowedWord::Bare(bare) => is_same_text(bare, text),
    }
}

// The number that is written so between a pair.
#[tactic(auto, using(crate::proofs::ReaderLemmas::pair_written, crate::proofs::ReaderLemmas::pair_missing, crate::proofs::ReaderLemmas::pair_nothing, crate::proofs::ReaderLemmas::pair_many))]
fn read_pair(
    alloc: Global,
    tables: &WordTables<'_>,
    before: &str,
    after: &str,
    text: &str,
) -> Result<Decimal, ReadError>
    requires { is_readable_by (borrowed_tables tables.now.decimals) ≡ true }
    ensures unreadable { ¬ (IsErrOf result ReadError.Unreadable) }
    ensures not_written { IsErrOf result ReadError.NotWritten
        → HasNoneWith (settings_of tables.now) (record { before = before.now; after = after.now }) text.now }
    ensures memory { IsErrOf result ReadError.Memory
        → HasManyIn (settings_of tables.now) (record { before = before.now; after = after.now }) text.now }
    ensures value { IfOk result (λ v. IsWordsText (settings_of tables.now) text.now v) }
{
    icu_decimal_reading::are_tables(&tables.decimals);
    let Some(inner) = strip_both(text, before, after) else {
        return Err(ReadError::NotWritten);
    };
    match icu_decimal_reading::read_readable(alloc, &tables.decimals, inner) {
        Ok(number) => {
            if takes_pair(tables, &number, before, after) {
                Ok(number)
            } else {
                Err(ReadError::NotWritten)
            }
        }
        Err(error) => Err(error),
    }
}

/// A number of one digit, without a sign: 1 is shown as `1`. It does not allocate.
pub(crate) fn digit_alone(alloc: Global, digit: u8) -> Decimal
    requires { digit < 10 }
    ensures value { result ≡ digit_alone digit }
    ensures decimal { IsDecimal result }
{
    match Decimal::from_u8(alloc, digit) {
        Ok(number) => number,
        Err(_) => unreachable!(),
    }
}

// The number that a category is named after, where it takes this text without the number.
#[tactic(auto, using(crate::proofs::ReaderLemmas::bare_unnamed))]
fn read_named(
    alloc: Global,
    tables: &WordTables<'_>,
    category: PluralCategory,
    text: &str,
) -> Result<Decimal, ReadError>
    ensures unreadable { ¬ (IsErrOf result ReadError.Unreadable) }
    ensures not_written { IsErrOf result ReadError.NotWritten
        → HasNoneBare (settings_of tables.now) category text.now text.now }
    ensures memory { ¬ (IsErrOf result ReadError.Memory) }
    ensures value { IfOk result (λ v. IsWordsText (settings_of tables.now) text.now v) }
{
    let Some(digit) = named_number(category) else {
        return Err(ReadError::NotWritten);
    };
    let number = digit_alone(alloc, digit);
    if takes_bare(tables, &number, text) {
        Ok(number)
    } else {
        Err(ReadError::NotWritten)
    }
}

// The same, where the text of the category is this one.
#[tactic(auto, using(crate::proofs::ReaderLemmas::bare_other))]
fn read_bare(
    alloc: Global,
    tables: &WordTables<'_>,
    category: PluralCategory,
    bare: &str,
    text: &str,
) -> Result<Decimal, ReadError>
    ensures unreadable { ¬ (IsErrOf result ReadError.Unreadable) }
    ensures not_written { IsErrOf result ReadError.NotWritten
        → HasNoneBare (settings_of tables.now) category bare.now text.now }
    ensures memory { ¬ (IsErrOf result ReadError.Memory) }
    ensures value { IfOk result (λ v. IsWordsText (settings_of tables.now) text.now v) }
{
    if is_same_text(bare, text) {
        read_named(alloc, tables, category, text)
    } else {
        Err(ReadError::NotWritten)
    }
}

// The number that takes the words of a category and is written so.
#[tactic(auto, using(crate::proofs::ReaderLemmas::none_without_words, crate::proofs::ReaderLemmas::none_of_pair, crate::proofs::ReaderLemmas::none_of_bare, crate::proofs::ReaderLemmas::many_of_pair))]
fn read_of(
    alloc: Global,
    tables: &WordTables<'_>,
    category: PluralCategory,
    text: &str,
) -> Result<Decimal, ReadError>
    requires { is_readable_by (borrowed_tables tables.now.decimals) ≡ true }
    ensures unreadable { ¬ (IsErrOf result ReadError.Unreadable) }
    ensures not_written { IsErrOf result ReadError.NotWritten → HasNoneOf (settings_of tables.now) category text.now }
    ensures memory { IsErrOf result ReadError.Memory → HasManyBetween (settings_of tables.now) text.now }
    ensures value { IfOk result (λ v. IsWordsText (settings_of tables.now) text.now v) }
{
    match tables.words.own(category) {
        Some(BorrowedWord::Around(before, after)) => read_pair(alloc, tables, before, after, text),
        Some(BorrowedWord::Bare(bare)) => read_bare(alloc, tables, category, bare, text),
        None => Err(ReadError::NotWritten),
    }
}

impl<'b> WordTables<'b> {
    /// As `read`, of tables that are known to be readable: in English `-1.50 kilometers` is -1.50.
    ///
    /// The condition is `is_readable`, which compares all words: a caller who reads many texts tests it once.
    /// `NotWritten`: no decimal is written so. `Memory`: out of memory. It allocates where more than sixteen digits are
    /// between the words of a category.
    pub fn read_readable(&self, alloc: Global, text: &str) -> Result<Decimal, ReadError>
        requires { is_words_readable_by (settings_of self.now) ≡ true }
        ensures unreadable { ¬ (IsErrOf result ReadError.Unreadable) }
        ensures not_written { IsErrOf result ReadError.NotWritten → HasNoDecimal (settings_of self.now) text.now }
        ensures memory { IsErrOf result ReadError.Memory → HasManyBetween (settings_of self.now) text.now }
        ensures value { IfOk result (λ v. IsWordsText (settings_of self.now) text.now v) }
    {
        match read_of(alloc, self, PluralCategory::Zero, text) {
            Ok(number) => return Ok(number),
            Err(ReadError::NotWritten) => {}
            Err(error) => return Err(error),
        }
        match read_of(alloc, self, PluralCategory::One, text) {
            Ok(number) => return Ok(number),
            Err(ReadError::NotWritten) => {}
            Err(error) => return Err(error),
        }
        match read_of(alloc, self, PluralCategory::Two, text) {
            Ok(number) => return Ok(number),
            Err(ReadError::NotWritten) => {}
            Err(error) => return Err(error),
        }
        match read_of(alloc, self, PluralCategory::Few, text) {
            Ok(number) => return Ok(number),
            Err(ReadError::NotWritten) => {}
            Err(error) => return Err(error),
        }
        match read_of(alloc, self, PluralCategory::Many, text) {
            Ok(number) => return Ok(number),
            Err(ReadError::NotWritten) => {}
            Err(error) => return Err(error),
        }
        read_of(alloc, self, PluralCategory::Other, text)
    }

    /// The decimal whose text with its words this is: in English `-1.50 kilometers` is -1.50, shown down to magnitude -2.
    ///
    /// Sign, digits and visible range are those of the one decimal that is written so: `1 kilometers` is none.
    /// `Unreadable`: `is_readable` is false. `NotWritten`: no decimal is written so. `Memory`: out of memory. It allocates
    /// where more than sixteen digits are between the words of a category.
    pub fn read(&self, alloc: Global, text: &str) -> Result<Decimal, ReadError>
        ensures unreadable { IsErrOf result ReadError.Unreadable ↔ (is_words_readable_by (settings_of self.now) ≡ false) }
        ensures not_written { IsErrOf result ReadError.NotWritten → HasNoDecimal (settings_of self.now) text.now }
        ensures memory { IsErrOf result ReadError.Memory → HasManyBetween (settings_of self.now) text.now }
        ensures value { IfOk result (λ v. IsWordsText (settings_of self.now) text.now v) }
    {
        if !self.is_readable() {
            return Err(ReadError::Unreadable);
        }
        self.read_readable(alloc, text)
    }
}
