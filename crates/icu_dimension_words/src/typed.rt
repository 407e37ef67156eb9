//! A typed text, folded, under words that may be typed.

ghost use Rattle.std.specs.Prelude.{◌≡◌, ◌==◌, ◌++◌, ◌<◌, [], List, cond, length, map, IsErrOf};
ghost use Rattle.std.specs.Option.{option_copied};
ghost use Rattle.icu_decimal_lenient.specs.Folding.{folded_symbols};
ghost use Rattle.icu_decimal_lenient.specs.LenientReading.{filled_text, read_either, trimmed_fold};
ghost use Rattle.icu_decimal_reading.specs.DecimalOfText.{IsAnswered, PlainReading, decimal, not_written};
ghost use Rattle.icu_dimension_lenient.specs.Agreement.{agreed_after};
ghost use Rattle.icu_dimension_words.specs.WordsLaws.{digit_alone};
ghost use Rattle.icu_dimension_words.specs.LenientWords.{folded_ways, read_inner, read_number, read_word, typed_words_reading};
ghost use Rattle.icu_dimension_words.specs.WordReadings.{inner_of};

use crate::folded_words::FoldedWord;
use crate::reader::{digit_alone, strip_both};
use fixed_decimal::Decimal;
use icu_decimal_lenient::{LenientTables, MadeTablesReader};
use icu_decimal_reading::ReadError;
use icu_dimension_lenient::{add_reading, found_reading};
use std::alloc::Global;

// What is between the texts of words.
fn strip_word<'t>(text: &'t str, word: &FoldedWord) -> Option<&'t str>
    ensures { option_copied result ≡ inner_of word.now.pair text.now }
{
    strip_both(text, word.before(), word.after())
}

// A number, filled.
fn read_filled(alloc: Global, kept: &LenientTables<'_>, text: &str) -> Result<Decimal, ReadError>
    ensures unreadable { ¬ (IsErrOf result ReadError.Unreadable) }
    ensures reading { IsAnswered result (read_either (folded_symbols kept.now)
        (filled_text (folded_symbols kept.now).strings.decimal_separator text.now)) }
{
    let filled = kept.fill(alloc, text)?;
    kept.read_folded_text(alloc, filled.as_str())
}

// A number, filled where no text is before it.
fn read_unless_after(
    alloc: Global,
    kept: &LenientTables<'_>,
    word: &FoldedWord,
    text: &str,
) -> Result<Decimal, ReadError>
    ensures unreadable { ¬ (IsErrOf result ReadError.Unreadable) }
    ensures reading { IsAnswered result
        (cond (length word.now.pair.before == 0) (read_either (folded_symbols kept.now)
        (filled_text (folded_symbols kept.now).strings.decimal_separator text.now)) not_written) }
{
    if word.has_no_front() {
        read_filled(alloc, kept, text)
    } else {
        Err(ReadError::NotWritten)
    }
}

// A number between the texts of words, with spaces at its ends.
#[tactic(auto, using(icu_decimal_lenient::proofs::LenientStepLemmas::answered_first, icu_decimal_lenient::proofs::LenientStepLemmas::answered_second))]
fn read_number(
    alloc: Global,
    kept: &LenientTables<'_>,
    word: &FoldedWord,
    inner: &str,
) -> Result<Decimal, ReadError>
    ensures unreadable { ¬ (IsErrOf result ReadError.Unreadable) }
    ensures reading { IsAnswered result (read_number (folded_symbols kept.now) word.now.pair inner.now) }
{
    let text = inner.trim();
    match kept.read_folded_text(alloc, text) {
        Ok(number) => Ok(number),
        Err(ReadError::NotWritten) => read_unless_after(alloc, kept, word, text),
        Err(error) => Err(error),
    }
}

// The number that texts with nothing between them name.
fn read_named(alloc: Global, number: u8, inner: &str) -> Result<Decimal, ReadError>
    requires { number < 10 }
    ensures unreadable { ¬ (IsErrOf result ReadError.Unreadable) }
    ensures reading { IsAnswered result
        (cond (length inner.now == 0) (decimal (digit_alone number)) not_written) }
{
    if inner.is_empty() {
        Ok(digit_alone(alloc, number))
    } else {
        Err(ReadError::NotWritten)
    }
}

// What is between the texts of words, as a number.
#[tactic(auto, using(crate::proofs::WordSteps::number_read, crate::proofs::WordSteps::named_read))]
fn read_inner(
    alloc: Global,
    kept: &LenientTables<'_>,
    word: &FoldedWord,
    inner: &str,
) -> Result<Decimal, ReadError>
    ensures unreadable { ¬ (IsErrOf result ReadError.Unreadable) }
    ensures reading { IsAnswered result
        (read_inner (folded_symbols kept.now) word.now.pair word.now.number (Some inner.now)) }
{
    match word.number() {
        Some(number) => read_named(alloc, number, inner),
        None => read_number(alloc, kept, word, inner),
    }
}

// A folded and trimmed text under words.
#[tactic(auto, using(crate::proofs::WordSteps::inner_read, crate::proofs::WordSteps::inner_missing))]
fn read_word(
    alloc: Global,
    kept: &LenientTables<'_>,
    word: &FoldedWord,
    text: &str,
) -> Result<Decimal, ReadError>
    ensures unreadable { ¬ (IsErrOf result ReadError.Unreadable) }
    ensures reading { IsAnswered result (read_word (folded_symbols kept.now) text.now word.now) }
{
    match strip_word(text, word) {
        Some(inner) => read_inner(alloc, kept, word, inner),
        None => Err(ReadError::NotWritten),
    }
}

// Under each of these words, beside what was found in other ways.
fn agree_words(
    alloc: Global,
    kept: &LenientTables<'_>,
    words: &[FoldedWord],
    text: &str,
    mut found: Option<Decimal>,
) -> Result<Decimal, ReadError>
    ensures unreadable { ¬ (IsErrOf result ReadError.Unreadable) }
    ensures reading { IsAnswered result
        (agreed_after found (folded_ways (folded_symbols kept.now) words.now text.now)) }
{
    for word in words {
        found = match add_reading(found, read_word(alloc, kept, word, text)) {
            Ok(next) => next,
            Err(error) => return Err(error),
        };
    }
    found_reading(found)
}

// The same, of a text that is folded here.
fn agree_folded(
    alloc: Global,
    kept: &LenientTables<'_>,
    words: &[FoldedWord],
    text: &str,
    found: Option<Decimal>,
) -> Result<Decimal, ReadError>
    ensures unreadable { ¬ (IsErrOf result ReadError.Unreadable) }
    ensures reading { IsAnswered result (agreed_after found
        (folded_ways (folded_symbols kept.now) words.now (trimmed_fold kept.now text.now))) }
{
    let folded = kept.fold(alloc, text)?;
    agree_words(alloc, kept, words, folded.as_str().trim(), found)
}

// A text that the formatter does not write: without words, and with them.
#[tactic(auto, using(icu_dimension_lenient::proofs::AgreementSteps::answered_after, icu_dimension_lenient::proofs::AgreementSteps::refused_after))]
pub(crate) fn read_typed(
    alloc: Global,
    kept: &LenientTables<'_>,
    words: &[FoldedWord],
    text: &str,
) -> Result<Decimal, ReadError>
    ensures unreadable { ¬ (IsErrOf result ReadError.Unreadable) }
    ensures reading { IsAnswered result (typed_words_reading kept.now words.now text.now) }
{
    match add_reading(None, kept.read_without_native(alloc, text)) {
        Ok(found) => agree_folded(alloc, kept, words, text, found),
        Err(error) => Err(error),
    }
}

// Words that texts are read by, with tables that are made for a text.
#[derive(Debug, Drop)]
pub(crate) struct FoldedWords {
    pub(crate) words: Vec<FoldedWord>,
}

impl MadeTablesReader for FoldedWords {
    ghost reading_by = { λ w tables text. typed_words_reading tables w.words.items text };

    fn read_by_tables(
        &self,
        alloc: Global,
        tables: &LenientTables<'_>,
        text: &str,
    ) -> Result<Decimal, ReadError> {
        read_typed(alloc, tables, self.words.as_slice(), text)
    }
}
