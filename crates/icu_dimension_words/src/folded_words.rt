//! The words that people type, folded.

ghost use Rattle.std.specs.Prelude.{◌≡◌, ◌==◌, ◌++◌, ◌<◌, [], length, None, IfOk, IfSome, OnOk, string_bytes};
ghost use Rattle.icu_dimension_words.specs.HeldWords.{borrowed_word};
ghost use Rattle.icu_dimension_words.specs.WordsText.{named_number};
ghost use Rattle.icu_dimension_words.specs.HeldTypedWords.{held_word};
ghost use Rattle.icu_dimension_words.specs.TypedWords.{named_words, other_words, typed_text, typed_word, typed_words, words_of};

use crate::plural_words::PluralWords;
use crate::tables::named_number;
use crate::word::BorrowedWord;
use icu_decimal_lenient::LenientTables;
use icu_decimal_plurals::PluralCategory;
use std::alloc::{AllocError, Global};
use std::marker::Model;

// Texts around a number, folded and trimmed, or with nothing between them in the place of the number that they name.
#[derive(Debug, Drop)]
pub(crate) struct FoldedWord {
    before: String,
    after: String,
    number: Option<u8>,
}

impl Model for FoldedWord {
    ghost use Rattle.std.specs.Prelude.{◌<◌, IfSome, string_bytes};
    ghost use Rattle.icu_dimension_words.specs.HeldTypedWords.{held_word};
    ghost use Rattle.icu_dimension_words.specs.TypedWords.{TypedWord};

    ghost Value = { TypedWord };

    ghost view = { λ w. held_word (string_bytes w.before) (string_bytes w.after) w.number };

    ghost invariant = { λ w. IfSome w.number (λ n. n < 10) };
}

impl FoldedWord {
    // The text before the number.
    pub(crate) fn before(&self) -> &str
        ensures { result.now ≡ self.now.pair.before }
    {
        self.before.as_str()
    }

    // Whether no text is before it.
    pub(crate) fn has_no_front(&self) -> bool
        ensures { result ≡ (length self.now.pair.before == 0) }
    {
        self.before.as_str().is_empty()
    }

    // The text after it.
    pub(crate) fn after(&self) -> &str
        ensures { result.now ≡ self.now.pair.after }
    {
        self.after.as_str()
    }

    // The number that the texts name.
    pub(crate) fn number(&self) -> Option<u8>
        ensures value { result ≡ self.now.number }
        ensures ten { IfSome result (λ n. n < 10) }
    {
        self.number
    }
}

// A text, folded and trimmed.
fn fold_text(alloc: Global, kept: &LenientTables<'_>, text: &str) -> Result<String, AllocError>
    ensures { IfOk result (λ t. string_bytes t ≡ typed_text kept.now.digits text.now) }
{
    let folded = kept.fold(alloc, text)?;
    String::from_str(alloc, folded.as_str().trim())
}

// The texts of a pair.
fn fold_pair(
    alloc: Global,
    kept: &LenientTables<'_>,
    before: &str,
    after: &str,
) -> Result<FoldedWord, AllocError>
    ensures { IfOk result (λ w. w
        ≡ held_word (typed_text kept.now.digits before.now) (typed_text kept.now.digits after.now) None) }
{
    let before = fold_text(alloc, kept, before)?;
    let after = fold_text(alloc, kept, after)?;
    Ok(FoldedWord {
        before,
        after,
        number: None,
    })
}

// A text without the number, of a category that is named after one.
fn fold_bare(
    alloc: Global,
    kept: &LenientTables<'_>,
    category: PluralCategory,
    text: &str,
) -> Result<FoldedWord, AllocError>
    ensures { IfOk result (λ w. w
        ≡ held_word (typed_text kept.now.digits text.now) [] (named_number category)) }
{
    let before = fold_text(alloc, kept, text)?;
    Ok(FoldedWord {
        before,
        after: String::new(alloc),
        number: named_number(category),
    })
}

// The words of a category.
fn fold_word(
    alloc: Global,
    kept: &LenientTables<'_>,
    category: PluralCategory,
    word: BorrowedWord<'_>,
) -> Result<FoldedWord, AllocError>
    ensures { IfOk result (λ w. w ≡ typed_word kept.now.digits (named_number category) (borrowed_word word.entry)) }
{
    match word {
        BorrowedWord::Around(before, after) => fold_pair(alloc, kept, before, after),
        BorrowedWord::Bare(text) => fold_bare(alloc, kept, category, text),
    }
}

// Puts the words of a category after others, where it has any.
fn push_word(
    alloc: Global,
    kept: &LenientTables<'_>,
    words: &PluralWords,
    category: PluralCategory,
    out: &mut Vec<FoldedWord>,
) -> Result<(), AllocError>
    ensures { OnOk result (out.new.items ≡ out.old.items ++ words_of kept.now.digits words.now category) }
{
    match words.own(category) {
        Some(word) => {
            let folded = fold_word(alloc, kept, category, word)?;
            out.push(folded)?;
            Ok(())
        }
        None => Ok(()),
    }
}

// Puts the words of the categories that are named after a number after others.
fn push_named(
    alloc: Global,
    kept: &LenientTables<'_>,
    words: &PluralWords,
    out: &mut Vec<FoldedWord>,
) -> Result<(), AllocError>
    ensures { OnOk result (out.new.items ≡ out.old.items ++ named_words kept.now.digits words.now) }
{
    push_word(alloc, kept, words, PluralCategory::Zero, out)?;
    push_word(alloc, kept, words, PluralCategory::One, out)?;
    push_word(alloc, kept, words, PluralCategory::Two, out)
}

// Puts those of the others after others.
fn push_others(
    alloc: Global,
    kept: &LenientTables<'_>,
    words: &PluralWords,
    out: &mut Vec<FoldedWord>,
) -> Result<(), AllocError>
    ensures { OnOk result (out.new.items ≡ out.old.items ++ other_words kept.now.digits words.now) }
{
    push_word(alloc, kept, words, PluralCategory::Few, out)?;
    push_word(alloc, kept, words, PluralCategory::Many, out)?;
    push_word(alloc, kept, words, PluralCategory::Other, out)
}

// Puts the words of each category after others.
pub(crate) fn push_words(
    alloc: Global,
    kept: &LenientTables<'_>,
    words: &PluralWords,
    out: &mut Vec<FoldedWord>,
) -> Result<(), AllocError>
    ensures { OnOk result (out.new.items ≡ out.old.items ++ typed_words kept.now.digits words.now) }
{
    push_named(alloc, kept, words, out)?;
    push_others(alloc, kept, words, out)
}
