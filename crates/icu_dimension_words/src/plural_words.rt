//! The words of each plural category.

ghost use Rattle.std.specs.Prelude.{◌≡◌, IfOk, option_map, string_bytes};
ghost use Rattle.icu_dimension_words.specs.HeldWords.{borrowed_word, word_of};
ghost use Rattle.icu_dimension_words.specs.Words.{around, only_other, own_word, with_few, with_many, with_one, with_two, with_zero};

use crate::word::BorrowedWord;
use icu_decimal_plurals::PluralCategory;
use std::alloc::{AllocError, Global};
use std::marker::Model;

/// The texts before and after a number: nothing and ` kilometers`. They are owned.
#[derive(Debug, Drop)]
pub struct WordPair {
    before: String,
    after: String,
}

impl Model for WordPair {
    ghost use Rattle.std.specs.Prelude.{string_bytes};
    ghost use Rattle.icu_dimension_words.specs.Words.{Pair};

    ghost Value = { Pair };

    ghost view = { λ p. record { before = string_bytes p.before; after = string_bytes p.after } };
}

/// The words of a category that is named after a number: a pair, or a text without the number.
///
/// A text without the number is taken only by the number that the category is named after, 0, 1 or 2, shown as one digit
/// without a sign. Any other number of the category takes the pair of `other`. In Arabic 1 meter is `متر`, and 1.0
/// meters are `1.0 متر`.
#[derive(Debug, Drop)]
pub enum CategoryWords {
    /// Texts before and after the number: nothing and ` kilometer`.
    Around(WordPair),
    /// A text without the number: `متر`.
    Bare(String),
}

/// The words of each plural category: those of `other`, which is always there, and those that the others have.
///
/// In English ` kilometer` after the number for `one` and ` kilometers` for `other` give `1 kilometer`, `5 kilometers`
/// and `1.0 kilometers`. A category without words of its own takes those of `other`. Only `zero`, `one` and `two` may
/// have a text without the number.
#[derive(Debug, Drop)]
pub struct PluralWords {
    zero: Option<CategoryWords>,
    one: Option<CategoryWords>,
    two: Option<CategoryWords>,
    few: Option<WordPair>,
    many: Option<WordPair>,
    other: WordPair,
}

impl Model for PluralWords {
    ghost use Rattle.std.specs.Prelude.{option_map};
    ghost use Rattle.icu_dimension_words.specs.Words.{Words};

    ghost Value = { Words };

    ghost use Rattle.icu_dimension_words.specs.HeldWords.{word_of};

    ghost view = { λ w. record {
      zero = option_map word_of w.zero;
      one = option_map word_of w.one;
      two = option_map word_of w.two;
      few = w.few;
      many = w.many;
      other = w.other;
    } };
}

impl WordPair {
    /// A pair of these texts, which it owns then: nothing and ` kilometers` make of 5 the text `5 kilometers`. It does
    /// not allocate.
    pub fn new(before: String, after: String) -> Self
        ensures { result ≡ record { before = string_bytes before; after = string_bytes after } }
    {
        WordPair { before, after }
    }

    /// A pair of copies of these texts: nothing and ` kilometers` make of 5 the text `5 kilometers`.
    ///
    /// It allocates. `AllocError`: out of memory.
    pub fn try_new(alloc: Global, before: &str, after: &str) -> Result<Self, AllocError>
        ensures { IfOk result (λ pair. pair ≡ record { before = before.now; after = after.now }) }
    {
        let before = String::from_str(alloc, before)?;
        let after = String::from_str(alloc, after)?;
        Ok(WordPair::new(before, after))
    }

    // The texts.
    fn borrowed(&self) -> BorrowedWord<'_>
        ensures { borrowed_word result ≡ around self.now }
    {
        BorrowedWord::Around(self.before.as_str(), self.after.as_str())
    }
}

// The texts of the words that a category has.
fn borrowed_words(words: &Option<CategoryWords>) -> Option<BorrowedWord<'_>>
    ensures { option_map borrowed_word result ≡ option_map word_of words.now }
{
    match words {
        Some(CategoryWords::Around(pair)) => Some(pair.borrowed()),
        Some(CategoryWords::Bare(text)) => Some(BorrowedWord::Bare(text.as_str())),
        None => None,
    }
}

// The texts of the pair that a category has.
fn borrowed_pair(pair: &Option<WordPair>) -> Option<BorrowedWord<'_>>
    ensures { option_map borrowed_word result ≡ option_map around pair.now }
{
    match pair {
        Some(pair) => Some(pair.borrowed()),
        None => None,
    }
}

impl PluralWords {
    /// These words with only `other`, which every number takes: with ` km` after the number, `1 km` and `5 km`. It does
    /// not allocate.
    pub fn new(other: WordPair) -> Self
        ensures { result ≡ only_other other }
    {
        PluralWords {
            zero: None,
            one: None,
            two: None,
            few: None,
            many: None,
            other,
        }
    }

    /// The same with these words for the category `zero`, or with none: the number then takes those of `other`. It does
    /// not allocate.
    pub fn with_zero_value(mut self, zero: Option<CategoryWords>) -> Self
        ensures { result ≡ with_zero self (option_map word_of zero) }
    {
        self.zero = zero;
        self
    }

    /// The same with these words for the category `one`, or with none: with ` kilometer` after the number 1 is
    /// `1 kilometer` in English. It does not allocate.
    pub fn with_one_value(mut self, one: Option<CategoryWords>) -> Self
        ensures { result ≡ with_one self (option_map word_of one) }
    {
        self.one = one;
        self
    }

    /// The same with these words for the category `two`, or with none. It does not allocate.
    pub fn with_two_value(mut self, two: Option<CategoryWords>) -> Self
        ensures { result ≡ with_two self (option_map word_of two) }
    {
        self.two = two;
        self
    }

    /// The same with these words for the category `few`, or with none: with ` kilometry` after the number 2 is
    /// `2 kilometry` in Polish. It does not allocate.
    pub fn with_few_value(mut self, few: Option<WordPair>) -> Self
        ensures { result ≡ with_few self few }
    {
        self.few = few;
        self
    }

    /// The same with these words for the category `many`, or with none: with ` kilometrów` after the number 5 is
    /// `5 kilometrów` in Polish. It does not allocate.
    pub fn with_many_value(mut self, many: Option<WordPair>) -> Self
        ensures { result ≡ with_many self many }
    {
        self.many = many;
        self
    }

    /// The words that a category has of its own: in English ` kilometer` after the number for `one`, and none for `few`. It
    /// does not allocate.
    pub fn own(&self, category: PluralCategory) -> Option<BorrowedWord<'_>>
        ensures { option_map borrowed_word result ≡ own_word self.now category }
    {
        match category {
            PluralCategory::Zero => borrowed_words(&self.zero),
            PluralCategory::One => borrowed_words(&self.one),
            PluralCategory::Two => borrowed_words(&self.two),
            PluralCategory::Few => borrowed_pair(&self.few),
            PluralCategory::Many => borrowed_pair(&self.many),
            PluralCategory::Other => Some(self.other.borrowed()),
        }
    }

    // Those of `other`.
    pub(crate) fn others(&self) -> BorrowedWord<'_>
        ensures { borrowed_word result ≡ around self.now.other }
    {
        self.other.borrowed()
    }
}
