//! The texts of words, which are owned.

ghost use Rattle.std.specs.Prelude.{◌≡◌, [], IfOk, None, Some, option_map};
ghost use Rattle.std.specs.Cmp.{partial_equiv_from_equiv};
ghost use Rattle.std.specs.Str.{bytes_eq};
ghost use Rattle.icu_dimension_words.specs.Words.{around, bare};
ghost use Rattle.locale_numbers_words.specs.SlotTexts.{pair_of, same_name_equiv, same_pair, same_pair_equiv, same_word, same_word_equiv};

use std::alloc::{AllocError, Global};
use std::marker::Model;

/// The name of a currency for one plural category: `US dollars`.
#[derive(Debug, Drop)]
pub struct CurrencyName {
    text: String,
}

impl Model for CurrencyName {
    ghost use Rattle.std.specs.Prelude.{ℕ, List, string_bytes};

    ghost Value = { List ℕ };

    ghost view = { λ n. string_bytes n.text };
}

impl CurrencyName {
    // A copy of this name.
    pub(crate) fn try_new(alloc: Global, text: &str) -> Result<Self, AllocError>
        ensures { IfOk result (λ name. name ≡ text.now) }
    {
        let text = String::from_str(alloc, text)?;
        Ok(CurrencyName { text })
    }

    /// The name: `US dollars`. It does not allocate.
    pub fn as_str(&self) -> &str
        ensures { result.now ≡ self.now }
    {
        self.text.as_str()
    }
}

/// Equal where the names are: `US dollar` is not `US dollars`.
impl PartialEq for CurrencyName {
    ghost eq = { bytes_eq };

    ghost laws = { partial_equiv_from_equiv same_name_equiv };

    fn eq(&self, other: &Self) -> bool {
        self.text == other.text
    }
}

impl Eq for CurrencyName {
    ghost laws = { same_name_equiv };
}

/// Two texts around a number: nothing and ` per kilometer`. In those of a name pattern `¤` is the place of the name.
#[derive(Debug, Drop)]
pub struct TextPair {
    before: String,
    after: String,
}

impl Model for TextPair {
    ghost use Rattle.std.specs.Prelude.{string_bytes};
    ghost use Rattle.icu_dimension_words.specs.Words.{Pair};

    ghost Value = { Pair };

    ghost view = { λ p. record { before = string_bytes p.before; after = string_bytes p.after } };
}

impl TextPair {
    // Two empty texts.
    pub(crate) fn empty(alloc: Global) -> Self
        ensures { result ≡ pair_of [] [] }
    {
        TextPair {
            before: String::new(alloc),
            after: String::new(alloc),
        }
    }

    // A pair of copies of these texts.
    pub(crate) fn try_new(alloc: Global, before: &str, after: &str) -> Result<Self, AllocError>
        ensures { IfOk result (λ pair. pair ≡ pair_of before.now after.now) }
    {
        let before = String::from_str(alloc, before)?;
        let after = String::from_str(alloc, after)?;
        Ok(TextPair { before, after })
    }

    /// The text before the number. It does not allocate.
    pub fn before(&self) -> &str
        ensures { result.now ≡ self.now.before }
    {
        self.before.as_str()
    }

    /// The text after the number. It does not allocate.
    pub fn after(&self) -> &str
        ensures { result.now ≡ self.now.after }
    {
        self.after.as_str()
    }
}

/// Equal where both texts are.
impl PartialEq for TextPair {
    ghost eq = { same_pair };

    ghost laws = { partial_equiv_from_equiv same_pair_equiv };

    fn eq(&self, other: &Self) -> bool {
        self.before == other.before && self.after == other.after
    }
}

impl Eq for TextPair {
    ghost laws = { same_pair_equiv };
}

/// The words of a unit for one plural category: two texts around the number, as nothing and ` kilometers`, or a text
/// without the number, as `متر`.
#[derive(Debug, Drop)]
pub struct UnitText {
    pub(crate) first: String,
    pub(crate) after: Option<String>,
}

impl Model for UnitText {
    ghost use Rattle.std.specs.Prelude.{option_map, string_bytes};
    ghost use Rattle.icu_dimension_words.specs.Words.{Word};
    ghost use Rattle.locale_numbers_words.specs.SlotTexts.{word_of_texts};

    ghost Value = { Word };

    ghost view = { λ t. word_of_texts (string_bytes t.first) (option_map string_bytes t.after) };
}

impl UnitText {
    // Copies of these texts, around the number.
    pub(crate) fn try_around(alloc: Global, before: &str, after: &str) -> Result<Self, AllocError>
        ensures { IfOk result (λ text. text ≡ around (pair_of before.now after.now)) }
    {
        let first = String::from_str(alloc, before)?;
        let after = String::from_str(alloc, after)?;
        Ok(UnitText {
            first,
            after: Some(after),
        })
    }

    // A copy of this text, without the number.
    pub(crate) fn try_bare(alloc: Global, text: &str) -> Result<Self, AllocError>
        ensures { IfOk result (λ made. made ≡ bare text.now) }
    {
        let first = String::from_str(alloc, text)?;
        Ok(UnitText { first, after: None })
    }
}

/// Equal where both have the same texts, around the number or without it.
impl PartialEq for UnitText {
    ghost eq = { same_word };

    ghost laws = { partial_equiv_from_equiv same_word_equiv };

    fn eq(&self, other: &Self) -> bool {
        match (&self.after, &other.after) {
            (Some(after), Some(other_after)) => self.first == other.first && after == other_after,
            (None, None) => self.first == other.first,
            _ => false,
        }
    }
}

impl Eq for UnitText {
    ghost laws = { same_word_equiv };
}
