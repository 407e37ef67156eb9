//! What a number is written with: words of names in patterns, and of units.

ghost use Rattle.std.specs.Prelude.{◌≡◌, IfOk};
ghost use Rattle.locale_numbers_words.specs.FoundWords.{named, words_of, words_per};

use crate::by_category::ByCategory;
use crate::made::{between, named, plural_words};
use crate::texts::{CurrencyName, TextPair};
use crate::unit_words::UnitWords;
use icu_dimension_words::PluralWords;
use std::alloc::{AllocError, Global};

impl ByCategory<TextPair> {
    /// The words of amounts that are named: of the name pattern of nothing and ` ¤`, and of the names of dollars,
    /// ` US dollar` after the number for `one` and ` US dollars` for `other`.
    ///
    /// A category that has neither a pattern nor a name of its own has the words of `other`. It allocates. `AllocError`:
    /// out of memory.
    pub fn words(
        &self,
        alloc: Global,
        names: &ByCategory<CurrencyName>,
    ) -> Result<PluralWords, AllocError>
        ensures { IfOk result (λ words. words ≡ words_of (named self.now names.now)) }
    {
        match named(alloc, self, names) {
            Ok(made) => Ok(plural_words(alloc, made)),
            Err(refused) => Err(refused),
        }
    }
}

impl UnitWords {
    /// The words of numbers with this unit: of `kilometer` ` kilometer` after the number for `one` and ` kilometers` for
    /// `other`.
    ///
    /// It allocates. `AllocError`: out of memory.
    pub fn words(&self, alloc: Global) -> Result<PluralWords, AllocError>
        ensures { IfOk result (λ words. words ≡ words_of self.now.words) }
    {
        let outer = TextPair::empty(alloc);
        match between(alloc, &outer, &self.words) {
            Ok(made) => Ok(plural_words(alloc, made)),
            Err(refused) => Err(refused),
        }
    }

    /// The words of numbers with this unit in another one: of `kilometer` in `hour` ` kilometer per hour` after the number
    /// for `one`, and ` kilometers per hour` for `other`. `None`: the other has no pair behind a unit.
    ///
    /// It allocates. `AllocError`: out of memory.
    ///
    /// Source: UTS 35, part 2 (general), compound units.
    pub fn words_per(
        &self,
        alloc: Global,
        other: &UnitWords,
    ) -> Result<Option<PluralWords>, AllocError>
        ensures { IfOk result (λ words. words ≡ words_per self.now other.now) }
    {
        match &other.behind {
            Some(pair) => match between(alloc, pair, &self.words) {
                Ok(made) => Ok(Some(plural_words(alloc, made))),
                Err(refused) => Err(refused),
            },
            None => Ok(None),
        }
    }
}
