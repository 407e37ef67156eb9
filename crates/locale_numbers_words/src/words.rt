//! The tables of words, and what is found in them.

ghost use Rattle.std.specs.Prelude.{◌≡◌, IfErr, IfOk, IsErrOf, None, OnOk, option_and_then, true, unwrap_or};
ghost use Rattle.std.specs.Option.{option_copied};
ghost use Rattle.serde_json.specs.View.{items_view, view};
ghost use Rattle.icu_decimal.specs.Identifiers.{of_both};
ghost use Rattle.locale_numbers_tables.specs.Keys.{same_data_locale, same_key, table_at};
ghost use Rattle.locale_numbers_words.specs.Categories.{only};
ghost use Rattle.locale_numbers_words.specs.Entries.{unit_at, width_text};
ghost use Rattle.locale_numbers_words.specs.Faults.{IsTold};
ghost use Rattle.locale_numbers_words.specs.FoundWords.{currency_words, named, names_for, parts_words, patterns_for, unit_for, unit_words, words_of};
ghost use Rattle.locale_numbers_words.specs.Words.{file_fault, file_may_grow, no_words, words_after, words_fault, words_may_grow, words_with};

use crate::by_category::ByCategory;
use crate::error::WordsError;
use crate::files::{WordArrays, word_arrays_of};
use crate::filling::fill_all;
use crate::texts::{CurrencyName, TextPair};
use crate::unit_name::per_parts;
use crate::unit_words::{UnitTable, UnitWords};
use crate::width::UnitWidth;
use icu_decimal::provider::DataIdentifier;
use icu_dimension_fractions::CurrencyCode;
use icu_dimension_words::PluralWords;
use icu_locale_core::DataLocale;
use indexmap::IndexMap;
use locale_numbers_tables::{Seed, Table};
use serde_json::Value;
use std::alloc::{AllocError, Global};
use std::marker::Model;

/// The words of a book: name patterns, names of currencies and units, by their locales.
pub struct Words {
    patterns: Table<DataLocale, ByCategory<TextPair>>,
    names: Table<DataIdentifier, ByCategory<CurrencyName>>,
    units: Table<DataIdentifier, UnitTable>,
}

impl Model for Words {
    ghost use Rattle.locale_numbers_words.specs.Words.{WordsTables};

    ghost Value = { WordsTables };

    ghost view = { λ w. record {
      patterns = w.patterns.map.entries;
      names = w.names.map.entries;
      units = w.units.map.entries;
    } };
}

// Dropped by one call, as a book is.
impl Drop for Words {
    fn drop(self) {
        let Words {
            patterns: _patterns,
            names: _names,
            units: _units,
        } = self;
    }
}

impl Words {
    /// No words, their tables hashed by this seed. It does not allocate.
    pub fn new(alloc: Global, seed: Seed) -> Words
        ensures { result ≡ no_words }
    {
        Words {
            patterns: Table {
                map: IndexMap::with_hasher(alloc, seed),
            },
            names: Table {
                map: IndexMap::with_hasher(alloc, seed),
            },
            units: Table {
                map: IndexMap::with_hasher(alloc, seed),
            },
        }
    }

    // Adds what the entries of three arrays say.
    fn add_arrays(
        &mut self,
        alloc: Global,
        seed: Seed,
        arrays: WordArrays,
    ) -> Result<(), WordsError>
        ensures value { OnOk result
            (self.new
            ≡ words_after self.old (items_view arrays.patterns.items) (items_view arrays.names.items)
            (items_view arrays.units.items)) }
        ensures sound { OnOk result
            (words_fault self.old (items_view arrays.patterns.items) (items_view arrays.names.items)
            (items_view arrays.units.items) ≡ None) }
        ensures fault { IfErr result
            (λ fault. IsTold
            (words_fault self.old (items_view arrays.patterns.items) (items_view arrays.names.items)
            (items_view arrays.units.items)) fault) }
        ensures room { IsErrOf result WordsError.Memory
            → words_may_grow (items_view arrays.patterns.items) (items_view arrays.names.items)
            (items_view arrays.units.items) ≡ true }
    {
        fill_all(
            alloc,
            seed,
            &mut self.patterns.map,
            &mut self.names.map,
            &mut self.units.map,
            arrays,
        )
    }

    /// Adds the words of a file to these: an array of name patterns, one of names of currencies, and one of units, as
    /// `[[["de",[["other",[""," ¤"]]]]],[],[]]`. The tables of units are hashed by this seed.
    ///
    /// After an error some of its entries may be there, so the words are to be dropped. It allocates.
    ///
    /// - Shape: the value is not three arrays.
    /// - Shape to Measure: else the first faulty entry decides, in the order of the arrays, and in an entry the least
    ///   number: `Code` of the names `[["en","usd",[["other","dollars"]]]]`. An entry that says what an earlier one of its
    ///   key says, in this file or before it, counts once, and is no `Duplicate`.
    /// - Memory: out of memory.
    pub fn add_file(&mut self, alloc: Global, seed: Seed, file: Value) -> Result<(), WordsError>
        ensures value { OnOk result (self.new ≡ words_with self.old (view file)) }
        ensures sound { OnOk result (file_fault self.old (view file) ≡ None) }
        ensures fault { IfErr result (λ fault. IsTold (file_fault self.old (view file)) fault) }

        // A fault that is found before anything is allocated is never reported as out of memory.
        ensures room { IsErrOf result WordsError.Memory → file_may_grow (view file) ≡ true }
    {
        match word_arrays_of(alloc, file) {
            Some(arrays) => self.add_arrays(alloc, seed, arrays),
            None => Err(WordsError::Shape),
        }
    }

    /// The name patterns of the entry with this locale: `None` where there is none. It does not allocate.
    pub fn patterns(&self, locale: &DataLocale) -> Option<&ByCategory<TextPair>>
        ensures { option_copied result ≡ table_at same_data_locale locale.now self.now.patterns }
    {
        self.patterns.map.get(locale)
    }

    /// The names of the entry with this locale and code: `None` where there is none. It does not allocate.
    pub fn names(&self, id: &DataIdentifier) -> Option<&ByCategory<CurrencyName>>
        ensures { option_copied result ≡ table_at same_key id.now self.now.names }
    {
        self.names.map.get(id)
    }

    /// The units of the entry with this locale and width: `None` where there is none. It does not allocate.
    pub fn units(&self, id: &DataIdentifier) -> Option<&UnitTable>
        ensures { option_copied result ≡ table_at same_key id.now self.now.units }
    {
        self.units.map.get(id)
    }

    // The name patterns of the first of these locales that has any.
    fn patterns_for(&self, locales: &[DataLocale]) -> Option<&ByCategory<TextPair>>
        ensures { option_copied result ≡ patterns_for self.now locales.now }
    {
        for locale in locales {
            if let Some(found) = self.patterns(locale) {
                return Some(found);
            }
        }
        None
    }

    // The names of a currency in the first of these locales that has any.
    fn names_for(
        &self,
        code: CurrencyCode,
        locales: &[DataLocale],
    ) -> Option<&ByCategory<CurrencyName>>
        ensures { option_copied result ≡ names_for self.now code locales.now }
    {
        let attributes = code.attributes();
        for locale in locales {
            let id = DataIdentifier::for_marker_attributes_and_locale(attributes, *locale);
            if let Some(found) = self.names(&id) {
                return Some(found);
            }
        }
        None
    }

    // The words of a unit in one locale.
    fn unit_at(&self, width: UnitWidth, unit: &str, locale: DataLocale) -> Option<&UnitWords>
        ensures { option_copied result
            ≡ option_and_then (unit_at unit.now)
            (table_at same_key (of_both (width_text width) locale) self.now.units) }
    {
        let attributes = width.attributes();
        let id = DataIdentifier::for_marker_attributes_and_locale(attributes, locale);
        match self.units(&id) {
            Some(units) => units.get(unit),
            None => None,
        }
    }

    /// The words of a unit in the first of these locales whose units of this width have it: of `kilometer` in `en-AU`,
    /// `en-001` and `en` those of `en`, where the other two lack it. `None`: none has it. It does not allocate.
    pub fn unit(&self, width: UnitWidth, unit: &str, locales: &[DataLocale]) -> Option<&UnitWords>
        ensures { option_copied result ≡ unit_for self.now width unit.now locales.now }
    {
        for locale in locales {
            if let Some(found) = self.unit_at(width, unit, *locale) {
                return Some(found);
            }
        }
        None
    }

    // The code in patterns, as a name.
    fn code_words(
        alloc: Global,
        patterns: &ByCategory<TextPair>,
        code: CurrencyCode,
    ) -> Result<PluralWords, AllocError>
        ensures { IfOk result (λ words. words ≡ words_of (named patterns.now (only code))) }
    {
        let name = CurrencyName::try_new(alloc, code.as_str())?;
        let names = ByCategory::only(name);
        patterns.words(alloc, &names)
    }

    // The names in patterns, or the code where there are none.
    fn named_words(
        alloc: Global,
        patterns: &ByCategory<TextPair>,
        names: Option<&ByCategory<CurrencyName>>,
        code: CurrencyCode,
    ) -> Result<PluralWords, AllocError>
        ensures { IfOk result
            (λ words. words ≡ words_of (named patterns.now (unwrap_or (option_copied names.entry) (only code)))) }
    {
        match names {
            Some(names) => patterns.words(alloc, names),
            None => Words::code_words(alloc, patterns, code),
        }
    }

    /// The words by which amounts of a currency are named: of `USD` in `en` and `und` ` US dollar` after the number for
    /// `one` and ` US dollars` for `other`.
    ///
    /// The pattern is that of the first of these locales that has one, and so is the name; without a name the code is the
    /// name. The locales are those of a chain, and after them `und`. `None`: none has a pattern. It allocates.
    /// `AllocError`: out of memory.
    ///
    /// Source: UTS 35, part 3 (numbers), currencies.
    pub fn currency_words(
        &self,
        alloc: Global,
        code: CurrencyCode,
        locales: &[DataLocale],
    ) -> Result<Option<PluralWords>, AllocError>
        ensures { IfOk result (λ words. words ≡ currency_words self.now code locales.now) }
    {
        let Some(patterns) = self.patterns_for(locales) else {
            return Ok(None);
        };
        match Words::named_words(alloc, patterns, self.names_for(code, locales), code) {
            Ok(words) => Ok(Some(words)),
            Err(refused) => Err(refused),
        }
    }

    // The words of a unit in another one.
    fn parts_words(
        &self,
        alloc: Global,
        width: UnitWidth,
        parts: (&str, &str),
        locales: &[DataLocale],
    ) -> Result<Option<PluralWords>, AllocError>
        ensures { IfOk result
            (λ words. words ≡ parts_words self.now width (parts.entry.0.now, parts.entry.1.now) locales.now) }
    {
        let Some(unit) = self.unit(width, parts.0, locales) else {
            return Ok(None);
        };
        match self.unit(width, parts.1, locales) {
            Some(other) => unit.words_per(alloc, other),
            None => Ok(None),
        }
    }

    /// The words of numbers with a unit: of `kilometer-per-hour` in `en`, long, ` kilometer per hour` after the number for
    /// `one`, and ` kilometers per hour` for `other`.
    ///
    /// They are those of the unit, as `unit` finds it. Where it is not found, and its name is of two units, they are those
    /// of the first one between the pair that the second one has behind a unit, each as `unit` finds it. The locales are
    /// those of a chain, and after them `und`. `None`: the unit is not found, nor both of its parts. It allocates.
    /// `AllocError`: out of memory.
    ///
    /// Source: UTS 35, part 2 (general), compound units.
    pub fn unit_words(
        &self,
        alloc: Global,
        width: UnitWidth,
        unit: &str,
        locales: &[DataLocale],
    ) -> Result<Option<PluralWords>, AllocError>
        ensures { IfOk result (λ words. words ≡ unit_words self.now width unit.now locales.now) }
    {
        if let Some(found) = self.unit(width, unit, locales) {
            return match found.words(alloc) {
                Ok(words) => Ok(Some(words)),
                Err(refused) => Err(refused),
            };
        }
        match per_parts(unit) {
            Some((first, second)) => self.parts_words(alloc, width, (first, second), locales),
            None => Ok(None),
        }
    }
}
