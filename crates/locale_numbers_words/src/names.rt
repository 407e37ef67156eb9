//! Names of currencies.

ghost use Rattle.std.specs.Prelude.{◌≡◌, IfErr, IfOk, None, OnOk, Some};
ghost use Rattle.serde_json.specs.View.{view};
ghost use Rattle.locale_numbers_tables.specs.Entries.{field_at};
ghost use Rattle.locale_numbers_words.specs.Entries.{code_in, code_named, has_names_frame, key_fault, names_key};
ghost use Rattle.locale_numbers_words.specs.Faults.{IsTold};

use crate::by_category::ByCategory;
use crate::entry::{WordArray, tagged};
use crate::error::WordsError;
use crate::slots::values_at;
use crate::texts::CurrencyName;
use icu_decimal::provider::DataIdentifier;
use icu_dimension_fractions::CurrencyCode;
use locale_numbers_tables::Seed;
use locale_numbers_tables::fields::{has_count, is_text_at, text_at};
use serde_json::Value;
use std::alloc::Global;

// The code that a text is.
fn code_named(text: &str) -> Option<CurrencyCode>
    ensures { result ≡ code_named text.now }
{
    match CurrencyCode::try_from_str(text) {
        Ok(code) => Some(code),
        Err(_) => None,
    }
}

// The code of a currency at the second place of an entry.
fn code(entry: &Value) -> Option<CurrencyCode>
    ensures { result ≡ field_at code_in 1 (view entry.now) }
{
    let text = text_at(entry, 1)?;
    code_named(text)
}

// The locale and the code of an entry, or what is wrong with these and its texts.
fn key(alloc: Global, entry: &Value) -> Result<DataIdentifier, WordsError>
    ensures key { IfOk result (λ key. names_key (view entry.now) ≡ Some key) }
    ensures sound { OnOk result (key_fault (view entry.now) ≡ None) }
    ensures fault { IfErr result (λ fault. IsTold (key_fault (view entry.now)) fault) }
{
    match tagged(alloc, entry) {
        Ok(locale) => match code(entry) {
            Some(code) => {
                let attributes = code.attributes();
                Ok(DataIdentifier::for_marker_attributes_and_locale(attributes, locale))
            }
            None => Err(WordsError::Code),
        },
        Err(fault) => Err(fault),
    }
}

// Whether an entry has three fields, of which the first two are texts.
fn has_frame(entry: &Value) -> bool
    ensures { result ≡ has_names_frame (view entry.now) }
{
    has_count(entry, 3) && is_text_at(entry, 0) && is_text_at(entry, 1)
}

// The array of names: `["en","USD",[["one","US dollar"],["other","US dollars"]]]` has the names of dollars in English.
pub(crate) struct CurrencyNames;

impl WordArray for CurrencyNames {
    ghost use Rattle.locale_numbers_words.specs.Entries.{has_names_frame, names_fault, names_key, names_said, same_names};
    ghost use Rattle.locale_numbers_words.specs.declared.error.WordsError.TheVariants as errors;

    type Key = DataIdentifier;

    type Said = ByCategory<CurrencyName>;

    ghost key_in = { names_key };

    ghost said_in = { names_said };

    ghost fault_in = { names_fault };

    ghost same_said = { same_names };

    // Never told: an entry with a key says names.
    ghost late = { errors.Shape };

    // An entry that has not three fields, or whose first two are no texts, is never reported as out of memory.
    ghost may_grow = { has_names_frame };

    fn late() -> WordsError {
        WordsError::Shape
    }

    fn is_same(one: &ByCategory<CurrencyName>, other: &ByCategory<CurrencyName>) -> bool {
        one == other
    }

    #[tactic(auto, using(crate::proofs::EntryLemmas::names_late, crate::proofs::EntryLemmas::names_told, crate::proofs::EntryLemmas::names_frame, crate::proofs::EntryLemmas::names_none))]
    fn read(
        alloc: Global,
        _seed: Seed,
        entry: &Value,
    ) -> Result<(DataIdentifier, Option<ByCategory<CurrencyName>>), WordsError> {
        if !has_frame(entry) {
            return Err(WordsError::Shape);
        }
        match values_at::<CurrencyName>(alloc, entry, 2) {
            Ok(Some(names)) => match key(alloc, entry) {
                Ok(key) => Ok((key, Some(names))),
                Err(fault) => Err(fault),
            },
            Ok(None) => Err(WordsError::Shape),
            Err(_) => Err(WordsError::Memory),
        }
    }
}
