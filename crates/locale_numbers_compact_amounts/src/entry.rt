//! Entries of compact amounts.

ghost use Rattle.std.specs.Prelude.{◌≡◌, IfErr, IfOk, None, OnOk, Some};
ghost use Rattle.serde_json.specs.View.{view};
ghost use Rattle.locale_numbers_compact_amounts.specs.AmountEntries.{has_frame, key_fault};
ghost use Rattle.locale_numbers_tables.specs.Entries.{entry_key};
ghost use Rattle.locale_numbers_tables.specs.Telling.{IsTold};

use crate::amounts::CompactAmounts;
use crate::types::{entry_table, has_types};
use icu_decimal::provider::DataIdentifier;
use locale_numbers_tables::fields::{has_count, is_text_at, locale, system_or_none};
use locale_numbers_tables::{BookError, Entry};
use locale_numbers_words::is_plain;
use serde_json::Value;
use std::alloc::Global;

// Whether an entry has three fields, of which the first two are texts.
fn has_frame(entry: &Value) -> bool
    ensures { result ≡ has_frame (view entry.now) }
{
    has_count(entry, 3) && is_text_at(entry, 0) && is_text_at(entry, 1)
}

// The locale and the system of an entry whose texts are plain, or what is wrong with them.
fn plain_key(alloc: Global, entry: &Value) -> Result<DataIdentifier, BookError>
    ensures key { IfOk result (λ key. entry_key (view entry.now) ≡ Some key) }
    ensures sound { OnOk result (key_fault (view entry.now) ≡ None) }
    ensures fault { IfErr result (λ fault. IsTold (key_fault (view entry.now)) fault) }
{
    let Ok(found) = locale(alloc, entry, 0) else {
        return Err(BookError::Memory);
    };
    let Some(locale) = found else {
        return Err(BookError::Tag);
    };
    let Some(system) = system_or_none(entry, 1) else {
        return Err(BookError::System);
    };
    if !is_plain(entry) {
        return Err(BookError::Text);
    }
    Ok(DataIdentifier::for_marker_attributes_and_locale(system, locale))
}

impl Entry for CompactAmounts {
    ghost use Rattle.locale_numbers_compact_amounts.specs.AmountEntries.{amounts_entry, amounts_fault, has_frame};
    ghost use Rattle.locale_numbers_tables.specs.Entries.{entry_key};

    type Key = DataIdentifier;

    ghost meaning = { amounts_entry };

    ghost key_in = { entry_key };

    ghost fault_in = { amounts_fault };

    // An entry that has not three fields, or whose first two are no texts, is never reported as out of memory.
    ghost may_grow = { has_frame };

    #[tactic(auto, using(crate::proofs::AmountLemmas::amounts_sound, crate::proofs::FaultLemmas::sound_whole, crate::proofs::FaultLemmas::told_table, crate::proofs::FaultLemmas::told_key, crate::proofs::FaultLemmas::no_shape, crate::proofs::FaultLemmas::no_frame))]
    fn read(alloc: Global, entry: &Value) -> Result<(DataIdentifier, CompactAmounts), BookError> {
        if !has_frame(entry) {
            return Err(BookError::Shape);
        }
        match plain_key(alloc, entry) {
            Ok(key) => match entry_table(alloc, entry) {
                Ok(table) => Ok((key, CompactAmounts::new(table))),
                Err(fault) => {
                    drop(key);
                    Err(fault)
                }
            },
            // A fault of the key comes after one of the form: only then are types read to see which it is.
            Err(fault) => match has_types(alloc, entry) {
                Ok(true) => Err(fault),
                Ok(false) => Err(BookError::Shape),
                Err(_) => Err(BookError::Memory),
            },
        }
    }
}
