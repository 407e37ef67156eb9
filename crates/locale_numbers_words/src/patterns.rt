//! Name patterns: where the name of a currency is beside an amount.

ghost use Rattle.std.specs.Prelude.{◌≡◌, true};
ghost use Rattle.std.specs.Option.{option_map_or};
ghost use Rattle.serde_json.specs.View.{view};
ghost use Rattle.locale_numbers_words.specs.Categories.{holds_of_all};
ghost use Rattle.locale_numbers_words.specs.Entries.{has_patterns_frame, is_placed, placed};

use crate::by_category::ByCategory;
use crate::cuts::{has_once, lacks};
use crate::entry::{WordArray, tagged};
use crate::error::WordsError;
use crate::slots::values_at;
use crate::texts::TextPair;
use icu_locale_core::DataLocale;
use locale_numbers_tables::Seed;
use locale_numbers_tables::fields::{has_count, is_text_at};
use serde_json::Value;
use std::alloc::Global;

// The place of the name in a pattern.
pub(crate) const PLACEHOLDER: &str = "¤";

fn is_placed(pair: &TextPair) -> bool
    ensures { result ≡ is_placed pair.now }
{
    let (before, after) = (pair.before(), pair.after());
    has_once(before, PLACEHOLDER) && lacks(after, PLACEHOLDER)
        || lacks(before, PLACEHOLDER) && has_once(after, PLACEHOLDER)
}

fn is_placed_if_any(pair: &Option<TextPair>) -> bool
    ensures { result ≡ option_map_or is_placed pair.now true }
{
    match pair {
        Some(pair) => is_placed(pair),
        None => true,
    }
}

fn are_placed(pairs: &ByCategory<TextPair>) -> bool
    ensures { result ≡ holds_of_all is_placed pairs.now }
{
    is_placed_if_any(&pairs.zero)
        && is_placed_if_any(&pairs.one)
        && is_placed_if_any(&pairs.two)
        && is_placed_if_any(&pairs.few)
        && is_placed_if_any(&pairs.many)
        && is_placed(&pairs.other)
}

// The pairs, where the place of the name is once in each.
fn placed(pairs: ByCategory<TextPair>) -> Option<ByCategory<TextPair>>
    ensures { result ≡ placed pairs }
{
    if are_placed(&pairs) {
        Some(pairs)
    } else {
        None
    }
}

// Whether an entry has two fields, of which the first is a text.
fn has_frame(entry: &Value) -> bool
    ensures { result ≡ has_patterns_frame (view entry.now) }
{
    has_count(entry, 2) && is_text_at(entry, 0)
}

// The array of name patterns: `["ja",[["other",["","¤"]]]]` says that in Japanese the name follows the number.
pub(crate) struct NamePatterns;

impl WordArray for NamePatterns {
    ghost use Rattle.locale_numbers_words.specs.Entries.{has_patterns_frame, locale_key, patterns_fault, patterns_said, same_pairs};
    ghost use Rattle.locale_numbers_words.specs.declared.error.WordsError.TheVariants as errors;

    type Key = DataLocale;

    type Said = ByCategory<TextPair>;

    ghost key_in = { locale_key };

    ghost said_in = { patterns_said };

    ghost fault_in = { patterns_fault };

    ghost same_said = { same_pairs };

    ghost late = { errors.Unit };

    // An entry that has not two fields, or whose first is no text, is never reported as out of memory.
    ghost may_grow = { has_patterns_frame };

    fn late() -> WordsError {
        WordsError::Unit
    }

    fn is_same(one: &ByCategory<TextPair>, other: &ByCategory<TextPair>) -> bool {
        one == other
    }

    #[tactic(auto, using(crate::proofs::EntryLemmas::patterns_late, crate::proofs::EntryLemmas::patterns_told, crate::proofs::EntryLemmas::patterns_frame, crate::proofs::EntryLemmas::patterns_none))]
    fn read(
        alloc: Global,
        _seed: Seed,
        entry: &Value,
    ) -> Result<(DataLocale, Option<ByCategory<TextPair>>), WordsError> {
        if !has_frame(entry) {
            return Err(WordsError::Shape);
        }
        match values_at::<TextPair>(alloc, entry, 1) {
            Ok(Some(pairs)) => match tagged(alloc, entry) {
                Ok(locale) => Ok((locale, placed(pairs))),
                Err(fault) => Err(fault),
            },
            Ok(None) => Err(WordsError::Shape),
            Err(_) => Err(WordsError::Memory),
        }
    }
}
