//! Laws of the typed keywords: what reads back as itself, each the contract of a function that computes nothing.

ghost use Rattle.std.specs.Prelude.{◌≡◌, true, Some};
ghost use Rattle.icu_locale_core_grammar.specs.Subtags.{is_other_piece, lower};
ghost use Rattle.icu_locale_core_grammar.specs.TagPreferences.{subdivision_of, subdivision_text};
ghost use Rattle.icu_locale_core_preference_keywords.specs.TypedKeywords.{stated_case, word_value, is_currency};

use crate::keywords::currency::CurrencyType;
use crate::keywords::numbering_system::NumberingSystem;
use crate::keywords::subdivision_keyword::{RegionOverride, RegionalSubdivision};
use crate::preference_key::PreferenceKey;
use crate::subdivision::SubdivisionId;
use crate::word_keyword::WordKeyword;
use icu_locale_core_grammar::preference_laws::preferences_read_back;
use icu_locale_core_subtags::laws::subtags_are_words;

/// The word of a case is a subtag in lower case, and as a value it states the case: `sun` states `FirstDay::Sun`.
pub fn words_state_cases<W: WordKeyword>(case: &W)
    ensures taken { is_other_piece (W.words.word case.now) ≡ true }
    ensures lowered { lower (W.words.word case.now) ≡ W.words.word case.now }
    ensures stated { stated_case W.words (word_value (W.words.word case.now)) ≡ Some case.now }
{}

/// The text of a subdivision reads back as it: `ustx` as `US` and `tx`.
pub fn subdivisions_read_back(id: &SubdivisionId)
    ensures { subdivision_of (subdivision_text id.now) ≡ Some id.now }
{
    subtags_are_words(&id.region);
    subtags_are_words(&id.suffix);
    preferences_read_back();
}

/// The value of a numbering system states it: `thai` the system `thai`.
pub fn numbering_systems_read_back(system: &NumberingSystem)
    ensures { ⟦<NumberingSystem as PreferenceKey>⟧.stated (⟦<NumberingSystem as PreferenceKey>⟧.written system.now)
        ≡ Some system.now }
{}

/// The value of a regional subdivision states it: `ustx` the subdivision of `US` and `tx`.
pub fn regional_subdivisions_read_back(subdivision: &RegionalSubdivision)
    ensures { ⟦<RegionalSubdivision as PreferenceKey>⟧.stated
        (⟦<RegionalSubdivision as PreferenceKey>⟧.written subdivision.now) ≡ Some subdivision.now }
{
    subdivisions_read_back(subdivision);
}

/// The value of a region override states it: `gbeng` the region override of `GB` and `eng`.
pub fn region_overrides_read_back(region: &RegionOverride)
    ensures { ⟦<RegionOverride as PreferenceKey>⟧.stated (⟦<RegionOverride as PreferenceKey>⟧.written region.now)
        ≡ Some region.now }
{
    subdivisions_read_back(region);
}

/// The value of a currency states it, and its code is three letters in lower case: `eur` states the currency `eur`.
pub fn currencies_read_back(currency: &CurrencyType)
    ensures letters { is_currency currency.now ≡ true }
    ensures lowered { lower currency.now ≡ currency.now }
    ensures stated { ⟦<CurrencyType as PreferenceKey>⟧.stated (⟦<CurrencyType as PreferenceKey>⟧.written currency.now)
        ≡ Some currency.now }
{
    let _code = currency.own;
}
