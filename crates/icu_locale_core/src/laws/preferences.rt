//! Laws of preferences and of data locales, beside the clauses of their calls.

ghost use Rattle.std.specs.Prelude.{◌≡◌, ◌↔◌, IfSome, IsTrue};
ghost use Rattle.icu_locale_core_grammar.specs.WellFormed.{IsNormalPiece};
ghost use Rattle.icu_locale_core_grammar.specs.PreferenceLaws.{IsNormalSubdivision};
ghost use Rattle.icu_locale_core.specs.HeldPreferenceLaws.{IsNormalData, IsNormalPreferences, ReadDataReadsBack, NormalDataReadsBack, PreferencesAreHeld, DataIsHeld, AcceptedTextsPreferAlike, DataLocaleIsOfItsTag, TagsHoldNoTrue};

use crate::data_locale::DataLocale;
use crate::locale_preferences::LocalePreferences;
use icu_locale_core_preference_keywords::SubdivisionId;
use icu_locale_core_subtags::laws::subtags_are_words;
use icu_locale_core_subtags::{SubtagOf, SubtagRule};

fn parts_are_normal<R: SubtagRule<N>, const N: usize>(part: Option<SubtagOf<R, N>>)
    ensures { IfSome part (IsNormalPiece R.accepts R.normal) }
{
    if let Some(part) = part {
        subtags_are_words(&part);
    }
}

fn subdivisions_are_normal(subdivision: Option<SubdivisionId>)
    ensures { IfSome subdivision IsNormalSubdivision }
{
    if let Some(subdivision) = subdivision {
        subtags_are_words(&subdivision.region);
        subtags_are_words(&subdivision.suffix);
    }
}

/// Each data locale is in normal form: its parts are of their classes and in their normal case.
pub fn data_locales_are_normal(data_locale: &DataLocale)
    ensures { IsNormalData data_locale.now }
{
    subtags_are_words(&data_locale.language);
    parts_are_normal(data_locale.script);
    parts_are_normal(data_locale.region);
    parts_are_normal(data_locale.variant);
    subdivisions_are_normal(data_locale.subdivision);
}

/// All preferences are in normal form.
pub fn preferences_are_normal(preferences: &LocalePreferences)
    ensures { IsNormalPreferences preferences.now }
{
    data_locales_are_normal(&preferences.to_data_locale_language_priority());
    subdivisions_are_normal(preferences.region_override);
}

/// A data locale that was read and printed reads back equal, and so does each one in normal form whose subdivision is
/// not `true`.
pub fn data_locales_read_back()
    ensures read { ReadDataReadsBack }
    ensures normal { NormalDataReadsBack }
{}

/// The locale made of preferences has these preferences, and so has the locale made of a data locale, where no
/// subdivision is `true`.
pub fn locales_hold_preferences()
    ensures preferences { PreferencesAreHeld }
    ensures data_locale { DataIsHeld }
{}

/// An accepted text and its normal text prefer alike, a text that is a data locale is the one of its tag, and no tag
/// prefers the subdivision `true`.
pub fn accepted_texts_prefer_alike()
    ensures alike { AcceptedTextsPreferAlike }
    ensures data_locale { DataLocaleIsOfItsTag }
    ensures never_true { TagsHoldNoTrue }
{}

/// Two data locales are `==` exactly where they are one value.
pub fn same_data_locales(one: &DataLocale, other: &DataLocale) -> bool
    ensures { IsTrue result ↔ (one.now ≡ other.now) }
{
    one == other
}

/// Two preferences are `==` exactly where they are one value.
pub fn same_preferences(first: &LocalePreferences, second: &LocalePreferences) -> bool
    ensures { IsTrue result ↔ (first.now ≡ second.now) }
{
    first == second
}
