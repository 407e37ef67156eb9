//! The keywords of a locale that say what it prefers.

ghost use Rattle.std.specs.Prelude.{◌≡◌, ◌&&◌, is_some, is_none, option_and_then};
ghost use Rattle.icu_locale_core_grammar.specs.Collections.{value_at};
ghost use Rattle.icu_locale_core_grammar.specs.TagPreferences.{subdivision_key, override_key, keyword_subdivision, preferences_of};

use icu_locale_core_keywords_fields::unicode::Keywords;
use icu_locale_core_locale::Locale;
use icu_locale_core_preference_keywords::{
    NumberingSystem, PreferenceKey, RegionOverride, RegionalSubdivision, SubdivisionId,
};
use icu_locale_core_subtags::Subtag;
use icu_locale_core_subtags::unicode::Key;

// The key of a preference.
pub(crate) fn key_of<P: PreferenceKey>() -> Key
    ensures { result ≡ P.keyword }
{
    match P::unicode_extension_key() {
        Some(key) => key,
        None => unreachable!(),
    }
}

// The preference that the value at its key states.
fn stated_in<P: PreferenceKey>(keywords: &Keywords) -> Option<P>
    ensures { result ≡ option_and_then P.stated (value_at P.keyword keywords.now) }
{
    let value = keywords.get(&key_of::<P>())?;
    P::try_from_value(value).ok()
}

// Whether the key is there, and its value states no preference.
pub(crate) fn fails_in<P: PreferenceKey + Copy>(keywords: &Keywords) -> bool
    ensures { result
        ≡ (is_some (value_at P.keyword keywords.now)
        && is_none (option_and_then P.stated (value_at P.keyword keywords.now))) }
{
    keywords.contains_key(&key_of::<P>()) && stated_in::<P>(keywords).is_none()
}

// The subdivision.
#[tactic(auto, using(crate::proofs::KeywordLemmas::subdivision_stated))]
pub(crate) fn subdivision_in(keywords: &Keywords) -> Option<SubdivisionId>
    ensures { result ≡ keyword_subdivision subdivision_key keywords.now }
{
    let stated: RegionalSubdivision = stated_in(keywords)?;
    Some(*stated)
}

// The region override.
#[tactic(auto, using(crate::proofs::KeywordLemmas::subdivision_stated))]
pub(crate) fn override_in(keywords: &Keywords) -> Option<SubdivisionId>
    ensures { result ≡ keyword_subdivision override_key keywords.now }
{
    let stated: RegionOverride = stated_in(keywords)?;
    Some(*stated)
}

/// The numbering system that the locale prefers: the value of its keyword `nu`, where that is one piece.
///
/// Of `en-u-nu-thai` it is `thai`; of `en-u-nu-latn-thai`, `en-u-nu` and `en` there is none. It does not allocate.
pub fn numbering_system(locale: &Locale) -> Option<Subtag>
    ensures { result ≡ (preferences_of locale.now).numbering_system }
{
    let stated: NumberingSystem = stated_in(&locale.extensions.unicode.keywords)?;
    Some(*stated)
}
