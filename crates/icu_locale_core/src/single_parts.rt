//! What a tag prefers that was read without allocating.

ghost use Rattle.std.specs.Prelude.{◌≡◌};
ghost use Rattle.icu_locale_core_grammar.specs.SingleVariant.{keyword_entries, single_tag};
ghost use Rattle.icu_locale_core_grammar.specs.TagPreferences.{keyword_piece, keyword_subdivision, locale_preferences_of, preferences_of};
ghost use Rattle.icu_locale_core_langid.specs.SingleModes.{single};

use crate::keywords::key_of;
use crate::locale_preferences::LocalePreferences;
use icu_locale_core_langid::single::SingleParts;
use icu_locale_core_preference_keywords::{
    NumberingSystem, PreferenceKey, RegionOverride, RegionalSubdivision, SubdivisionId,
};
use icu_locale_core_subtags::Subtag;
use icu_locale_core_subtags::unicode::Key;

// The piece of the keyword, where it has the key.
fn piece_under(key: &Key, keyword: &Option<(Key, Option<Subtag>)>) -> Option<Subtag>
    ensures { result ≡ keyword_piece key.now (keyword_entries keyword.now) }
{
    let (found, piece) = (*keyword)?;
    if *key == found { piece } else { None }
}

// The subdivision that the keyword spells, where it has the key.
fn subdivision_under(key: &Key, keyword: &Option<(Key, Option<Subtag>)>) -> Option<SubdivisionId>
    ensures { result ≡ keyword_subdivision key.now (keyword_entries keyword.now) }
{
    let piece = piece_under(key, keyword)?;
    SubdivisionId::try_from_str(piece.as_str()).ok()
}

impl LocalePreferences {
    /// What a tag of at most one variant and one keyword prefers, and its numbering system: what a `Locale` of the same
    /// text prefers. It does not allocate.
    ///
    /// Of the parts of `en-US-u-rg-gbeng` it is `en`, `US` and the region override `gbeng`, and no numbering system; of
    /// those of `th-u-nu-thai` it is `th`, and `thai`. A keyword whose value does not read, as `nu` without a value,
    /// counts as not there.
    pub fn from_single_parts(parts: SingleParts) -> (Self, Option<Subtag>)
        ensures preferences { result.0 ≡ locale_preferences_of (single_tag (single parts)) }
        ensures numbering_system { result.1 ≡ (preferences_of (single_tag (single parts))).numbering_system }
    {
        let (language, script, region, variant, keyword) = parts;
        let preferences = LocalePreferences {
            language,
            script,
            region,
            variant,
            subdivision: subdivision_under(&key_of::<RegionalSubdivision>(), &keyword),
            region_override: subdivision_under(&key_of::<RegionOverride>(), &keyword),
        };
        let system = piece_under(&key_of::<NumberingSystem>(), &keyword);
        (preferences, system)
    }
}
