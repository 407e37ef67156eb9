//! The locale that holds preferences, or a data locale.

ghost use Rattle.std.specs.Prelude.{◌≡◌, [], ◌++◌, None, map, option_to_list, IfOk, OnOk, IsOk};
ghost use Rattle.icu_locale_core_grammar.specs.TagPreferences.{override_key, subdivision_key, data_meaning};
ghost use Rattle.icu_locale_core_grammar.specs.PreferenceChanges.{keyword_of, preference_tag};
ghost use Rattle.icu_locale_core.specs.HeldTag.{held_entry, held_tag, with_keyword};

use crate::data_locale::DataLocale;
use crate::keywords::key_of;
use crate::locale_preferences::LocalePreferences;
use icu_locale_core_extensions::{Extensions, Transform, Unicode};
use icu_locale_core_keywords_fields::unicode::{Keywords, Value};
use icu_locale_core_langid::LanguageIdentifier;
use icu_locale_core_locale::Locale;
use icu_locale_core_preference_keywords::{RegionOverride, RegionalSubdivision, SubdivisionId};
use icu_locale_core_subtag_lists::{Attributes, Private, Variants};
use icu_locale_core_subtags::Variant;
use icu_locale_core_subtags::unicode::Key;
use std::alloc::{AllocError, Global};

// The set of the variant, where there is one.
fn variants_of(alloc: Global, variant: Option<Variant>) -> Result<Variants, AllocError>
    ensures value { IfOk result (λ variants. variants ≡ option_to_list variant) }
    ensures succeeds { variant ≡ None → IsOk result }
{
    match variant {
        Some(variant) => Variants::from_variant(alloc, variant),
        None => Ok(Variants::new(alloc)),
    }
}

// Sets the key to the subdivision, where there is one.
fn set_subdivision(
    alloc: Global,
    keywords: &mut Keywords,
    key: Key,
    subdivision: Option<SubdivisionId>,
) -> Result<(), AllocError>
    ensures value { OnOk result (keywords.new ≡ with_keyword key subdivision keywords.old) }
    ensures succeeds { subdivision ≡ None → IsOk result }
{
    let Some(subdivision) = subdivision else {
        return Ok(());
    };
    let value = Value::from_subtag(alloc, Some(subdivision.into_subtag()))?;
    keywords.set(key, value)?;
    Ok(())
}

// The keywords `rg` and `sd`, where they are there.
fn keywords_of(
    alloc: Global,
    region_override: Option<SubdivisionId>,
    subdivision: Option<SubdivisionId>,
) -> Result<Keywords, AllocError>
    ensures value { IfOk result
        (λ keywords. keywords
        ≡ map held_entry (keyword_of override_key region_override ++ keyword_of subdivision_key subdivision)) }
    ensures succeeds { region_override ≡ None → subdivision ≡ None → IsOk result }
{
    let mut keywords = Keywords::new(alloc);
    let override_key = key_of::<RegionOverride>();
    let subdivision_key = key_of::<RegionalSubdivision>();
    set_subdivision(alloc, &mut keywords, override_key, region_override)?;
    set_subdivision(alloc, &mut keywords, subdivision_key, subdivision)?;
    Ok(keywords)
}

impl LocalePreferences {
    /// The locale that holds these preferences: its language part, and the keywords `rg` and `sd` that are there.
    ///
    /// Of the preferences of `de-AT`, extended by those of `und-CH-u-sd-chzh`, it is `de-CH-u-sd-chzh`. A subdivision
    /// that spells `true`, the region `TR` with the suffix `ue`, is left out of its keyword. `AllocError`: out of
    /// memory. Only a variant, `rg` and `sd` allocate.
    pub fn to_locale(self, alloc: Global) -> Result<Locale, AllocError>
        ensures value { IfOk result (λ locale. locale ≡ held_tag (preference_tag self)) }
        ensures succeeds { self.variant ≡ None → self.region_override ≡ None → self.subdivision ≡ None → IsOk result }
    {
        let variants = variants_of(alloc, self.variant)?;
        let keywords = keywords_of(alloc, self.region_override, self.subdivision)?;
        Ok(Locale {
            id: LanguageIdentifier {
                language: self.language,
                script: self.script,
                region: self.region,
                variants,
            },
            extensions: Extensions {
                unicode: Unicode {
                    keywords,
                    attributes: Attributes::new(alloc),
                },
                transform: Transform::new(alloc),
                private: Private::new(alloc),
                other: Vec::new(alloc),
            },
        })
    }
}

impl DataLocale {
    /// The locale that this is: its language part, and the keyword `sd` where it has a subdivision.
    ///
    /// `en-US-u-sd-ustx` is the locale of that text. A subdivision that spells `true`, the region `TR` with the suffix
    /// `ue`, is left out of its keyword. `AllocError`: out of memory. Only a variant and a subdivision allocate.
    pub fn into_locale(self, alloc: Global) -> Result<Locale, AllocError>
        ensures value { IfOk result (λ locale. locale ≡ held_tag (data_meaning self)) }
        ensures succeeds { self.variant ≡ None → self.subdivision ≡ None → IsOk result }
    {
        let preferences = LocalePreferences {
            language: self.language,
            script: self.script,
            region: self.region,
            variant: self.variant,
            subdivision: self.subdivision,
            region_override: None,
        };
        preferences.to_locale(alloc)
    }
}
