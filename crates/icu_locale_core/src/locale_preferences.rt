//! What a locale prefers.

ghost use Rattle.std.specs.Prelude.{◌≡◌, true, false, MatchResult};
ghost use Rattle.icu_locale_core_grammar.specs.TagPreferences.{locale_preferences_of, language_priority, region_priority};
ghost use Rattle.icu_locale_core_grammar.specs.PreferenceChanges.{fails_strictly};
ghost use Rattle.icu_locale_core_grammar.specs.PreferenceLaws.{no_preferences};
ghost use Rattle.icu_locale_core_preference_keywords.specs.declared.error.PreferencesParseError.{PreferencesParseError};
ghost use Rattle.icu_locale_core.specs.DataLocales.{language_preferences};

use crate::data_locale::DataLocale;
use crate::keywords::{fails_in, override_in, subdivision_in};
use icu_locale_core_langid::LanguageIdentifier;
use icu_locale_core_locale::Locale;
use icu_locale_core_preference_keywords::{
    PreferencesParseError, RegionOverride, RegionalSubdivision, SubdivisionId,
};
use icu_locale_core_subtags::{Language, Region, Script, Variant};
use std::marker::Model;

/// What a locale prefers: its language, script, region and first variant, and the subdivisions of its keywords `sd` and
/// `rg`.
///
/// Source: UTS 35, section 3.6, keys `rg` and `sd`.
#[derive(Clone, Copy, Debug, PartialEq, Eq, Hash)]
pub struct LocalePreferences {
    pub(crate) language: Language,
    pub(crate) script: Option<Script>,
    pub(crate) region: Option<Region>,
    pub(crate) variant: Option<Variant>,
    pub(crate) subdivision: Option<SubdivisionId>,
    pub(crate) region_override: Option<SubdivisionId>,
}

impl Model for LocalePreferences {
    ghost use Rattle.icu_locale_core_grammar.specs.TagPreferences.{LocalePreferencesMeaning};

    ghost Value = { LocalePreferencesMeaning };

    ghost view = { λ p. record {
      language = p.language;
      script = p.script;
      region = p.region;
      variant = p.variant;
      subdivision = p.subdivision;
      region_override = p.region_override;
    } };

    ghost inverse = { λ v. record {
      language = v.language;
      script = v.script;
      region = v.region;
      variant = v.variant;
      subdivision = v.subdivision;
      region_override = v.region_override;
    } };
}

/// The language `und`, and nothing else. It does not allocate.
impl Default for LocalePreferences {
    ghost is_default = { λ p. p ≡ no_preferences };

    fn default() -> Self {
        LocalePreferences {
            language: Language::default(),
            script: None,
            region: None,
            variant: None,
            subdivision: None,
            region_override: None,
        }
    }
}

/// What the locale prefers: of `de-fonipa-1996-u-rg-atzzzz-sd-ch` the language `de`, the variant `1996` and the region
/// override `atzzzz`.
///
/// A keyword `sd` or `rg` whose value is no subdivision, as `ch` here, counts as not there. It does not allocate.
impl From<&Locale> for LocalePreferences {
    ghost from_gives = { λ locale p. p ≡ locale_preferences_of locale.now };

    fn from(locale: &Locale) -> Self {
        let keywords = &locale.extensions.unicode.keywords;
        let mut preferences = Self::from(&locale.id);
        preferences.subdivision = subdivision_in(keywords);
        preferences.region_override = override_in(keywords);
        preferences
    }
}

/// The language, script, region and first variant of the identifier: of `de-fonipa-1996` they are `de` and `1996`. It
/// does not allocate.
impl From<&LanguageIdentifier> for LocalePreferences {
    ghost from_gives = { λ id p. p ≡ language_preferences id.now };

    fn from(id: &LanguageIdentifier) -> Self {
        LocalePreferences {
            language: id.language,
            script: id.script,
            region: id.region,
            variant: id.variants.first().copied(),
            subdivision: None,
            region_override: None,
        }
    }
}

impl LocalePreferences {
    /// What the locale prefers, as `from`, where its keywords `sd` and `rg` are subdivisions or are not there.
    ///
    /// `InvalidKeywordValue`: an `sd` or an `rg` is there and is no subdivision, as in `en-u-sd-12a` and `en-u-rg`. It
    /// does not allocate.
    #[tactic(auto, using(crate::proofs::KeywordLemmas::subdivision_stated))]
    pub fn from_locale_strict(locale: &Locale) -> Result<Self, PreferencesParseError>
        ensures { MatchResult result (λ p. (fails_strictly locale.now ≡ false) × (p ≡ locale_preferences_of locale.now))
            (λ e. (fails_strictly locale.now ≡ true) × (e ≡ PreferencesParseError.InvalidKeywordValue)) }
    {
        let keywords = &locale.extensions.unicode.keywords;
        if fails_in::<RegionalSubdivision>(keywords) || fails_in::<RegionOverride>(keywords) {
            return Err(PreferencesParseError::InvalidKeywordValue);
        }
        Ok(Self::from(locale))
    }

    /// The language, `und` where it is not known: of `de-fonipa-1996` it is `de`. It does not allocate.
    pub fn language(&self) -> Language
        ensures { result ≡ self.now.language }
    {
        self.language
    }

    /// The region of the language part, where there is one; neither `sd` nor `rg` changes it. It does not allocate.
    ///
    /// Of `en-US-u-rg-gbeng-sd-ustx` it is `US`, and of `de-fonipa-1996-u-rg-atzzzz-sd-ch` there is none.
    pub fn region(&self) -> Option<Region>
        ensures { result ≡ self.now.region }
    {
        self.region
    }

    /// The data locale with the language first: the region as it is, and the subdivision of `sd`.
    ///
    /// Of `en-US-u-rg-gbeng-sd-ustx` it is `en-US-u-sd-ustx`. It does not allocate.
    pub fn to_data_locale_language_priority(self) -> DataLocale
        ensures { result ≡ language_priority self }
    {
        DataLocale {
            language: self.language,
            script: self.script,
            region: self.region,
            variant: self.variant,
            subdivision: self.subdivision,
        }
    }

    /// The data locale with the region first: region and subdivision of the region override, where there is one.
    ///
    /// Of `en-US-u-rg-gbeng-sd-ustx` it is `en-GB-u-sd-gbeng`; without `rg` it is the form with the language first. It
    /// does not allocate.
    pub fn to_data_locale_region_priority(self) -> DataLocale
        ensures { result ≡ region_priority self }
    {
        let mut data_locale = self.to_data_locale_language_priority();
        if let Some(subdivision) = self.region_override {
            data_locale.region = Some(subdivision.region);
            data_locale.subdivision = Some(subdivision);
        }
        data_locale
    }
}
