//! The locale that data is asked for.

ghost use Rattle.std.specs.Prelude.{◌≡◌, ◌↔◌, IsTrue};
ghost use Rattle.icu_locale_core_grammar.specs.TagPreferences.{locale_preferences_of, language_priority};
ghost use Rattle.icu_locale_core.specs.DataLocales.{language_data, triple_data, truncated, unknown_data};

use crate::locale_preferences::LocalePreferences;
use icu_locale_core_langid::LanguageIdentifier;
use icu_locale_core_locale::Locale;
use icu_locale_core_preference_keywords::SubdivisionId;
use icu_locale_core_subtags::{Language, Region, Script, Variant};
use std::marker::Model;

/// The locale that data is asked for: `en-US-u-sd-ustx` is the language `en`, the region `US` and the subdivision
/// `ustx`.
///
/// After ICU4X's type of this name; docs/preferences.md has the rules.
#[derive(Clone, Copy, PartialEq, Eq, Hash)]
pub struct DataLocale {
    /// The language; `und` where it is not known.
    pub language: Language,
    /// The script, where one is asked for.
    pub script: Option<Script>,
    /// The region, where one is asked for.
    pub region: Option<Region>,
    /// The variant, where one is asked for.
    pub variant: Option<Variant>,
    /// The subdivision, where one is asked for.
    pub subdivision: Option<SubdivisionId>,
}

impl Model for DataLocale {
    ghost use Rattle.icu_locale_core_grammar.specs.TagPreferences.{DataLocaleMeaning};

    ghost Value = { DataLocaleMeaning };

    ghost view = { λ d. record {
      language = d.language;
      script = d.script;
      region = d.region;
      variant = d.variant;
      subdivision = d.subdivision;
    } };

    ghost inverse = { λ v. record {
      language = v.language;
      script = v.script;
      region = v.region;
      variant = v.variant;
      subdivision = v.subdivision;
    } };
}

/// The language `und`, and nothing else. It does not allocate.
impl Default for DataLocale {
    ghost is_default = { λ d. d ≡ unknown_data };

    fn default() -> Self {
        Self::from((Language::default(), None, None))
    }
}

impl DataLocale {
    /// Whether this is the language `und`, and nothing else: `und` is, `en-US` is not. It does not allocate.
    pub fn is_unknown(&self) -> bool
        ensures { IsTrue result ↔ (self.now ≡ unknown_data) }
    {
        self.language.is_unknown()
            && self.script.is_none()
            && self.region.is_none()
            && self.variant.is_none()
            && self.subdivision.is_none()
    }

    /// The data locale without the first of subdivision, variant, region and script that it has: of `zh-Hant-TW` it is
    /// `zh-Hant`, of that `zh`, and of `zh` none. It does not allocate.
    pub fn truncated(&self) -> Option<Self>
        ensures { result ≡ truncated self.now }
    {
        if self.subdivision.is_some() {
            return Some(DataLocale {
                subdivision: None,
                ..*self
            });
        }
        if self.variant.is_some() {
            return Some(DataLocale {
                variant: None,
                ..*self
            });
        }
        if self.region.is_some() {
            return Some(DataLocale {
                region: None,
                ..*self
            });
        }
        if self.script.is_some() {
            return Some(DataLocale {
                script: None,
                ..*self
            });
        }
        None
    }
}

/// The data locale of a language, a script and a region: of `en`, none and `US` it is `en-US`. It does not allocate.
impl From<(Language, Option<Script>, Option<Region>)> for DataLocale {
    ghost from_gives = { λ triple d. d ≡ triple_data triple.0 triple.1 triple.2 };

    fn from(triple: (Language, Option<Script>, Option<Region>)) -> Self {
        let (language, script, region) = triple;
        DataLocale {
            language,
            script,
            region,
            variant: None,
            subdivision: None,
        }
    }
}

/// The language-first form of what the locale prefers: of `en-US-u-nu-thai-rg-gbeng-sd-ustx` it is `en-US-u-sd-ustx`.
///
/// It does not allocate.
impl From<&Locale> for DataLocale {
    ghost from_gives = { λ locale d. d ≡ language_priority (locale_preferences_of locale.now) };

    fn from(locale: &Locale) -> Self {
        LocalePreferences::from(locale).to_data_locale_language_priority()
    }
}

/// As of a borrowed locale. It does not allocate.
impl From<Locale> for DataLocale {
    ghost from_gives = { λ locale d. d ≡ language_priority (locale_preferences_of locale) };

    fn from(locale: Locale) -> Self {
        Self::from(&locale)
    }
}

/// The identifier with only its first variant: of `de-1996-fonipa` it is `de-1996`. It does not allocate.
impl From<&LanguageIdentifier> for DataLocale {
    ghost from_gives = { λ id d. d ≡ language_data id.now };

    fn from(id: &LanguageIdentifier) -> Self {
        LocalePreferences::from(id).to_data_locale_language_priority()
    }
}

/// As of a borrowed identifier. It does not allocate.
impl From<LanguageIdentifier> for DataLocale {
    ghost from_gives = { λ id d. d ≡ language_data id };

    fn from(id: LanguageIdentifier) -> Self {
        Self::from(&id)
    }
}
