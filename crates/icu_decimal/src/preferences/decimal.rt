//! What a locale prefers for plain numbers, and for compact ones.

ghost use Rattle.std.specs.Prelude.{◌≡◌, true, false, MatchResult};
ghost use Rattle.icu_locale_core.specs.TagPreferences.{preferences_of};
ghost use Rattle.icu_locale_core.specs.declared.preferences.extensions.unicode.errors.PreferencesParseError.{PreferencesParseError};
ghost use Rattle.icu_decimal.specs.Identifiers.{of_asked};
ghost use Rattle.icu_decimal.specs.Preferences.{nothing_preferred, preferred_by, joined, fails};

use crate::preferences::keywords::{fails_at_numbering, system_of};
use crate::provider::DataIdentifier;
use icu_locale_core::preferences::LocalePreferences;
use icu_locale_core::preferences::extensions::unicode::errors::PreferencesParseError;
use icu_locale_core::preferences::extensions::unicode::keywords::NumberingSystem;
use icu_locale_core::{DataLocale, LanguageIdentifier, Locale};
use std::marker::Model;

/// What a locale prefers for plain numbers: `ar-EG-u-nu-thai` prefers the locale `ar-EG` and the numbering system
/// `thai`.
///
/// Preferences that are equal are one value, so they ask for the same tables. Source: UTS 35, section 3.6, key `nu`.
#[derive(Clone, Copy, Debug, PartialEq, Eq, Hash)]
pub struct DecimalFormatterPreferences {
    /// What the locale prefers whatever is written: `ar-EG` of `ar-EG-u-nu-thai`.
    pub locale_preferences: LocalePreferences,
    /// The numbering system, where one is preferred: `thai` of `ar-EG-u-nu-thai`. Whether a provider has it is not
    /// asked.
    pub numbering_system: Option<NumberingSystem>,
}

impl Model for DecimalFormatterPreferences {
    ghost use Rattle.icu_locale_core.specs.TagPreferences.{Preferences};

    ghost Value = { Preferences };

    ghost view = { λ p. record { locale = p.locale_preferences; numbering_system = p.numbering_system } };

    ghost inverse = { λ v. record { locale_preferences = v.locale; numbering_system = v.numbering_system } };
}

/// What a locale prefers for compact numbers, the same as for plain ones: `ar-EG-u-nu-thai` prefers the locale `ar-EG`
/// and the numbering system `thai`.
///
/// Source: UTS 35, section 3.6, key `nu`.
pub type CompactDecimalFormatterPreferences = DecimalFormatterPreferences;

/// The language `und`, and nothing else. It does not allocate.
impl Default for DecimalFormatterPreferences {
    ghost is_default = { λ p. p ≡ nothing_preferred };

    fn default() -> Self {
        DecimalFormatterPreferences {
            locale_preferences: LocalePreferences::default(),
            numbering_system: None,
        }
    }
}

/// What the locale prefers: of `ar-EG-u-nu-thai` the locale `ar-EG` and the system `thai`.
///
/// A keyword whose value does not read counts as not there: `en-u-nu-latn-thai` prefers no system. It does not
/// allocate.
impl From<&Locale> for DecimalFormatterPreferences {
    ghost from_gives = { λ locale p. p ≡ preferences_of locale.now };

    fn from(locale: &Locale) -> Self {
        DecimalFormatterPreferences {
            locale_preferences: LocalePreferences::from(locale),
            numbering_system: system_of(locale),
        }
    }
}

/// As of a borrowed locale: of `ar-EG-u-nu-thai` the locale `ar-EG` and the system `thai`. It does not allocate.
impl From<Locale> for DecimalFormatterPreferences {
    ghost from_gives = { λ locale p. p ≡ preferences_of locale };

    fn from(locale: Locale) -> Self {
        Self::from(&locale)
    }
}

/// What the identifier prefers: of `de-1996` the locale `de-1996`, and no system. It does not allocate.
impl From<&LanguageIdentifier> for DecimalFormatterPreferences {
    ghost from_gives = { λ id p. p ≡ preferred_by id.now };

    fn from(id: &LanguageIdentifier) -> Self {
        DecimalFormatterPreferences {
            locale_preferences: LocalePreferences::from(id),
            numbering_system: None,
        }
    }
}

/// As of a borrowed identifier: of `de-1996` the locale `de-1996`, and no system. It does not allocate.
impl From<LanguageIdentifier> for DecimalFormatterPreferences {
    ghost from_gives = { λ id p. p ≡ preferred_by id };

    fn from(id: LanguageIdentifier) -> Self {
        Self::from(&id)
    }
}

/// The same preferences: of `en-u-nu-thai` for compact numbers those of `en-u-nu-thai` for plain ones. It does not
/// allocate.
impl From<&CompactDecimalFormatterPreferences> for DecimalFormatterPreferences {
    ghost from_gives = { λ compact p. p ≡ compact.now };

    fn from(compact: &CompactDecimalFormatterPreferences) -> Self {
        *compact
    }
}

impl DecimalFormatterPreferences {
    /// What the locale prefers, as `from`, where its keywords `sd`, `rg` and `nu` read or are not there.
    ///
    /// `InvalidKeywordValue`: one of them is there and does not read, as in `en-u-nu-latn-thai`. It does not allocate.
    pub fn from_locale_strict(locale: &Locale) -> Result<Self, PreferencesParseError>
        ensures { MatchResult result (λ p. (fails locale.now ≡ false) × (p ≡ preferences_of locale.now))
            (λ e. (fails locale.now ≡ true) × (e ≡ PreferencesParseError.InvalidKeywordValue)) }
    {
        if fails_at_numbering(locale) {
            return Err(PreferencesParseError::InvalidKeywordValue);
        }
        match LocalePreferences::from_locale_strict(locale) {
            Ok(_) => Ok(Self::from(locale)),
            Err(error) => Err(error),
        }
    }

    /// Puts each part of the other that is there in place of this one's: `en-US-u-nu-thai` extended by `und-GB` prefers
    /// `en-GB` and `thai`. It does not allocate.
    pub fn extend(&mut self, other: DecimalFormatterPreferences)
        ensures { self.new ≡ joined self.old other }
    {
        self.locale_preferences.extend(other.locale_preferences);
        self.numbering_system = other.numbering_system.or(self.numbering_system);
    }

    /// The identifier of the system that is preferred, under this locale: of `thai` and `en` it is `en` and `thai`, and
    /// `None` without a system. It does not allocate.
    pub fn nu_id(&self, locale: &DataLocale) -> Option<DataIdentifier>
        ensures { result ≡ of_asked locale.now self.now.numbering_system }
    {
        match self.numbering_system {
            Some(system) => Some(DataIdentifier::for_marker_attributes_and_locale(
                system.to_tinystr(),
                *locale,
            )),
            None => None,
        }
    }
}
