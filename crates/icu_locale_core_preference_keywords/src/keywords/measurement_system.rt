//! The system of measurement.

ghost use Rattle.std.specs.Prelude.{◌≡◌};
ghost use Rattle.icu_locale_core_preference_keywords.specs.KeywordWords.{measurement, measurement_word};
ghost use Rattle.icu_locale_core_preference_keywords.specs.TypedKeywords.{IsReading, stated_case};
ghost use Rattle.icu_locale_core_preference_keywords.specs.WordLaws.{measurement_owns};

use crate::error::PreferencesParseError;
use crate::preference_key::PreferenceKey;
use crate::word_keyword::WordKeyword;
use icu_locale_core_keywords_fields::unicode::Value;

/// The system of measurement, key `ms`: `metric`, `ussystem` or `uksystem`.
///
/// Source: UTS 35, section 3.6.1.
#[derive(Clone, Copy, Debug, PartialEq, Eq, Hash)]
pub enum MeasurementSystem {
    /// The metric system.
    Metric,
    /// The system of the United States.
    Ussystem,
    /// The system of the United Kingdom.
    Uksystem,
}

impl MeasurementSystem {
    /// The word of the system: `metric` of `Metric`. It does not allocate.
    pub const fn as_str(&self) -> &'static str
        ensures { result.now ≡ measurement_word self.now }
    {
        match self {
            MeasurementSystem::Metric => "metric",
            MeasurementSystem::Ussystem => "ussystem",
            MeasurementSystem::Uksystem => "uksystem",
        }
    }
}

impl WordKeyword for MeasurementSystem {
    ghost words = { measurement };

    ghost owns = { measurement_owns };

    fn key() -> &'static str {
        "ms"
    }

    fn cases() -> &'static [Self] {
        &[Self::Metric, Self::Ussystem, Self::Uksystem]
    }

    fn word(&self) -> &'static str {
        self.as_str()
    }
}

/// The system whose word the value is: `metric` is `Metric`. Other values are `InvalidKeywordValue`. It does not
/// allocate.
impl TryFrom<&Value> for MeasurementSystem {
    type Error = PreferencesParseError;

    ghost try_from_gives = { λ value r. IsReading (stated_case measurement value.now) r };

    fn try_from(value: &Value) -> Result<Self, PreferencesParseError> {
        Self::try_from_value(value)
    }
}
