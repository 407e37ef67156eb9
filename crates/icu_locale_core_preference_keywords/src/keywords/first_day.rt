//! The first day of a week.

ghost use Rattle.std.specs.Prelude.{◌≡◌};
ghost use Rattle.icu_locale_core_preference_keywords.specs.KeywordWords.{first_day, first_day_word};
ghost use Rattle.icu_locale_core_preference_keywords.specs.TypedKeywords.{IsReading, stated_case};
ghost use Rattle.icu_locale_core_preference_keywords.specs.WordLaws.{first_day_owns};

use crate::error::PreferencesParseError;
use crate::preference_key::PreferenceKey;
use crate::word_keyword::WordKeyword;
use icu_locale_core_keywords_fields::unicode::Value;

/// The first day of a week, key `fw`: `sun` to `sat`.
///
/// Source: UTS 35, section 3.6.1.
#[derive(Clone, Copy, Debug, PartialEq, Eq, Hash)]
pub enum FirstDay {
    /// Sunday.
    Sun,
    /// Monday.
    Mon,
    /// Tuesday.
    Tue,
    /// Wednesday.
    Wed,
    /// Thursday.
    Thu,
    /// Friday.
    Fri,
    /// Saturday.
    Sat,
}

impl FirstDay {
    /// The word of the day: `sun` of `Sun`. It does not allocate.
    pub const fn as_str(&self) -> &'static str
        ensures { result.now ≡ first_day_word self.now }
    {
        match self {
            FirstDay::Sun => "sun",
            FirstDay::Mon => "mon",
            FirstDay::Tue => "tue",
            FirstDay::Wed => "wed",
            FirstDay::Thu => "thu",
            FirstDay::Fri => "fri",
            FirstDay::Sat => "sat",
        }
    }
}

impl WordKeyword for FirstDay {
    ghost words = { first_day };

    ghost owns = { first_day_owns };

    fn key() -> &'static str {
        "fw"
    }

    fn cases() -> &'static [Self] {
        &[
            Self::Sun,
            Self::Mon,
            Self::Tue,
            Self::Wed,
            Self::Thu,
            Self::Fri,
            Self::Sat,
        ]
    }

    fn word(&self) -> &'static str {
        self.as_str()
    }
}

/// The day whose word the value is: `mon` is `Mon`. Other values are `InvalidKeywordValue`. It does not allocate.
impl TryFrom<&Value> for FirstDay {
    type Error = PreferencesParseError;

    ghost try_from_gives = { λ value r. IsReading (stated_case first_day value.now) r };

    fn try_from(value: &Value) -> Result<Self, PreferencesParseError> {
        Self::try_from_value(value)
    }
}
