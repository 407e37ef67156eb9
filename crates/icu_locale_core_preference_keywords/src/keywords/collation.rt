//! How texts are sorted: which case is first, and whether digits are numbers.

ghost use Rattle.std.specs.Prelude.{◌≡◌};
ghost use Rattle.icu_locale_core_preference_keywords.specs.KeywordWords.{case_first, case_first_word, numeric_ordering, numeric_ordering_word};
ghost use Rattle.icu_locale_core_preference_keywords.specs.TypedKeywords.{IsReading, stated_case};
ghost use Rattle.icu_locale_core_preference_keywords.specs.WordLaws.{case_first_owns, numeric_ordering_owns};

use crate::error::PreferencesParseError;
use crate::preference_key::PreferenceKey;
use crate::word_keyword::WordKeyword;
use icu_locale_core_keywords_fields::unicode::Value;

/// Which case is sorted first, key `kf`: `upper`, `lower` or `false`.
///
/// Source: UTS 35, section 3.6.1.
#[derive(Clone, Copy, Debug, PartialEq, Eq, Hash)]
pub enum CollationCaseFirst {
    /// Upper case before lower case.
    Upper,
    /// Lower case before upper case.
    Lower,
    /// Neither before the other.
    False,
}

impl CollationCaseFirst {
    /// The word of the order: `upper` of `Upper`. It does not allocate.
    pub const fn as_str(&self) -> &'static str
        ensures { result.now ≡ case_first_word self.now }
    {
        match self {
            CollationCaseFirst::Upper => "upper",
            CollationCaseFirst::Lower => "lower",
            CollationCaseFirst::False => "false",
        }
    }
}

impl WordKeyword for CollationCaseFirst {
    ghost words = { case_first };

    ghost owns = { case_first_owns };

    fn key() -> &'static str {
        "kf"
    }

    fn cases() -> &'static [Self] {
        &[Self::Upper, Self::Lower, Self::False]
    }

    fn word(&self) -> &'static str {
        self.as_str()
    }
}

/// The order whose word the value is: `upper` is `Upper`. Other values are `InvalidKeywordValue`. It does not allocate.
impl TryFrom<&Value> for CollationCaseFirst {
    type Error = PreferencesParseError;

    ghost try_from_gives = { λ value r. IsReading (stated_case case_first value.now) r };

    fn try_from(value: &Value) -> Result<Self, PreferencesParseError> {
        Self::try_from_value(value)
    }
}

/// Whether digits are sorted as numbers, key `kn`: `true`, which is the empty value, or `false`.
///
/// Source: UTS 35, section 3.6.1.
#[derive(Clone, Copy, Debug, PartialEq, Eq, Hash)]
pub enum CollationNumericOrdering {
    /// As numbers: the value has no subtag.
    True,
    /// Digit by digit.
    False,
}

impl CollationNumericOrdering {
    /// The word of the order: `true` of `True`. It does not allocate.
    pub const fn as_str(&self) -> &'static str
        ensures { result.now ≡ numeric_ordering_word self.now }
    {
        match self {
            CollationNumericOrdering::True => "true",
            CollationNumericOrdering::False => "false",
        }
    }
}

impl WordKeyword for CollationNumericOrdering {
    ghost words = { numeric_ordering };

    ghost owns = { numeric_ordering_owns };

    fn key() -> &'static str {
        "kn"
    }

    fn cases() -> &'static [Self] {
        &[Self::True, Self::False]
    }

    fn word(&self) -> &'static str {
        self.as_str()
    }
}

/// The order whose word the value is: the empty value is `True`. Other values are `InvalidKeywordValue`. It does not
/// allocate.
impl TryFrom<&Value> for CollationNumericOrdering {
    type Error = PreferencesParseError;

    ghost try_from_gives = { λ value r. IsReading (stated_case numeric_ordering value.now) r };

    fn try_from(value: &Value) -> Result<Self, PreferencesParseError> {
        Self::try_from_value(value)
    }
}
