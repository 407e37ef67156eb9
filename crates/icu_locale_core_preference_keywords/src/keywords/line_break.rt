//! Where lines are broken: how strictly, and within words.

ghost use Rattle.std.specs.Prelude.{◌≡◌};
ghost use Rattle.icu_locale_core_preference_keywords.specs.KeywordWords.{line_break, line_break_word, word_handling, word_handling_word};
ghost use Rattle.icu_locale_core_preference_keywords.specs.TypedKeywords.{IsReading, stated_case};
ghost use Rattle.icu_locale_core_preference_keywords.specs.WordLaws.{line_break_owns, word_handling_owns};

use crate::error::PreferencesParseError;
use crate::preference_key::PreferenceKey;
use crate::word_keyword::WordKeyword;
use icu_locale_core_keywords_fields::unicode::Value;

/// How strictly lines are broken, key `lb`: `strict`, `normal` or `loose`.
///
/// Source: UTS 35, section 3.6.1.
#[derive(Clone, Copy, Debug, PartialEq, Eq, Hash)]
pub enum LineBreakStyle {
    /// At the fewest places.
    Strict,
    /// At the usual places.
    Normal,
    /// At the most places.
    Loose,
}

impl LineBreakStyle {
    /// The word of the style: `strict` of `Strict`. It does not allocate.
    pub const fn as_str(&self) -> &'static str
        ensures { result.now ≡ line_break_word self.now }
    {
        match self {
            LineBreakStyle::Strict => "strict",
            LineBreakStyle::Normal => "normal",
            LineBreakStyle::Loose => "loose",
        }
    }
}

impl WordKeyword for LineBreakStyle {
    ghost words = { line_break };

    ghost owns = { line_break_owns };

    fn key() -> &'static str {
        "lb"
    }

    fn cases() -> &'static [Self] {
        &[Self::Strict, Self::Normal, Self::Loose]
    }

    fn word(&self) -> &'static str {
        self.as_str()
    }
}

/// The style whose word the value is: `loose` is `Loose`. Other values are `InvalidKeywordValue`. It does not allocate.
impl TryFrom<&Value> for LineBreakStyle {
    type Error = PreferencesParseError;

    ghost try_from_gives = { λ value r. IsReading (stated_case line_break value.now) r };

    fn try_from(value: &Value) -> Result<Self, PreferencesParseError> {
        Self::try_from_value(value)
    }
}

/// Where lines are broken within words, key `lw`: `normal`, `breakall`, `keepall` or `phrase`.
///
/// Source: UTS 35, section 3.6.1.
#[derive(Clone, Copy, Debug, PartialEq, Eq, Hash)]
pub enum LineBreakWordHandling {
    /// As each script does.
    Normal,
    /// Within any word.
    BreakAll,
    /// Never within a word.
    KeepAll,
    /// Between phrases, where it can be so.
    Phrase,
}

impl LineBreakWordHandling {
    /// The word of the handling: `normal` of `Normal`. It does not allocate.
    pub const fn as_str(&self) -> &'static str
        ensures { result.now ≡ word_handling_word self.now }
    {
        match self {
            LineBreakWordHandling::Normal => "normal",
            LineBreakWordHandling::BreakAll => "breakall",
            LineBreakWordHandling::KeepAll => "keepall",
            LineBreakWordHandling::Phrase => "phrase",
        }
    }
}

impl WordKeyword for LineBreakWordHandling {
    ghost words = { word_handling };

    ghost owns = { word_handling_owns };

    fn key() -> &'static str {
        "lw"
    }

    fn cases() -> &'static [Self] {
        &[Self::Normal, Self::BreakAll, Self::KeepAll, Self::Phrase]
    }

    fn word(&self) -> &'static str {
        self.as_str()
    }
}

/// The handling whose word the value is: `keepall` is `KeepAll`. Other values are `InvalidKeywordValue`. It does not
/// allocate.
impl TryFrom<&Value> for LineBreakWordHandling {
    type Error = PreferencesParseError;

    ghost try_from_gives = { λ value r. IsReading (stated_case word_handling value.now) r };

    fn try_from(value: &Value) -> Result<Self, PreferencesParseError> {
        Self::try_from_value(value)
    }
}
