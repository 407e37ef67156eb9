//! How emoji are shown.

ghost use Rattle.std.specs.Prelude.{◌≡◌};
ghost use Rattle.icu_locale_core_preference_keywords.specs.KeywordWords.{emoji, emoji_word};
ghost use Rattle.icu_locale_core_preference_keywords.specs.TypedKeywords.{IsReading, stated_case};
ghost use Rattle.icu_locale_core_preference_keywords.specs.WordLaws.{emoji_owns};

use crate::error::PreferencesParseError;
use crate::preference_key::PreferenceKey;
use crate::word_keyword::WordKeyword;
use icu_locale_core_keywords_fields::unicode::Value;

/// How emoji are shown, key `em`: `emoji`, `text` or `default`.
///
/// Source: UTS 35, section 3.6.1.
#[derive(Clone, Copy, Debug, PartialEq, Eq, Hash)]
pub enum EmojiPresentationStyle {
    /// As pictures where there are some.
    Emoji,
    /// As text where there is some.
    Text,
    /// As each character is shown by default.
    Default,
}

impl EmojiPresentationStyle {
    /// The word of the style: `emoji` of `Emoji`. It does not allocate.
    pub const fn as_str(&self) -> &'static str
        ensures { result.now ≡ emoji_word self.now }
    {
        match self {
            EmojiPresentationStyle::Emoji => "emoji",
            EmojiPresentationStyle::Text => "text",
            EmojiPresentationStyle::Default => "default",
        }
    }
}

impl WordKeyword for EmojiPresentationStyle {
    ghost words = { emoji };

    ghost owns = { emoji_owns };

    fn key() -> &'static str {
        "em"
    }

    fn cases() -> &'static [Self] {
        &[Self::Emoji, Self::Text, Self::Default]
    }

    fn word(&self) -> &'static str {
        self.as_str()
    }
}

/// The style whose word the value is: `text` is `Text`. Other values are `InvalidKeywordValue`. It does not allocate.
impl TryFrom<&Value> for EmojiPresentationStyle {
    type Error = PreferencesParseError;

    ghost try_from_gives = { λ value r. IsReading (stated_case emoji value.now) r };

    fn try_from(value: &Value) -> Result<Self, PreferencesParseError> {
        Self::try_from_value(value)
    }
}
