//! The currency, and how amounts of money are written.

ghost use Rattle.std.specs.Prelude.{◌≡◌};
ghost use Rattle.icu_locale_core_grammar.specs.Subtags.{upper};
ghost use Rattle.icu_locale_core_preference_keywords.specs.KeywordWords.{currency_format, currency_format_word};
ghost use Rattle.icu_locale_core_preference_keywords.specs.TypedKeywords.{currency_key, IsReading, stated_case};
ghost use Rattle.icu_locale_core_preference_keywords.specs.WordLaws.{currency_format_owns};

use crate::error::PreferencesParseError;
use crate::piece_keyword::{PieceKey, PieceKeyword};
use crate::preference_key::PreferenceKey;
use crate::word_keyword::WordKeyword;
use icu_locale_core_keywords_fields::unicode::Value;
use icu_locale_core_subtags::unicode::Key;
use tinystr::TinyAsciiStr;

/// The key `cu`.
pub struct CurrencyKey;

/// The currency, key `cu`: three letters in lower case, as `usd`. Whether ISO 4217 has the code is not checked.
///
/// Values that are no three letters, as `us1` and `usd-eur`, are `InvalidKeywordValue`. Source: UTS 35, section 3.6.1.
pub type CurrencyType = PieceKeyword<CurrencyKey, TinyAsciiStr<3>>;

impl PieceKey for CurrencyKey {
    ghost keyword = { currency_key };

    fn key() -> Option<Key> {
        Key::try_from_str("cu").ok()
    }

    fn names() -> (&'static str, &'static str) {
        ("CurrencyType", "code")
    }
}

impl CurrencyType {
    /// The code in upper case, as ISO 4217 has it: `USD` of `usd`. It does not allocate.
    pub fn iso_code(self) -> TinyAsciiStr<3>
        ensures { result ≡ upper self }
    {
        self.own.to_ascii_uppercase()
    }
}

/// How amounts of money are written, key `cf`: `standard` or `account`.
///
/// Source: UTS 35, section 3.6.1.
#[derive(Clone, Copy, Debug, PartialEq, Eq, Hash)]
pub enum CurrencyFormatStyle {
    /// With a minus sign before a negative amount.
    Standard,
    /// As in accounts, with a negative amount in parentheses.
    Account,
}

impl CurrencyFormatStyle {
    /// The word of the style: `standard` of `Standard`. It does not allocate.
    pub const fn as_str(&self) -> &'static str
        ensures { result.now ≡ currency_format_word self.now }
    {
        match self {
            CurrencyFormatStyle::Standard => "standard",
            CurrencyFormatStyle::Account => "account",
        }
    }
}

impl WordKeyword for CurrencyFormatStyle {
    ghost words = { currency_format };

    ghost owns = { currency_format_owns };

    fn key() -> &'static str {
        "cf"
    }

    fn cases() -> &'static [Self] {
        &[Self::Standard, Self::Account]
    }

    fn word(&self) -> &'static str {
        self.as_str()
    }
}

/// The style whose word the value is: `account` is `Account`. Other values are `InvalidKeywordValue`. It does not
/// allocate.
impl TryFrom<&Value> for CurrencyFormatStyle {
    type Error = PreferencesParseError;

    ghost try_from_gives = { λ value r. IsReading (stated_case currency_format value.now) r };

    fn try_from(value: &Value) -> Result<Self, PreferencesParseError> {
        Self::try_from_value(value)
    }
}
