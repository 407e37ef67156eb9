//! A preference that a keyword holds.

ghost use Rattle.std.specs.Prelude.{◌≡◌, [], Option, None, Some, Ok, IfOk, IsOk, option_and_then};
ghost use Rattle.icu_locale_core_grammar.specs.Subtags.{same_text};

use crate::error::PreferencesParseError;
use icu_locale_core_keywords_fields::unicode::Value;
use icu_locale_core_subtags::unicode::Key;
use std::alloc::{AllocError, Global};

/// A preference that a keyword of a locale holds: its key, what a value states, and the value of a preference. Of
/// `FirstDay` the key is `fw`, and `sun` states `FirstDay::Sun`.
///
/// Source: UTS 35, section 3.6.
pub trait PreferenceKey: Sized {
    ghost use Rattle.std.specs.Prelude.{◌≡◌, ℕ, List, [], Option, None, Some, IfOk, IsOk, option_and_then};
    ghost use Rattle.icu_locale_core_grammar.specs.Subtags.{same_text};
    ghost use Rattle.icu_locale_core_preference_keywords.specs.TypedKeywords.{IsReading, keyword_answer};

    // the key of the keyword
    ghost keyword: { List ℕ };

    // the preference that a value states
    ghost stated: { List (List ℕ) → Option Self };

    // the value of a preference
    ghost written: { Self → List (List ℕ) };

    /// The key of the keyword: `fw` of `FirstDay`. It does not allocate.
    fn unicode_extension_key() -> Option<Key>
        ensures { result ≡ Some keyword };

    /// The value of the preference: `sun` of `FirstDay::Sun`, which reads back as it.
    ///
    /// It allocates where the value has a subtag. `AllocError`: out of memory.
    fn unicode_extension_value(&self, alloc: Global) -> Result<Option<Value>, AllocError>
        ensures value { IfOk result (λ v. v ≡ Some (written self.now)) }
        ensures reads_back { IfOk result (λ v. option_and_then stated v ≡ Some self.now) }
        ensures succeeds { written self.now ≡ [] → IsOk result };

    /// The preference that the value states: `FirstDay::Sun` of `sun`.
    ///
    /// A value that states none is `InvalidKeywordValue`. It does not allocate.
    fn try_from_value(value: &Value) -> Result<Self, PreferencesParseError>
        ensures { IsReading (stated value.now) result };

    /// The preference that the value of this key states, as `try_from_value`; `None` at any other key.
    ///
    /// `FirstDay` at `fw` and `sun` is `FirstDay::Sun`, and at `nu` and `sun` there is none. `InvalidKeywordValue`: the
    /// key is that of the type, and the value states no preference. It does not allocate.
    fn try_from_key_value(key: &Key, value: &Value) -> Result<Option<Self>, PreferencesParseError>
        ensures { result ≡ keyword_answer (same_text keyword key.now) (stated value.now) }
    {
        match Self::unicode_extension_key() {
            Some(own) if own == *key => Self::try_from_value(value).map(Some),
            _ => Ok(None),
        }
    }
}
