//! Keywords whose values are words of a list.

ghost use Rattle.std.specs.Prelude.{◌≡◌, true, [], Some, IfOk, IsOk};
ghost use Rattle.icu_locale_core_grammar.specs.Subtags.{is_other_piece, lower};
ghost use Rattle.icu_locale_core_preference_keywords.specs.TypedKeywords.{case_of, stated_case, word_value};

use crate::error::PreferencesParseError;
use crate::laws::words_state_cases;
use crate::preference_key::PreferenceKey;
use icu_locale_core_keywords_fields::unicode::Value;
use icu_locale_core_subtags::Subtag;
use icu_locale_core_subtags::unicode::Key;
use std::alloc::{AllocError, Global};

/// A keyword whose values are words, one a case: those of `FirstDay` are `sun` to `sat`.
///
/// A type that has this is a `PreferenceKey`. Source: UTS 35, section 3.6.1.
pub trait WordKeyword: Copy {
    ghost use Rattle.std.specs.Prelude.{◌≡◌};
    ghost use Rattle.icu_locale_core_preference_keywords.specs.OwnWords.{OwnsWords};
    ghost use Rattle.icu_locale_core_preference_keywords.specs.TypedKeywords.{Words};

    // the key, the cases in their order, the word of each
    ghost words: { Words Self };

    /// The key: `fw` of `FirstDay`. It does not allocate.
    fn key() -> &'static str
        ensures { result.now ≡ words.key };

    /// The cases, in their order: `Sun` to `Sat` of `FirstDay`. It does not allocate.
    fn cases() -> &'static [Self]
    where
        Self: 'static,
        ensures { result.now ≡ words.cases };

    /// The word of the case: `sun` of `FirstDay::Sun`. It does not allocate.
    fn word(&self) -> &'static str
        ensures { result.now ≡ words.word self.now };

    // the key is one, and each word states its case
    ghost owns: { OwnsWords words };
}

// The case of which this is the word.
fn case_of<W: WordKeyword + 'static>(text: &str) -> Option<W>
    ensures { result ≡ case_of W.words.word W.words.cases text.now }
{
    for case in W::cases() {
        if case.word() == text {
            return Some(*case);
        }
    }
    None
}

// The word that the value is, passed to the search for its case.
fn case_in<W: WordKeyword + 'static>(value: &Value) -> Option<W>
    ensures { result ≡ stated_case W.words value.now }
{
    match value.as_subtags_slice() {
        [] => case_of::<W>("true"),
        [subtag] => case_of::<W>(subtag.as_str()),
        _ => None,
    }
}

// The value that is a word.
fn value_of(alloc: Global, word: &str) -> Result<Value, AllocError>
    requires taken { is_other_piece word.now ≡ true }
    requires lowered { lower word.now ≡ word.now }
    ensures value { IfOk result (λ v. v ≡ word_value word.now) }
    ensures succeeds { word_value word.now ≡ [] → IsOk result }
{
    match Subtag::try_from_str(word) {
        Ok(subtag) => Value::from_subtag(alloc, Some(subtag)),
        Err(_) => unreachable!(),
    }
}

/// The keyword of a type of words: a value states the case whose word it is, and the empty value is the word `true`.
impl<W: WordKeyword + 'static> PreferenceKey for W {
    ghost use Rattle.icu_locale_core_preference_keywords.specs.TypedKeywords.{stated_case, word_value};

    ghost keyword = { W.words.key };

    ghost stated = { stated_case W.words };

    ghost written = { λ c. word_value (W.words.word c) };

    fn unicode_extension_key() -> Option<Key> {
        Key::try_from_str(W::key()).ok()
    }

    fn unicode_extension_value(&self, alloc: Global) -> Result<Option<Value>, AllocError> {
        words_state_cases(self);
        Ok(Some(value_of(alloc, self.word())?))
    }

    fn try_from_value(value: &Value) -> Result<Self, PreferencesParseError> {
        case_in::<Self>(value).ok_or(PreferencesParseError::InvalidKeywordValue)
    }
}
