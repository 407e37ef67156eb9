//! The numbering system.

ghost use Rattle.std.specs.Prelude.{◌≡◌, [], ◌∷◌};
ghost use Rattle.icu_locale_core_keywords_fields.specs.Values.{without_true};
ghost use Rattle.icu_locale_core_grammar.specs.Subtags.{is_true};
ghost use Rattle.icu_locale_core_grammar.specs.TagPreferences.{numbering_key, one_piece};
ghost use Rattle.icu_locale_core_preference_keywords.specs.TypedKeywords.{IsReading};

use crate::error::PreferencesParseError;
use crate::piece_keyword::{PieceKey, PieceKeyword};
use icu_locale_core_subtags::Subtag;
use icu_locale_core_subtags::laws::subtags_are_words;
use icu_locale_core_subtags::unicode::Key;

/// The key `nu`.
pub struct NumberingKey;

/// The numbering system, key `nu`: the one subtag of the value, as `thai`. Whether CLDR has it is not checked.
///
/// Source: UTS 35, section 3.6.1.
pub type NumberingSystem = PieceKeyword<NumberingKey, Subtag>;

impl PieceKey for NumberingKey {
    ghost keyword = { numbering_key };

    fn key() -> Option<Key> {
        Key::try_from_str("nu").ok()
    }

    fn names() -> (&'static str, &'static str) {
        ("NumberingSystem", "subtag")
    }
}

// Whether the subtag is the one that values leave out.
fn is_left_out(subtag: &Subtag) -> bool
    ensures { result ≡ is_true subtag.now }
{
    subtags_are_words(subtag);
    subtag.as_str() == "true"
}

/// The system that a value of this one subtag names: of `thai` it is `thai`.
///
/// `InvalidKeywordValue`: the subtag is `true`, which values leave out. It does not allocate.
impl TryFrom<Subtag> for PieceKeyword<NumberingKey, Subtag> {
    type Error = PreferencesParseError;

    ghost try_from_gives = { λ subtag r. IsReading (one_piece (without_true (subtag ∷ []))) r };

    fn try_from(subtag: Subtag) -> Result<Self, PreferencesParseError> {
        if is_left_out(&subtag) {
            return Err(PreferencesParseError::InvalidKeywordValue);
        }
        subtags_are_words(&subtag);
        Ok(PieceKeyword::holding(subtag))
    }
}
