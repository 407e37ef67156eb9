//! What the one subtag of a value spells: itself, a subdivision or a currency.

ghost use Rattle.std.specs.Prelude.{◌≡◌, false, Some, None, MatchOption};
ghost use Rattle.icu_locale_core_grammar.specs.Subtags.{is_true};
ghost use Rattle.icu_locale_core_grammar.specs.TagPreferences.{one_piece, subdivision_text};
ghost use Rattle.icu_locale_core_preference_keywords.specs.TypedKeywords.{stated_subdivision, stated_currency};

use crate::subdivision::SubdivisionId;
use icu_locale_core_keywords_fields::unicode::Value;
use icu_locale_core_subtags::Subtag;
use icu_locale_core_subtags::laws::subtags_are_words;
use tinystr::TinyAsciiStr;

/// What the one subtag of a value may spell: `ustx` spells a subdivision, and `eur` a currency.
pub trait OnePiece: Copy {
    ghost use Rattle.std.specs.Prelude.{◌≡◌, ℕ, List, Option, None, Some, MatchOption};
    ghost use Rattle.icu_locale_core_preference_keywords.specs.TypedKeywords.{IsOwnPiece};

    // what a value states
    ghost stated: { List (List ℕ) → Option Self };

    // the subtag that spells it
    ghost piece: { Self → List ℕ };

    /// What the value states: a subdivision, of `ustx` it is `US` and `tx`. It does not allocate.
    fn stated_in(value: &Value) -> Option<Self>
        ensures { MatchOption result (stated value.now ≡ None)
            (λ own. (stated value.now ≡ Some own) × IsOwnPiece stated piece own) };

    /// The subtag that spells it: `ustx` of the subdivision of `US` and `tx`. The condition is that this subtag is in
    /// lower case, is not `true`, and states it again. It does not allocate.
    fn subtag(self) -> Subtag
        requires { IsOwnPiece stated piece self }
        ensures { result ≡ piece self };
}

// The subtag of a value that has exactly one; it is not `true`, since no value has that.
fn piece_of(value: &Value) -> Option<Subtag>
    ensures { MatchOption result (one_piece value.now ≡ None)
        (λ piece. (one_piece value.now ≡ Some piece) × (is_true piece ≡ false)) }
{
    match value.as_subtags_slice() {
        [subtag] => Some(*subtag),
        _ => None,
    }
}

impl OnePiece for Subtag {
    ghost stated = { one_piece };

    ghost piece = { λ subtag. subtag };

    fn stated_in(value: &Value) -> Option<Self> {
        let subtag = piece_of(value)?;
        subtags_are_words(&subtag);
        Some(subtag)
    }

    fn subtag(self) -> Subtag {
        self
    }
}

impl OnePiece for SubdivisionId {
    ghost stated = { stated_subdivision };

    ghost piece = { subdivision_text };

    #[tactic(auto, using(crate::proofs::OnePieceLemmas::subdivision_spelled))]
    fn stated_in(value: &Value) -> Option<Self> {
        let subtag = piece_of(value)?;
        subtags_are_words(&subtag);
        SubdivisionId::try_from_str(subtag.as_str()).ok()
    }

    fn subtag(self) -> Subtag {
        self.into_subtag()
    }
}

// The code of a currency.
impl OnePiece for TinyAsciiStr<3> {
    ghost stated = { stated_currency };

    ghost piece = { λ code. code };

    fn stated_in(value: &Value) -> Option<Self> {
        let subtag = piece_of(value)?;
        subtags_are_words(&subtag);
        let text = subtag.as_tinystr();
        if text.len() == 3 && text.is_ascii_alphabetic() {
            Some(text.resize::<3>())
        } else {
            None
        }
    }

    #[tactic(auto, using(crate::proofs::OnePieceLemmas::currency_is_piece))]
    fn subtag(self) -> Subtag {
        match Subtag::try_from_str(self.as_str()) {
            Ok(subtag) => subtag,
            Err(_) => unreachable!(),
        }
    }
}
