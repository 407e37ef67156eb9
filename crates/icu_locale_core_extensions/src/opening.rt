//! The singleton of an extension, and the pieces after it.

ghost use Rattle.std.specs.Prelude.{◌≡◌, ◌∷◌, [], ℕ, List, MatchOption};
ghost use Rattle.icu_locale_core_grammar.specs.Pieces.{pieces};
ghost use Rattle.icu_locale_core_extensions.specs.Opening.{Opens, OpensOther};

use crate::singleton::OtherSingleton;
use icu_locale_core_subtags::{SubtagIterator, is_letter};

// The pieces after the singleton, where the text begins with it and has any.
pub(crate) fn body_behind<'a>(code_units: &'a [u8], letter: u8) -> Option<SubtagIterator<'a>>
    ensures { MatchOption result ((body : List (List ℕ)) → Opens (letter ∷ []) (pieces code_units.now) body → ⊥)
        (λ body. Opens (letter ∷ []) (pieces code_units.now) body) }
{
    let (body, first) = SubtagIterator::new(code_units).next_const();
    let first = first?;
    if !is_letter(first, letter) {
        return None;
    }
    body.peek()?;
    Some(body)
}

// The singleton that has no rule of its own and the pieces after it, where the text begins with one and has any.
pub(crate) fn other_behind<'a>(code_units: &'a [u8]) -> Option<(OtherSingleton, SubtagIterator<'a>)>
    ensures { MatchOption result
        ((singleton : List ℕ) (body : List (List ℕ)) → OpensOther (pieces code_units.now) singleton body → ⊥)
        (λ r. OpensOther (pieces code_units.now) r.0 r.1) }
{
    let (body, first) = SubtagIterator::new(code_units).next_const();
    let first = first?;
    let Ok(singleton) = OtherSingleton::try_from_utf8(first) else {
        return None;
    };
    body.peek()?;
    Some((singleton, body))
}
