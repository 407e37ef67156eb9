//! Cuts of tokens at separators.

ghost use Rattle.std.specs.Prelude.{◌≡◌, ◌∷◌, [], ◌<◌, length, MatchOption, IfSome};
ghost use Rattle.std.specs.List.{position, slice_split};
ghost use Rattle.icu_decimal_plurals.specs.ConditionGrammar.{separates};

use crate::separator::Separator;
use crate::token::Token;

// Where the first separator is.
fn position_of(tokens: &[Token], separator: Separator) -> Option<usize>
    ensures { result ≡ position (separates separator) tokens.now }
{
    tokens.iter().position(|token| separator.is(*token))
}

/// The tokens before the first separator, and those after it where there is one.
#[tactic(auto, using(crate::proofs::CutLemmas::split_at, crate::proofs::CutLemmas::split_nowhere))]
pub fn cut(tokens: &[Token], separator: Separator) -> (&[Token], Option<&[Token]>)
    ensures parts { MatchOption result.1
        (slice_split (separates separator) tokens.now ≡ result.0.now ∷ [])
        (λ rest. slice_split (separates separator) tokens.now
        ≡ result.0.now ∷ slice_split (separates separator) rest.now) }
    ensures shorter { IfSome result.1 (λ rest. length rest.now < length tokens.now) }
{
    match position_of(tokens, separator) {
        None => (tokens, None),
        Some(at) => (&tokens[..at], Some(&tokens[at + 1..])),
    }
}
