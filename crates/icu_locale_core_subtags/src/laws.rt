//! Laws of every type of subtags, beside the clauses of the calls.

ghost use Rattle.std.specs.Prelude.{◌≡◌, ◌↔◌, ◌<◌, true, length, [], ◌∷◌};
ghost use Rattle.std.specs.declared.cmp.Ordering.{Ordering};
ghost use Rattle.tinystr.specs.SmallText.{IsSmall};
ghost use Rattle.icu_locale_core_grammar.specs.Subtags.{is_plain};
ghost use Rattle.icu_locale_core_grammar.specs.Pieces.{pieces};
ghost use Rattle.icu_locale_core_grammar.specs.Collections.{text_cmp, Rises, set_of};

use crate::rule::SubtagRule;
use crate::subtag_of::SubtagOf;
use icu_locale_core_grammar::laws::sets_and_maps;
use std::cmp::Ordering;

/// A subtag is a word of 1 to N letters and digits, so it is one piece; and its text reads back as it, since its rule
/// accepts the text and leaves its case: the script `Latn` is the one piece of `Latn`, and reads as `Latn`.
#[tactic(auto, using(crate::specs::RuleLaws::small_from_rule, crate::proofs::PieceLemmas::plain_is_one_piece))]
pub fn subtags_are_words<R: SubtagRule<N>, const N: usize>(subtag: &SubtagOf<R, N>)
    ensures accepted { R.accepts subtag.now ≡ true }
    ensures normal { R.normal subtag.now ≡ subtag.now }
    ensures some { 0 < length subtag.now }
    ensures plain { is_plain subtag.now ≡ true }
    ensures small { IsSmall N subtag.now }
    ensures piece { pieces subtag.now ≡ subtag.now ∷ [] }
{
    let _text = subtag.text;
}

/// The order of two subtags is that of their texts, and they tie exactly where they are equal: the language `de` is
/// less than `en`.
pub fn order_is_of_texts<R: SubtagRule<N>, const N: usize>(
    one: &SubtagOf<R, N>,
    other: &SubtagOf<R, N>,
) -> Ordering
    ensures order { result ≡ text_cmp one.now other.now }
    ensures ties { (result ≡ Ordering.Equal) ↔ (one.now ≡ other.now) }
{
    one.cmp(other)
}

/// Subtags that rise are a set: exactly such lists are their own set in the grammar of tags. `1996`, `fonipa` is one,
/// and `fonipa`, `1996` is not one.
pub fn rising_subtags_are_a_set<R: SubtagRule<N>, const N: usize>(subtags: &[SubtagOf<R, N>])
    ensures { Rises subtags.now ↔ (set_of subtags.now ≡ subtags.now) }
{
    sets_and_maps();
}
