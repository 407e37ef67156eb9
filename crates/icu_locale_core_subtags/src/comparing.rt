//! Equality, order and hash of subtags: those of their texts.

ghost use Rattle.std.specs.Prelude.{◌≡◌, ◌↔◌, IsTrue, true, Some, nat_eq, refl};
ghost use Rattle.std.specs.Ordering.{nat_cmp};
ghost use Rattle.std.specs.Cmp.{on_equiv, on_total, on_po, on_per, partial_equiv_from_equiv};
ghost use Rattle.std.specs.Cmp.Lexicographic.{pointwise, slice_cmp, nat_list_eq_equiv, nat_list_cmp_total, texts_po, texts_ties};
ghost use Rattle.std.specs.Cmp.Rules.{hashing};
ghost use Rattle.std.specs.Hash as fed;
ghost use Rattle.std.proofs.Common.{rules};
ghost use Rattle.icu_locale_core_grammar.specs.Collections.{text_cmp};

use crate::rule::SubtagRule;
use crate::subtag_of::SubtagOf;
use std::cmp::Ordering;
use std::hash::{Hash, Hasher};

impl<R: SubtagRule<N>, const N: usize> SubtagOf<R, N> {
    /// The byte order of the text in normal case against the bytes: the region `US` is less than `us`. It does not
    /// allocate.
    pub fn strict_cmp(&self, other: &[u8]) -> Ordering
        ensures { result ≡ text_cmp self.now other.now }
    {
        self.as_str().as_bytes().cmp(other)
    }

    /// Whether the text reads as this subtag: the region `US` of `us`, and of no other text but `US`, `Us`, `uS`. It
    /// does not allocate.
    pub fn normalizing_eq(&self, other: &str) -> bool
        ensures { IsTrue result ↔ ((R.accepts other.now ≡ true) × (R.normal other.now ≡ self.now)) }
    {
        match Self::try_from_str(other) {
            Ok(read) => read == *self,
            Err(_) => false,
        }
    }
}

impl<R: SubtagRule<N>, const N: usize> PartialEq for SubtagOf<R, N> {
    ghost eq = { λ s t. pointwise nat_eq s t };

    ghost laws = { on_per (λ s. s) (partial_equiv_from_equiv nat_list_eq_equiv) };

    fn eq(&self, other: &Self) -> bool {
        self.text == other.text
    }
}

impl<R: SubtagRule<N>, const N: usize> Eq for SubtagOf<R, N> {
    ghost laws = { on_equiv (λ s. s) nat_list_eq_equiv };
}

impl<R: SubtagRule<N>, const N: usize> PartialOrd for SubtagOf<R, N> {
    ghost partial_cmp = { λ s t. Some (slice_cmp nat_cmp s t) };

    ghost laws = { on_po (λ s. s) texts_po };

    fn partial_cmp(&self, other: &Self) -> Option<Ordering> {
        Some(self.cmp(other))
    }
}

/// The byte order of the texts: the language `de` is less than `en`.
impl<R: SubtagRule<N>, const N: usize> Ord for SubtagOf<R, N> {
    ghost cmp = { λ s t. slice_cmp nat_cmp s t };

    ghost total = { on_total (λ s. s) nat_list_cmp_total };

    ghost matches_partial_cmp = { λ s t. refl };

    ghost matches_eq = { λ s t. texts_ties s t };

    fn cmp(&self, other: &Self) -> Ordering {
        self.text.cmp(&other.text)
    }
}

impl<R: SubtagRule<N>, const N: usize> Hash for SubtagOf<R, N> {
    ghost hash_input = { λ s. fed.str s };

    ghost respects_eq = { Prim.search (hashing, rules) };

    fn hash<H: Hasher>(&self, state: &mut H) {
        self.text.hash(state);
    }
}
