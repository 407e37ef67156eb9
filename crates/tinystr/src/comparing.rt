//! Equality, order, hash and printing of a `TinyAsciiStr`: those of its text.

ghost use Rattle.std.specs.Prelude.{◌≡◌, [], Some, nat_eq, refl};
ghost use Rattle.std.specs.Ordering.{nat_cmp};
ghost use Rattle.std.specs.Cmp.{on_equiv, on_total, on_po, on_per, partial_equiv_from_equiv};
ghost use Rattle.std.specs.Cmp.Lexicographic.{pointwise, slice_cmp, nat_list_eq_equiv, nat_list_cmp_total, texts_po, texts_ties};
ghost use Rattle.std.specs.Cmp.Rules.{hashing};
ghost use Rattle.std.specs.Hash as fed;
ghost use Rattle.std.proofs.Common.{rules};

use crate::TinyAsciiStr;
use std::cmp::Ordering;
use std::convert::AsStr;
use std::fmt;
use std::hash::{Hash, Hasher};
use tinystr_words::are_same;

impl<const N: usize> PartialEq for TinyAsciiStr<N> {
    ghost eq = { λ s t. pointwise nat_eq s t };

    ghost laws = { on_per (λ s. s) (partial_equiv_from_equiv nat_list_eq_equiv) };

    fn eq(&self, other: &Self) -> bool {
        are_same(self.all_bytes(), other.all_bytes())
    }
}

impl<const N: usize> Eq for TinyAsciiStr<N> {
    ghost laws = { on_equiv (λ s. s) nat_list_eq_equiv };
}

impl<const N: usize> PartialOrd for TinyAsciiStr<N> {
    ghost partial_cmp = { λ s t. Some (slice_cmp nat_cmp s t) };

    ghost laws = { on_po (λ s. s) texts_po };

    fn partial_cmp(&self, other: &Self) -> Option<Ordering> {
        Some(self.cmp(other))
    }
}

/// The order of the texts by their bytes: `B` is less than `a`.
impl<const N: usize> Ord for TinyAsciiStr<N> {
    ghost cmp = { λ s t. slice_cmp nat_cmp s t };

    ghost total = { on_total (λ s. s) nat_list_cmp_total };

    ghost matches_partial_cmp = { λ s t. refl };

    ghost matches_eq = { λ s t. texts_ties s t };

    fn cmp(&self, other: &Self) -> Ordering {
        self.as_str().cmp(other.as_str())
    }
}

impl<const N: usize> Hash for TinyAsciiStr<N> {
    ghost hash_input = { λ s. fed.str s };

    ghost respects_eq = { Prim.search (hashing, rules) };

    fn hash<H: Hasher>(&self, state: &mut H) {
        self.as_str().hash(state);
    }
}

impl<const N: usize> fmt::Debug for TinyAsciiStr<N> {
    fn fmt<W: fmt::Write>(&self, f: &mut fmt::Formatter<W>) -> fmt::Result {
        fmt::Debug::fmt(&self.as_str(), f)
    }
}

impl<const N: usize> fmt::Display for TinyAsciiStr<N> {
    ghost output = { λ s. Some s };

    fn fmt<W: fmt::Write>(&self, f: &mut fmt::Formatter<W>) -> fmt::Result {
        f.pad(self.as_str())
    }
}

/// The empty text: its `len` is 0 at every N.
impl<const N: usize> Default for TinyAsciiStr<N> {
    ghost is_default = { λ s. s ≡ [] };

    fn default() -> Self {
        Self::of_text(&[])
    }
}

impl<const N: usize> AsStr for TinyAsciiStr<N> {
    ghost text = { λ s. s };

    fn as_str(&self) -> &str {
        self.as_str()
    }
}
